//! What is wrong with the instructions and relocations of an input: the first of eight tests that fails, at its least
//! place. Its main call is `fault_of`; the layer above takes an input without a fault apart by `kind_at`, `direct_at`
//! and `aim_at`.
#![tactic(auto)]

pub use fault::ItemFault;
pub use kind::kind_at;
pub use order::fault_of;
pub use target::{Aim, Direct, aim_at, direct_at};

mod code_pointer;
mod fault;
mod kind;
mod order;
mod pair;
mod reserved;
mod target;
mod transfer;
mod undecodable;
mod undefined;
mod wrong_kind;
mod wrong_place;
