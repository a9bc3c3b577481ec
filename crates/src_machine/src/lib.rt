//! The source machine: a program at a map runs as the standard says, one instruction a step, as long as it is tame. It knows
//! no units. Its main calls are `SourceRun::new` and `SourceRun::step`.
#![tactic(auto)]

pub use cfi_map::Reason;
pub use run::SourceRun;
pub use source_fault::SourceFault;
pub use turn::SourceTurn;

mod begin;
pub mod laws;
mod legal;
mod placed;
mod run;
mod source_fault;
mod state;
mod step;
mod tame;
mod turn;
