//! The rules, each at one address: whether it fails there, by where units start and by the graph.
#![tactic(auto)]

pub use rules::{fails, fails_site_with, has_list, is_barred, is_barred_at, is_outside, is_stop};

mod prologue;
mod rules;
