//! Policies as texts: each is read, or refused at the first line that fails with the first reason, and what
//! stands before that line is told.
#![tactic(auto)]

pub use policy::{PlaceName, PlaceNames, Policy, PolicyLine};
pub use policy_form::{read_policy, read_policy_part};

mod policy;
mod policy_form;
