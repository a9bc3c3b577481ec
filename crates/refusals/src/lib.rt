//! Refusals: why a file, an entry or a policy is not taken for what it should be. Each has one number and one line that tells it,
//! whatever command comes to it.
#![tactic(auto)]

pub use map_reason::MapReason;
pub use refusal::Refusal;

mod map_reason;
mod refusal;
