//! An image and its graph, for all who ask whether they go together: two texts are read as such, and judged by the rules.
#![tactic(auto)]

pub use judging::{Verdict, judge, verify_texts};
pub use opening::{Pair, PairFault, open_pair};
pub use verdict::{RvcfiVerdict, reason_number, verdict_of};

mod judging;
mod opening;
mod verdict;
