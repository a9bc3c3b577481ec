//! The verifier: whether an image of either version and a graph meet the rules, and if not, which rule
//! fails first and where. An accepted pair is safe, whatever is written into data while it runs, and however
//! many of its version's harts run.
#![tactic(auto)]

pub use cfi_rules::{Asks, Reject, Rule};
pub use cfi_starts::{Starts, is_among};
pub use cfi_unit::Place;
pub use pieces::scan_pieces;
pub use scan::Scan;
pub use verifier::{Checked, verify};

mod all_hold;
mod code;
mod first;
mod gates;
mod kinds_hold;
mod pieces;
mod scan;
mod verifier;
