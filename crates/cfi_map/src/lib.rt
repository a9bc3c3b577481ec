//! A program at a map: where the units of its places stand, how many bytes they have, which branches are short, and the words in
//! which the layers above speak of it.
#![tactic(auto)]

pub use groups::{Grouping, MOST_STORES, is_short, is_store};
pub use mapped::Mapped;
pub use reason::Reason;
pub use sizes::unit_size;
pub use spacing::{Spacing, place_program};

mod groups;
pub mod laws;
mod mapped;
mod reason;
mod shorts;
mod sizes;
mod spacing;
