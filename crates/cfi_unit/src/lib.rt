//! The units of a hardened image: which lists of words are one unit, the laws of shapes that a table of
//! patterns says the same, the unit law where a step from a word of a unit leads, and the effect law what
//! a unit does from its first word on.
#![tactic(auto)]

pub use effect_law::{closing_effect, opening_effect, unit_effect, unit_keeps_registers};
pub use jump::{field_between, is_close, is_reached, jump_between, led, led_near, near_between};
pub use mask::Mask;
pub use members::{MOST_MEMBERS, Member, Members};
pub use pattern::{End, Pattern};
pub use place::Place;
pub use shape_law::{shapes_apart, shapes_made, shapes_used, units_shaped};
pub use step_law::{mask_stays, registers_stay, unit_events, unit_law};
pub use target_word::TargetWord;
pub use unit::{SystemOp, Unit};

mod effect_law;
pub mod handlers;
mod jump;
pub mod laws;
mod mask;
mod members;
mod pattern;
mod place;
mod shape_law;
mod step_law;
mod target_word;
mod unit;
