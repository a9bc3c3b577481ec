//! What a hostile environment does to a run: which hart takes each step, and which bytes of data change between
//! instructions. A meddler answers both, and a script is a meddler that is written down: how many harts run, their
//! turns and the changes, with the text of a script and its reading.
#![tactic(auto)]

pub use meddler::Meddler;
pub use script::Script;

mod cursor;
mod meddler;
mod script;
mod script_form;
mod script_line;
mod script_turns;
