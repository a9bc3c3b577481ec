//! The generator of objects to try: a program of 2,000 small functions, drawn from a number, and the file
//! of its object.
#![tactic(auto)]

pub use constants::FUNCTIONS;
pub use function::{Function, Shape};
pub use mark::Mark;
pub use object::object_of;

mod assembly;
mod constants;
mod drawing;
mod function;
mod mark;
mod object;
mod routines;
mod symbols;
mod table;
mod text;
