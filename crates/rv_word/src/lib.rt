//! Words of the machine: exact bit numbers, their products and quotients, owned bytes, lists of places and of
//! numbers of system calls, and the answer for want of memory.
#![tactic(auto)]

pub use bits::{add64, field, low32, sext};
pub use bytes::Bytes;
pub use divide::{div64, rem64};
pub use divide_word::{div32, rem32};
pub use end::End;
pub use multiply::mul_high;
pub use no_memory::NoMemory;
pub use numbers::{MOST_NUMBERS, Numbers};
pub use places::Places;

mod bits;
mod bytes;
mod divide;
mod divide_word;
mod end;
pub mod laws;
mod multiply;
mod no_memory;
mod numbers;
mod places;
