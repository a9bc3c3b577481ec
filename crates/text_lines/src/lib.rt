//! Texts of lines, as all texts of the tool are made: a text is cut into lines and words, numbers are read
//! and written by their digits, and a fault is named by its line and the first of three reasons.
#![tactic(auto)]

pub use address::{Address, LongAddress};
pub use decimal::{MAX_STEP, capped_number, decimal_of};
pub use fault::LineFault;
pub use form::LineForm;
pub use hexadecimal::{Case, hex_of, short_hex_of};
pub use read::{after_one_of, read_lines};
pub use reason::Reason;
pub use words::{cut, is_word};
pub use write::push_number;

mod address;
mod decimal;
mod fault;
mod form;
mod hexadecimal;
mod read;
mod reason;
mod words;
mod write;
