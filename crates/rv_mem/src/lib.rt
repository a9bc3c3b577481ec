//! The machine's memory: three regions, of which code may not be written and only code is fetched,
//! read and written a byte or a little-endian number at a time. Data and shadow are kept in pages.
#![tactic(auto)]

pub use access::region;
pub use change::Change;
pub use fault::{LoadFault, StoreFault};
pub use memory::Memory;

mod access;
mod change;
mod fault;
mod little_endian;
mod memory;
mod page;
mod pages;
