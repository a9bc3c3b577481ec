//! The outside as the tool sees it: files by name and one output, each with a meaning and counts of
//! faults. Implementations in memory for tests, and over the host for the program.
#![tactic(auto)]

pub use counted::Counted;
pub use ends::{OutEnd, ReadEnd};
pub use files::Files;
pub use host_files::HostFiles;
pub use host_sink::HostSink;
pub use mem_files::MemFiles;
pub use mem_sink::MemSink;
pub use sink::Sink;
pub use sure_files::SureFiles;
pub use sure_sink::SureSink;
pub use transfer::read_within;

mod calls;
mod counted;
mod ends;
mod entries;
mod faults;
mod files;
mod host_files;
mod host_sink;
mod mem_files;
mod mem_sink;
mod sink;
mod sure_files;
mod sure_sink;
mod transfer;
