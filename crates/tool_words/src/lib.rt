//! The words of a command line, read with `clap`: what a command is asked for, or the text of help or of the version, or
//! that the words are not taken.
#![tactic(auto)]

pub use asked::{
    Asked, CompareLinkWords, CompareWords, DemoWords, HardenWords, LinkWords, RewriteWords,
    RunWords, VerifyWords,
};
pub use command::usage;
pub use end::WordsEnd;
pub use read::read_words;

mod asked;
mod command;
mod end;
mod help;
mod read;
