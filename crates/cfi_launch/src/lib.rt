//! A run of an image with its graph under a script, for all who ask for one by texts: the pair and the script are read, the pair is
//! judged by the rules, and then it runs.
#![tactic(auto)]

pub use launching::{LaunchFault, Launched, launch};

mod launching;
