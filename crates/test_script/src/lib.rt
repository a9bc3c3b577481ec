//! Tests of what a hostile environment does to a run, through its public calls: scripts as texts, whose turn it is, and
//! the plans of scripts and of the hostile meddler. They stand beside the crates that they test, so that these are proved
//! once.
#![tactic(auto)]

#[cfg(test)]
mod hostile;
#[cfg(test)]
mod script;
#[cfg(test)]
mod turns;
