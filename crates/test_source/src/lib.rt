//! Tests of the source machine through public calls: objects written by hand are run as programs at maps that are worked
//! out by hand, to their ends or to the reason against their next step, and maps that are not legal are refused at their
//! first wrong line; and such objects as store behind one mask, or are hardened under a list of system calls, at maps that a
//! model has drawn, each place with the size that hardening gives it and with others. They stand beside the crates that they
//! test, so that these are proved once.
#![tactic(auto)]

#[cfg(test)]
mod calls;
#[cfg(test)]
mod listed;
#[cfg(test)]
mod placed;
#[cfg(test)]
mod rows;
#[cfg(test)]
mod runs;
