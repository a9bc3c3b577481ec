use thiserror::Error;

/// The line with this number, from 1, of a policy names what is no instruction's start, or a site that is none or has a line.
#[derive(Clone, Copy, Debug, PartialEq, Eq, Error)]
#[error("line {number} of the policy")]
pub struct WrongLine {
    pub number: u64,
}
