use crate::reason::Reason;
use thiserror::Error;

/// The first line of a text that fails: its number, from 1, and why it fails.
#[derive(Clone, Copy, Debug, Error)]
#[error("line {0}: {1}")]
pub struct LineFault(pub u64, pub Reason);
