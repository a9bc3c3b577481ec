use thiserror::Error;

/// A load that does not lie whole in one region.
#[derive(Clone, Copy, Debug, PartialEq, Eq, Error)]
#[error("load fault")]
pub struct LoadFault;

/// A store that does not lie whole in data or in shadow.
#[derive(Clone, Copy, Debug, PartialEq, Eq, Error)]
#[error("store fault")]
pub struct StoreFault;
