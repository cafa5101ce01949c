use thiserror::Error;

/// No node is free.
#[derive(Clone, Copy, Debug, PartialEq, Eq, Error)]
#[error("no node is free")]
pub struct Full;
