//! Sources and sinks that fail.

use thiserror::Error;

/// A source or a sink has failed. It says so from then on.
#[derive(Clone, Copy, Debug, PartialEq, Eq, Error)]
#[error("the connection has failed")]
pub struct Failed;
