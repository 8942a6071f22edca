//! Why bytes are not cut into further frames.

use thiserror::Error;

/// Why bytes are not cut into further frames.
#[derive(Clone, Copy, Debug, PartialEq, Eq, Error)]
pub enum FrameFault {
    /// A length is less than 4, as a signed number of 32 bits: it would not count itself.
    #[error("the length of a frame is less than 4")]
    BadLength,
    /// A length is more than the limit.
    #[error("a frame is longer than the limit")]
    FrameTooLong,
    #[error("out of memory")]
    OutOfMemory,
}
