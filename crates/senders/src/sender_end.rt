//! Why a sender stopped.

/// Why a sender stopped: its connection had been ended by the listener; the publisher was finished, and all commits
/// were taken; its sink failed; or memory was refused.
#[derive(Clone, Copy, Debug, PartialEq, Eq)]
pub enum SenderEnd {
    ConnectionEnded,
    Finished,
    WriteFault,
    OutOfMemory,
}
