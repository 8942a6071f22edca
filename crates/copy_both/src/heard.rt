//! What was heard from a client.

/// What was heard in a piece of what a client sends.
#[derive(Clone, Copy, Debug, PartialEq, Eq)]
pub struct Heard {
    /// Where the stream starts in the log, in bytes, if it was started by the piece.
    pub started: Option<u64>,
    /// How many statuses requested a reply, up to `u32::MAX`. A `Link` replies to each of them with a keepalive, even
    /// if there were more.
    pub replies: u32,
    /// The kind of the frame that ended the connection: CopyDone, CopyFail or Terminate.
    pub ended: Option<u8>,
}
