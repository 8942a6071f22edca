//! What was heard from a client so far.

ghost use Rattle.std.specs.Prelude.{◌≡◌};

use crate::heard::Heard;
use tables_log::Lsn;

/// What was heard in a piece so far, and the sent position. All requested replies are counted.
#[derive(Clone, Copy)]
pub(crate) struct Hearing {
    pub(crate) started: Option<Lsn>,
    pub(crate) replies: u64,
    pub(crate) ended: Option<u8>,
    pub(crate) sent: Lsn,
}

/// The number of bytes of a position.
fn bytes_of(position: Option<Lsn>) -> Option<u64>
    ensures { result ≡ position }
{
    match position {
        None => None,
        Some(position) => Some(position.to_u64()),
    }
}

impl Hearing {
    ghost use Rattle.copy_both.specs.Sessions.{reported_hearing};

    /// What is reported of it to a caller.
    pub(crate) fn reported(&self) -> Heard
        ensures { result ≡ reported_hearing self.now }
    {
        Heard {
            started: bytes_of(self.started),
            replies: self.replies.min(u64::from(u32::MAX)) as u32,
            ended: self.ended,
        }
    }
}
