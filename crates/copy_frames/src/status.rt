//! Statuses, by which a client reports its progress.

ghost use Rattle.std.specs.Prelude.{◌≡◌, ◌++◌, OnOk, OnErr};
ghost use Rattle.copy_frames.specs.Contents.{copy_data, status_body, status_in};

use crate::numbers::int64_at;
use crate::room::{put, put_flag, put_int64};
use bytes::BytesMut;
use std::alloc::AllocError;

/// The progress of a client: the places in the log, in bytes, up to which it has written, flushed and applied what it
/// received. The clock is its own, in microseconds since 2000-01-01 ("55.4. Streaming Replication Protocol", Standby
/// status update).
#[derive(Clone, Copy, Debug, PartialEq, Eq)]
pub struct Status {
    pub written: u64,
    pub flushed: u64,
    pub applied: u64,
    pub clock: u64,
    /// Whether the server is asked to answer at once.
    pub wants_reply: bool,
}

/// Appends the frame of a status. The only error is out of memory, which leaves `out` as it was.
pub fn append_status(out: &mut BytesMut, status: &Status) -> Result<(), AllocError>
    ensures ok { OnOk result (out.new.items ≡ out.old.items ++ copy_data (status_body status.now)) }
    ensures err { OnErr result (out.new.items ≡ out.old.items) }
{
    out.reserve(39)?;
    put(out, b"d\0\0\0\x26r");
    put_int64(out, status.written);
    put_int64(out, status.flushed);
    put_int64(out, status.applied);
    put_int64(out, status.clock);
    put_flag(out, status.wants_reply);
    Ok(())
}

/// The status in the body of a CopyData whose first byte is `r`: `None` unless the body has 34 bytes.
pub fn read_status(body: &[u8]) -> Option<Status>
    ensures { result ≡ status_in body.now }
{
    if body.len() != 34 {
        return None;
    }
    Some(Status {
        written: int64_at(body, 1),
        flushed: int64_at(body, 9),
        applied: int64_at(body, 17),
        clock: int64_at(body, 25),
        wants_reply: body[33] != 0,
    })
}
