//! What a server sends while it has no data.

ghost use Rattle.std.specs.Prelude.{◌≡◌, ◌++◌, OnOk, OnErr};
ghost use Rattle.copy_frames.specs.Contents.{copy_data, keepalive_body, keepalive_in};

use crate::numbers::int64_at;
use crate::room::{put, put_flag, put_int64};
use bytes::BytesMut;
use std::alloc::AllocError;

/// What a server sends while it has no data: a place in the log, in bytes, and its clock, in microseconds since
/// 2000-01-01 ("55.4. Streaming Replication Protocol", Primary keepalive message).
#[derive(Clone, Copy, Debug, PartialEq, Eq)]
pub struct Keepalive {
    pub position: u64,
    pub clock: u64,
    /// Whether the client is asked for a status at once.
    pub wants_reply: bool,
}

/// Appends the frame of a keepalive. The only error is out of memory, which leaves `out` as it was.
pub fn append_keepalive(out: &mut BytesMut, keepalive: &Keepalive) -> Result<(), AllocError>
    ensures ok { OnOk result (out.new.items ≡ out.old.items ++ copy_data (keepalive_body keepalive.now)) }
    ensures err { OnErr result (out.new.items ≡ out.old.items) }
{
    out.reserve(23)?;
    put(out, b"d\0\0\0\x16k");
    put_int64(out, keepalive.position);
    put_int64(out, keepalive.clock);
    put_flag(out, keepalive.wants_reply);
    Ok(())
}

/// The keepalive in the body of a CopyData whose first byte is `k`: `None` unless the body has 18 bytes.
pub fn read_keepalive(body: &[u8]) -> Option<Keepalive>
    ensures { result ≡ keepalive_in body.now }
{
    if body.len() != 18 {
        return None;
    }
    Some(Keepalive {
        position: int64_at(body, 1),
        clock: int64_at(body, 9),
        wants_reply: body[17] != 0,
    })
}
