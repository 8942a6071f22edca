//! What comes before a message in a stream.

ghost use Rattle.std.specs.Prelude.{◌≡◌, ◌<◌, ◌+◌, ◌^◌, ◌++◌, length, OnOk, OnErr};
ghost use Rattle.std.specs.Option.{option_map};
ghost use Rattle.copy_frames.specs.Contents.{copy_data, xlog_data_body, xlog_data_in};

use crate::numbers::int64_at;
use crate::room::{put, put_byte, put_int32, put_int64};
use bytes::BytesMut;
use std::alloc::AllocError;

/// What comes before a message in the stream: the places in the log, in bytes, of its start and of the log's end, and
/// the server's clock, in microseconds since 2000-01-01 ("55.4. Streaming Replication Protocol", XLogData).
#[derive(Clone, Copy, Debug, PartialEq, Eq)]
pub struct XLogData {
    pub start: u64,
    pub end: u64,
    pub clock: u64,
}

/// Appends the frame of an XLogData with this message. The only error is out of memory, which leaves `out` as it was.
pub fn append_xlog_data(
    out: &mut BytesMut,
    head: &XLogData,
    message: &[u8],
) -> Result<(), AllocError>
    requires { length message.now + 29 < 2 ^ 31 }
    ensures ok { OnOk result (out.new.items ≡ out.old.items ++ copy_data (xlog_data_body head.now message.now)) }
    ensures err { OnErr result (out.new.items ≡ out.old.items) }
{
    out.reserve(30 + message.len())?;
    put_byte(out, b'd');
    put_int32(out, 29 + message.len() as u32);
    put_byte(out, b'w');
    put_int64(out, head.start);
    put_int64(out, head.end);
    put_int64(out, head.clock);
    put(out, message);
    Ok(())
}

/// The head and the message in the body of a CopyData whose first byte is `w`: `None` unless the body has at least 25
/// bytes.
pub fn read_xlog_data(body: &[u8]) -> Option<(XLogData, &[u8])>
    ensures { option_map (λ read. (read.0, read.1.now)) result ≡ xlog_data_in body.now }
{
    if body.len() < 25 {
        return None;
    }
    let head = XLogData {
        start: int64_at(body, 1),
        end: int64_at(body, 9),
        clock: int64_at(body, 17),
    };
    Some((head, body.split_at(25).1))
}
