//! The frames that begin and end a stream.

ghost use Rattle.std.specs.Prelude.{◌≡◌, ◌++◌, OnOk, OnErr};
ghost use Rattle.copy_frames.specs.Contents.{copy_both_response, copy_done};

use bytes::BytesMut;
use std::alloc::AllocError;

/// Appends CopyBothResponse, which begins a stream ("55.7. Message Formats"). The only error is out of memory, which
/// leaves `out` as it was.
pub fn append_copy_both_response(out: &mut BytesMut) -> Result<(), AllocError>
    ensures ok { OnOk result (out.new.items ≡ out.old.items ++ copy_both_response) }
    ensures err { OnErr result (out.new.items ≡ out.old.items) }
{
    out.extend_from_slice(b"W\0\0\0\x07\0\0\0")
}

/// Appends CopyDone, which ends a stream ("55.7. Message Formats"). The only error is out of memory, which leaves `out`
/// as it was.
pub fn append_copy_done(out: &mut BytesMut) -> Result<(), AllocError>
    ensures ok { OnOk result (out.new.items ≡ out.old.items ++ copy_done) }
    ensures err { OnErr result (out.new.items ≡ out.old.items) }
{
    out.extend_from_slice(b"c\0\0\0\x04")
}
