//! The response to a start that is refused.

ghost use Rattle.std.specs.Prelude.{◌≡◌, ◌++◌, OnOk, OnErr};
ghost use Rattle.copy_both.specs.Refusals.{CanBeSent, error_response, refusal_view};

use crate::refusal::Refusal;
use bytes::BytesMut;
use copy_frames::{put, put_int32, put_text};
use std::alloc::AllocError;

/// Appends the ErrorResponse of a refusal ("55.8. Error and Notice Message Fields"). The only error is out of memory,
/// which leaves `out` as it was.
pub fn append_error_response(out: &mut BytesMut, refusal: &Refusal<'_>) -> Result<(), AllocError>
    requires { CanBeSent (refusal_view refusal.now) }
    ensures ok { OnOk result (out.new.items ≡ out.old.items ++ error_response (refusal_view refusal.now)) }
    ensures err { OnErr result (out.new.items ≡ out.old.items) }
{
    let words = refusal.words();
    let code = refusal.code();
    let length = words.before.len() + words.name.len() + words.after.len();
    out.reserve(length + 29)?;
    put(out, b"E");
    put_int32(out, length as u32 + 28);
    put(out, b"SERROR\0VERROR\0C");
    put_text(out, code);
    put(out, b"\0M");
    put_text(out, words.before);
    put_text(out, words.name);
    put_text(out, words.after);
    put(out, b"\0\0");
    Ok(())
}
