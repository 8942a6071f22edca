//! The command that starts a stream.

ghost use Rattle.std.specs.Prelude.{◌≡◌, ◌++◌, ◌∷◌, IfOk, OnOk, map};
ghost use Rattle.std.specs.String.{string_bytes};
ghost use Rattle.sql_tokens.specs.Doubled.{in_quotes};
ghost use Rattle.test_subscriber.specs.StartQuery as spec;

use crate::fault::SubFault;
use bytes::BytesMut;
use copy_frames::{FrameFault, put, put_int32};
use std::alloc::{AllocError, Global};
use tables_log::Lsn;

/// Appends bytes between quotes, with each quote in them doubled. The only error is out of memory.
fn put_quoted(text: &mut Vec<u8>, quote: u8, inner: &[u8]) -> Result<(), AllocError>
    ensures { OnOk result (text.new.items ≡ text.old.items ++ in_quotes quote inner.now) }
{
    text.push(quote)?;
    for byte in inner {
        if *byte == quote {
            text.push(quote)?;
        }
        text.push(*byte)?;
    }
    text.push(quote)?;
    Ok(())
}

/// Names between double quotes, separated by commas. The only error is out of memory.
fn names_text(alloc: Global, names: &[String]) -> Result<Vec<u8>, AllocError>
    ensures { IfOk result (λ text. text.items ≡ spec.names_text (map string_bytes names.now)) }
{
    let mut text = Vec::new(alloc);
    if let [first, others @ ..] = names {
        put_quoted(&mut text, b'"', first.as_bytes())?;
        for name in others {
            text.push(b',')?;
            put_quoted(&mut text, b'"', name.as_bytes())?;
        }
    }
    Ok(text)
}

/// The text of a place in the log ("8.20. pg_lsn Type"). The only error is out of memory.
fn lsn_text(alloc: Global, lsn: Lsn) -> Result<String, AllocError>
    ensures { IfOk result (λ text. string_bytes text ≡ spec.lsn_text lsn) }
{
    let bytes = lsn.to_u64();
    let high = bytes / 0x1_0000_0000;
    let low = bytes % 0x1_0000_0000;
    format!(in alloc; "{high:X}/{low:X}")
}

/// The command that starts the stream of a slot at a place in the log. The only error is out of memory.
fn start_text(
    alloc: Global,
    slot: &str,
    publications: &[String],
    lsn: Lsn,
) -> Result<Vec<u8>, AllocError>
    ensures { IfOk result (λ text. text.items
        ≡ spec.start_text slot.now (map string_bytes publications.now) lsn) }
{
    let names = names_text(alloc, publications)?;
    let lsn = lsn_text(alloc, lsn)?;
    let mut text = Vec::new(alloc);
    text.extend_from_slice(b"START_REPLICATION SLOT ".as_slice())?;
    put_quoted(&mut text, b'"', slot.as_bytes())?;
    text.extend_from_slice(b" LOGICAL ".as_slice())?;
    text.extend_from_slice(lsn.as_bytes())?;
    text.extend_from_slice(b" (proto_version '1', publication_names ".as_slice())?;
    put_quoted(&mut text, b'\'', names.as_slice())?;
    text.extend_from_slice(b")".as_slice())?;
    Ok(text)
}

/// The greatest length of the text of a Query, so that the length of its frame is at most 65,536.
const LONGEST: usize = 65_531;

/// Appends a text as a Query.
fn append_query(out: &mut BytesMut, text: &[u8]) -> Result<(), SubFault>
    ensures { spec.Appends (spec.query_of text.now) out.old.items result out.new.items }
{
    if text.len() > LONGEST {
        return Err(SubFault::Frame(FrameFault::FrameTooLong));
    }
    out.reserve(text.len() + 6)?;
    put(out, b"Q");
    put_int32(out, text.len() as u32 + 5);
    put(out, text);
    put(out, b"\0");
    Ok(())
}

/// Appends the frame that requests the stream of a slot at a place in the log.
///
/// # Errors
///
/// `Frame(FrameTooLong)` if the frame's length is more than 65,536; `OutOfMemory`. Each leaves `out` as it was.
pub(crate) fn append_start(
    alloc: Global,
    out: &mut BytesMut,
    slot: &str,
    publications: &[String],
    lsn: Lsn,
) -> Result<(), SubFault>
    ensures { spec.Appends (spec.start_query slot.now (map string_bytes publications.now) lsn)
        out.old.items result out.new.items }
{
    let text = start_text(alloc, slot, publications, lsn)?;
    append_query(out, text.as_slice())?;
    Ok(())
}
