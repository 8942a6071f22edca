//! Calls of `Deframer`, and calls on what CopyData carries.

use crate::books::shown;
use crate::cells::{count, first, number, small, truth};
use crate::desk::Desk;
use crate::digits::{bytes_of, hexadecimal};
use anyhow::{Context, Result, bail};
use bytes::BytesMut;
use copy_frames::{
    Deframer, Frame, FrameFault, Keepalive, Status, XLogData, append_copy_both_response,
    append_copy_done, append_keepalive, append_status, append_xlog_data, read_keepalive,
    read_status, read_xlog_data,
};
use std::alloc::{AllocError, Global};

/// Begins a stream whose frames have at most a given length.
fn begin(desk: &mut Desk, given: &str) -> Result<String> {
    desk.deframer = Some(Deframer::new(desk.alloc, small(given)?));
    Ok(String::from_str(desk.alloc, "ok")?)
}

fn feed(deframer: &mut Deframer, piece: &[u8]) -> Result<(), FrameFault> {
    deframer.feed(piece)
}

/// Feeds the deframer the bytes in pieces of a given length, up to a fault.
fn feed_pieces(deframer: &mut Deframer, bytes: &[u8], length: usize) -> Result<(), FrameFault> {
    if bytes.is_empty() {
        return feed(deframer, bytes);
    }
    for piece in bytes.chunks(length.max(1)) {
        feed(deframer, piece)?;
    }
    Ok(())
}

/// Feeds the deframer in pieces of a given length.
fn fed(desk: &mut Desk, given: &str) -> Result<String> {
    let (length, digits) = first(given);
    let bytes = bytes_of(desk.alloc, digits)?;
    let deframer = desk.deframer.as_mut().context("there is no stream")?;
    let answer = feed_pieces(deframer, bytes.as_slice(), count(length)?);
    shown(desk.alloc, &answer)
}

fn next(deframer: &mut Deframer) -> Result<Option<Frame>, AllocError> {
    deframer.next()
}

/// A frame's bytes.
fn frame_bytes(alloc: Global, frame: &Frame) -> Result<String> {
    let mut bytes = Vec::new(alloc);
    bytes.push(frame.kind)?;
    let length = frame.body.as_slice().len().saturating_add(4);
    let length = u32::try_from(length)
        .ok()
        .context("a frame's length has 32 bits")?;
    bytes.extend_from_slice(&length.to_be_bytes())?;
    bytes.extend_from_slice(frame.body.as_slice())?;
    hexadecimal(alloc, bytes.as_slice())
}

/// The next frame's bytes, or `none`.
fn next_frame(desk: &mut Desk) -> Result<String> {
    let deframer = desk.deframer.as_mut().context("there is no stream")?;
    match next(deframer)? {
        Some(frame) => frame_bytes(desk.alloc, &frame),
        None => Ok(String::from_str(desk.alloc, "none")?),
    }
}

/// The answer to a call on a stream.
fn answer_of_stream(desk: &mut Desk, call: &str, rest: &str) -> Result<Option<String>> {
    Ok(Some(match call {
        "new" => begin(desk, rest)?,
        "feed" => fed(desk, rest)?,
        "next" => next_frame(desk)?,
        _ => return Ok(None),
    }))
}

/// The status with these numbers and this truth value.
fn status(given: &str) -> Result<Status> {
    let (written, given) = first(given);
    let (flushed, given) = first(given);
    let (applied, given) = first(given);
    let (clock, wants_reply) = first(given);
    Ok(Status {
        written: number(written)?,
        flushed: number(flushed)?,
        applied: number(applied)?,
        clock: number(clock)?,
        wants_reply: truth(wants_reply)?,
    })
}

/// The keepalive with these numbers and this truth value.
fn keepalive(given: &str) -> Result<Keepalive> {
    let (position, given) = first(given);
    let (clock, wants_reply) = first(given);
    Ok(Keepalive {
        position: number(position)?,
        clock: number(clock)?,
        wants_reply: truth(wants_reply)?,
    })
}

/// Appends an XLogData with a message.
fn carry(alloc: Global, given: &str, out: &mut BytesMut) -> Result<()> {
    let (start, given) = first(given);
    let (end, given) = first(given);
    let (clock, digits) = first(given);
    let head = XLogData {
        start: number(start)?,
        end: number(end)?,
        clock: number(clock)?,
    };
    let message = bytes_of(alloc, digits)?;
    if message.len() > 2_000_000_000 {
        bail!("a message has at most 2,000,000,000 bytes");
    }
    append_xlog_data(out, &head, message.as_slice())?;
    Ok(())
}

/// The answer to a call that writes a frame.
fn answer_of_writing(alloc: Global, call: &str, rest: &str) -> Result<Option<String>> {
    let mut out = BytesMut::new(alloc);
    match call {
        "status" => append_status(&mut out, &status(rest)?)?,
        "keepalive" => append_keepalive(&mut out, &keepalive(rest)?)?,
        "carry" => carry(alloc, rest, &mut out)?,
        "copy_both" => append_copy_both_response(&mut out)?,
        "copy_done" => append_copy_done(&mut out)?,
        _ => return Ok(None),
    }
    Ok(Some(hexadecimal(alloc, out.as_slice())?))
}

/// The head of an XLogData and its message.
fn carried(alloc: Global, body: &[u8]) -> Result<String> {
    match read_xlog_data(body) {
        None => Ok(String::from_str(alloc, "None")?),
        Some((head, message)) => {
            let digits = hexadecimal(alloc, message)?;
            Ok(format!(in alloc; "{head:?} {digits}")?)
        }
    }
}

/// The answer to a call that reads a body.
fn answer_of_reading(alloc: Global, call: &str, rest: &str) -> Result<Option<String>> {
    let body = bytes_of(alloc, rest)?;
    Ok(Some(match call {
        "read_status" => shown(alloc, &read_status(body.as_slice()))?,
        "read_keepalive" => shown(alloc, &read_keepalive(body.as_slice()))?,
        "read_carried" => carried(alloc, body.as_slice())?,
        _ => return Ok(None),
    }))
}

/// The answer to the call.
pub fn answer(desk: &mut Desk, call: &str, rest: &str) -> Result<Option<String>> {
    let answer = answer_of_stream(desk, call, rest)?;
    if answer.is_some() {
        return Ok(answer);
    }
    let answer = answer_of_writing(desk.alloc, call, rest)?;
    if answer.is_some() {
        return Ok(answer);
    }
    answer_of_reading(desk.alloc, call, rest)
}
