//! What clients say, as bytes, and the keepalives that they are answered.

use crate::memory::query;
use crate::rounds::{Phrase, Round};
use crate::work::Work;
use std::alloc::{AllocError, Global};

/// How a keepalive begins, which has 23 bytes.
const KEEPALIVE: &[u8] = b"d\0\0\0\x16k";

/// CopyDone, from a client and to it.
pub(crate) const DONE: &[u8] = b"c\0\0\0\x04";

/// The frames without CopyDone, if that is the last of them.
pub(crate) fn before_done(frames: &[u8]) -> &[u8] {
    frames.strip_suffix(DONE).unwrap_or(frames)
}

/// How many keepalives are among these frames, with a clock that is not 0, and which ask for no status.
pub(crate) fn keepalives(frames: &[u8]) -> u64 {
    let mut count = 0u64;
    for place in frames.windows(23) {
        if place.starts_with(KEEPALIVE) && !place.ends_with(&[0; 9]) && place.ends_with(&[0]) {
            count = count.saturating_add(1);
        }
    }
    count
}

/// Appends a status that reports this position as flushed, and nothing as applied.
fn put_status(bytes: &mut Vec<u8>, flushed: u64, reply: u8) -> Result<(), AllocError> {
    bytes.extend_from_slice(b"d\0\0\0\x26r")?;
    bytes.extend_from_slice(&flushed.to_be_bytes())?;
    bytes.extend_from_slice(&flushed.to_be_bytes())?;
    bytes.extend_from_slice(&[0; 16])?;
    bytes.push(reply)?;
    Ok(())
}

/// Appends what the client of the slot says.
fn put(bytes: &mut Vec<u8>, alloc: Global, slot: usize, phrase: Phrase) -> Result<(), AllocError> {
    match phrase {
        Phrase::Start => {
            let query = query(alloc, Work::Pairs, slot)?;
            bytes.extend_from_slice(query.as_slice())
        }
        Phrase::Status(flushed) => put_status(bytes, flushed, 0),
        Phrase::Request(flushed) => put_status(bytes, flushed, 1),
        Phrase::Done => bytes.extend_from_slice(DONE),
        Phrase::Terminate => bytes.extend_from_slice(b"X\0\0\0\x04"),
    }
}

/// The bytes of a line.
fn line(alloc: Global, slot: usize, phrases: &[Phrase]) -> Result<Vec<u8>, AllocError> {
    let mut bytes = Vec::new(alloc);
    for phrase in phrases {
        put(&mut bytes, alloc, slot, *phrase)?;
    }
    Ok(bytes)
}

/// The bytes of each line that the client of the slot says in the round.
fn lines(alloc: Global, round: Round, slot: usize) -> Result<Vec<Vec<u8>>, AllocError> {
    let mut list = Vec::new(alloc);
    for phrases in round.lines(slot) {
        list.push(line(alloc, slot, phrases)?)?;
    }
    Ok(list)
}

/// The same for each of two slots.
pub(crate) fn all_lines(alloc: Global, round: Round) -> Result<Vec<Vec<Vec<u8>>>, AllocError> {
    let mut list = Vec::new(alloc);
    for slot in 0..2 {
        list.push(lines(alloc, round, slot)?)?;
    }
    Ok(list)
}
