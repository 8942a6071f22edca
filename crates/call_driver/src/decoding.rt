//! Calls that read messages and the values in them.

use crate::cells::first;
use crate::checks::column_type;
use crate::digits::{bytes_of, hexadecimal};
use crate::encoding::spell;
use crate::escapes::unescaped;
use anyhow::Result;
use filter_tree::Text;
use pgoutput_msgs::{Cell, Msg, MsgError, decode, value_of};
use std::alloc::Global;

/// The message that the bytes spell.
fn decoded(alloc: Global, bytes: &[u8]) -> Result<Msg, MsgError> {
    decode(alloc, bytes)
}

/// The bytes that spell a message.
fn spelled(alloc: Global, message: &Msg) -> Result<Vec<u8>> {
    let mut out = Vec::new(alloc);
    spell(message, &mut out)?;
    Ok(out)
}

/// The bytes that spell the message of the bytes, or their fault.
fn again(alloc: Global, bytes: &[u8]) -> Result<String> {
    match decoded(alloc, bytes) {
        Ok(message) => hexadecimal(alloc, spelled(alloc, &message)?.as_slice()),
        Err(error) => Ok(format!(in alloc; "{error:?}")?),
    }
}

/// Whether the bytes are decoded, if the same bytes spell their message.
fn is_decoded(alloc: Global, bytes: &[u8]) -> Result<Option<bool>> {
    match decoded(alloc, bytes) {
        Ok(message) if spelled(alloc, &message)?.as_slice() == bytes => Ok(Some(true)),
        Ok(_) => Ok(None),
        Err(_) => Ok(Some(false)),
    }
}

/// How many of the bytes that may be at a place make a message, if the same bytes spell each of these.
fn decoded_at(alloc: Global, bytes: &[u8], place: usize) -> Result<Option<usize>> {
    let mut count: usize = 0;
    let mut changed = bytes.to_vec(alloc)?;
    for value in 0..=255u8 {
        if let Some(byte) = changed.get_mut(place) {
            *byte = value;
        }
        match is_decoded(alloc, changed.as_slice())? {
            Some(true) => count = count.saturating_add(1),
            Some(false) => {}
            None => return Ok(None),
        }
    }
    Ok(Some(count))
}

/// Whether what is decoded is spelled again when each byte is replaced by each other value in turn, and is decoded at
/// least when a byte is replaced by itself.
fn changed(alloc: Global, bytes: &[u8]) -> Result<&'static str> {
    for place in 0..bytes.len() {
        match decoded_at(alloc, bytes, place)? {
            None => return Ok("other bytes are spelled"),
            Some(0) => return Ok("the message is not decoded"),
            Some(_) => {}
        }
    }
    Ok("the same is spelled")
}

/// The value that a column of a type reads from a cell, as shown for debugging.
fn value(alloc: Global, kind: &str, cell: Cell) -> Result<String> {
    let found = value_of(alloc, column_type(kind)?, cell)?;
    Ok(format!(in alloc; "{found:?}")?)
}

/// The value that a column reads from a text.
fn value_of_text(alloc: Global, given: &str) -> Result<String> {
    let (kind, text) = first(given);
    value(alloc, kind, Cell::Text(Text::new(unescaped(alloc, text)?)))
}

/// The answer to the call.
pub fn answer(alloc: Global, call: &str, rest: &str) -> Result<Option<String>> {
    Ok(Some(match call {
        "again" => again(alloc, bytes_of(alloc, rest)?.as_slice())?,
        "changed" => {
            let answer = changed(alloc, bytes_of(alloc, rest)?.as_slice())?;
            String::from_str(alloc, answer)?
        }
        "text" => value_of_text(alloc, rest)?,
        "null" => value(alloc, rest, Cell::Null)?,
        _ => return Ok(None),
    }))
}
