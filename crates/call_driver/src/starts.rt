//! Calls of `answer_start`: the answer to the first frame of a client.

use crate::cells::{first, number};
use crate::desk::Desk;
use crate::digits::{bytes_of, hexadecimal};
use crate::escapes::unescaped;
use anyhow::Result;
use bytes::BytesMut;
use copy_both::{Offer, StartAnswer, answer_start};
use pub_catalog::Catalog;
use std::alloc::{AllocError, Global};
use tables_log::Lsn;

/// Where the log ends, and which slots are in use.
#[derive(Clone, Copy)]
struct Given<'a> {
    log_end: Lsn,
    in_use: &'a [bool],
}

/// Which slots are in use: those with an `x` at their place.
fn slots(alloc: Global, letters: &str) -> Result<Vec<bool>> {
    let mut slots = Vec::new(alloc);
    for letter in letters.chars() {
        slots.push(letter == 'x')?;
    }
    Ok(slots)
}

/// The answer to a frame; a response is appended.
fn asked(
    alloc: Global,
    catalog: &Catalog,
    given: &Given<'_>,
    kind: u8,
    body: &[u8],
    response: &mut BytesMut,
) -> Result<StartAnswer, AllocError> {
    let offer = Offer {
        publications: catalog.publications.as_slice(),
        subscriptions: catalog.subscriptions.as_slice(),
        log_end: given.log_end,
        in_use: given.in_use,
    };
    answer_start(alloc, &offer, kind, body, response)
}

/// The text of an ErrorResponse, which is after its first 27 bytes and before its last two.
fn message(response: &[u8]) -> &str {
    if response.len() < 29 {
        return "";
    }
    str::from_utf8(&response[27..response.len() - 2]).unwrap_or("no text")
}

/// The answer to a frame. A response is put on the desk, after the existing ones.
fn answered(desk: &mut Desk, given: &Given<'_>, kind: u8, body: &[u8]) -> Result<String> {
    let alloc = desk.alloc;
    let mut response = BytesMut::new(alloc);
    let answer = asked(alloc, desk.catalog()?, given, kind, body, &mut response)?;
    desk.response.extend_from_slice(response.as_slice())?;
    let message = message(response.as_slice());
    match answer {
        StartAnswer::Stream { slot, position } => {
            let from = position.to_u64();
            Ok(format!(in alloc; "slot {slot} from {from}{message}")?)
        }
        StartAnswer::Refused(state) => Ok(format!(in alloc; "{} {message}", state.code())?),
    }
}

/// The answer to a Query of a text.
fn query(desk: &mut Desk, rest: &str) -> Result<String> {
    let (log_end, rest) = first(rest);
    let (letters, text) = first(rest);
    let slots = slots(desk.alloc, letters)?;
    let given = Given {
        log_end: Lsn::new(number(log_end)?),
        in_use: slots.as_slice(),
    };
    let mut body = unescaped(desk.alloc, text)?.as_bytes().to_vec(desk.alloc)?;
    body.push(0)?;
    answered(desk, &given, b'Q', body.as_slice())
}

/// The answer to a frame of a given kind.
fn frame(desk: &mut Desk, rest: &str) -> Result<String> {
    let (log_end, rest) = first(rest);
    let (letters, rest) = first(rest);
    let (kind, digits) = first(rest);
    let slots = slots(desk.alloc, letters)?;
    let given = Given {
        log_end: Lsn::new(number(log_end)?),
        in_use: slots.as_slice(),
    };
    let body = bytes_of(desk.alloc, digits)?;
    answered(desk, &given, kind.parse::<u8>()?, body.as_slice())
}

/// Puts a first frame's response after bytes.
fn append(desk: &mut Desk, digits: &str) -> Result<String> {
    let bytes = bytes_of(desk.alloc, digits)?;
    desk.response.extend_from_slice(bytes.as_slice())?;
    Ok(String::from_str(desk.alloc, "ok")?)
}

/// The answer to the call.
pub fn answer(desk: &mut Desk, call: &str, rest: &str) -> Result<Option<String>> {
    Ok(Some(match call {
        "query" => query(desk, rest)?,
        "frame" => frame(desk, rest)?,
        "append" => append(desk, rest)?,
        "response" => hexadecimal(desk.alloc, desk.response.as_slice())?,
        _ => return Ok(None),
    }))
}
