//! Calls of `Subscriber`.

use crate::books::shown;
use crate::cells::{count, first, number, small, truth, written_rows};
use crate::desk::Desk;
use crate::digits::{bytes_of, hexadecimal};
use anyhow::{Context, Result};
use test_subscriber::{SubFault, Subscriber};

/// A subscriber of a slot and publications, without a connection.
fn begin(desk: &mut Desk, given: &str) -> Result<String> {
    let (slot, names) = first(given);
    let mut publications = Vec::new(desk.alloc);
    for name in names.split(" ") {
        publications.push(String::from_str(desk.alloc, name)?)?;
    }
    let slot = String::from_str(desk.alloc, slot)?;
    desk.subscriber = Some(Subscriber::new(desk.alloc, slot, publications));
    Ok(String::from_str(desk.alloc, "ok")?)
}

fn subscriber(desk: &mut Desk) -> Result<&mut Subscriber> {
    desk.subscriber.as_mut().context("there is no subscriber")
}

/// Begins a connection.
fn open(desk: &mut Desk) -> Result<String> {
    let answer = subscriber(desk)?.open();
    shown(desk.alloc, &answer)
}

fn feed(subscriber: &mut Subscriber, piece: &[u8]) -> Result<(), SubFault> {
    subscriber.feed(piece)
}

/// Feeds the subscriber a piece of the stream.
fn fed(desk: &mut Desk, digits: &str) -> Result<String> {
    let piece = bytes_of(desk.alloc, digits)?;
    let answer = feed(subscriber(desk)?, piece.as_slice());
    shown(desk.alloc, &answer)
}

/// The subscriber reports its position.
fn reported(desk: &mut Desk, given: &str) -> Result<String> {
    let (now, want) = first(given);
    let (now, want) = (number(now)?, truth(want)?);
    let answer = subscriber(desk)?.status(now, want);
    shown(desk.alloc, &answer)
}

/// Loses the connection.
fn lose(desk: &mut Desk) -> Result<String> {
    subscriber(desk)?.lose();
    Ok(String::from_str(desk.alloc, "ok")?)
}

/// Drops a number of the bytes that wait.
fn pass(desk: &mut Desk, given: &str) -> Result<String> {
    let count = count(given)?;
    subscriber(desk)?.passed(count);
    Ok(String::from_str(desk.alloc, "ok")?)
}

/// The answer to a call on what a subscriber shows.
fn answer_of_state(desk: &Desk, call: &str, rest: &str) -> Result<Option<String>> {
    let subscriber = desk.subscriber.as_ref().context("there is no subscriber")?;
    Ok(Some(match call {
        "output" => hexadecimal(desk.alloc, subscriber.output())?,
        "position" => shown(desk.alloc, &subscriber.position())?,
        "asked" => shown(desk.alloc, &subscriber.reply_wanted())?,
        "rows" => written_rows(desk.alloc, subscriber.rows(small(rest)?)?.as_slice())?,
        _ => return Ok(None),
    }))
}

/// The answer to the call.
pub fn answer(desk: &mut Desk, call: &str, rest: &str) -> Result<Option<String>> {
    Ok(Some(match call {
        "new" => begin(desk, rest)?,
        "open" => open(desk)?,
        "feed" => fed(desk, rest)?,
        "status" => reported(desk, rest)?,
        "lose" => lose(desk)?,
        "pass" => pass(desk, rest)?,
        _ => return answer_of_state(desk, call, rest),
    }))
}
