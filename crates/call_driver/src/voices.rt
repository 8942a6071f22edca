//! Calls of `Voice`.

use crate::books::shown;
use crate::cells::{count, first, number, small, truth};
use crate::desk::Desk;
use crate::digits::hexadecimal;
use anyhow::{Context, Result, bail};
use copy_both::{LinkFault, Taken, Voice};
use tables_log::Commit;

/// The voice of a new connection.
fn begin(desk: &mut Desk) -> Result<String> {
    let voice = Voice::new(desk.alloc, desk.checked()?);
    desk.voice = Some(voice);
    Ok(String::from_str(desk.alloc, "ok")?)
}

fn voice(desk: &mut Desk) -> Result<&mut Voice> {
    desk.voice.as_mut().context("there is no voice")
}

/// Starts the stream of a slot from a position.
fn started(desk: &mut Desk, given: &str) -> Result<String> {
    let (slot, position) = first(given);
    let (slot, position) = (count(slot)?, number(position)?);
    let answer = voice(desk)?.start(slot, position);
    shown(desk.alloc, &answer)
}

/// Takes a commit, if it is the next one.
fn take(voice: &mut Voice, commit: &Commit, now: u64) -> Result<Result<Taken, LinkFault>> {
    match voice.next() {
        None => Ok(voice.take_entry(commit, now)),
        Some(next) if next == u64::from(commit.number()) => Ok(voice.take_entry(commit, now)),
        Some(_) => bail!("another commit comes next"),
    }
}

/// Takes the book's commit with a number.
fn taken(desk: &mut Desk, given: &str) -> Result<String> {
    let (commit, now) = first(given);
    let book = desk.book.as_ref().context("there is no book")?;
    let commit = book
        .entry(small(commit)?)
        .context("there is no such commit")?;
    let voice = desk.voice.as_mut().context("there is no voice")?;
    let answer = take(voice, commit, number(now)?)?;
    shown(desk.alloc, &answer)
}

/// Sends a keepalive.
fn kept(desk: &mut Desk, given: &str) -> Result<String> {
    let (now, want) = first(given);
    let (now, want) = (number(now)?, truth(want)?);
    let answer = voice(desk)?.keepalive(now, want);
    shown(desk.alloc, &answer)
}

/// Ends the stream.
fn done(desk: &mut Desk) -> Result<String> {
    let answer = voice(desk)?.done();
    shown(desk.alloc, &answer)
}

/// Drops a number of the bytes that wait.
fn pass(desk: &mut Desk, given: &str) -> Result<String> {
    let count = count(given)?;
    voice(desk)?.passed(count);
    Ok(String::from_str(desk.alloc, "ok")?)
}

/// The answer to a call on what a voice shows.
fn answer_of_state(desk: &Desk, call: &str) -> Result<Option<String>> {
    let voice = desk.voice.as_ref().context("there is no voice")?;
    Ok(Some(match call {
        "next" => shown(desk.alloc, &voice.next())?,
        "sent" => shown(desk.alloc, &voice.sent().map(|sent| sent.to_u64()))?,
        "output" => hexadecimal(desk.alloc, voice.output())?,
        "waiting" => shown(desk.alloc, &voice.output().len())?,
        _ => return Ok(None),
    }))
}

/// The answer to the call.
pub fn answer(desk: &mut Desk, call: &str, rest: &str) -> Result<Option<String>> {
    Ok(Some(match call {
        "new" => begin(desk)?,
        "start" => started(desk, rest)?,
        "take" => taken(desk, rest)?,
        "keepalive" => kept(desk, rest)?,
        "done" => done(desk)?,
        "pass" => pass(desk, rest)?,
        _ => return answer_of_state(desk, call),
    }))
}
