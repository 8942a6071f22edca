//! Calls of `messages_of`: what is sent to a subscriber for a commit.

use crate::cells::{count, first, small, truth};
use crate::desk::Desk;
use crate::digits::hexadecimal;
use crate::encoding::spell;
use anyhow::{Context, Result};
use pgoutput_msgs::{Msg, messages_of};
use shard_checker::Checked;
use std::alloc::{AllocError, Global};
use tables_log::Commit;

/// Begins a connection on which these tables were announced to the subscriber.
fn begin(desk: &mut Desk, given: &str) -> Result<String> {
    desk.announced = Vec::new(desk.alloc);
    for word in given.split(" ") {
        desk.announced.push(truth(word)?)?;
    }
    Ok(String::from_str(desk.alloc, "ok")?)
}

fn messages(
    alloc: Global,
    checked: &Checked,
    subscriber: usize,
    commit: &Commit,
    announced: &mut [bool],
) -> Result<Vec<Msg>, AllocError> {
    messages_of(alloc, checked, subscriber, commit, announced)
}

/// The bytes of the messages, separated by spaces.
fn shown(alloc: Global, messages: &[Msg]) -> Result<String> {
    let mut answer = String::new(alloc);
    for message in messages {
        if !answer.is_empty() {
            answer.push(' ')?;
        }
        let mut out = Vec::new(alloc);
        spell(message, &mut out)?;
        answer.push_str(hexadecimal(alloc, out.as_slice())?.as_str())?;
    }
    Ok(answer)
}

/// The messages of a commit for a subscriber.
fn messages_for(desk: &mut Desk, given: &str) -> Result<Vec<Msg>> {
    let (subscriber, commit) = first(given);
    let subscriber = count(subscriber)?;
    let number = small(commit)?;
    let checked = desk.checked()?;
    let book = desk.book.as_ref().context("there is no book")?;
    let commit = book.entry(number).context("there is no such commit")?;
    Ok(messages(
        desk.alloc,
        &checked,
        subscriber,
        commit,
        desk.announced.as_mut_slice(),
    )?)
}

/// What is sent to a subscriber for a commit.
fn sent(desk: &mut Desk, given: &str) -> Result<String> {
    let messages = messages_for(desk, given)?;
    shown(desk.alloc, messages.as_slice())
}

/// The number of bytes of each message that is sent to a subscriber for a commit.
fn lengths(desk: &mut Desk, given: &str) -> Result<String> {
    let messages = messages_for(desk, given)?;
    let mut answer = format!(in desk.alloc; "{}:", messages.len())?;
    for message in &messages {
        let mut out = Vec::new(desk.alloc);
        spell(message, &mut out)?;
        write!(answer, " {}", out.len())?;
    }
    Ok(answer)
}

/// The answer to the call.
pub fn answer(desk: &mut Desk, call: &str, rest: &str) -> Result<Option<String>> {
    Ok(Some(match call {
        "new" => begin(desk, rest)?,
        "of" => sent(desk, rest)?,
        "lengths" => lengths(desk, rest)?,
        "announced" => format!(in desk.alloc; "{:?}", desk.announced.as_slice())?,
        _ => return Ok(None),
    }))
}
