//! Calls of `Link`.

use crate::books::shown;
use crate::cells::{count, first, number, truth};
use crate::desk::Desk;
use crate::digits::{bytes_of, hexadecimal};
use anyhow::{Context, Result};
use copy_both::{Heard, Link, LinkFault, Taken};
use tables_log::Book;

/// The link of a new connection, which gets the next number, from 0.
fn begin(desk: &mut Desk) -> Result<String> {
    let number = desk.links.len();
    let link = Link::new(desk.alloc, desk.checked()?)?;
    desk.links.push(link)?;
    shown(desk.alloc, &number)
}

fn hear(link: &mut Link, piece: &[u8], book: &mut Book, now: u64) -> Result<Heard, LinkFault> {
    link.hear(piece, book, now)
}

/// Hears a piece at a given time.
fn heard(desk: &mut Desk, given: &str) -> Result<String> {
    let (link, given) = first(given);
    let (now, digits) = first(given);
    let piece = bytes_of(desk.alloc, digits)?;
    let link = desk
        .links
        .get_mut(count(link)?)
        .context("there is no such link")?;
    let book = desk.book.as_mut().context("there is no book")?;
    let answer = hear(link, piece.as_slice(), book, number(now)?);
    shown(desk.alloc, &answer)
}

fn take(link: &mut Link, book: &Book, now: u64) -> Result<Taken, LinkFault> {
    link.take(book, now)
}

/// Takes the next commit at a given time.
fn taken(desk: &mut Desk, given: &str) -> Result<String> {
    let (link, now) = first(given);
    let link = desk
        .links
        .get_mut(count(link)?)
        .context("there is no such link")?;
    let book = desk.book.as_ref().context("there is no book")?;
    let answer = take(link, book, number(now)?);
    shown(desk.alloc, &answer)
}

/// Sends a keepalive at a given time.
fn kept(desk: &mut Desk, given: &str) -> Result<String> {
    let (link, given) = first(given);
    let (now, want) = first(given);
    let link = desk
        .links
        .get_mut(count(link)?)
        .context("there is no such link")?;
    let answer = link.keepalive(number(now)?, truth(want)?);
    shown(desk.alloc, &answer)
}

/// Drops a number of the bytes that wait.
fn pass(desk: &mut Desk, given: &str) -> Result<String> {
    let (link, number) = first(given);
    let link = desk
        .links
        .get_mut(count(link)?)
        .context("there is no such link")?;
    link.passed(count(number)?);
    Ok(String::from_str(desk.alloc, "ok")?)
}

/// Loses the connection.
fn lose(desk: &mut Desk, given: &str) -> Result<String> {
    let link = desk
        .links
        .get_mut(count(given)?)
        .context("there is no such link")?;
    link.lose(desk.book.as_mut().context("there is no book")?);
    Ok(String::from_str(desk.alloc, "ok")?)
}

/// The answer to a call on what a link shows.
fn answer_of_state(desk: &Desk, call: &str, given: &str) -> Result<Option<String>> {
    let link = desk
        .links
        .get(count(given)?)
        .context("there is no such link")?;
    Ok(Some(match call {
        "started" => shown(desk.alloc, &link.started())?,
        "sent" => shown(desk.alloc, &link.sent().map(|sent| sent.to_u64()))?,
        "output" => hexadecimal(desk.alloc, link.output())?,
        "waiting" => shown(desk.alloc, &link.output().len())?,
        _ => return Ok(None),
    }))
}

/// The answer to the call.
pub fn answer(desk: &mut Desk, call: &str, rest: &str) -> Result<Option<String>> {
    Ok(Some(match call {
        "new" => begin(desk)?,
        "hear" => heard(desk, rest)?,
        "take" => taken(desk, rest)?,
        "keepalive" => kept(desk, rest)?,
        "pass" => pass(desk, rest)?,
        "lose" => lose(desk, rest)?,
        _ => return answer_of_state(desk, call, rest),
    }))
}
