//! Calls of `Ear`.

use crate::books::shown;
use crate::cells::{count, first, number};
use crate::desk::Desk;
use crate::digits::{bytes_of, hexadecimal};
use anyhow::{Context, Result};
use copy_both::{Ear, Heard, LinkFault};
use tables_log::Book;

/// The ear of a new connection, which gets the next number, from 0.
fn begin(desk: &mut Desk) -> Result<String> {
    let number = desk.ears.len();
    let ear = Ear::new(desk.alloc, desk.checked()?);
    desk.ears.push(ear)?;
    shown(desk.alloc, &number)
}

fn hear(ear: &mut Ear, piece: &[u8], book: &mut Book, sent: u64) -> Result<Heard, LinkFault> {
    ear.hear(piece, book, sent)
}

/// Hears a piece, when the log was sent up to a given position.
fn heard(desk: &mut Desk, given: &str) -> Result<String> {
    let (ear, given) = first(given);
    let (sent, digits) = first(given);
    let piece = bytes_of(desk.alloc, digits)?;
    let ear = desk
        .ears
        .get_mut(count(ear)?)
        .context("there is no such ear")?;
    let book = desk.book.as_mut().context("there is no book")?;
    let answer = hear(ear, piece.as_slice(), book, number(sent)?);
    shown(desk.alloc, &answer)
}

/// Loses the connection.
fn lose(desk: &mut Desk, given: &str) -> Result<String> {
    let ear = desk
        .ears
        .get_mut(count(given)?)
        .context("there is no such ear")?;
    ear.lose(desk.book.as_mut().context("there is no book")?);
    Ok(String::from_str(desk.alloc, "ok")?)
}

fn ear<'a>(desk: &'a Desk, given: &str) -> Result<&'a Ear> {
    desk.ears.get(count(given)?).context("there is no such ear")
}

/// The answer to the call.
pub fn answer(desk: &mut Desk, call: &str, rest: &str) -> Result<Option<String>> {
    Ok(Some(match call {
        "new" => begin(desk)?,
        "hear" => heard(desk, rest)?,
        "lose" => lose(desk, rest)?,
        "started" => shown(desk.alloc, &ear(desk, rest)?.started())?,
        "refusal" => hexadecimal(desk.alloc, ear(desk, rest)?.refusal())?,
        _ => return Ok(None),
    }))
}
