//! A stream with each of its bytes changed in turn: what a subscriber answers, and what it then has.

use crate::calls::{feed, is_asked, open, position, rows};
use crate::publishers::subscriber;
use anyhow::Result;
use pub_reader::write_row;
use std::alloc::Global;
use std::io::Write;
use test_subscriber::{SubFault, Subscriber};

/// The table whose rows are written.
const TABLE: u32 = 16_384;

/// Feeds the bytes before a place at once and each byte after that by itself, up to a fault. Returns how many were fed,
/// and the last answer.
fn feed_from(
    subscriber: &mut Subscriber,
    bytes: &[u8],
    place: usize,
) -> (usize, Result<(), SubFault>) {
    let (piece, rest) = bytes.split_at(place.min(bytes.len()));
    let mut fed = piece.len();
    let mut answer = feed(subscriber, piece);
    for byte in rest {
        if answer.is_err() {
            break;
        }
        answer = feed(subscriber, &[*byte]);
        fed = fed.saturating_add(1);
    }
    (fed, answer)
}

/// Writes the rows of the table, one per line.
fn write_rows<W: Write>(alloc: Global, subscriber: &Subscriber, writer: &mut W) -> Result<()> {
    for row in rows(subscriber, TABLE)?.iter() {
        writeln!(writer, "{}", write_row(alloc, row)?)?;
    }
    Ok(())
}

/// Writes what the subscriber answers to the bytes on a new connection, those before a place fed at once, what it then
/// answers to no bytes, and what it has.
fn write_connection<W: Write>(
    alloc: Global,
    subscriber: &mut Subscriber,
    bytes: &[u8],
    place: usize,
    writer: &mut W,
) -> Result<()> {
    open(subscriber)?;
    let (fed, answer) = feed_from(subscriber, bytes, place);
    let next = feed(subscriber, &[]);
    let position = position(subscriber);
    let is_asked = is_asked(subscriber);
    writeln!(writer, "{fed} {answer:?} {next:?} {position} {is_asked}")?;
    write_rows(alloc, subscriber, writer)
}

/// Writes what a subscriber answers to the bytes with one of them replaced, and then to the bytes on a new connection.
fn write_change<W: Write>(
    alloc: Global,
    bytes: &[u8],
    place: usize,
    value: u8,
    writer: &mut W,
) -> Result<()> {
    let mut changed = bytes.to_vec(alloc)?;
    if let Some(byte) = changed.get_mut(place) {
        *byte = value;
    }
    let mut subscriber = subscriber(alloc)?;
    writeln!(writer, "{place} {value}")?;
    write_connection(alloc, &mut subscriber, &changed, place, writer)?;
    write_connection(alloc, &mut subscriber, bytes, bytes.len(), writer)
}

/// Writes the answers for each value that the byte may have instead.
fn write_values<W: Write>(
    alloc: Global,
    bytes: &[u8],
    place: usize,
    byte: u8,
    writer: &mut W,
) -> Result<()> {
    for value in 0..=255u8 {
        if value != byte {
            write_change(alloc, bytes, place, value, writer)?;
        }
    }
    Ok(())
}

/// Writes the answers for each byte of a stream, and each value that it may have instead.
pub fn write_changes<W: Write>(alloc: Global, bytes: &[u8], writer: &mut W) -> Result<()> {
    for (place, byte) in bytes.iter().enumerate() {
        write_values(alloc, bytes, place, *byte, writer)?;
    }
    Ok(())
}
