//! Calls that several tests make, and the rows that they use.

use filter_tree::{Row, Text, Value};
use publisher_desk::{Publisher, Publishing, ReadFault, Reading, Seat};
use std::alloc::{AllocError, Global};
use std::sync::Wait;
use table_changes::Command;
use tables_log::CommitError;

/// The time of each commit, which has bits past the first 32.
pub(crate) const TIME: u64 = 0x8000_0100_0000_0001;

/// The key of the row with this number.
pub(crate) fn key(alloc: Global, number: i64) -> Result<Row, AllocError> {
    Ok(Row::from_values(vec![in alloc; Value::Int(number)]?))
}

/// The row of this number, with a text.
pub(crate) fn row(alloc: Global, number: i64, text: &str) -> Result<Row, AllocError> {
    let text = Value::Text(Text::from_str(alloc, text)?);
    Ok(Row::from_values(vec![in alloc; Value::Int(number), text]?))
}

/// An insert of the row of this number, with a text.
pub(crate) fn put(alloc: Global, number: i64, text: &str) -> Result<Command, AllocError> {
    Ok(Command::Insert {
        table: 0,
        row: row(alloc, number, text)?,
    })
}

/// The answer to a commit of the commands.
pub(crate) fn commit<P: Publishing, R: Wait>(
    rt: &R,
    publisher: &Publisher<P>,
    seat: &mut Seat<P>,
    commands: Vec<Command>,
) -> Result<u32, CommitError> {
    publisher.commit(rt, seat, commands, TIME)
}

/// The answer to a reading of the row with this number.
pub(crate) fn read<P: Publishing, R: Wait>(
    rt: &R,
    alloc: Global,
    publisher: &Publisher<P>,
    seat: &mut Seat<P>,
    table: usize,
    number: i64,
) -> Result<Reading, ReadFault> {
    publisher.read(rt, seat, table, key(alloc, number)?)
}

/// How many notes the seat has.
pub(crate) fn note_count<P: Publishing>(seat: &Seat<P>) -> usize {
    seat.notes().len()
}
