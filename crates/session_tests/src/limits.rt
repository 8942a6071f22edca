ghost use Rattle.std.specs.Prelude.{◌≡◌};
ghost use Rattle.std.specs.Arc.{arc_value};
ghost use Rattle.shard_checker.specs.CheckedView.{checked_view};

use crate::calls::{TIME, commit, key, note_count, put, read};
use crate::checks::{holds, same};
use crate::sharding::accepted;
use crate::threads::{WHOLE, answers};
use filter_tree::{Row, RowFault, Text, Value};
use publisher_desk::{Note, Opening, Publisher, Publishing, ReadFault, Seat};
use shard_checker::Checked;
use std::alloc::{AllocError, Global};
use std::marker::Brand;
use std::process::Abort;
use std::sync::{Arc, Wait};
use std::test::Fail;
use table_changes::Command;
use tables_log::{CommandFault, CommitError};

/// Inserts of the rows from 1 to this number.
fn puts(alloc: Global, count: i64) -> Result<Vec<Command>, AllocError> {
    let mut list = Vec::new(alloc);
    for number in 0..count {
        list.push(put(alloc, number.saturating_add(1), "a")?)?;
    }
    Ok(list)
}

/// A delete of the row with this number.
fn take(alloc: Global, table: usize, number: i64) -> Result<Command, AllocError> {
    Ok(Command::Delete {
        table,
        key: key(alloc, number)?,
    })
}

/// Checks that a commit of this command alone has this answer.
fn expect_one<P: Publishing, R: Wait + Abort>(
    rt: &R,
    alloc: Global,
    publisher: &Publisher<P>,
    seat: &mut Seat<P>,
    command: Command,
    wanted: Result<u32, CommitError>,
) -> Result<(), Fail> {
    let list = vec![in alloc; command]?;
    same(rt, commit(rt, publisher, seat, list), wanted);
    Ok(())
}

/// Checks that a commit of this number of inserts has this answer.
fn expect_many<P: Publishing, R: Wait + Abort>(
    rt: &R,
    alloc: Global,
    publisher: &Publisher<P>,
    seat: &mut Seat<P>,
    count: i64,
    wanted: Result<u32, CommitError>,
) -> Result<(), Fail> {
    same(rt, commit(rt, publisher, seat, puts(alloc, count)?), wanted);
    Ok(())
}

/// Checks that one command on a table with the rows 1 to 1,000 has each fault.
fn expect_faults<P: Publishing, R: Wait + Abort>(
    rt: &R,
    alloc: Global,
    publisher: &Publisher<P>,
    seat: &mut Seat<P>,
) -> Result<(), Fail> {
    let cases = [
        (put(alloc, 1, "b")?, CommandFault::DuplicateKey),
        (take(alloc, 0, 1_001)?, CommandFault::NoSuchRow),
        (take(alloc, 1, 1)?, CommandFault::NoTable),
        (
            put(alloc, 2_147_483_648, "b")?,
            CommandFault::Row(RowFault::OutOfRange(0)),
        ),
    ];
    for (command, fault) in cases {
        let wanted = Err(CommitError::At(1, fault));
        expect_one(rt, alloc, publisher, seat, command, wanted)?;
    }
    Ok(())
}

/// The number, the count of commands and the time of the seat's first note, if that is a receipt.
fn first_receipt<P: Publishing>(seat: &Seat<P>) -> Option<(u32, usize, u64)> {
    match seat.notes().first()? {
        Note::Committed(receipt) => Some((
            receipt.number(),
            receipt.commands().len(),
            receipt.time(),
        )),
        Note::Looked(_) => None,
    }
}

/// Checks that rows are read, and that those of another table are not.
fn expect_readings<P: Publishing, R: Wait + Abort>(
    rt: &R,
    alloc: Global,
    publisher: &Publisher<P>,
    seat: &mut Seat<P>,
) -> Result<(), Fail> {
    let there = read(rt, alloc, publisher, seat, 0, 1_000)?;
    holds(rt, there.number == 2 && there.answer.is_some());
    let copied = there.copy(alloc)?;
    holds(rt, copied.number == 2 && copied.answer.is_some());
    let gone = read(rt, alloc, publisher, seat, 0, 1)?;
    holds(rt, gone.number == 2 && gone.answer.is_none());
    let unknown = read(rt, alloc, publisher, seat, 1, 1);
    holds(rt, matches!(unknown, Err(ReadFault::NoTable)));
    Ok(())
}

/// Checks each answer to a commit and to a reading, if the log may have two commits.
fn expect_answers<P: Publishing, R: Wait + Abort>(
    rt: &R,
    alloc: Global,
    opening: Opening,
    checked: Arc<Checked, Global>,
) -> Result<(), Fail>
    requires name { opening.name ≡ P.name }
    requires parts { opening.parts ≡ P.parts }
    requires seats { opening.parts ≡ 1000 }
    requires history { opening.history ≡ P.history }
    requires slots { opening.slots ≡ P.slots }
    requires checked { checked_view (arc_value checked) ≡ P.checked }
    requires limit { 2 ≡ P.limit }
{
    let (publisher, mut seats) = Publisher::<P>::new(alloc, opening, checked, 2)?;
    let Some(mut seat) = seats.seat() else {
        return Err(Fail::from("no seat"));
    };
    let empty = Err(CommitError::EmptyTransaction);
    expect_many(rt, alloc, &publisher, &mut seat, 0, empty)?;
    let many = Err(CommitError::TooManyCommands);
    expect_many(rt, alloc, &publisher, &mut seat, 1_001, many)?;
    expect_many(rt, alloc, &publisher, &mut seat, 1_000, Ok(1))?;
    expect_faults(rt, alloc, &publisher, &mut seat)?;
    let first = take(alloc, 0, 1)?;
    expect_one(rt, alloc, &publisher, &mut seat, first, Ok(2))?;
    let full = Err(CommitError::LogFull);
    expect_many(rt, alloc, &publisher, &mut seat, 1, full)?;
    expect_readings(rt, alloc, &publisher, &mut seat)?;
    same(rt, note_count(&seat), 4);
    same(rt, first_receipt(&seat), Some((1, 1_000, TIME)));
    Ok(())
}

#[test]
fn each_answer_is_given(rt: HostRuntime) -> Result<(), Fail> {
    let alloc = rt.alloc();
    let checked = accepted(alloc, WHOLE, &["o 0"])?;
    expect_answers::<Brand, _>(&rt, alloc, Opening::new(alloc)?, checked)?;
    Ok(())
}

/// A catalog of a table of 100 texts.
fn wide_catalog(alloc: Global) -> Result<String, AllocError> {
    let mut text = String::from_str(alloc, "CREATE TABLE t (c0 text PRIMARY KEY")?;
    for number in 1..100 {
        write!(text, ", c{number} text")?;
    }
    text.push_str("); CREATE PUBLICATION p FOR TABLE t;")?;
    text.push_str("CREATE SUBSCRIPTION s CONNECTION '' PUBLICATION p;")?;
    Ok(text)
}

/// This number of the longest texts.
fn longest(alloc: Global, count: usize) -> Result<Row, AllocError> {
    let mut values = Vec::new(alloc);
    for _ in 0..count {
        values.push(Value::Text(Text::new("a".repeat(alloc, 65_535)?)))?;
    }
    Ok(Row::from_values(values))
}

/// Whether the longest row is committed and read.
fn longest_is_read<P: Publishing, R: Wait>(
    rt: &R,
    alloc: Global,
    opening: Opening,
    checked: Arc<Checked, Global>,
) -> Result<bool, Fail>
    requires name { opening.name ≡ P.name }
    requires parts { opening.parts ≡ P.parts }
    requires seats { opening.parts ≡ 1000 }
    requires history { opening.history ≡ P.history }
    requires slots { opening.slots ≡ P.slots }
    requires checked { checked_view (arc_value checked) ≡ P.checked }
    requires limit { 1 ≡ P.limit }
{
    let (publisher, mut seats) = Publisher::<P>::new(alloc, opening, checked, 1)?;
    let Some(mut seat) = seats.seat() else {
        return Err(Fail::from("no seat"));
    };
    let insert = Command::Insert {
        table: 0,
        row: longest(alloc, 100)?,
    };
    commit(rt, &publisher, &mut seat, vec![in alloc; insert]?)?;
    let reading = publisher.read(rt, &mut seat, 0, longest(alloc, 1)?)?;
    Ok(answers(&reading, &longest(alloc, 100)?))
}

#[test]
fn the_longest_row_is_committed_and_read(rt: HostRuntime) -> Result<(), Fail> {
    let alloc = rt.alloc();
    let catalog = wide_catalog(alloc)?;
    let checked = accepted(alloc, catalog.as_str(), &["o 0"])?;
    let is_read = longest_is_read::<Brand, _>(&rt, alloc, Opening::new(alloc)?, checked)?;
    holds(&rt, is_read);
    Ok(())
}
