ghost use Rattle.std.specs.Prelude.{◌≡◌};
ghost use Rattle.std.specs.Arc.{arc_value};
ghost use Rattle.shard_checker.specs.CheckedView.{checked_view};

use crate::calls::{commit, key, note_count, read, row};
use crate::checks::same;
use crate::sharding::accepted;
use filter_tree::Row;
use publisher_desk::{Opening, Publisher, Publishing, Reading, Seat};
use shard_checker::Checked;
use std::alloc::{AllocError, Global};
use std::marker::Brand;
use std::sync::{Arc, Wait};
use std::test::Fail;
use std::thread::{Threads, join};
use table_changes::Command;

/// A table of numbered rows that one subscriber takes whole.
pub(crate) const WHOLE: &str = "CREATE TABLE t (id integer PRIMARY KEY, word text);
CREATE PUBLICATION p FOR ALL TABLES;
CREATE SUBSCRIPTION s CONNECTION '' PUBLICATION p;";

/// The command that gives a session's row this text: an insert, and then updates.
fn write(alloc: Global, number: i64, text: &str, is_there: bool) -> Result<Command, AllocError> {
    let row = row(alloc, number, text)?;
    if !is_there {
        return Ok(Command::Insert { table: 0, row });
    }
    Ok(Command::Update {
        table: 0,
        key: key(alloc, number)?,
        row,
    })
}

/// Whether the reading returns this row.
pub(crate) fn answers(reading: &Reading, wanted: &Row) -> bool {
    match &reading.answer {
        None => false,
        Some(found) => *found == *wanted,
    }
}

/// Writes the session's row once. Returns whether it is then read as it was written; `None` if a call is refused.
fn turn<P: Publishing, R: Wait>(
    rt: &R,
    alloc: Global,
    publisher: &Publisher<P>,
    seat: &mut Seat<P>,
    number: i64,
    count: u32,
) -> Option<bool> {
    let text = format!(in alloc; "{count}").ok()?;
    let command = write(alloc, number, &text, count > 0).ok()?;
    let commands = vec![in alloc; command].ok()?;
    commit(rt, publisher, seat, commands).ok()?;
    let reading = read(rt, alloc, publisher, seat, 0, number).ok()?;
    let wanted = row(alloc, number, &text).ok()?;
    Some(answers(&reading, &wanted))
}

/// Whether each of 50 writes of the session's row is read as it was written.
fn session<P: Publishing, R: Wait>(
    rt: &R,
    alloc: Global,
    publisher: &Publisher<P>,
    seat: &mut Seat<P>,
    number: i64,
) -> bool {
    for count in 0..50 {
        if turn(rt, alloc, publisher, seat, number, count) != Some(true) {
            return false;
        }
    }
    true
}

/// Whether the session reads the row of another session as that one last wrote it.
fn reads_last<P: Publishing, R: Wait>(
    rt: &R,
    alloc: Global,
    publisher: &Publisher<P>,
    seat: &mut Seat<P>,
    number: i64,
) -> bool {
    let Ok(wanted) = row(alloc, number, "49") else {
        return false;
    };
    match read(rt, alloc, publisher, seat, 0, number) {
        Ok(reading) => answers(&reading, &wanted),
        Err(_) => false,
    }
}

/// Runs two sessions in two threads; returns the number of commits afterwards.
fn both_sessions<P: Publishing + Sync, R: Threads + Wait + Sync>(
    rt: &R,
    alloc: Global,
    opening: Opening,
    checked: Arc<Checked, Global>,
) -> Result<u32, Fail>
    requires name { opening.name ≡ P.name }
    requires parts { opening.parts ≡ P.parts }
    requires seats { opening.parts ≡ 1000 }
    requires history { opening.history ≡ P.history }
    requires slots { opening.slots ≡ P.slots }
    requires checked { checked_view (arc_value checked) ≡ P.checked }
    requires limit { 100 ≡ P.limit }
{
    let (publisher, mut seats) = Publisher::<P>::new(alloc, opening, checked, 100)?;
    let (Some(mut first), Some(mut second)) = (seats.seat(), seats.seat()) else {
        return Err(Fail::from("no seat"));
    };
    let shared = &publisher;
    let (one, other) = join(
        rt,
        || session(rt, alloc, shared, &mut first, 1),
        || session(rt, alloc, shared, &mut second, 2),
    );
    if !(one && other) || note_count(&first) != 100 || note_count(&second) != 100 {
        return Err(Fail::from("a session did not read its own last write"));
    }
    let reads_both = reads_last(rt, alloc, shared, &mut first, 2)
        && reads_last(rt, alloc, shared, &mut second, 1);
    if !reads_both {
        return Err(Fail::from("a session did not read the other one's last write"));
    }
    let mut both = Vec::new(alloc);
    both.push(first)?;
    both.push(second)?;
    let mut closing = publisher.into_closing();
    closing.count(&mut seats, both.as_mut_slice());
    Ok(closing.book().log_len())
}

#[test]
fn each_of_two_sessions_reads_the_last_writes_of_both(rt: HostRuntime) -> Result<(), Fail> {
    let alloc = rt.alloc();
    let checked = accepted(alloc, WHOLE, &["o 0"])?;
    let commits = both_sessions::<Brand, _>(&rt, alloc, Opening::new(alloc)?, checked)?;
    same(&rt, commits, 100);
    Ok(())
}
