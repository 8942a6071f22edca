//! The session that commits a script.

ghost use Rattle.std.specs.Prelude.{◌≤◌, map, length, OnOk};
ghost use Rattle.cli.specs.Scripts.{list_view};
ghost use Rattle.cli.specs.Sessions.{AreCommitted, TakesUp};

use senders::{Publisher, Publishing, Seat};
use std::alloc::AllocError;
use std::mem;
use std::sync::Wait;
use table_changes::Command;
use tables_log::CommitError;

/// Commits a list, or skips it if it is refused. The only error is out of memory.
fn take_up<P: Publishing, R: Wait>(
    rt: &R,
    publisher: &Publisher<P>,
    seat: &mut Seat<P>,
    commands: Vec<Command>,
    time: u64,
) -> Result<(), AllocError>
    ensures { OnOk result (TakesUp P.checked P.limit time (list_view commands) seat.old seat.new) }
{
    if let Err(error) = publisher.commit(rt, seat, commands, time) {
        if error == CommitError::OutOfMemory {
            return Err(AllocError);
        }
    }
    Ok(())
}

/// Commits the lists one after another, each at the time of its number, from 1, as `simulate` does. So a script always
/// makes the same log. A list that is refused changes nothing, and is skipped.
///
/// # Errors
///
/// Out of memory, at the first list that meets it; no later list is committed.
fn commit_all<P: Publishing, R: Wait>(
    rt: &R,
    publisher: &Publisher<P>,
    seat: &mut Seat<P>,
    lists: Vec<Vec<Command>>,
) -> Result<(), AllocError>
    requires { length lists.items ≤ 100000 }
    ensures { OnOk result (AreCommitted P.checked P.limit 1 (map list_view lists.items) seat.old seat.new) }
{
    let mut time: u64 = 0;
    for commands in lists {
        time += 1;
        take_up(rt, publisher, seat, commands, time)?;
    }
    Ok(())
}

/// Commits the lists, and then finishes the publisher, so that its senders end when they have taken all commits.
pub fn commit_and_finish<P: Publishing, R: Wait>(
    rt: &R,
    publisher: &Publisher<P>,
    seat: &mut Seat<P>,
    lists: &mut Vec<Vec<Command>>,
) -> Result<(), AllocError>
    requires { length lists.old.items ≤ 100000 }
    ensures { OnOk result (AreCommitted P.checked P.limit 1 (map list_view lists.old.items) seat.old
        seat.new) }
{
    let lists = mem::replace(lists, Vec::new(publisher.allocator()));
    let committed = commit_all(rt, publisher, seat, lists);
    publisher.finish(rt);
    committed
}
