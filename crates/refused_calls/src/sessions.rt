//! `Publisher::commit`.

ghost use Rattle.std.specs.Prelude.{◌≡◌};
ghost use Rattle.std.specs.Arc.{arc_value};
ghost use Rattle.shard_checker.specs.CheckedView.{checked_view};

use crate::calls;
use crate::calls::count_notes;
use crate::commands::{commands, first_commits};
use crate::publishers::COMMITS;
use crate::refusals::{end_refusals, refuse};
use crate::sharding::checked;
use crate::tables::check_book;
use anyhow::{Context, Result, ensure};
use senders::{Opening, Publisher, Publishing, Seat, Seats, Served, close};
use shard_checker::Checked;
use std::alloc::Global;
use std::marker::Brand;
use std::sync::{Arc, Wait};
use tables_log::CommitError;

/// The number of commits that the log may have.
pub const LIMIT: u32 = 5;

/// Makes all commits but the last.
pub fn commit_first<P: Publishing, R: Wait>(
    rt: &R,
    alloc: Global,
    publisher: &Publisher<P>,
    seat: &mut Seat<P>,
) -> Result<()> {
    for commands in first_commits(alloc)? {
        calls::publish(rt, publisher, seat, commands)?;
    }
    Ok(())
}

/// Checks that the publisher can be closed, with a book of all commits.
pub fn check_closes<P: Publishing>(
    alloc: Global,
    publisher: Publisher<P>,
    mut rest: Seats<P>,
    seat: Seat<P>,
    served: Vec<Served<P>>,
) -> Result<()> {
    let mut seats = Vec::new(alloc);
    seats.push(seat)?;
    let mut closing = publisher.into_closing();
    let closed = close(&mut closing, &mut rest, seats, served)?;
    check_book(alloc, &closed.book, COMMITS)
}

/// Makes the last commit with request `number` refused, and tests what follows: the seat is as it was, and
/// the same commit is accepted next. Returns whether it was refused.
fn commit_last<P: Publishing, R: Wait>(
    rt: &R,
    alloc: Global,
    publisher: &Publisher<P>,
    seat: &mut Seat<P>,
    number: u16,
) -> Result<bool> {
    let list = commands(alloc)?;
    let notes = count_notes(seat);
    refuse(alloc, number)?;
    let answer = calls::publish(rt, publisher, seat, list);
    let was_refused = end_refusals(alloc)?;
    if answer == Err(CommitError::OutOfMemory) {
        ensure!(was_refused, "memory is refused without a cause");
        ensure!(
            count_notes(seat) == notes,
            "the seat has a note of a refused commit"
        );
        let answer = calls::publish(rt, publisher, seat, commands(alloc)?);
        ensure!(
            answer == Ok(LIMIT),
            "the same commit is answered {answer:?}"
        );
    } else {
        ensure!(answer == Ok(LIMIT), "the commit is answered {answer:?}");
    }
    Ok(was_refused)
}

/// Has a session of a new publisher make the last commit with request `number` refused.
fn publish<P: Publishing, R: Wait>(
    rt: &R,
    alloc: Global,
    opening: Opening,
    checked: Arc<Checked, Global>,
    number: u16,
) -> Result<bool>
    requires name { opening.name ≡ P.name }
    requires parts { opening.parts ≡ P.parts }
    requires seats { opening.parts ≡ 1000 }
    requires history { opening.history ≡ P.history }
    requires slots { opening.slots ≡ P.slots }
    requires checked { checked_view (arc_value checked) ≡ P.checked }
    requires limit { 5 ≡ P.limit }
{
    let (publisher, mut seats) = Publisher::<P>::new(alloc, opening, checked, LIMIT)?;
    let mut seat = seats.seat().context("there is no seat")?;
    commit_first(rt, alloc, &publisher, &mut seat)?;
    let was_refused = commit_last(rt, alloc, &publisher, &mut seat, number)?;
    check_closes(alloc, publisher, seats, seat, Vec::new(alloc))?;
    Ok(was_refused)
}

/// Has a session make the last commit with request `number` refused, and tests what follows. Returns whether
/// it was refused.
pub fn is_refused<R: Wait>(rt: &R, alloc: Global, number: u16) -> Result<bool> {
    publish::<Brand, _>(rt, alloc, Opening::new(alloc)?, checked(alloc)?, number)
}
