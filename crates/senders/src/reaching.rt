//! Whether no stream started after commits that no client of its slot confirmed, and whether no slot is confirmed past
//! such commits in the end.

ghost use Rattle.std.specs.Prelude.{◌≡◌, ◌≢◌, ◌<◌, IfErr, IfNone, IfOk, IfSome, MatchBool, OnOk, OnSome, Some, false, map, true};
ghost use Rattle.std.specs.List.{range_with_len};
ghost use Rattle.std.specs.List.Sorted.{IsNonDecreasingBy, IsPermutation};
ghost use Rattle.tables_log.specs.BookView.{book_slots};
ghost use Rattle.senders.specs.Reached.{AllEndReached, AreReached, EndsReached, IsReached, numbers_in, started_in};
ghost use Rattle.senders.specs.Results.{taken_from};
ghost use Rattle.senders.specs.Starts.{AreInTime, IsReach, IsStartCause};

use crate::close_error::CloseError;
use crate::served::Served;
use crate::taken::{commits_before, commits_confirmed};
use publisher_desk::Publishing;
use std::alloc::{AllocError, Global};
use tables_log::{Book, Lsn, SlotNumber};

/// The connections that started a stream, by reference. The only error is out of memory.
fn starts_in<P: Publishing>(
    alloc: Global,
    served: &[Served<P>],
) -> Result<Vec<&Served<P>>, AllocError>
    ensures { IfOk result (λ starts. map (λ one. one.now) starts.items ≡ started_in served.now) }
{
    let mut starts = Vec::new(alloc);
    for one in served {
        if let Some(_) = one.start() {
            starts.push(one)?;
        }
    }
    Ok(starts)
}

/// Puts the connections into the order of their numbers.
fn sort_by_number<P: Publishing>(starts: &mut Vec<&Served<P>>)
    ensures all { IsPermutation (map (λ one. one.now) starts.old.items) (map (λ one. one.now) starts.new.items) }
    ensures sorted { IsNonDecreasingBy (λ one. one.number) (map (λ one. one.now) starts.new.items) }
{
    starts.sort_unstable_by_key(|one| one.number());
}

/// Whether the numbers of the connections are 1 to this count.
fn are_numbered<P: Publishing>(starts: &[&Served<P>], count: u64) -> bool
    ensures { MatchBool result (numbers_in (map (λ one. one.now) starts.now) ≡ range_with_len 1 count)
        (numbers_in (map (λ one. one.now) starts.now) ≢ range_with_len 1 count) }
{
    if starts.len() as u64 != count {
        return false;
    }
    let mut next = 1;
    for one in starts {
        if one.number() != next {
            return false;
        }
        next += 1;
    }
    true
}

/// Whether the connection is of this slot.
fn is_of<P: Publishing>(one: &Served<P>, slot: SlotNumber) -> bool
    ensures { MatchBool result (one.now.slot ≡ Some slot) (one.now.slot ≢ Some slot) }
{
    one.slot() == Some(slot)
}

/// Whether the connection started after this number of commits, although its client requested no position.
fn is_late<P: Publishing>(one: &Served<P>, reach: u64) -> bool
    ensures { MatchBool result ((reach < taken_from one.now) × (one.now.is_requested ≡ false))
        (reach < taken_from one.now → one.now.is_requested ≡ true) }
{
    commits_before(one) > reach && !one.is_requested()
}

/// How many of the log's first commits were taken for a connection of the slot whose client confirmed them, or are
/// before a position that a client of the slot requested; `None` if a connection of the slot started after a commit
/// that is not so accounted for by it or by one before it.
fn reach_in<P: Publishing>(starts: &[&Served<P>], slot: SlotNumber) -> Option<u64>
    ensures reached { OnSome result (IsReached (map (λ one. one.now) starts.now) slot) }
    ensures reach { IfSome result (IsReach (map (λ one. one.now) starts.now) slot) }
    ensures late { IfNone result (¬ IsReached (map (λ one. one.now) starts.now) slot) }
{
    let mut reach = 0;
    for one in starts {
        if is_of(one, slot) {
            if is_late(one, reach) {
                return None;
            }
            reach = reach.max(commits_before(one)).max(commits_confirmed(one));
        }
    }
    Some(reach)
}

/// Whether each commit before the start of a connection of the slot was taken for a connection of the slot before it,
/// whose client confirmed it, or is before a position that its client, or that of one of the slot before it, requested.
fn is_reached<P: Publishing>(starts: &[&Served<P>], slot: SlotNumber) -> bool
    ensures { MatchBool result (IsReached (map (λ one. one.now) starts.now) slot)
        (¬ IsReached (map (λ one. one.now) starts.now) slot) }
{
    reach_in(starts, slot).is_some()
}

/// Whether this is so of each of this number of slots.
fn are_reached<P: Publishing>(starts: &[&Served<P>], slots: usize) -> bool
    ensures { MatchBool result (AreReached slots (map (λ one. one.now) starts.now))
        (¬ AreReached slots (map (λ one. one.now) starts.now)) }
{
    for slot in 0..slots {
        if !is_reached(starts, slot) {
            return false;
        }
    }
    true
}

/// Whether each commit before the position up to which the book's slot is confirmed was taken for a connection of the
/// slot whose client confirmed it, or is before a position that a client of the slot requested.
fn is_kept<P: Publishing>(starts: &[&Served<P>], book: &Book, slot: SlotNumber) -> bool
    requires reached { IsReached (map (λ one. one.now) starts.now) slot }
    ensures { MatchBool result (EndsReached (map (λ one. one.now) starts.now) (book_slots book.now) slot)
        (¬ EndsReached (map (λ one. one.now) starts.now) (book_slots book.now) slot) }
{
    let Some(reach) = reach_in(starts, slot) else {
        return false;
    };
    Lsn::new(book.confirmed(slot)).commits_before() <= reach
}

/// Whether this is so of each of this number of slots.
fn are_kept<P: Publishing>(starts: &[&Served<P>], book: &Book, slots: usize) -> bool
    requires reached { AreReached slots (map (λ one. one.now) starts.now) }
    ensures { MatchBool result (AllEndReached slots (book_slots book.now) (map (λ one. one.now) starts.now))
        (¬ AllEndReached slots (book_slots book.now) (map (λ one. one.now) starts.now)) }
{
    for slot in 0..slots {
        if !is_kept(starts, book, slot) {
            return false;
        }
    }
    true
}

/// Checks that, of this number of acquisitions of slots, each is that of a connection. Then, for each of this number of
/// slots, in the order of their numbers: each commit before the start of a connection of the slot was taken for an
/// earlier one of the slot, whose client confirmed it, or is before a position that its client, or that of an earlier
/// one of the slot, requested. Then, for each of these slots: each commit before the position up to which the book's
/// slot is confirmed was taken for a connection of the slot, whose client confirmed it, or is before a position that a
/// client of the slot requested.
///
/// It takes the time to sort the connections once, and to pass over them twice for each slot.
///
/// # Errors
///
/// The first of `ConnectionMissing`, `StartLate` and `SlotDiffers`, or out of memory.
pub(crate) fn check_starts<P: Publishing>(
    alloc: Global,
    book: &Book,
    slots: usize,
    acquired: u64,
    served: &[Served<P>],
) -> Result<(), CloseError>
    ensures ok { OnOk result (AreInTime slots (book_slots book.now) acquired served.now) }
    ensures err { IfErr result (IsStartCause slots (book_slots book.now) acquired served.now) }
{
    let mut starts = starts_in(alloc, served)?;
    sort_by_number(&mut starts);
    let order = starts.as_slice();
    if !are_numbered(order, acquired) {
        return Err(CloseError::ConnectionMissing);
    }
    if !are_reached(order, slots) {
        return Err(CloseError::StartLate);
    }
    if !are_kept(order, book, slots) {
        return Err(CloseError::SlotDiffers);
    }
    Ok(())
}
