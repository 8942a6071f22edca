//! Receipts that are committed again, and readings that are compared with the tables in between.

ghost use Rattle.std.specs.Prelude.{◌≡◌, ◌≢◌, ◌≤◌, All, map, length, MatchBool, IfOk, IfErr, OnOk};
ghost use Rattle.std.specs.Option.{option_map};
ghost use Rattle.std.specs.List.Sorted.{IsNonDecreasingBy};
ghost use Rattle.tables_log.specs.BookView.{book_log, book_setting};
ghost use Rattle.tables_log.specs.Logs.{entry_at};
ghost use Rattle.tables_log.specs.declared.error.CommitError.TheVariants as e;
ghost use Rattle.publisher_desk.specs.Receipts.{transactions_of};
ghost use Rattle.senders.specs.Histories.{IsRight};
ghost use Rattle.senders.specs.Replays.{IsAgain, IsNotAgain, IsMissingFor, Replays, IsAsLong, IsUnlikeIn};

use crate::close_error::CloseError;
use crate::readings::is_right_now;
use publisher_desk::{Reading, Receipt};
use tables_log::{Book, Commit, CommitError, CommitNumber};

/// Whether there are equal commits, or none.
fn are_same(one: Option<&Commit>, other: Option<&Commit>) -> bool
    ensures { MatchBool result
        (option_map (λ commit. commit.now) one.entry ≡ option_map (λ commit. commit.now) other.entry)
        (option_map (λ commit. commit.now) one.entry ≢ option_map (λ commit. commit.now) other.entry) }
{
    match one {
        None => other.is_none(),
        Some(commit) => is_same(commit, other),
    }
}

/// Whether there is an equal commit.
fn is_same(commit: &Commit, other: Option<&Commit>) -> bool
    ensures { MatchBool result
        (Some commit.now ≡ option_map (λ commit. commit.now) other.entry)
        (Some commit.now ≢ option_map (λ commit. commit.now) other.entry) }
{
    match other {
        None => false,
        Some(found) => commit.same(found),
    }
}

/// Whether the books have the same entry with this number.
fn have_same_entry(one: &Book, other: &Book, number: CommitNumber) -> bool
    ensures { MatchBool result
        (entry_at (book_log one.now) number ≡ entry_at (book_log other.now) number)
        (entry_at (book_log one.now) number ≢ entry_at (book_log other.now) number) }
{
    are_same(one.entry(number), other.entry(number))
}

/// Whether an allocation was refused.
fn is_memory(error: &CommitError) -> bool
    ensures { MatchBool result (error.now ≡ e.OutOfMemory) (error.now ≢ e.OutOfMemory) }
{
    match error {
        CommitError::OutOfMemory => true,
        _ => false,
    }
}

/// Commits the receipt's commands to the fresh book, and compares the log's entry with that of the first book.
fn make_again(fresh: &mut Book, book: &Book, receipt: &Receipt) -> Result<(), CloseError>
    ensures ok { OnOk result (IsAgain book.now fresh.old fresh.new receipt.now) }
    ensures err { IfErr result (IsMissingFor (IsNotAgain book.now fresh.old receipt.now)) }
{
    match fresh.commit(receipt.commands(), receipt.time()) {
        Ok(number) => {
            if !have_same_entry(book, fresh, number) {
                return Err(CloseError::ReceiptMissing);
            }
            Ok(())
        }
        Err(error) => {
            if is_memory(&error) {
                return Err(CloseError::OutOfMemory);
            }
            Err(CloseError::ReceiptMissing)
        }
    }
}

/// Makes receipts again until the fresh book has this number of commits.
fn advance(
    fresh: &mut Book,
    book: &Book,
    receipts: &[&Receipt],
    count: usize,
) -> Result<(), CloseError>
    requires so_far { Replays book.now fresh.old (map (λ receipt. receipt.now) receipts.now) }
    requires long { IsAsLong book.now (map (λ receipt. receipt.now) receipts.now) }
    requires low { length (book_log fresh.old) ≤ count }
    requires high { count ≤ length receipts.now }
    ensures ok { OnOk result (Replays book.now fresh.new (map (λ receipt. receipt.now) receipts.now)) }
    ensures count { OnOk result (length (book_log fresh.new) ≡ count) }
    ensures err { IfErr result (IsUnlikeIn book.now (map (λ receipt. receipt.now) receipts.now)) }
{
    for place in fresh.log_len() as usize..count {
        make_again(fresh, book, receipts[place])?;
    }
    Ok(())
}

/// Makes receipts again until the fresh book has as many commits as the reading counts, and returns whether it is
/// right. If there are fewer receipts, the reading is wrong.
fn read_again(
    fresh: &mut Book,
    book: &Book,
    receipts: &[&Receipt],
    reading: &Reading,
) -> Result<bool, CloseError>
    requires so_far { Replays book.now fresh.old (map (λ receipt. receipt.now) receipts.now) }
    requires long { IsAsLong book.now (map (λ receipt. receipt.now) receipts.now) }
    requires low { length (book_log fresh.old) ≤ reading.now.number }
    requires few { length (book_log fresh.old) ≤ length receipts.now }
    ensures ok { OnOk result (Replays book.now fresh.new (map (λ receipt. receipt.now) receipts.now)) }
    ensures low { OnOk result (length (book_log fresh.new) ≤ reading.now.number) }
    ensures few { OnOk result (length (book_log fresh.new) ≤ length receipts.now) }
    ensures right { IfOk result (λ is. MatchBool is
        (IsRight (book_setting book.now) (transactions_of (map (λ receipt. receipt.now) receipts.now)) reading.now)
        (¬ IsRight (book_setting book.now) (transactions_of (map (λ receipt. receipt.now) receipts.now)) reading.now)) }
    ensures err { IfErr result (IsUnlikeIn book.now (map (λ receipt. receipt.now) receipts.now)) }
{
    let count = reading.number as usize;
    if count > receipts.len() {
        return Ok(false);
    }
    advance(fresh, book, receipts, count)?;
    Ok(is_right_now(fresh, reading))
}

/// Makes all receipts again, and returns whether all readings are right. The readings are in the order of their
/// numbers.
pub(crate) fn replay(
    fresh: &mut Book,
    book: &Book,
    receipts: &[&Receipt],
    readings: &[&Reading],
) -> Result<bool, CloseError>
    requires so_far { Replays book.now fresh.old (map (λ receipt. receipt.now) receipts.now) }
    requires none { length (book_log fresh.old) ≡ 0 }
    requires long { IsAsLong book.now (map (λ receipt. receipt.now) receipts.now) }
    requires sorted { IsNonDecreasingBy (λ reading. reading.now.number) readings.now }
    ensures ok { OnOk result (Replays book.now fresh.new (map (λ receipt. receipt.now) receipts.now)) }
    ensures all { OnOk result (length (book_log fresh.new) ≡ length receipts.now) }
    ensures right { IfOk result (λ are. MatchBool are
        (All (IsRight (book_setting book.now) (transactions_of (map (λ receipt. receipt.now) receipts.now)))
        (map (λ reading. reading.now) readings.now))
        (¬ All (IsRight (book_setting book.now) (transactions_of (map (λ receipt. receipt.now) receipts.now)))
        (map (λ reading. reading.now) readings.now))) }
    ensures err { IfErr result (IsUnlikeIn book.now (map (λ receipt. receipt.now) receipts.now)) }
{
    let mut are_right = true;
    for reading in readings {
        if !read_again(fresh, book, receipts, reading)? {
            are_right = false;
        }
    }
    advance(fresh, book, receipts, receipts.len())?;
    Ok(are_right)
}
