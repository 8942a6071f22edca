//! The closing comparison.

ghost use Rattle.std.specs.Prelude.{◌≡◌, ℕ, List, All, false, map, length, replicate, IfOk, IfErr, OnOk};
ghost use Rattle.shard_checker.specs.CheckedView.{setting_in};
ghost use Rattle.tables_log.specs.BookView.{book_log, book_slots, book_checked, book_limit};
ghost use Rattle.tables_log.specs.Committing.{IsNew};
ghost use Rattle.tables_log.specs.declared.book.Book.{Book};
ghost use Rattle.publisher_desk.specs.Counting.{IsCounted};
ghost use Rattle.publisher_desk.specs.Logged.{AreSeatsIn};
ghost use Rattle.publisher_desk.specs.Seats.{IsForwardSeat, IsTimedSeat};
ghost use Rattle.publisher_desk.specs.SlotSights.{BeginsWith};
ghost use Rattle.publisher_desk.specs.Viewers.{ClosingOf, IsSeenIn};
ghost use Rattle.senders.specs.CloseCauses.{IsCloseCause};
ghost use Rattle.senders.specs.CloseReasons.{RefusedClose};
ghost use Rattle.senders.specs.Closing.{IsClosed};
ghost use Rattle.senders.specs.Histories.{AreInOrder, AreWitnessed};
ghost use Rattle.senders.specs.Replays.{IsAsLong, IsConfirmedAs};
ghost use Rattle.senders.specs.Results.{IsWitnessed, ServedOf};

use crate::close_error::CloseError;
use crate::closed::Closed;
use crate::gathering::{readings_of, receipts_of, sort_readings, sort_receipts};
use crate::numbering::{are_rising, rise};
use crate::reaching::check_starts;
use crate::replaying::replay;
use crate::served::Served;
use crate::taken::are_complete;
use publisher_desk::{Closing, Publishing, Receipt, Seat, Seats};
use std::alloc::Global;
use std::sync::Arc;
use tables_log::Book;

/// The receipts of all seats in the order of their numbers, which are 1 to that of the log's last commit. The errors
/// are `CountDiffers`, `ReceiptMissing` and out of memory.
fn order_receipts<'a, P: Publishing>(
    alloc: Global,
    book: &Book,
    seats: &'a [Seat<P>],
) -> Result<Vec<&'a Receipt>, CloseError>
    ensures ok { IfOk result (λ receipts. AreInOrder seats.now (map (λ receipt. receipt.now) receipts.items)) }
    ensures long { IfOk result (λ receipts. IsAsLong book.now (map (λ receipt. receipt.now) receipts.items)) }
    ensures forward { OnOk result (All IsForwardSeat seats.now) }
    ensures timed { OnOk result (All IsTimedSeat seats.now) }
    ensures err { IfErr result (λ error. (acquired : ℕ) (served : List ServedOf)
        → IsCloseCause book.now acquired seats.now served error) }
{
    let mut receipts = receipts_of(alloc, seats)?;
    let count = book.log_len();
    if receipts.len() != count as usize {
        return Err(CloseError::CountDiffers);
    }
    if !are_rising(seats, count) {
        return Err(CloseError::ReceiptMissing);
    }
    sort_receipts(&mut receipts);
    if !rise(receipts.as_slice(), count) {
        return Err(CloseError::ReceiptMissing);
    }
    Ok(receipts)
}

/// Confirms each slot of the fresh book, of which nothing is confirmed, as far as it is confirmed in the first one.
fn keep_confirmed(fresh: &mut Book, book: &Book, slots: usize)
    requires log { length (book_log book.now) ≡ length (book_log fresh.old) }
    requires unused { book_slots fresh.old ≡ replicate slots (record { confirmed = 0; taken = false }) }
    requires slots { length (book_slots book.now) ≡ slots }
    ensures { IsConfirmedAs (book_slots book.now) fresh.old fresh.new }
{
    for slot in 0..slots {
        let position = book.confirmed(slot);
        let _ = fresh.confirm(slot, position, position);
    }
}

/// Makes the receipts again on the fresh book, which has no commits, and compares readings and connections with it, and
/// the slots of `book` with the connections. The catalog has this number of slots, which streams acquired as often as
/// `acquired` says. The history of the publisher says that the notes of the seats are right, and what the connections
/// have seen of its log and its slots.
fn compare<P: Publishing>(
    alloc: Global,
    fresh: &mut Book,
    book: &Book,
    slots: usize,
    acquired: u64,
    seats: &[Seat<P>],
    served: &[Served<P>],
) -> Result<(), CloseError>
    requires new { IsNew fresh.old (book_checked book.now) (book_limit book.now) }
    requires slots { slots ≡ length (book_checked book.now).catalog.subscriptions }
    ensures ok { (closing : ClosingOf)
        → AreWitnessed (book_checked book.now) closing acquired seats.now served.now book.now
        → book_slots book.now ≡ closing.slots
        → OnOk result ((last : Book) → IsConfirmedAs closing.slots fresh.new last
        → IsClosed (book_checked book.now) (book_limit book.now) closing seats.now served.now last) }
    ensures log { OnOk result (length (book_log book.now) ≡ length (book_log fresh.new)) }
    ensures unused { OnOk result (book_slots fresh.new
        ≡ replicate slots (record { confirmed = 0; taken = false })) }
    ensures err { (closing : ClosingOf)
        → AreWitnessed (book_checked book.now) closing acquired seats.now served.now book.now
        → IfErr result (IsCloseCause book.now acquired seats.now served.now) }
{
    let receipts = order_receipts(alloc, book, seats)?;
    let mut readings = readings_of(alloc, seats)?;
    sort_readings(&mut readings);
    if !replay(fresh, book, receipts.as_slice(), readings.as_slice())? {
        return Err(CloseError::ReadingWrong);
    }
    if !are_complete(book, served) {
        return Err(CloseError::TakenDiffers);
    }
    check_starts(alloc, book, slots, acquired, served)
}

/// Establishes of each connection that what it has seen is the beginning of the log and of the events of the slots.
fn check_all<P: Publishing>(served: &mut [Served<P>], closing: &mut Closing<P>)
    ensures seen { All (λ one. IsSeenIn closing.old one.viewer) served.old }
    ensures witnessed { All (IsWitnessed P.checked) served.old }
    ensures same { served.new ≡ served.old }
    ensures closing { closing.new ≡ closing.old }
{
    for place in 0..served.len() {
        served[place].check(closing);
    }
}

/// Establishes of each seat that what it has seen of the events of the slots is a beginning of them.
fn check_seats<P: Publishing>(seats: &mut [Seat<P>], closing: &mut Closing<P>)
    ensures shown { All (λ seat. BeginsWith closing.old.events seat.events) seats.old }
    ensures same { seats.new ≡ seats.old }
    ensures closing { closing.new ≡ closing.old }
{
    for place in 0..seats.len() {
        closing.check_seat(&mut seats[place]);
    }
}

/// Compares the ledger and the history of the publisher with the seats.
fn count_seats<P: Publishing>(closing: &mut Closing<P>, rest: &mut Seats<P>, seats: &mut [Seat<P>])
    ensures counted { IsCounted P.parts rest.old seats.old (length closing.old.log) }
    ensures logged { AreSeatsIn (setting_in P.checked) closing.old.log seats.old }
    ensures shown { All (λ seat. BeginsWith closing.old.events seat.events) seats.old }
    ensures same { closing.new ≡ closing.old }
    ensures rest { rest.new ≡ rest.old }
    ensures seats { seats.new ≡ seats.old }
{
    check_seats(seats, closing);
    closing.count(rest, seats);
}

/// Compares the ledger and the history of the publisher with the seats, and the history with what the connections have
/// seen.
fn count_all<P: Publishing>(
    closing: &mut Closing<P>,
    rest: &mut Seats<P>,
    seats: &mut Vec<Seat<P>>,
    served: &mut Vec<Served<P>>,
)
    ensures counted { IsCounted P.parts rest.old seats.old.items (length closing.old.log) }
    ensures logged { AreSeatsIn (setting_in P.checked) closing.old.log seats.old.items }
    ensures shown { All (λ seat. BeginsWith closing.old.events seat.events) seats.old.items }
    ensures seen { All (λ one. IsSeenIn closing.old one.viewer) served.old.items }
    ensures witnessed { All (IsWitnessed P.checked) served.old.items }
    ensures closing { closing.new ≡ closing.old }
    ensures rest { rest.new ≡ rest.old }
    ensures seats { seats.new.items ≡ seats.old.items }
    ensures served { served.new.items ≡ served.old.items }
{
    check_all(served.as_mut_slice(), closing);
    count_seats(closing, rest, seats.as_mut_slice());
}

/// Closes a publisher whose sessions and connections are over: `closing` is what `Publisher::into_closing` returns.
/// `rest` are the seats that were never handed out, `seats` those of the sessions, and `served` the results of the
/// connections. The receipts of all seats are made again on a book without commits, in the order of their numbers:
/// their commands have to be accepted, and each entry has to be that of the publisher's log. Each reading has to be
/// the row of its key after the number of commits that it says. The commits that each connection took need no
/// comparison with the log, since its type says that they are those of the log from its start on; they have to reach
/// the log's end if it was finished, and to be those that count as sent to its client, but for at most 64 more. So
/// only the sender of a connection may ask for steps of its slot. Each stream that acquired a slot has to be that of a
/// connection that is passed in. In the order of these acquisitions, each commit before the start of a connection has
/// to be one that was taken for an earlier connection of its slot, whose client confirmed it, or to be before a
/// position that its client, or that of an earlier one of the slot, requested. The same has to hold of each commit
/// before the position up to which each slot of the publisher is confirmed, as if a stream that no client requested
/// started there after all others. That no stream starts before a position that an earlier connection of its slot
/// reports as confirmed, and that no slot is confirmed before such a position in the end, need no comparison, by the
/// order of the events of the slots. The book that is returned is the one on which the receipts were made again. Its
/// slots are free, and confirmed as far as the publisher's.
///
/// `closing` and `rest` stay as they are. So a seat or a connection that is not passed in can be compared with them
/// afterwards, by `Closing::count` or `Served::check`.
///
/// It takes the time to commit all commands again, as in `Book::commit`; to sort the receipts, the readings and the
/// connections; to look up the row of each reading; and to pass over the connections twice for each slot.
///
/// # Errors
///
/// The first of `CountDiffers`, `ReceiptMissing`, `ReadingWrong`, `TakenDiffers`, `ConnectionMissing`, `StartLate` and
/// `SlotDiffers`, or `OutOfMemory` instead of any of them if an allocation was refused. `CountDiffers` is returned only
/// if a seat is held back. `ReceiptMissing` and `ReadingWrong` are never returned, since the publisher's history says
/// that the notes of its seats are right. If there is an error, the seats and the connections that were passed in are
/// dropped.
///
/// PostgreSQL 15, 3.4. Transactions, and 55.4. Streaming Replication Protocol.
pub fn close<P: Publishing>(
    closing: &mut Closing<P>,
    rest: &mut Seats<P>,
    mut seats: Vec<Seat<P>>,
    mut served: Vec<Served<P>>,
) -> Result<Closed<P>, CloseError>
    ensures ok { IfOk result (λ closed.
        IsClosed P.checked P.limit closing.old seats.items served.items closed.book) }
    ensures seats { IfOk result (λ closed. closed.seats.items ≡ seats.items) }
    ensures served { IfOk result (λ closed. closed.served.items ≡ served.items) }
    ensures refused { IfErr result (
        RefusedClose P.checked P.limit P.parts rest.old closing.old seats.items served.items) }
    ensures closing { closing.new ≡ closing.old }
    ensures rest { rest.new ≡ rest.old }
{
    let alloc = closing.allocator();
    let shared = Arc::try_clone(closing.checked());
    count_all(closing, rest, &mut seats, &mut served);
    let book = closing.book();
    let checked = shared?;
    let slots = checked.catalog().subscriptions.len();
    let mut fresh = Book::new(alloc, checked, book.limit())?;
    compare(
        alloc,
        &mut fresh,
        book,
        slots,
        closing.acquisitions(),
        seats.as_slice(),
        served.as_slice(),
    )?;
    book.has_each_slot();
    keep_confirmed(&mut fresh, book, slots);
    Ok(Closed {
        book: fresh,
        seats,
        served,
    })
}
