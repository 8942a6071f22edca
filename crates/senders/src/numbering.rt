//! Whether the numbers of receipts increase.

ghost use Rattle.std.specs.Prelude.{◌≡◌, All, IsTrue, MatchBool, map};
ghost use Rattle.publisher_desk.specs.Seats.{IsForwardSeat, IsTimedSeat};
ghost use Rattle.publisher_desk.specs.Logged.{RiseTo};
ghost use Rattle.senders.specs.Gathering.{numbers_of, IsRising, IsRisingSeat};

use publisher_desk::{Note, Publishing, Receipt, Seat};
use tables_log::CommitNumber;

/// Whether the numbers increase, and are from 1 to `high`.
pub(crate) fn rise(receipts: &[&Receipt], high: CommitNumber) -> bool
    ensures { MatchBool result (RiseTo high 0 (numbers_of (map (λ receipt. receipt.now) receipts.now)))
        (¬ RiseTo high 0 (numbers_of (map (λ receipt. receipt.now) receipts.now))) }
{
    let mut last = 0;
    for receipt in receipts {
        let number = receipt.number();
        if number <= last || number > high {
            return false;
        }
        last = number;
    }
    true
}

/// Whether the numbers of the receipts among the notes increase, and are from 1 to `high`.
fn is_rising(notes: &[Note], high: CommitNumber) -> bool
    ensures { MatchBool result (IsRising high notes.now) (¬ IsRising high notes.now) }
{
    let mut last = 0;
    for note in notes {
        if let Note::Committed(receipt) = note {
            let number = receipt.number();
            if number <= last || number > high {
                return false;
            }
            last = number;
        }
    }
    true
}

/// Whether the numbers of each seat's receipts increase, and are from 1 to `high`. In any seat, a reading counts at
/// least as many commits as each note before it (`forward`).
pub(crate) fn are_rising<P: Publishing>(seats: &[Seat<P>], high: CommitNumber) -> bool
    ensures rising { MatchBool result (All (IsRisingSeat high) seats.now) (¬ All (IsRisingSeat high) seats.now) }
    ensures forward { IsTrue result → All IsForwardSeat seats.now }
    ensures timed { IsTrue result → All IsTimedSeat seats.now }
{
    for seat in seats {
        if !is_rising(seat.notes(), high) {
            return false;
        }
    }
    true
}
