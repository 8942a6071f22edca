//! Counts of receipts, as the ledger has them.

ghost use Rattle.std.specs.Prelude.{◌≡◌, ◌+◌, ◌≤◌, length, true};
ghost use Rattle.publisher_desk.specs.Counting.{total_receipts};
ghost use Rattle.publisher_desk.specs.Logged.{AreLogged};
ghost use Rattle.publisher_desk.specs.Seats.{receipts};
ghost use Rattle.shard_checker.specs.CheckedView.{setting_in};

use crate::history::History;
use crate::naming::Publishing;
use crate::note::Note;
use crate::seat::Seat;
use std::mem;
use std::sync::ledger::{Book, Share};

/// How many of the notes are receipts.
fn count_receipts(notes: &[Note]) -> u64
    ensures { result ≡ receipts notes.now }
{
    let mut count = 0;
    for note in notes {
        if matches!(note, Note::Committed(_)) {
            count += 1;
        }
    }
    count
}

/// Compares the ledger's total with the receipts of the seats, and what the seats know with the history. Each seat
/// lends its part of the ledger to `all`, and its sight to the history, and gets them back. Only a share with every
/// part shows the total, and the seats keep theirs, so the comparison is made at the bottom of a recursion over the
/// seats, of which there are at most 1,000.
#[tactic(auto, using(crate::proofs::LoggedLemmas::none_logged))]
pub(crate) fn audit_all<P: Publishing>(
    counted: &mut Book<P>,
    all: &mut Share<P>,
    history: &mut History<P>,
    seats: &mut [Seat<P>],
)
    requires none { all.old.parts ≡ 0 → all.old.amount ≡ 0 }
    requires keeps { history.old.keeps ≡ true }
    ensures bound { all.old.amount + total_receipts seats.old ≤ counted.old.total }
    ensures whole { all.old.parts + length seats.old ≡ P.parts
        → all.old.amount + total_receipts seats.old ≡ counted.old.total }
    ensures few { all.old.parts + length seats.old ≤ P.parts }
    ensures same { seats.new ≡ seats.old }
    ensures total { counted.new.total ≡ counted.old.total }
    ensures parts { all.new.parts ≡ all.old.parts }
    ensures amount { all.new.amount ≡ all.old.amount }
    ensures history { history.new ≡ history.old }
    ensures logged { AreLogged (setting_in P.checked) history.old seats.old }
{
    match seats.split_first_mut() {
        None => {
            let mut none = all.empty();
            all.give(&mut none, 0, 0);
            counted.audit(all);
            history.check();
        }
        Some((seat, rest)) => {
            let Seat {
                notes,
                high: _,
                mark,
                token,
                slots: _,
            } = seat;
            let count = count_receipts(notes.as_slice());
            let mine = mem::replace(mark, all.empty());
            all.merge(mine);
            history.take_in(token);
            audit_all(counted, all, history, rest);
            *token = Some(history.give_back());
            *mark = all.split_off(1, count);
        }
    }
}
