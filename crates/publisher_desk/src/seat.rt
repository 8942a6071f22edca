//! Seats of sessions.

ghost use Rattle.std.specs.Prelude.{◌≡◌};

use crate::history::HistoryToken;
use crate::naming::Publishing;
use crate::note::Note;
use crate::slot_history::SlotToken;
use std::alloc::Global;
use std::marker::Model;
use std::sync::ledger::Share;
use tables_log::CommitNumber;

/// A session's place at a publisher: its commits and what it read, in their order. Contracts see the list of these
/// notes, and the beginning of the log and the first events of slots that the session has seen. Each reading counts at
/// least as many commits as any note before it. Each receipt and each reading agrees with the log.
#[derive(Drop)]
pub struct Seat<P: Publishing> {
    pub(crate) notes: Vec<Note>,
    /// The greatest number of a note: that of a commit, or how many commits a reading counts.
    pub(crate) high: CommitNumber,
    /// The seat's part of the ledger, whose amount is the number of its receipts.
    pub(crate) mark: Share<P>,
    /// What the seat has seen of the log, for proofs; none before it is shown the log for the first time.
    pub(crate) token: Option<HistoryToken<P>>,
    /// What it has seen of the events of slots; none before it is shown them for the first time.
    pub(crate) slots: Option<SlotToken<P>>,
}

impl<P: Publishing> Model for Seat<P> {
    ghost use Rattle.shard_checker.specs.CheckedView.{setting_in};
    ghost use Rattle.publisher_desk.specs.Logged.{IsSighted};
    ghost use Rattle.publisher_desk.specs.Seats.{IsSeat, SeatOf};
    ghost use Rattle.publisher_desk.specs.Sights.{sight_of};
    ghost use Rattle.publisher_desk.specs.SlotSights.{slot_sight_of};

    ghost Value = { SeatOf };

    ghost view = { λ s. record {
      notes = s.notes.items;
      seen = (sight_of s.token).seen;
      events = (slot_sight_of s.slots).events;
    } };

    ghost invariant = { λ s. IsSeat s.notes.items s.high s.mark.parts s.mark.amount
        × IsSighted (setting_in P.checked) s.notes.items (sight_of s.token) };
}

impl<P: Publishing> Seat<P> {
    ghost use Rattle.std.specs.Prelude.{◌≡◌};
    ghost use Rattle.publisher_desk.specs.Seats.{AreTimed, IsForward, empty_seat};

    /// A seat without notes, which has this part of the ledger.
    #[tactic(auto, using(crate::proofs::SeatLemmas::new_seat, crate::proofs::LoggedLemmas::new_sighted))]
    pub(crate) fn new(alloc: Global, mark: Share<P>) -> Seat<P>
        requires part { mark.parts ≡ 1 }
        requires none { mark.amount ≡ 0 }
        ensures { result ≡ empty_seat }
    {
        Seat {
            notes: Vec::new(alloc),
            high: 0,
            mark,
            token: None,
            slots: None,
        }
    }

    /// The session's commits and what it read, in their order.
    pub fn notes(&self) -> &[Note]
        ensures shows { result.now ≡ self.now.notes }
        ensures forward { IsForward self.now.notes }
        ensures timed { AreTimed self.now.notes }
    {
        self.notes.as_slice()
    }
}
