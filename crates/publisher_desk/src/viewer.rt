//! What connections see.

ghost use Rattle.std.specs.Prelude.{◌≡◌};

use crate::history::HistoryToken;
use crate::naming::Publishing;
use crate::slot_history::SlotToken;
use std::marker::Model;

/// What a connection knows of a publisher, for proofs: it takes no bytes. Contracts see the beginning of the log and
/// the events of slots that the connection has seen, the slot that it has, and the numbers of its own acquisitions.
#[derive(Drop)]
pub struct Viewer<P: Publishing> {
    /// None before it is shown the log for the first time.
    pub(crate) token: Option<HistoryToken<P>>,
    pub(crate) slots: Option<SlotToken<P>>,
}

impl<P: Publishing> Model for Viewer<P> {
    ghost use Rattle.publisher_desk.specs.Sights.{sight_of};
    ghost use Rattle.publisher_desk.specs.SlotSights.{MayHaveSlot, OwnsHeld, slot_sight_of};
    ghost use Rattle.publisher_desk.specs.Viewers.{IsAcceptedLog, ViewerOf};

    ghost Value = { ViewerOf };

    ghost view = { λ v. record {
      seen = (sight_of v.token).seen;
      events = (slot_sight_of v.slots).events;
      held = (slot_sight_of v.slots).held;
      own = (slot_sight_of v.slots).own;
    } };

    ghost invariant = { λ v. MayHaveSlot (slot_sight_of v.slots).events (slot_sight_of v.slots).held
        × OwnsHeld (slot_sight_of v.slots).held (slot_sight_of v.slots).own
        × IsAcceptedLog P.checked (sight_of v.token).seen };
}

impl<P: Publishing> Viewer<P> {
    ghost use Rattle.std.specs.Prelude.{◌≡◌};
    ghost use Rattle.publisher_desk.specs.Viewers.{IsAcceptedLog, new_viewer};

    /// That the log that the connection has seen is of transactions each of which was accepted after those before it;
    /// no code.
    pub fn is_accepted(&self)
        ensures { IsAcceptedLog P.checked self.now.seen }
    {
        let _token = &self.token;
    }

    /// A connection that has seen nothing.
    pub fn new() -> Viewer<P>
        ensures { result ≡ new_viewer }
    {
        Viewer {
            token: None,
            slots: None,
        }
    }
}
