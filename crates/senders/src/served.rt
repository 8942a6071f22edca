//! Results of connections.

ghost use Rattle.std.specs.Prelude.{◌≡◌, map};
ghost use Rattle.std.specs.Arc.{arc_value};

use crate::end::End;
use crate::outcome::Outcome;
use copy_both::LinkFault;
use publisher_desk::{Closing, Publishing, Viewer};
use std::alloc::Global;
use std::marker::Model;
use std::sync::Arc;
use tables_log::{Commit, Lsn, SlotNumber};

/// The result of a connection that was served. The commits that were taken for it are consecutive commits of its
/// publisher's log from its start on, and it had the slot of its stream until it released it. Contracts see it as
/// `ServedOf`.
#[derive(Drop)]
pub struct Served<P: Publishing> {
    outcome: Outcome,
    sent: Lsn,
    is_requested: bool,
    confirmed: u64,
    number: u64,
    /// What the connection has seen of its publisher, for proofs.
    viewer: Viewer<P>,
}

impl<P: Publishing> Model for Served<P> {
    ghost use Rattle.senders.specs.Results.{IsWitnessed, ServedOf, served_of};

    ghost Value = { ServedOf };

    ghost view = { λ s. served_of s.outcome s.sent s.is_requested s.confirmed s.number s.viewer };

    ghost invariant = { λ s. IsWitnessed P.checked (served_of s.outcome s.sent s.is_requested s.confirmed s.number s.viewer) };
}

impl<P: Publishing> Served<P> {
    ghost use Rattle.std.specs.Prelude.{◌≡◌, map};
    ghost use Rattle.std.specs.Arc.{arc_value};
    ghost use Rattle.publisher_desk.specs.Viewers.{IsSeenIn};
    ghost use Rattle.senders.specs.Results.{AcquiredApart, IsWitnessed, served_of};

    /// The result of a connection that has released its slot, if it had one. `sent` is the position up to which its
    /// client had then been sent the log, and `number` that of its acquisition; both are 0 if it had none.
    pub(crate) fn new(
        outcome: Outcome,
        sent: Lsn,
        is_requested: bool,
        confirmed: u64,
        number: u64,
        viewer: Viewer<P>,
    ) -> Served<P>
        requires { IsWitnessed P.checked (served_of outcome sent is_requested confirmed number viewer) }
        ensures { result ≡ served_of outcome sent is_requested confirmed number viewer }
    {
        Served {
            outcome,
            sent,
            is_requested,
            confirmed,
            number,
            viewer,
        }
    }

    /// The slot whose stream it started, by the number of its subscription; `None` if it started none.
    pub fn slot(&self) -> Option<SlotNumber>
        ensures { result ≡ self.now.slot }
    {
        self.outcome.slot
    }

    /// Where in the log the stream started, in bytes; `None` if it started none.
    pub fn start(&self) -> Option<u64>
        ensures { result ≡ self.now.start }
    {
        self.outcome.start
    }

    /// Whether its client requested that position, which is after what was confirmed for the slot. If not, the stream
    /// started where the slot was confirmed, or no stream was started.
    pub fn is_requested(&self) -> bool
        ensures { result ≡ self.now.is_requested }
    {
        self.is_requested
    }

    /// The commits that were taken for it, in order: consecutive commits of its publisher's log from its start on.
    pub fn taken(&self) -> &[Arc<Commit, Global>]
        ensures shows { map (λ commit. arc_value commit) result.now ≡ self.now.taken }
        ensures witnessed { IsWitnessed P.checked self.now }
    {
        self.outcome.taken.as_slice()
    }

    /// Why it ended.
    pub fn end(&self) -> End
        ensures { result ≡ self.now.end }
    {
        self.outcome.end
    }

    /// The fault of what its client sent, if that ended it, or would have if its sender had not ended it before.
    pub fn fault(&self) -> Option<LinkFault>
        ensures { result ≡ self.now.fault }
    {
        self.outcome.fault
    }

    /// The greatest position that its client's statuses confirmed, in bytes of the log; 0 if none did.
    pub fn confirmed(&self) -> u64
        ensures { result ≡ self.now.confirmed }
    {
        self.confirmed
    }

    /// The position up to which its client was sent the log on its stream, in bytes of the log: the end of the last
    /// commit of the steps that its sender was given. 0 if there was none.
    pub fn sent(&self) -> u64
        ensures { result ≡ self.now.sent }
    {
        self.sent.to_u64()
    }

    /// The number of the acquisition of its slot among all of its publisher, from 1; 0 if it started no stream.
    pub fn number(&self) -> u64
        ensures { result ≡ self.now.number }
    {
        self.number
    }

    /// Establishes that what the connection has seen is a beginning of the log and of the events of the slots, whether
    /// it is passed to `close` or not.
    pub fn check(&mut self, closing: &mut Closing<P>)
        ensures seen { IsSeenIn closing.old self.old.viewer }
        ensures witnessed { IsWitnessed P.checked self.old }
        ensures same { self.new ≡ self.old }
        ensures closing { closing.new ≡ closing.old }
    {
        closing.check(&mut self.viewer);
    }

    /// Establishes that the streams of two connections did not acquire their slots by the same acquisition, whether
    /// they are passed to `close` or not.
    pub fn compare(&mut self, closing: &mut Closing<P>, other: &mut Served<P>)
        ensures apart { AcquiredApart self.old other.old }
        ensures same { self.new ≡ self.old }
        ensures other { other.new ≡ other.old }
        ensures closing { closing.new ≡ closing.old }
    {
        closing.compare(&mut self.viewer, &mut other.viewer);
    }
}
