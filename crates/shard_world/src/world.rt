//! A publisher and its subscribers.

ghost use Rattle.std.specs.Arc.{arc_value};
ghost use Rattle.shard_checker.specs.CheckedView.{checked_view};
ghost use Rattle.tables_log.specs.BookView.{book_checked};
ghost use Rattle.shard_world.specs.Linked.{AreLinkedTo, IsServedAlike};

use crate::answer::Answer;
use crate::event::{Event, PeerEvent};
use crate::opening::first_peers;
use crate::peer::Peer;
use crate::view::{View, seen};
use pub_catalog::SubscriberNumber;
use shard_checker::Checked;
use std::alloc::{AllocError, Global};
use std::sync::Arc;
use table_changes::Command;
use tables_log::{Book, Lsn};

/// All that a subscriber sent is heard.
const HEAR_ALL: PeerEvent = PeerEvent::Hear { bytes: usize::MAX };

/// What a pump does after the commits are taken.
const PUMPED: [PeerEvent; 4] = [
    PeerEvent::Keep { want: false },
    PeerEvent::Deliver { bytes: usize::MAX },
    PeerEvent::Report { want: false },
    HEAR_ALL,
];

/// A publisher, which has a catalog whose sharding is sound, and the subscribers of its subscriptions, each with its
/// connection while it has one. Any of them moves next, by events.
///
/// PostgreSQL 15, 31.2. Subscription, and 55.4. Streaming Replication Protocol.
#[derive(Drop)]
pub struct World {
    alloc: Global,
    checked: Arc<Checked, Global>,
    book: Book,
    peers: Vec<Peer>,
    ghost published: { IsServedAlike (book_checked book) (checked_view (arc_value checked)) },
    ghost linked: { AreLinkedTo (checked_view (arc_value checked)) peers.items },
}

impl World {
    ghost use Rattle.std.specs.Prelude.{◌≡◌, ◌<◌, ◌≤◌, ◌^◌, ℕ, List, [], IfErr, IfOk, OnErr, map};
    ghost use Rattle.std.specs.Arc.{arc_value};
    ghost use Rattle.shard_checker.specs.CheckedView.{checked_view};
    ghost use Rattle.table_changes.specs.Commands.{command_view};
    ghost use Rattle.shard_world.specs.World.{event_view, timed_view};
    ghost use Rattle.shard_world.specs.World as w;
    ghost use Rattle.shard_world.specs.PeerCalls.{HasSmallCount};
    ghost use Rattle.shard_world.specs.Pumping.{EndsWalk, KeepsConnection, IsPosition, PumpsFromEach, PumpsThrough, TakesThrough, WalksThrough};
    ghost use Rattle.shard_world.specs.ViewMeaning.{ShowsWorld};
    ghost use Rattle.shard_world.specs.WorldCalls.{IsWorld, RunsFromEach, StepsFromEach, world_checked};

    /// A publisher without rows, whose log may have at most `limit` commits, and subscribers without rows, at position
    /// 0 and without connections. The only error is out of memory.
    #[tactic(auto, using(crate::proofs::FirstPeerLemmas::first_is))]
    pub fn new(
        alloc: Global,
        checked: Arc<Checked, Global>,
        limit: u32,
    ) -> Result<World, AllocError>
        requires some { 1 ≤ limit }
        requires within { limit ≤ 1000000000 }
        ensures stands { IfOk result (λ world. IsWorld world limit [] w.first_world) }
        ensures checked { IfOk result (λ world. world_checked world ≡ checked_view (arc_value checked)) }
    {
        let book = Book::new(alloc, Arc::try_clone(&checked)?, limit)?;
        let peers = first_peers(alloc, checked.catalog())?;
        Ok(World {
            alloc,
            checked,
            book,
            peers,
        })
    }

    /// Commands are committed as one transaction, or refused.
    #[tactic(auto, using(crate::proofs::Rules::committing))]
    fn commit(&mut self, commands: &[Command], time: u64) -> Answer
        ensures { (now : ℕ) → now < 2 ^ 64
            → StepsFromEach self.old self.new now (w.Commit (map command_view commands.now) time) result }
    {
        match self.book.commit(commands, time) {
            Ok(number) => Answer::Committed(number),
            Err(error) => Answer::Refused(error),
        }
    }

    /// Something happens on the connection of a subscriber.
    #[tactic(auto, using(crate::proofs::WorldMoves::moves_one, crate::proofs::WorldMoves::none_there))]
    fn on(&mut self, now: u64, subscriber: SubscriberNumber, event: PeerEvent) -> Answer
        ensures steps { StepsFromEach self.old self.new now (w.On subscriber event) result }
        ensures counted { HasSmallCount result }
    {
        match self.peers.get_mut(subscriber) {
            Some(peer) => peer.step(self.alloc, &self.checked, &mut self.book, now, event),
            None => Answer::NoSubscriber,
        }
    }

    /// One event happens, at this clock, in microseconds since 2000-01-01.
    pub fn step(&mut self, now: u64, event: &Event) -> Answer
        ensures { StepsFromEach self.old self.new now (event_view event.now) result }
    {
        match event {
            Event::Commit { commands, time } => self.commit(commands.as_slice(), *time),
            Event::On { subscriber, event } => self.on(now, *subscriber, *event),
        }
    }

    /// Events happen one after another, each at its clock. Room for the answers is made first: if memory for it is
    /// refused, which is the only error, nothing happens.
    #[tactic(auto, using(crate::proofs::RunLemmas::runs_none, crate::proofs::RunLemmas::runs_more))]
    pub fn run(&mut self, events: &[(u64, Event)]) -> Result<Vec<Answer>, AllocError>
        ensures ok { IfOk result (λ answers. RunsFromEach self.old self.new (map timed_view events.now) answers.items) }
        ensures err { OnErr result (self.new ≡ self.old) }
    {
        let mut answers = Vec::with_capacity(self.alloc, events.len())?;
        for (now, event) in events {
            answers.push_reserved(self.step(*now, event));
        }
        Ok(answers)
    }

    /// An event of a pump happens; an answer after which there is no connection ends the pump.
    fn go_on(
        &mut self,
        now: u64,
        subscriber: SubscriberNumber,
        event: PeerEvent,
    ) -> Result<Answer, Answer>
        ensures ok { IfOk result (StepsFromEach self.old self.new now (w.On subscriber event)) }
        ensures err { IfErr result (StepsFromEach self.old self.new now (w.On subscriber event)) }
        ensures goes { IfOk result KeepsConnection }
        ensures ends { IfErr result EndsWalk }
    {
        match self.on(now, subscriber, event) {
            Answer::NoSubscriber => Err(Answer::NoSubscriber),
            Answer::NotOpen => Err(Answer::NotOpen),
            Answer::OutOfMemory => Err(Answer::OutOfMemory),
            answer => Ok(answer),
        }
    }

    /// These events of a pump happen.
    #[tactic(auto, using(crate::proofs::Rules::walking))]
    fn go_through(
        &mut self,
        now: u64,
        subscriber: SubscriberNumber,
        events: &[PeerEvent],
    ) -> Result<(), Answer>
        ensures { WalksThrough self.old self.new now subscriber events.now result }
    {
        for event in events {
            if let Err(answer) = self.go_on(now, subscriber, *event) {
                return Err(answer);
            }
        }
        Ok(())
    }

    /// Each remaining commit is taken.
    #[tactic(auto, using(crate::proofs::Rules::taking_all))]
    fn take_all(&mut self, now: u64, subscriber: SubscriberNumber) -> Result<(), Answer>
        ensures { TakesThrough self.old self.new now subscriber result }
    {
        for _ in 0..=self.book.log_len() {
            match self.go_on(now, subscriber, PeerEvent::Take) {
                Ok(Answer::Idle) => return Ok(()),
                Ok(_) => {}
                Err(answer) => return Err(answer),
            }
        }
        Ok(())
    }

    /// The events of a pump, up to one that ends it early.
    #[tactic(auto, using(crate::proofs::PumpLemmas::pump_ends_hearing, crate::proofs::PumpLemmas::pump_ends_taking))]
    fn pump_through(&mut self, now: u64, subscriber: SubscriberNumber) -> Result<(), Answer>
        ensures { PumpsThrough self.old self.new now subscriber result }
    {
        if let Err(answer) = self.go_through(now, subscriber, &[HEAR_ALL]) {
            return Err(answer);
        }
        if let Err(answer) = self.take_all(now, subscriber) {
            return Err(answer);
        }
        self.go_through(now, subscriber, &PUMPED)
    }

    /// The position of a subscriber.
    #[tactic(auto, using(crate::proofs::ViewLemmas::position_shown, crate::proofs::ViewLemmas::nobody_shown))]
    fn position(&self, subscriber: SubscriberNumber) -> Lsn
        ensures { IsPosition self.now subscriber result }
    {
        match self.peers.get(subscriber) {
            Some(peer) => Lsn::new(peer.subscriber.position()),
            None => Lsn::new(0),
        }
    }

    /// The subscriber gets all that was committed, and reports it, all at one clock: all that it sent is heard, each
    /// remaining commit is taken, a keepalive is sent, all is delivered, and the subscriber reports its position, which
    /// is heard. Returns `At` with 64 times the log's length plus 64. Out of memory ends the pump and loses the
    /// connection. Without a connection, or without the subscriber, nothing happens.
    pub fn pump(&mut self, now: u64, subscriber: SubscriberNumber) -> Answer
        ensures { PumpsFromEach self.old self.new now subscriber result }
    {
        match self.pump_through(now, subscriber) {
            Ok(()) => Answer::At(self.position(subscriber).to_u64()),
            Err(answer) => answer,
        }
    }

    /// What is in the publisher and in each subscriber. The only error is out of memory.
    #[tactic(auto, using(crate::proofs::ViewLemmas::shows_world))]
    pub fn view(&self) -> Result<View, AllocError>
        ensures { (most : ℕ) (events : List (ℕ × w.Event)) (world : w.World) → IsWorld self.now most events world
            → IfOk result (ShowsWorld (world_checked self.now) world) }
    {
        let tables = self.checked.catalog().tables.len();
        seen(self.alloc, &self.book, self.peers.as_slice(), tables)
    }
}
