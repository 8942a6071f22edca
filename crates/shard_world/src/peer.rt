//! A subscriber and its connection.

ghost use Rattle.std.specs.Prelude.{◌≡◌};
ghost use Rattle.shard_world.specs.Connections.{answer_of, front_of};
ghost use Rattle.shard_world.specs.PeerCalls.{LosesIfThere};

use crate::answer::Answer;
use crate::event::PeerEvent;
use crate::halted::Halted;
use copy_both::{Link, Taken};
use shard_checker::Checked;
use std::alloc::{AllocError, Global};
use std::sync::Arc;
use tables_log::Book;
use test_subscriber::Subscriber;

/// The first of these bytes, at most `count`.
#[tactic(auto, using(crate::proofs::CallLemmas::front_short, crate::proofs::CallLemmas::front_whole))]
fn front(bytes: &[u8], count: usize) -> &[u8]
    ensures { result.now ≡ front_of count bytes.now }
{
    if count < bytes.len() {
        &bytes[..count]
    } else {
        bytes
    }
}

/// The answer when the next commit was to be taken.
fn answer_of(taken: Taken) -> Answer
    ensures { result ≡ answer_of taken }
{
    match taken {
        Taken::NotStarted => Answer::NotStarted,
        Taken::Idle => Answer::Idle,
        Taken::Skipped(number) => Answer::Skipped(number),
        Taken::Sent(number) => Answer::Sent(number),
    }
}

/// The publisher's end of a connection is lost, if there is one.
fn lose_link(link: Option<Link>, book: &mut Book)
    ensures { LosesIfThere link book.old book.new }
{
    match link {
        Some(mut link) => link.lose(book),
        None => {}
    }
}

/// A subscriber, and the publisher's end of its connection while there is one.
#[derive(Drop)]
pub(crate) struct Peer {
    pub(crate) link: Option<Link>,
    pub(crate) subscriber: Subscriber,
}

impl Peer {
    ghost use Rattle.std.specs.Prelude.{ℕ, Ok};
    ghost use Rattle.std.specs.Arc.{arc_value};
    ghost use Rattle.shard_checker.specs.CheckedView.{CheckedOf, checked_view};
    ghost use Rattle.tables_log.specs.BookView.{book_checked};
    ghost use Rattle.tables_log.specs.declared.book.Book.{Book as BookType};
    ghost use Rattle.shard_world.specs.Linked.{IsLinkedTo, IsServedAlike};
    ghost use Rattle.shard_world.specs.PeerCalls.{Drops, HasSmallCount, MovesFromEach, Tries};
    ghost use Rattle.shard_world.specs.World.{Open, Hear, Take, Keep, Deliver, Report, Lose};

    /// The subscriber connects, and requests the stream from its position on.
    #[tactic(auto, using(crate::proofs::Rules::opening))]
    fn open(&mut self, alloc: Global, checked: &Arc<Checked, Global>) -> Result<Answer, Halted>
        ensures { (now : ℕ) (book : BookType) → Tries (checked_view (arc_value checked.now)) now Open book book
            self.old result self.new }
    {
        if self.link.is_some() {
            return Ok(Answer::AlreadyOpen);
        }
        let link = Link::new(alloc, Arc::try_clone(checked)?)?;
        self.subscriber.open()?;
        self.link = Some(link);
        Ok(Answer::Opened)
    }

    /// The publisher hears the next bytes of the subscriber, at most this number.
    #[tactic(auto, using(crate::proofs::Rules::hearing))]
    fn hear(&mut self, book: &mut Book, now: u64, bytes: usize) -> Result<Answer, Halted>
        ensures { (checked : CheckedOf) → Tries checked now (Hear bytes) book.old book.new self.old result self.new }
    {
        let Some(link) = &mut self.link else {
            return Ok(Answer::NotOpen);
        };
        let piece = front(self.subscriber.output(), bytes);
        let count = piece.len();
        if count == 0 {
            return Ok(Answer::Heard(0));
        }
        link.hear(piece, book, now)?;
        self.subscriber.passed(count);
        Ok(Answer::Heard(count))
    }

    /// The publisher takes the next commit.
    #[tactic(auto, using(crate::proofs::Rules::taking))]
    fn take(&mut self, book: &Book, now: u64) -> Result<Answer, Halted>
        requires { IsLinkedTo (book_checked book.now) self.old }
        ensures { (checked : CheckedOf) → Tries checked now Take book.now book.now self.old result self.new }
    {
        let Some(link) = &mut self.link else {
            return Ok(Answer::NotOpen);
        };
        let taken = link.take_routed(book, now)?;
        Ok(answer_of(taken))
    }

    /// The publisher sends a keepalive.
    #[tactic(auto, using(crate::proofs::Rules::keeping))]
    fn keep(&mut self, now: u64, want: bool) -> Result<Answer, Halted>
        ensures { (checked : CheckedOf) (book : BookType) → Tries checked now (Keep want) book book
            self.old result self.new }
    {
        let Some(link) = &mut self.link else {
            return Ok(Answer::NotOpen);
        };
        if link.keepalive(now, want)? {
            Ok(Answer::Kept)
        } else {
            Ok(Answer::NotStarted)
        }
    }

    /// The next bytes of the publisher, at most this number, are delivered to the subscriber.
    #[tactic(auto, using(crate::proofs::Rules::delivering))]
    fn deliver(&mut self, bytes: usize) -> Result<Answer, Halted>
        ensures { (checked : CheckedOf) (now : ℕ) (book : BookType) → Tries checked now (Deliver bytes) book book
            self.old result self.new }
    {
        let Some(link) = &mut self.link else {
            return Ok(Answer::NotOpen);
        };
        let piece = front(link.output(), bytes);
        let count = piece.len();
        if count == 0 {
            return Ok(Answer::Delivered(0));
        }
        self.subscriber.feed(piece)?;
        link.passed(count);
        Ok(Answer::Delivered(count))
    }

    /// The subscriber reports its position.
    #[tactic(auto, using(crate::proofs::Rules::reporting))]
    fn report(&mut self, now: u64, want: bool) -> Result<Answer, Halted>
        ensures { (checked : CheckedOf) (book : BookType) → Tries checked now (Report want) book book
            self.old result self.new }
    {
        if self.link.is_none() {
            return Ok(Answer::NotOpen);
        }
        self.subscriber.status(now, want)?;
        Ok(Answer::Reported)
    }

    /// Drops the connection.
    fn drop_connection(&mut self, book: &mut Book)
        ensures { Drops self.old self.new book.old book.new }
    {
        lose_link(self.link.take(), book);
        self.subscriber.lose();
    }

    /// The connection is lost.
    #[tactic(auto, using(crate::proofs::CallLemmas::is_not_open, crate::proofs::CallLemmas::drops_lose))]
    fn lose(&mut self, book: &mut Book) -> Answer
        ensures { (checked : CheckedOf) (now : ℕ) → Tries checked now Lose book.old book.new
            self.old (Ok result) self.new }
    {
        if self.link.is_none() {
            return Answer::NotOpen;
        }
        self.drop_connection(book);
        Answer::Lost
    }

    /// What happens on the connection, as far as memory allows.
    fn try_step(
        &mut self,
        alloc: Global,
        checked: &Arc<Checked, Global>,
        book: &mut Book,
        now: u64,
        event: PeerEvent,
    ) -> Result<Answer, Halted>
        requires book { IsServedAlike (book_checked book.old) (checked_view (arc_value checked.now)) }
        requires linked { IsLinkedTo (checked_view (arc_value checked.now)) self.old }
        ensures { Tries (checked_view (arc_value checked.now)) now event book.old book.new self.old result self.new }
    {
        match event {
            PeerEvent::Open => self.open(alloc, checked),
            PeerEvent::Hear { bytes } => self.hear(book, now, bytes),
            PeerEvent::Take => self.take(book, now),
            PeerEvent::Keep { want } => self.keep(now, want),
            PeerEvent::Deliver { bytes } => self.deliver(bytes),
            PeerEvent::Report { want } => self.report(now, want),
            PeerEvent::Lose => Ok(self.lose(book)),
        }
    }

    /// What happens on the connection. If memory is refused, the connection is lost.
    #[tactic(auto, using(crate::proofs::StopLemmas::makes_moves, crate::proofs::StopLemmas::drops_connection))]
    pub(crate) fn step(
        &mut self,
        alloc: Global,
        checked: &Arc<Checked, Global>,
        book: &mut Book,
        now: u64,
        event: PeerEvent,
    ) -> Answer
        requires book { IsServedAlike (book_checked book.old) (checked_view (arc_value checked.now)) }
        requires linked { IsLinkedTo (checked_view (arc_value checked.now)) self.old }
        ensures book { IsServedAlike (book_checked book.new) (checked_view (arc_value checked.now)) }
        ensures linked { IsLinkedTo (checked_view (arc_value checked.now)) self.new }
        ensures moves { MovesFromEach (checked_view (arc_value checked.now)) now event book.old book.new
            self.old self.new result }
        ensures counted { HasSmallCount result }
    {
        match self.try_step(alloc, checked, book, now, event) {
            Ok(answer) => answer,
            Err(_) => {
                self.drop_connection(book);
                Answer::OutOfMemory
            }
        }
    }
}
