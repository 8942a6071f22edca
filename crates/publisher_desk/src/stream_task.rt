//! What a connection does with the slots under a publisher's lock.

ghost use Rattle.tables_log.specs.BookView.{book_slots};
ghost use Rattle.tables_log.specs.Committing.{ChangesSlots};
ghost use Rattle.publisher_desk.specs.SlotEvents.{KeepsEnded, KeepsSent, MayAcquire, MayConfirm};

use crate::connection_state::ConnectionState;
use crate::slot_event::{Acquisition, Confirmation};
use tables_log::Book;

/// Uses the book and the state of each slot's connection, under a publisher's lock. It may acquire a slot that is free,
/// and confirm a position for the slot that its connection has; it changes nothing else of the book. The client of a
/// slot that it acquires has been sent nothing, and the others what they were sent before. What it confirms its client
/// was sent, or it is not after the start of the stream, or the log's beginning. A connection whose client sent a status
/// that was refused has ended, and none goes on that had, but that of a slot that it acquires. `number` is that of the next
/// acquisition. `stream` is the stream of its connection, if the task knows it: its slot, and where it starts. `did`
/// relates the task, the book and the connections before a call to those after it, to the number, to the slot that was
/// acquired, to what was confirmed, and to the answer.
pub trait StreamTask {
    type Answer;

    ghost use Rattle.std.specs.Prelude.{ℕ, List, Option};
    ghost use Rattle.tables_log.specs.declared.book.Book as b;
    ghost use Rattle.publisher_desk.specs.declared.connection_state.ConnectionState as c;
    ghost use Rattle.publisher_desk.specs.declared.slot_event.Acquisition as a;
    ghost use Rattle.publisher_desk.specs.declared.slot_event.Confirmation as f;

    ghost stream: { Self → Option (ℕ × ℕ) };

    ghost did: { Self → Self → b.Book → b.Book → List c.ConnectionState → List c.ConnectionState → ℕ
        → Option a.Acquisition → Option f.Confirmation → Self.Answer → Type 0 };

    fn use_stream(
        &mut self,
        book: &mut Book,
        connections: &mut [ConnectionState],
        number: u64,
    ) -> (Self::Answer, Option<Acquisition>, Option<Confirmation>)
        ensures did { did self.old self.new book.old book.new connections.old connections.new number result.1 result.2
            result.0 }
        ensures slots { ChangesSlots book.old book.new (book_slots book.new) }
        ensures acquires { MayAcquire (book_slots book.old) (book_slots book.new) result.1 }
        ensures confirms { MayConfirm (stream self.old) result.1 result.2 connections.old (book_slots book.old)
            (book_slots book.new) }
        ensures sent { KeepsSent result.1 connections.old connections.new }
        ensures ended { KeepsEnded result.1 result.2 connections.old connections.new };
}
