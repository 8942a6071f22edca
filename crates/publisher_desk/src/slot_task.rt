//! What is done with the slots under a publisher's lock.

ghost use Rattle.std.specs.Prelude.{None};
ghost use Rattle.tables_log.specs.BookView.{book_slots};
ghost use Rattle.tables_log.specs.Committing.{ChangesSlots};
ghost use Rattle.tables_log.specs.Slots.{KeepsUse};
ghost use Rattle.publisher_desk.specs.SlotEvents.{KeepsConfirmed, KeepsEnded, KeepsSent};

use crate::connection_state::ConnectionState;
use tables_log::Book;

/// Uses the book and the state of each slot's connection, under a publisher's lock. In the end the slots that were in
/// use are in use, and no others, each is confirmed as before, each client was sent what it was sent before, and no
/// connection goes on that had ended. `did` relates the task, the book and the connections before a call to those after
/// it, and to the answer.
pub trait SlotTask {
    type Answer;

    ghost use Rattle.std.specs.Prelude.{List};
    ghost use Rattle.tables_log.specs.declared.book.Book as b;
    ghost use Rattle.publisher_desk.specs.declared.connection_state.ConnectionState as c;

    ghost did: { Self → Self → b.Book → b.Book → List c.ConnectionState → List c.ConnectionState → Self.Answer
        → Type 0 };

    fn use_slots(&mut self, book: &mut Book, connections: &mut [ConnectionState]) -> Self::Answer
        ensures did { did self.old self.new book.old book.new connections.old connections.new result }
        ensures slots { ChangesSlots book.old book.new (book_slots book.new) }
        ensures uses { KeepsUse (book_slots book.old) (book_slots book.new) }
        ensures confirmed { KeepsConfirmed (book_slots book.old) (book_slots book.new) }
        ensures sent { KeepsSent None connections.old connections.new }
        ensures ended { KeepsEnded None None connections.old connections.new };
}
