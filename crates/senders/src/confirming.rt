//! What a piece confirms.

ghost use Rattle.std.specs.Prelude.{◌≡◌, ℕ, IfSome, IsTrue, Some, true};
ghost use Rattle.tables_log.specs.BookView.{book_slots};
ghost use Rattle.senders.specs.Listening.{NotesConfirmed};

use copy_both::StreamStart;
use publisher_desk::Confirmation;
use tables_log::{Book, Lsn};

/// What is confirmed for the slot of this stream now, and whether a status was ahead after that; `None` if that is what
/// was confirmed before, and no status was ahead.
pub(crate) fn confirmation(
    started: Option<StreamStart>,
    before: &[Lsn],
    book: &Book,
    is_ahead: bool,
) -> Option<Confirmation>
    ensures notes { NotesConfirmed started before.now (book_slots book.now) result }
    ensures marks { IfSome result (λ one. one.is_ahead ≡ is_ahead) }
    ensures ahead { IsTrue is_ahead → (stream : _) → started ≡ Some stream
        → (one : _) × (result ≡ Some one) × (one.is_ahead ≡ true) }
{
    let slot = started?.slot;
    let position = book.confirmed(slot);
    match before.get(slot).copied() {
        Some(old) if !is_ahead && old.to_u64() == position => None,
        Some(_) | None => Some(Confirmation {
            slot,
            position: Lsn::new(position),
            is_ahead,
        }),
    }
}
