//! Whether readings are right.

ghost use Rattle.std.specs.Prelude.{◌≡◌, ◌≢◌, MatchBool};
ghost use Rattle.std.specs.Option.{option_map};
ghost use Rattle.tables_log.specs.BookView.{book_rows};

use filter_tree::{Row, same_row};
use publisher_desk::Reading;
use tables_log::Book;

/// Whether the row that was found is the answer.
fn is_answer(found: Option<&Row>, answer: &Option<Row>) -> bool
    ensures { MatchBool result (answer.now ≡ option_map (λ row. row.now) found.entry)
        (answer.now ≢ option_map (λ row. row.now) found.entry) }
{
    match answer {
        None => found.is_none(),
        Some(row) => is_row(found, row),
    }
}

/// Whether this row was found.
fn is_row(found: Option<&Row>, row: &Row) -> bool
    ensures { MatchBool result (Some row.now ≡ option_map (λ row. row.now) found.entry)
        (Some row.now ≢ option_map (λ row. row.now) found.entry) }
{
    match found {
        None => false,
        Some(other) => same_row(row, other),
    }
}

/// Whether the answer is the row of the key in the book's tables.
pub(crate) fn is_right_now(book: &Book, reading: &Reading) -> bool
    ensures { MatchBool result (reading.now.answer ≡ book_rows book.now reading.now.table 0 reading.now.key)
        (reading.now.answer ≢ book_rows book.now reading.now.table 0 reading.now.key) }
{
    is_answer(book.row(reading.table, &reading.key), &reading.answer)
}
