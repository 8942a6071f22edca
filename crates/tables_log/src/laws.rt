//! Laws about what a book has.

ghost use Rattle.tables_log.specs.StandsFor.{NewStands, CommitsAddOne, SlotsKeepIt, EachIsLogged, BooksAreRight, ListedAreRows};

use crate::book::Book;

/// A law about the list of a book's transactions: a function without an effect whose contract states it. A new book has
/// none (`new`); a commit adds one (`commits`); and whatever happens to its slots, or is refused, the list stays the
/// same (`kept`). Its log has an entry for each (`logged`). Each row is found by each of its unique keys and fits its
/// table, and if commands keep rows apart by their replica identity, no two rows of a table have the same one (`rows`).
///
/// PostgreSQL 15, 3.4. Transactions, 5.4.4 Primary Keys, 11.6 Unique Indexes.
#[tactic(auto, using(crate::proofs::Rules::standing_for_transactions))]
pub fn books_stand_for_transactions()
    ensures new { NewStands }
    ensures commits { CommitsAddOne }
    ensures kept { SlotsKeepIt }
    ensures logged { EachIsLogged }
    ensures rows { BooksAreRight }
{}

/// A law about `Book::rows`: for the book of a list of transactions it returns the table, in the order of rows: each
/// row that is found by the primary key, once, and no other.
///
/// PostgreSQL 15, 5.4.4 Primary Keys, 7.5 Sorting Rows.
pub fn listed_rows_are_the_table()
    ensures { ListedAreRows }
{}

/// Accepts what may be sent to another thread.
fn goes_to_another_thread<T: Send>(_value: &T) {}

/// A law about threads: a book may be sent to another thread.
pub fn books_go_to_other_threads(book: &Book) {
    goes_to_another_thread(book);
}
