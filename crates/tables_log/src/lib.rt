//! The publisher's tables, the log of its commits, and the positions up to which subscribers have confirmed it.
#![tactic(auto)]

mod applying;
mod book;
mod commit;
mod committing;
mod error;
mod key;
mod keys;
mod laws;
mod layers;
mod lsn;
mod routed;
mod settling;
mod slots;
mod staged;
mod staging;
mod table_row;
mod table_rows;
mod truncating;

pub use book::Book;
pub use commit::Commit;
pub use error::{CommandFault, CommitError, StartError, StatusAhead};
pub use laws::{
    books_go_to_other_threads, books_stand_for_transactions, listed_rows_are_the_table,
};
pub use lsn::{CommitNumber, Lsn, xid_of_commit};
pub use routed::Routed;
pub use slots::SlotNumber;
pub use staged::Staged;
