//! Closed publishers.

use crate::served::Served;
use publisher_desk::{Publishing, Seat};
use tables_log::Book;

/// What is left of a closed publisher: its book, and the seats and connections, which explain each other.
#[derive(Drop)]
pub struct Closed<P: Publishing> {
    /// The book on which the receipts were made again.
    pub book: Book,
    /// The seats, as they were passed in.
    pub seats: Vec<Seat<P>>,
    /// The connections, as they were passed in.
    pub served: Vec<Served<P>>,
}
