//! What is asked of the rows of a table.

/// What is printed of each row that fits its table.
#[derive(Clone, Copy, Debug, PartialEq, Eq)]
pub enum RowOutput {
    /// What each publication says of it.
    Answers,
    /// The Insert message that carries it to a subscriber.
    Insert,
}
