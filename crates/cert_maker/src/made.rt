//! What the maker returns.

use bumpalo::Bump;
use filter_tree::Row;
use pub_catalog::SubscriberNumber;
use split_cert::Cert;

/// The result for a table.
#[derive(Drop)]
pub enum Made<'b> {
    /// A certificate that the check accepts. Its nodes are in the arena.
    Cert(Cert<&'b Bump>),
    /// A row that fits the table, and the numbers of the subscribers that get it, in ascending order: none, or several.
    Counter(Row, Vec<SubscriberNumber>),
    /// Neither was found.
    Unknown,
    /// The certificate that was looked for has more than 1,000,000 nodes, or more than 64 splits on a path, and no row
    /// was found that shows that no certificate exists.
    TooLarge,
    OutOfMemory,
}
