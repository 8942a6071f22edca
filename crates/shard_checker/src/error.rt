//! Why a sharding is refused.

use filter_tree::TableNumber;
use pub_catalog::SubscriberNumber;
use std::alloc::AllocError;
use thiserror::Error;

/// An operation whose changes a publication may leave out.
///
/// PostgreSQL 15, SQL Commands, CREATE PUBLICATION (publish).
#[derive(Clone, Copy, Debug, PartialEq, Eq, Error)]
pub enum Operation {
    #[error("insert")]
    Insert,
    #[error("update")]
    Update,
    #[error("delete")]
    Delete,
    #[error("truncate")]
    Truncate,
}

/// Why a sharding is refused. Publications, tables, columns and subscribers are identified by their numbers in the
/// catalog, from 0, and the nodes of a table's certificate by their numbers in the order in which it is written, from
/// 0: a split, and then its branches.
#[derive(Clone, Copy, Debug, PartialEq, Eq, Error)]
pub enum CheckError {
    /// A subscription names the publication, which does not publish the operation.
    #[error("publication {publication} has a subscription, but does not publish {operation}")]
    PublishMissing {
        publication: usize,
        operation: Operation,
    },
    /// The table's replica identity does not distinguish its rows: it is NOTHING, or a unique index that the table does
    /// not have or that has a column which may be null. No catalog that `read_catalog` returns has such an index.
    #[error("the replica identity of table {table} does not identify its rows")]
    NoIdentity {
        table: TableNumber,
    },
    /// A subscription names the publication, whose filter for the table names a column of it that is outside the
    /// replica identity.
    #[error("publication {publication} filters table {table} by column {column}, which is not in the replica identity")]
    NotCovered {
        publication: usize,
        table: TableNumber,
        column: usize,
    },
    /// There are fewer or more certificates than tables.
    #[error("the number of certificates is not the number of tables")]
    CertCount,
    /// The node names an atom, a term or a subscriber that does not exist.
    #[error("node {node} of the certificate of table {table} has a number that is out of range")]
    BadIndex {
        table: TableNumber,
        node: usize,
    },
    /// The node says that the term has no value, but it may have one.
    #[error("at node {node} of the certificate of table {table} the term may have a value")]
    NotEmpty {
        table: TableNumber,
        node: usize,
    },
    /// The node says that the atom is never null, but it may be.
    #[error("at node {node} of the certificate of table {table} the atom may be null")]
    MayBeNull {
        table: TableNumber,
        node: usize,
    },
    /// The subscriber that the node names might not take the rows.
    #[error("at node {node} of the certificate of table {table} the subscriber might not take the row")]
    NotOwner {
        table: TableNumber,
        node: usize,
    },
    /// Another subscriber might take the rows of the one that the node names.
    #[error("at node {node} of the certificate of table {table} subscriber {subscriber} might take the row too")]
    SecondOwner {
        table: TableNumber,
        node: usize,
        subscriber: SubscriberNumber,
    },
    #[error("out of memory")]
    OutOfMemory,
}

impl From<AllocError> for CheckError {
    ghost use Rattle.std.specs.Prelude.{◌≡◌};
    ghost use Rattle.shard_checker.specs.declared.error.CheckError.TheVariants.{OutOfMemory};

    ghost from_gives = { λ _ error. error ≡ OutOfMemory };

    fn from(_: AllocError) -> CheckError {
        CheckError::OutOfMemory
    }
}
