//! Messages of the logical replication protocol as values.

use crate::relation::Relation;
use crate::tuple::{OldTuple, Tuple};
use filter_tree::Items;

/// A message of the logical replication protocol, version 1, with each of its fields. Log sequence numbers (LSNs) are
/// places in the log in bytes, times are in microseconds since 2000-01-01, and tables are named by their OIDs.
///
/// PostgreSQL 15, 55.9. Logical Replication Message Formats.
#[derive(Debug, Drop)]
pub enum Msg {
    /// A transaction begins: its final LSN, when it was committed, and its number (xid).
    Begin {
        final_lsn: u64,
        time: u64,
        xid: u32,
    },
    /// A transaction ends: the LSN of the commit, the LSN at which the transaction ends, and when it was committed.
    Commit {
        lsn: u64,
        end_lsn: u64,
        time: u64,
    },
    /// A table whose changes follow.
    Relation(Relation),
    /// A row was inserted into the table with this OID, and these are its values.
    Insert {
        relation: u32,
        new: Tuple,
    },
    /// A row of the table with this OID was updated: what is sent of the old row, if anything, and the new values.
    Update {
        relation: u32,
        old: Option<OldTuple>,
        new: Tuple,
    },
    /// A row of the table with this OID was deleted: what is sent of it.
    Delete {
        relation: u32,
        old: OldTuple,
    },
    /// The tables with these OIDs were emptied. In the options, bit 1 is CASCADE, and bit 2 is RESTART IDENTITY.
    Truncate {
        options: u8,
        relations: Items<u32>,
    },
}
