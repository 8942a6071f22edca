//! Positions in the log, and transaction numbers.

ghost use Rattle.std.specs.Prelude.{◌≡◌, ◌+◌, ◌<◌, ◌^◌, nat_lt, max, min};
ghost use Rattle.tables_log.specs.Lsn.{commits_before, end_lsn_of, lsn_of, xid_of};

use std::marker::Model;

/// The number of a commit in the log, from 1; 0 is before the first one.
pub type CommitNumber = u32;

/// A position in the log, in bytes: a log sequence number. Each commit takes 64 bytes, and the first one begins at 64.
/// Contracts see the number.
///
/// PostgreSQL 15, 8.20. pg_lsn Type.
#[derive(Clone, Copy, Debug, PartialEq, Eq, Drop)]
pub struct Lsn {
    bytes: u64,
}

impl Model for Lsn {
    ghost use Rattle.std.specs.Prelude.{ℕ};

    ghost Value = { ℕ };

    ghost view = { λ lsn. lsn.bytes };

    ghost inverse = { λ bytes. record { bytes = bytes } };
}

impl Lsn {
    /// The position of this number of bytes.
    pub fn new(bytes: u64) -> Lsn
        ensures { result ≡ bytes }
    {
        Lsn { bytes }
    }

    /// Where the commit with this number begins.
    pub fn of_commit(number: CommitNumber) -> Lsn
        ensures { result ≡ lsn_of number }
    {
        Lsn::new(64 * u64::from(number))
    }

    /// Where the commit with this number ends; of 0, where the log begins.
    pub fn end_of_commit(number: CommitNumber) -> Lsn
        ensures { result ≡ end_lsn_of number }
    {
        Lsn::new(64 * u64::from(number) + 64)
    }

    /// How many commits begin before it.
    pub fn commits_before(self) -> u64
        ensures exact { result ≡ commits_before self }
        ensures few { result < 2 ^ 58 }
    {
        self.bytes.saturating_sub(1) / 64
    }

    /// Whether it is after the other position.
    pub fn is_after(self, other: Lsn) -> bool
        ensures { result ≡ nat_lt other self }
    {
        self.bytes > other.bytes
    }

    /// The greater one of two positions.
    pub fn max(self, other: Lsn) -> Lsn
        ensures { result ≡ max self other }
    {
        Lsn::new(self.bytes.max(other.bytes))
    }

    /// The lesser one of two positions.
    pub fn min(self, other: Lsn) -> Lsn
        ensures { result ≡ min self other }
    {
        Lsn::new(self.bytes.min(other.bytes))
    }

    /// The number of bytes.
    pub fn to_u64(self) -> u64
        ensures { result ≡ self }
    {
        self.bytes
    }
}

/// The transaction number of the commit with this number: 3 for the first one, since PostgreSQL reserves 0 to 2.
///
/// PostgreSQL 15, 55.9. Logical Replication Message Formats (Begin).
pub fn xid_of_commit(number: CommitNumber) -> u32
    requires { number + 2 < 2 ^ 32 }
    ensures { result ≡ xid_of number }
{
    number + 2
}
