//! Commits: the entries of the log.

ghost use Rattle.std.specs.Prelude.{◌≡◌, ◌≢◌, IfOk, MatchBool, map};
ghost use Rattle.replica_identity.specs.ChangeView.{change_view};
ghost use Rattle.tables_log.specs.Commits.{commit_of};
ghost use Rattle.tables_log.specs.Sendable.{IsSendable};

use crate::lsn::CommitNumber;
use replica_identity::Change;
use std::alloc::{AllocError, Global};
use std::marker::Model;

/// A commit: its number from 1, its time, and the changes that its commands made, in their order. Each of its messages
/// can be spelled: it is one of 1,000,000,000 commits on one of 64 tables, and each row or part of a row in it has at
/// most 100 values: numbers of 64 bits, and texts of at most 65,535 bytes.
///
/// PostgreSQL 15, 55.9. Logical Replication Message Formats.
#[derive(Debug, Drop)]
pub struct Commit {
    number: CommitNumber,
    time: u64,
    changes: Vec<Change>,
}

impl Model for Commit {
    ghost use Rattle.std.specs.Prelude.{map};
    ghost use Rattle.replica_identity.specs.ChangeView.{change_view};
    ghost use Rattle.tables_log.specs.Commits.{CommitOf, commit_of};
    ghost use Rattle.tables_log.specs.Sendable.{IsSendable};

    ghost Value = { CommitOf };

    ghost view = { λ c. commit_of c.number c.time (map change_view c.changes.items) };

    ghost invariant = { λ c. IsSendable (commit_of c.number c.time (map change_view c.changes.items)) };
}

/// Equal changes, which share the rows, and whose other memory is allocated from `alloc`.
fn copy_changes(alloc: Global, changes: &[Change]) -> Result<Vec<Change>, AllocError>
    ensures { IfOk result (λ copies. map change_view copies.items ≡ map change_view changes.now) }
{
    let mut copies = Vec::with_capacity(alloc, changes.len())?;
    for change in changes {
        copies.push(change.copy(alloc)?)?;
    }
    Ok(copies)
}

/// Whether the lists have equal changes in the same order.
fn same_changes(one: &[Change], other: &[Change]) -> bool
    ensures { MatchBool result
        (map change_view one.now ≡ map change_view other.now) (map change_view one.now ≢ map change_view other.now) }
{
    if one.len() != other.len() {
        return false;
    }
    for (place, change) in one.iter().enumerate() {
        if !change.same(&other[place]) {
            return false;
        }
    }
    true
}

impl Commit {
    /// The commit with this number, time and changes.
    pub(crate) fn new(number: CommitNumber, time: u64, changes: Vec<Change>) -> Commit
        requires { IsSendable (commit_of number time (map change_view changes.items)) }
        ensures { result ≡ commit_of number time (map change_view changes.items) }
    {
        Commit {
            number,
            time,
            changes,
        }
    }

    /// The commit's number: 1 for the first one of the log, and at most 1,000,000,000.
    pub fn number(&self) -> CommitNumber
        ensures shows { result ≡ self.now.number }
        ensures sendable { IsSendable self.now }
    {
        self.number
    }

    /// When it was made, as it was given to `Book::commit`, in microseconds since 2000-01-01.
    pub fn time(&self) -> u64
        ensures { result ≡ self.now.time }
    {
        self.time
    }

    /// The changes that its commands made, in their order.
    pub fn changes(&self) -> &[Change]
        ensures shows { map change_view result.now ≡ self.now.changes }
        ensures sendable { IsSendable self.now }
    {
        self.changes.as_slice()
    }

    /// An equal commit, which shares the rows, and whose other memory is allocated from `alloc`. The only errors are
    /// out of memory, and that a row is shared too often.
    pub fn copy(&self, alloc: Global) -> Result<Commit, AllocError>
        ensures { IfOk result (λ copy. copy ≡ self.now) }
    {
        let changes = copy_changes(alloc, self.changes.as_slice())?;
        Ok(Commit {
            number: self.number,
            time: self.time,
            changes,
        })
    }
    /// Whether the commits are equal: they have the same number, the same time, and equal changes in the same order.
    pub fn same(&self, other: &Commit) -> bool
        ensures { MatchBool result (self.now ≡ other.now) (self.now ≢ other.now) }
    {
        self.number == other.number
            && self.time == other.time
            && same_changes(self.changes.as_slice(), other.changes.as_slice())
    }
}
