//! The messages that begin and end the transaction of a commit.

ghost use Rattle.std.specs.Prelude.{◌≡◌, ◌≤◌, length};
ghost use Rattle.pgoutput_msgs.specs.Ranges.{HasTexts, IsWithinRange};
ghost use Rattle.pgoutput_msgs.specs.Spelling.{spelling_of};
ghost use Rattle.pgoutput_msgs.specs.Telling as spec;

use crate::message::Msg;
use tables_log::{Commit, Lsn, xid_of_commit};

/// The Begin message of a commit: where the commit begins, its time, and its transaction.
///
/// PostgreSQL 15, 55.9. Logical Replication Message Formats (Begin).
pub fn begin_message(commit: &Commit) -> Msg
    ensures exact { result ≡ spec.begin_msg commit.now }
    ensures room { IsWithinRange result }
    ensures short { length (spelling_of result) ≤ 26 }
    ensures texts { HasTexts result }
{
    Msg::Begin {
        final_lsn: Lsn::of_commit(commit.number()).to_u64(),
        time: commit.time(),
        xid: xid_of_commit(commit.number()),
    }
}

/// The Commit message of a commit: where the commit begins and ends, and its time.
///
/// PostgreSQL 15, 55.9. Logical Replication Message Formats (Commit).
pub fn commit_message(commit: &Commit) -> Msg
    ensures exact { result ≡ spec.commit_msg commit.now }
    ensures room { IsWithinRange result }
    ensures short { length (spelling_of result) ≤ 26 }
    ensures texts { HasTexts result }
{
    Msg::Commit {
        lsn: Lsn::of_commit(commit.number()).to_u64(),
        end_lsn: Lsn::end_of_commit(commit.number()).to_u64(),
        time: commit.time(),
    }
}
