//! How far a stream has come.

ghost use Rattle.std.specs.Prelude.{◌≡◌, ◌<◌, ◌^◌};
ghost use Rattle.copy_both.specs.Streams as spec;

use crate::framing::{append_frames, commit_frames};
use crate::taken::Taken;
use bytes::BytesMut;
use copy_frames::XLogData;
use row_owners::OwnerSet;
use shard_checker::Checked;
use std::alloc::{AllocError, Global};
use tables_log::{Commit, CommitNumber, Lsn, SlotNumber};

/// The sent position of a stream that starts at this position and has sent nothing: this one, or where the log begins
/// if it is 0.
pub fn first_sent(start: Lsn) -> Lsn
    ensures { result ≡ spec.first_sent start }
{
    if start.to_u64() == 0 {
        return Lsn::of_commit(1);
    }
    start
}

/// How far a stream has come: its slot, the number of commits that are done, for each table whether its Relation was
/// sent, and the sent position.
#[derive(Drop)]
pub(crate) struct StreamState {
    pub(crate) slot: SlotNumber,
    pub(crate) done: u64,
    pub(crate) relation_sent: Vec<bool>,
    pub(crate) sent: Lsn,
    ghost within: { done < 2 ^ 60 },
}

impl StreamState {
    ghost use Rattle.std.specs.Prelude.{◌≡◌, ◌+◌, ◌++◌, IfOk, OnOk, OnErr};
    ghost use Rattle.row_owners.specs.Owners.{AreOwners};
    ghost use Rattle.shard_checker.specs.CheckedView.{checked_view};
    ghost use Rattle.pgoutput_msgs.specs.Telling.{messages_for};
    ghost use Rattle.copy_both.specs.Streams.{state_at, state_after, take_bytes};
    ghost use Rattle.copy_both.specs.Tellings.{telling_of};
    ghost use Rattle.copy_both.specs.Voices.{AreReadBack, state_past, state_view, taken_of};

    /// A stream that starts at the position. No Relation of the `tables` tables was sent.
    pub(crate) fn new(
        alloc: Global,
        slot: SlotNumber,
        tables: usize,
        position: Lsn,
    ) -> Result<StreamState, AllocError>
        ensures { IfOk result (λ state. state_view state ≡ state_at slot tables position) }
    {
        let relation_sent = vec![in alloc; false; tables]?;
        Ok(StreamState {
            slot,
            done: position.commits_before(),
            relation_sent,
            sent: first_sent(position),
        })
    }

    /// Takes the next commit, whose frames are added to `out`. `owners` are the subscribers that get something from
    /// each of its first changes. The only error is out of memory.
    pub(crate) fn take(
        &mut self,
        alloc: Global,
        checked: &Checked,
        commit: &Commit,
        owners: &[OwnerSet],
        now: u64,
        out: &mut BytesMut,
    ) -> Result<Taken, AllocError>
        requires next { commit.now.number ≡ self.old.done + 1 }
        requires owners { AreOwners (checked_view checked.now).plan commit.now.changes owners.now }
        ensures taken { IfOk result (λ taken. taken ≡ taken_of commit.now.number
            (messages_for (checked_view checked.now) self.old.slot self.old.relation_sent.items commit.now)) }
        ensures state { OnOk result (state_view self.new
            ≡ state_after (telling_of (checked_view checked.now)) (state_view self.old) commit.now) }
        ensures said { OnOk result (out.new.items ≡ out.old.items
            ++ take_bytes (telling_of (checked_view checked.now)) (state_view self.old) commit.now now) }
        ensures read_back { OnOk result (AreReadBack (checked_view checked.now) (state_view self.old) commit.now) }
        ensures err { OnErr result (out.new.items ≡ out.old.items) }
    {
        let number = commit.number();
        let lsn = Lsn::of_commit(number).to_u64();
        let head = XLogData {
            start: lsn,
            end: lsn,
            clock: now,
        };
        let relation_sent = self.relation_sent.as_mut_slice();
        let frames = commit_frames(
            alloc,
            checked,
            self.slot,
            commit,
            owners,
            relation_sent,
            head,
        )?;
        let taken = if frames.is_empty() {
            Taken::Skipped(number)
        } else {
            Taken::Sent(number)
        };
        append_frames(frames, out)?;
        self.done += 1;
        self.sent = Lsn::end_of_commit(number);
        Ok(taken)
    }

    /// Passes the commit of the next number, of which nothing is sent.
    pub(crate) fn skip(&mut self, number: CommitNumber)
        requires { number ≡ self.old.done + 1 }
        ensures { state_view self.new ≡ state_past (state_view self.old) number }
    {
        self.done += 1;
        self.sent = Lsn::end_of_commit(number);
    }
}
