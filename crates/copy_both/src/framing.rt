//! The messages of a commit as frames.

ghost use Rattle.std.specs.Prelude.{◌≡◌, ◌++◌, All, IfOk, OnOk, OnErr};
ghost use Rattle.row_owners.specs.Owners.{AreOwners};
ghost use Rattle.shard_checker.specs.CheckedView.{checked_view};
ghost use Rattle.pgoutput_msgs.specs.Ranges.{HasTexts};
ghost use Rattle.pgoutput_msgs.specs.Telling.{messages_for, relation_sent_after};
ghost use Rattle.copy_both.specs.Framing.{frames_with};

use crate::frames::Frames;
use bytes::BytesMut;
use copy_frames::XLogData;
use pgoutput_msgs::tell_changes;
use row_owners::{OwnerSet, count_of};
use shard_checker::Checked;
use std::alloc::{AllocError, Global};
use tables_log::{Commit, SlotNumber};

/// The frames of the messages that report a commit to the subscriber, each an XLogData with this head: those of
/// `messages_of`. None if no change is for it. `owners` are the subscribers that get something from each of the first
/// changes; if the subscriber is in none of them, no memory is allocated. `relation_sent` is, for each table by its
/// number, whether its Relation was sent. The only error is out of memory.
pub(crate) fn commit_frames(
    alloc: Global,
    checked: &Checked,
    slot: SlotNumber,
    commit: &Commit,
    owners: &[OwnerSet],
    relation_sent: &mut [bool],
    head: XLogData,
) -> Result<Vec<u8>, AllocError>
    requires { AreOwners (checked_view checked.now).plan commit.now.changes owners.now }
    ensures frames { IfOk result (λ frames. frames.items
        ≡ frames_with head (messages_for (checked_view checked.now) slot relation_sent.old commit.now)) }
    ensures relation_sent { OnOk result
        (relation_sent.new ≡ relation_sent_after (checked_view checked.now) slot relation_sent.old commit.now) }
    ensures texts { OnOk result
        (All HasTexts (messages_for (checked_view checked.now) slot relation_sent.old commit.now)) }
{
    let count = count_of(owners, commit.changes().len(), slot);
    if count == 0 {
        return Ok(Vec::new(alloc));
    }
    let mut frames = Frames::new(alloc, head);
    frames.begin(commit, count)?;
    let begun = frames.bytes.len();
    tell_changes(
        alloc,
        checked,
        slot,
        commit,
        owners,
        relation_sent,
        &mut frames,
    )?;
    if frames.bytes.len() == begun {
        return Ok(Vec::new(alloc));
    }
    frames.end(commit)?;
    let Frames { bytes, .. } = frames;
    Ok(bytes)
}

/// Adds frames to an output, without a copy if it is empty. The only error is out of memory.
pub(crate) fn append_frames(frames: Vec<u8>, out: &mut BytesMut) -> Result<(), AllocError>
    ensures ok { OnOk result (out.new.items ≡ out.old.items ++ frames.items) }
    ensures err { OnErr result (out.new.items ≡ out.old.items) }
{
    if out.is_empty() {
        *out = BytesMut::from_vec(frames);
        return Ok(());
    }
    out.extend_from_slice(frames.as_slice())?;
    Ok(())
}
