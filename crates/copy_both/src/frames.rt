//! The frames of messages, written from what the messages report.

ghost use Rattle.std.specs.Prelude.{◌≡◌, ◌+◌, ◌-◌, ◌<◌, ◌≤◌, ◌^◌, ◌∷◌, ◌++◌, [], ℕ, List, length, OnOk};
ghost use Rattle.std.specs.Int.{to_be_bytes, w32};
ghost use Rattle.copy_both.specs.Framing.{opening};

use copy_frames::XLogData;
use filter_tree::{Row, Table, TableNumber};
use pgoutput_msgs::{
    MessageSink, Msg, begin_message, commit_message, encode, encode_delete, encode_insert,
    encode_truncate, encode_update, oid_of, put_byte, put_int32, put_int64, relation_of,
};
use replica_identity::OldPart;
use std::alloc::{AllocError, Global};
use tables_log::Commit;

/// Frames of messages, each an XLogData with the same head.
#[derive(Drop)]
pub(crate) struct Frames {
    alloc: Global,
    pub(crate) head: XLogData,
    pub(crate) bytes: Vec<u8>,
}

/// Room that is enough for most commits of which a subscriber gets this number of changes: for the first and the last
/// frame, and for each change.
fn room_of(changes: usize) -> usize {
    changes.saturating_mul(96).saturating_add(160)
}

/// Appends the beginning of a frame, whose length is filled in when it is closed. The only error is out of memory.
fn open_frame(head: &XLogData, out: &mut Vec<u8>) -> Result<(), AllocError>
    ensures { OnOk result (out.new.items ≡ out.old.items ++ opening head.now) }
{
    out.reserve(30)?;
    put_byte(b'd', out);
    put_int32(0, out);
    put_byte(b'w', out);
    put_int64(head.start, out);
    put_int64(head.end, out);
    put_int64(head.clock, out);
    Ok(())
}

/// Fills in the length of the last frame, which begins at `start`.
fn close_frame(start: usize, out: &mut Vec<u8>)
    requires opened { start + 5 ≤ length out.old.items }
    requires room { length out.old.items < start + 2 ^ 31 }
    ensures { (front body : List ℕ) → length front ≡ start
        → out.old.items ≡ front ++ 100 ∷ 0 ∷ 0 ∷ 0 ∷ 0 ∷ body
        → out.new.items ≡ front ++ 100 ∷ (to_be_bytes w32 (length body + 4) ++ body) }
{
    let length = (out.len() - start - 1) as u32;
    out[start + 1..start + 5].copy_from_slice(&length.to_be_bytes());
}

impl Frames {
    ghost use Rattle.std.specs.Prelude.{◌≡◌, ◌+◌, ◌<◌, ◌^◌, ◌∷◌, [], length, OnOk};
    ghost use Rattle.replica_identity.specs.ChangeView.{part_view};
    ghost use Rattle.table_changes.specs.Records as r;
    ghost use Rattle.tables_log.specs.Sendable.{IsSendableChange};
    ghost use Rattle.pgoutput_msgs.specs.Ranges.{HasTexts, IsWithinRange};
    ghost use Rattle.pgoutput_msgs.specs.Sinks.{TakesEach};
    ghost use Rattle.pgoutput_msgs.specs.Spelling.{spelling_of};
    ghost use Rattle.pgoutput_msgs.specs.Telling.{begin_msg, commit_msg, message_of, named_in};
    ghost use Rattle.copy_both.specs.Framing.{AddsFrame};

    /// No frames.
    pub(crate) fn new(alloc: Global, head: XLogData) -> Frames
        ensures head { result.head ≡ head }
        ensures bytes { result.bytes.items ≡ [] }
    {
        Frames {
            alloc,
            head,
            bytes: Vec::new(alloc),
        }
    }

    /// Adds the frame of a message. The only error is out of memory.
    fn add(&mut self, message: &Msg) -> Result<(), AllocError>
        requires fits { IsWithinRange message.now }
        requires short { length (spelling_of message.now) + 30 < 2 ^ 31 }
        requires texts { HasTexts message.now }
        ensures { OnOk result (AddsFrame self.old self.new message.now) }
    {
        let start = self.bytes.len();
        open_frame(&self.head, &mut self.bytes)?;
        encode(message, &mut self.bytes)?;
        close_frame(start, &mut self.bytes);
        Ok(())
    }

    /// Adds the frame of the Delete of a row of which something is recorded. The only error is out of memory.
    fn add_gone(&mut self, table: TableNumber, old: &OldPart) -> Result<(), AllocError>
        requires recorded { named_in (r.Delete table (part_view old.now)) ≡ table ∷ [] }
        requires sendable { IsSendableChange (r.Delete table (part_view old.now)) }
        ensures { OnOk result (TakesEach AddsFrame self.old self.new
            (message_of (r.Delete table (part_view old.now)))) }
    {
        let start = self.bytes.len();
        open_frame(&self.head, &mut self.bytes)?;
        encode_delete(oid_of(table), old, &mut self.bytes)?;
        close_frame(start, &mut self.bytes);
        Ok(())
    }

    /// Adds the frame of the Begin message of a commit, and makes room for those of this number of changes once. The
    /// only error is out of memory.
    pub(crate) fn begin(&mut self, commit: &Commit, changes: usize) -> Result<(), AllocError>
        ensures { OnOk result (AddsFrame self.old self.new (begin_msg commit.now)) }
    {
        self.bytes.reserve(room_of(changes))?;
        self.add(&begin_message(commit))?;
        Ok(())
    }

    /// Adds the frame of the Commit message of a commit. The only error is out of memory.
    pub(crate) fn end(&mut self, commit: &Commit) -> Result<(), AllocError>
        ensures { OnOk result (AddsFrame self.old self.new (commit_msg commit.now)) }
    {
        self.add(&commit_message(commit))?;
        Ok(())
    }
}

impl MessageSink for Frames {
    ghost use Rattle.copy_both.specs.Framing.{AddsFrame};

    ghost takes_one = { AddsFrame };

    fn relation(&mut self, number: TableNumber, table: &Table) -> Result<(), AllocError> {
        let relation = relation_of(self.alloc, number, table)?;
        self.add(&Msg::Relation(relation))?;
        Ok(())
    }

    fn insert(&mut self, table: TableNumber, new: &Row) -> Result<(), AllocError> {
        let start = self.bytes.len();
        open_frame(&self.head, &mut self.bytes)?;
        encode_insert(oid_of(table), new, &mut self.bytes)?;
        close_frame(start, &mut self.bytes);
        Ok(())
    }

    fn update(&mut self, table: TableNumber, old: &OldPart, new: &Row) -> Result<(), AllocError> {
        let start = self.bytes.len();
        open_frame(&self.head, &mut self.bytes)?;
        encode_update(oid_of(table), old, new, &mut self.bytes)?;
        close_frame(start, &mut self.bytes);
        Ok(())
    }

    fn delete(&mut self, table: TableNumber, old: &OldPart) -> Result<(), AllocError> {
        match old {
            OldPart::None => Ok(()),
            OldPart::Key(_) | OldPart::Full(_) => Ok(self.add_gone(table, old)?),
        }
    }

    fn truncate(&mut self, tables: &[TableNumber]) -> Result<(), AllocError> {
        let start = self.bytes.len();
        open_frame(&self.head, &mut self.bytes)?;
        encode_truncate(tables, &mut self.bytes)?;
        close_frame(start, &mut self.bytes);
        Ok(())
    }
}
