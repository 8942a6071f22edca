//! Messages as bytes.

ghost use Rattle.std.specs.Prelude.{◌≡◌, ◌++◌, ◌^◌, ◌-◌, length, min, OnOk, OnErr, IsTrue, ◌↔◌};
ghost use Rattle.pgoutput_msgs.specs.Spelling.{spelling_of};
ghost use Rattle.pgoutput_msgs.specs.Ranges.{IsWithinRange, IsCellWithinRange, IsTupleWithinRange, IsOldWithinRange, IsMaybeOldWithinRange};
ghost use Rattle.pgoutput_msgs.specs.Room.{HasRoom, Puts};

use crate::begin::{BEGIN_LEN, put_begin};
use crate::commit::{COMMIT_LEN, put_commit};
use crate::delete::{delete_len, put_delete};
use crate::insert::{insert_len, put_insert};
use crate::message::Msg;
use crate::relation::{put_relation, relation_len};
use crate::truncate::{put_truncate, truncate_len};
use crate::tuple::{Cell, OldTuple, Tuple};
use crate::update::{put_update, update_len};
use std::alloc::AllocError;

/// Appends the bytes that spell the message. The only error is out of memory, which leaves `out` as it was. Room is
/// made for the whole message at once.
///
/// PostgreSQL 15, 55.9. Logical Replication Message Formats.
pub fn encode(message: &Msg, out: &mut Vec<u8>) -> Result<(), AllocError>
    requires { IsWithinRange message.now }
    ensures ok { OnOk result (out.new.items ≡ out.old.items ++ spelling_of message.now) }
    ensures err { OnErr result (out.new.items ≡ out.old.items) }
{
    out.reserve(message_len(message))?;
    put_message(message, out);
    Ok(())
}

/// How many bytes spell the message, up to `usize::MAX`.
fn message_len(message: &Msg) -> usize
    ensures { result ≡ min (length (spelling_of message.now)) (2 ^ 64 - 1) }
{
    match message {
        Msg::Begin { .. } => BEGIN_LEN,
        Msg::Commit { .. } => COMMIT_LEN,
        Msg::Relation(relation) => relation_len(relation),
        Msg::Insert { new, .. } => insert_len(new),
        Msg::Update { old, new, .. } => update_len(old, new),
        Msg::Delete { old, .. } => delete_len(old),
        Msg::Truncate { relations, .. } => truncate_len(relations.as_slice()),
    }
}

fn put_message(message: &Msg, out: &mut Vec<u8>)
    requires fits { IsWithinRange message.now }
    requires room { HasRoom out.old (spelling_of message.now) }
    ensures { Puts out.old out.new (spelling_of message.now) }
{
    match message {
        Msg::Begin {
            final_lsn,
            time,
            xid,
        } => put_begin(*final_lsn, *time, *xid, out),
        Msg::Commit { lsn, end_lsn, time } => put_commit(*lsn, *end_lsn, *time, out),
        Msg::Relation(relation) => put_relation(relation, out),
        Msg::Insert { relation, new } => put_insert(*relation, new, out),
        Msg::Update { relation, old, new } => put_update(*relation, old, new, out),
        Msg::Delete { relation, old } => put_delete(*relation, old, out),
        Msg::Truncate { options, relations } => put_truncate(*options, relations, out),
    }
}

/// Whether the layout has room for the message: each table and each tuple has fewer than 2^15 columns, each text of a
/// tuple fewer than 2^31 bytes, and fewer than 2^31 tables are emptied.
///
/// PostgreSQL 15, 55.9. Logical Replication Message Formats.
pub fn fits(message: &Msg) -> bool
    ensures { IsTrue result ↔ IsWithinRange message.now }
{
    match message {
        Msg::Begin { .. } | Msg::Commit { .. } => true,
        Msg::Relation(relation) => relation.columns.len() < 32_768,
        Msg::Insert { new, .. } => tuple_fits(new),
        Msg::Update { old, new, .. } => maybe_old_fits(old) && tuple_fits(new),
        Msg::Delete { old, .. } => old_fits(old),
        Msg::Truncate { relations, .. } => relations.len() < 2_147_483_648,
    }
}

fn maybe_old_fits(old: &Option<OldTuple>) -> bool
    ensures { IsTrue result ↔ IsMaybeOldWithinRange old.now }
{
    match old {
        None => true,
        Some(old) => old_fits(old),
    }
}

fn old_fits(old: &OldTuple) -> bool
    ensures { IsTrue result ↔ IsOldWithinRange old.now }
{
    match old {
        OldTuple::Key(tuple) | OldTuple::Full(tuple) => tuple_fits(tuple),
    }
}

fn tuple_fits(tuple: &Tuple) -> bool
    ensures { IsTrue result ↔ IsTupleWithinRange tuple.now }
{
    tuple.len() < 32_768 && tuple.cells().iter().all(cell_fits)
}

fn cell_fits(cell: &Cell) -> bool
    ensures { IsTrue result ↔ IsCellWithinRange cell.now }
{
    match cell {
        Cell::Null => true,
        Cell::Text(text) => text.len() < 2_147_483_648,
    }
}
