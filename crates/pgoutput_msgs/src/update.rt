//! Update: a row was updated.

ghost use Rattle.std.specs.Prelude.{◌≡◌, ◌^◌, ◌-◌, length, min};
ghost use Rattle.pgoutput_msgs.specs.Spelling.{spelling_of, maybe_old_spelling};
ghost use Rattle.pgoutput_msgs.specs.Ranges.{IsTupleWithinRange, IsMaybeOldWithinRange};
ghost use Rattle.pgoutput_msgs.specs.Room.{HasRoom, Puts};
ghost use Rattle.pgoutput_msgs.specs.Reading.{Reads, rows_by, update_at};

use crate::error::MsgError;
use crate::message::Msg;
use crate::reader::Reader;
use crate::room::{put_byte, put_int32};
use crate::tuple::{
    OldTuple, Tuple, old_len, put_new, put_old, read_new, read_old, read_tuple, tuple_len,
};
use std::alloc::Global;

fn maybe_old_len(old: &Option<OldTuple>) -> usize
    ensures { result ≡ min (length (maybe_old_spelling old.now)) (2 ^ 64 - 1) }
{
    match old {
        None => 0,
        Some(old) => old_len(old),
    }
}

/// How many bytes spell the message, up to `usize::MAX`.
pub(crate) fn update_len(old: &Option<OldTuple>, new: &Tuple) -> usize
    ensures { result ≡ min (length (spelling_of (Msg.Update 0 old.now new.now))) (2 ^ 64 - 1) }
{
    maybe_old_len(old)
        .saturating_add(tuple_len(new))
        .saturating_add(6)
}

fn put_maybe_old(old: &Option<OldTuple>, out: &mut Vec<u8>)
    requires fits { IsMaybeOldWithinRange old.now }
    requires room { HasRoom out.old (maybe_old_spelling old.now) }
    ensures { Puts out.old out.new (maybe_old_spelling old.now) }
{
    if let Some(old) = old {
        put_old(old, out);
    }
}

pub(crate) fn put_update(relation: u32, old: &Option<OldTuple>, new: &Tuple, out: &mut Vec<u8>)
    requires old_fits { IsMaybeOldWithinRange old.now }
    requires fits { IsTupleWithinRange new.now }
    requires room { HasRoom out.old (spelling_of (Msg.Update relation old.now new.now)) }
    ensures { Puts out.old out.new (spelling_of (Msg.Update relation old.now new.now)) }
{
    put_byte(b'U', out);
    put_int32(relation, out);
    put_maybe_old(old, out);
    put_new(new, out);
}

/// What is sent of the old row, if anything, and the new row, by the first letter.
fn rows(r: &mut Reader, alloc: Global, kind: u8) -> Result<(Option<OldTuple>, Tuple), MsgError>
    ensures { Reads (λ x. x) (rows_by kind r.old) result r.new }
{
    if kind == b'N' {
        return Ok((None, read_tuple(r, alloc)?));
    }
    let old = read_old(r, alloc, kind)?;
    let new = read_new(r, alloc)?;
    Ok((Some(old), new))
}

#[tactic(auto, unfolding(crate::specs::Reading::update_at))]
pub(crate) fn read_update(r: &mut Reader, alloc: Global) -> Result<Msg, MsgError>
    ensures { Reads (λ x. x) (update_at r.old) result r.new }
{
    let relation = r.int32()?;
    let kind = r.byte()?;
    let (old, new) = rows(r, alloc, kind)?;
    Ok(Msg::Update { relation, old, new })
}
