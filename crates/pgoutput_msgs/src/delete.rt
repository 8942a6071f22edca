//! Delete: a row was deleted.

ghost use Rattle.std.specs.Prelude.{◌≡◌, ◌^◌, ◌-◌, length, min};
ghost use Rattle.pgoutput_msgs.specs.Spelling.{spelling_of};
ghost use Rattle.pgoutput_msgs.specs.Ranges.{IsOldWithinRange};
ghost use Rattle.pgoutput_msgs.specs.Room.{HasRoom, Puts};
ghost use Rattle.pgoutput_msgs.specs.Reading.{Reads, delete_at};

use crate::error::MsgError;
use crate::message::Msg;
use crate::reader::Reader;
use crate::room::{put_byte, put_int32};
use crate::tuple::{OldTuple, old_len, put_old, read_old};
use std::alloc::Global;

/// How many bytes spell the message, up to `usize::MAX`.
pub(crate) fn delete_len(old: &OldTuple) -> usize
    ensures { result ≡ min (length (spelling_of (Msg.Delete 0 old.now))) (2 ^ 64 - 1) }
{
    old_len(old).saturating_add(5)
}

pub(crate) fn put_delete(relation: u32, old: &OldTuple, out: &mut Vec<u8>)
    requires fits { IsOldWithinRange old.now }
    requires room { HasRoom out.old (spelling_of (Msg.Delete relation old.now)) }
    ensures { Puts out.old out.new (spelling_of (Msg.Delete relation old.now)) }
{
    put_byte(b'D', out);
    put_int32(relation, out);
    put_old(old, out);
}

#[tactic(auto, unfolding(crate::specs::Reading::delete_at))]
pub(crate) fn read_delete(r: &mut Reader, alloc: Global) -> Result<Msg, MsgError>
    ensures { Reads (λ x. x) (delete_at r.old) result r.new }
{
    let relation = r.int32()?;
    let kind = r.byte()?;
    let old = read_old(r, alloc, kind)?;
    Ok(Msg::Delete { relation, old })
}
