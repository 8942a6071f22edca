//! Insert: a row was inserted.

ghost use Rattle.std.specs.Prelude.{◌≡◌, ◌^◌, ◌-◌, length, min};
ghost use Rattle.pgoutput_msgs.specs.Spelling.{spelling_of};
ghost use Rattle.pgoutput_msgs.specs.Ranges.{IsTupleWithinRange};
ghost use Rattle.pgoutput_msgs.specs.Room.{HasRoom, Puts};
ghost use Rattle.pgoutput_msgs.specs.Reading.{Reads, insert_at};

use crate::error::MsgError;
use crate::message::Msg;
use crate::reader::Reader;
use crate::room::{put_byte, put_int32};
use crate::tuple::{Tuple, put_new, read_new, tuple_len};
use std::alloc::Global;

/// How many bytes spell the message, up to `usize::MAX`.
pub(crate) fn insert_len(new: &Tuple) -> usize
    ensures { result ≡ min (length (spelling_of (Msg.Insert 0 new.now))) (2 ^ 64 - 1) }
{
    tuple_len(new).saturating_add(6)
}

pub(crate) fn put_insert(relation: u32, new: &Tuple, out: &mut Vec<u8>)
    requires fits { IsTupleWithinRange new.now }
    requires room { HasRoom out.old (spelling_of (Msg.Insert relation new.now)) }
    ensures { Puts out.old out.new (spelling_of (Msg.Insert relation new.now)) }
{
    put_byte(b'I', out);
    put_int32(relation, out);
    put_new(new, out);
}

#[tactic(auto, unfolding(crate::specs::Reading::insert_at))]
pub(crate) fn read_insert(r: &mut Reader, alloc: Global) -> Result<Msg, MsgError>
    ensures { Reads (λ x. x) (insert_at r.old) result r.new }
{
    let relation = r.int32()?;
    let new = read_new(r, alloc)?;
    Ok(Msg::Insert { relation, new })
}
