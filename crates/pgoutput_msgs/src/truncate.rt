//! Truncate: tables were emptied.

ghost use Rattle.std.specs.Prelude.{◌≡◌, ◌+◌, ◌<◌, ◌^◌, ◌-◌, length, min};
ghost use Rattle.std.specs.Int.{w32};
ghost use Rattle.std.specs.List.{flat_map};
ghost use Rattle.pgoutput_msgs.specs.Spelling.{int32, spelling_of};
ghost use Rattle.pgoutput_msgs.specs.Room.{HasRoom, Puts};
ghost use Rattle.pgoutput_msgs.specs.Reading.{Reads, big_endian, many, truncate_at};

use crate::error::MsgError;
use crate::message::Msg;
use crate::reader::Reader;
use crate::room::{put_byte, put_int32};
use filter_tree::Items;
use std::alloc::Global;

/// How many bytes spell the message, up to `usize::MAX`.
pub(crate) fn truncate_len(relations: &[u32]) -> usize
    ensures { result ≡ min (6 + length (flat_map int32 relations.now)) (2 ^ 64 - 1) }
{
    relations.len().saturating_mul(4).saturating_add(6)
}

#[tactic(auto, using(crate::proofs::Writing::writing_turns))]
fn put_oids(oids: &[u32], out: &mut Vec<u8>)
    requires { HasRoom out.old (flat_map int32 oids.now) }
    ensures { Puts out.old out.new (flat_map int32 oids.now) }
{
    for oid in oids {
        put_int32(*oid, out);
    }
}

pub(crate) fn put_truncate(options: u8, relations: &Items<u32>, out: &mut Vec<u8>)
    requires few { length relations.now < 2 ^ 31 }
    requires room { HasRoom out.old (spelling_of (Msg.Truncate options relations.now)) }
    ensures { Puts out.old out.new (spelling_of (Msg.Truncate options relations.now)) }
{
    put_byte(b'T', out);
    put_int32(relations.len() as u32, out);
    put_byte(options, out);
    put_oids(relations.as_slice(), out);
}

#[tactic(auto, using(crate::proofs::Counting::counting_turns))]
fn oids(r: &mut Reader, alloc: Global, count: u32) -> Result<Vec<u32>, MsgError>
    ensures { Reads (λ oids. oids.items) (many (big_endian w32) count r.old) result r.new }
{
    let mut oids = Vec::new(alloc);
    for _ in 0..count {
        oids.push(r.int32()?)?;
    }
    Ok(oids)
}

#[tactic(auto, unfolding(crate::specs::Reading::truncate_at))]
pub(crate) fn read_truncate(r: &mut Reader, alloc: Global) -> Result<Msg, MsgError>
    ensures { Reads (λ x. x) (truncate_at r.old) result r.new }
{
    let count = r.count32()?;
    let options = r.byte()?;
    let relations = Items::from_vec(oids(r, alloc, count)?);
    Ok(Msg::Truncate { options, relations })
}
