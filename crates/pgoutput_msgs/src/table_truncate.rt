//! Truncate, written from the numbers of the tables that were emptied.

ghost use Rattle.std.specs.Prelude.{◌≡◌, ◌<◌, ◌^◌, ◌++◌, All, length, map, OnOk, OnErr};
ghost use Rattle.std.specs.List.{flat_map};
ghost use Rattle.tables_log.specs.Sendable.{IsTableNumber};
ghost use Rattle.pgoutput_msgs.specs.Room.{HasRoom, Puts};
ghost use Rattle.pgoutput_msgs.specs.Spelling.{spelling_of};
ghost use Rattle.pgoutput_msgs.specs.Telling as spec;

use crate::message::Msg;
use crate::room::{put_byte, put_int32};
use crate::tables::oid_of;
use filter_tree::TableNumber;
use std::alloc::AllocError;

/// Appends the bytes that spell the Truncate message of tables, by their numbers from 0, without options: those that
/// `encode` appends for their OIDs, without the memory of a list of them. The only error is out of memory, which leaves
/// `out` as it was. Room is made for the whole message at once.
///
/// PostgreSQL 15, 55.9. Logical Replication Message Formats (Truncate).
pub fn encode_truncate(tables: &[TableNumber], out: &mut Vec<u8>) -> Result<(), AllocError>
    requires few { length tables.now < 2 ^ 31 }
    requires numbers { All IsTableNumber tables.now }
    ensures ok { OnOk result (out.new.items
        ≡ out.old.items ++ spelling_of (Msg.Truncate 0 (map spec.oid_of tables.now))) }
    ensures err { OnErr result (out.new.items ≡ out.old.items) }
{
    out.reserve(tables.len() * 4 + 6)?;
    put_truncate(tables, out);
    Ok(())
}

#[tactic(auto, using(crate::proofs::RowWriting::spelled_oids))]
fn put_truncate(tables: &[TableNumber], out: &mut Vec<u8>)
    requires few { length tables.now < 2 ^ 31 }
    requires numbers { All IsTableNumber tables.now }
    requires room { HasRoom out.old (spelling_of (Msg.Truncate 0 (map spec.oid_of tables.now))) }
    ensures { Puts out.old out.new (spelling_of (Msg.Truncate 0 (map spec.oid_of tables.now))) }
{
    put_byte(b'T', out);
    put_int32(tables.len() as u32, out);
    put_byte(0, out);
    put_oids(tables, out);
}

#[tactic(auto, using(crate::proofs::Writing::writing_turns))]
fn put_oids(tables: &[TableNumber], out: &mut Vec<u8>)
    requires numbers { All IsTableNumber tables.now }
    requires room { HasRoom out.old (flat_map spec.oid_spelling tables.now) }
    ensures { Puts out.old out.new (flat_map spec.oid_spelling tables.now) }
{
    for table in tables {
        put_int32(oid_of(*table), out);
    }
}
