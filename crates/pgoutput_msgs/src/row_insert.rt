//! Insert, written from the row that was inserted.

ghost use Rattle.std.specs.Prelude.{◌≡◌, ◌++◌, OnOk, OnErr};
ghost use Rattle.pgoutput_msgs.specs.Ranges.{AreTexts, IsTupleWithinRange};
ghost use Rattle.pgoutput_msgs.specs.Room.{HasRoom, Puts};
ghost use Rattle.pgoutput_msgs.specs.Spelling.{spelling_of};
ghost use Rattle.pgoutput_msgs.specs.ValueText.{cells_of};

use crate::message::Msg;
use crate::room::{put_byte, put_int32};
use crate::row_tuple::{put_row, row_room};
use filter_tree::Row;
use std::alloc::AllocError;

/// Appends the bytes that spell the Insert message of a row of the table with this OID: those that `encode` appends for
/// the row's `tuple_of`, without the memory of a tuple. The row needs room in the layout; each row that fits a table of
/// fewer than 2^15 columns has it. The only error is out of memory, which leaves `out` as it was. Room is made for the
/// whole message at once. The row's texts are UTF-8.
///
/// PostgreSQL 15, 55.9. Logical Replication Message Formats (Insert, TupleData).
pub fn encode_insert(relation: u32, row: &Row, out: &mut Vec<u8>) -> Result<(), AllocError>
    requires { IsTupleWithinRange (cells_of row.now) }
    ensures ok { OnOk result (out.new.items ≡ out.old.items ++ spelling_of (Msg.Insert relation (cells_of row.now))) }
    ensures err { OnErr result (out.new.items ≡ out.old.items) }
    ensures texts { OnOk result (AreTexts (cells_of row.now)) }
{
    out.reserve(row_room(5, row))?;
    put_insert(relation, row, out);
    Ok(())
}

fn put_insert(relation: u32, row: &Row, out: &mut Vec<u8>)
    requires fits { IsTupleWithinRange (cells_of row.now) }
    requires room { HasRoom out.old (spelling_of (Msg.Insert relation (cells_of row.now))) }
    ensures puts { Puts out.old out.new (spelling_of (Msg.Insert relation (cells_of row.now))) }
    ensures texts { AreTexts (cells_of row.now) }
{
    put_byte(b'I', out);
    put_int32(relation, out);
    put_byte(b'N', out);
    put_row(row, out);
}
