//! Update, written from the row that was updated and what is recorded of it before.

ghost use Rattle.std.specs.Prelude.{◌≡◌, ◌+◌, ◌-◌, ◌^◌, ◌≤◌, ◌++◌, length, min, OnOk, OnErr};
ghost use Rattle.replica_identity.specs.ChangeView.{part_view};
ghost use Rattle.pgoutput_msgs.specs.Ranges.{HasTexts, IsMaybeOldWithinRange, IsTupleWithinRange};
ghost use Rattle.pgoutput_msgs.specs.Room.{HasRoom, Puts};
ghost use Rattle.pgoutput_msgs.specs.Spelling.{spelling_of};
ghost use Rattle.pgoutput_msgs.specs.Telling.{maybe_old_of};
ghost use Rattle.pgoutput_msgs.specs.ValueText.{cells_of};

use crate::message::Msg;
use crate::room::{put_byte, put_int32};
use crate::row_old::{part_room, put_part};
use crate::row_tuple::{put_row, row_room};
use filter_tree::Row;
use replica_identity::OldPart;
use std::alloc::AllocError;

/// Appends the bytes that spell the Update message of a row of the table with this OID, and of what is recorded of the
/// row that it replaces: those that `encode` appends, without the memory of tuples. Both need room in the layout. The
/// only error is out of memory, which leaves `out` as it was. Room is made for the whole message at once. The rows'
/// texts are UTF-8.
///
/// PostgreSQL 15, 55.9. Logical Replication Message Formats (Update, TupleData).
pub fn encode_update(
    relation: u32,
    old: &OldPart,
    new: &Row,
    out: &mut Vec<u8>,
) -> Result<(), AllocError>
    requires old_fits { IsMaybeOldWithinRange (maybe_old_of (part_view old.now)) }
    requires fits { IsTupleWithinRange (cells_of new.now) }
    ensures ok { OnOk result (out.new.items ≡ out.old.items
        ++ spelling_of (Msg.Update relation (maybe_old_of (part_view old.now)) (cells_of new.now))) }
    ensures err { OnErr result (out.new.items ≡ out.old.items) }
    ensures texts { OnOk result
        (HasTexts (Msg.Update relation (maybe_old_of (part_view old.now)) (cells_of new.now))) }
{
    out.reserve(row_room(part_room(5, old), new))?;
    put_update(relation, old, new, out);
    Ok(())
}

fn put_update(relation: u32, old: &OldPart, new: &Row, out: &mut Vec<u8>)
    requires old_fits { IsMaybeOldWithinRange (maybe_old_of (part_view old.now)) }
    requires fits { IsTupleWithinRange (cells_of new.now) }
    requires room { HasRoom out.old
        (spelling_of (Msg.Update relation (maybe_old_of (part_view old.now)) (cells_of new.now))) }
    ensures puts { Puts out.old out.new
        (spelling_of (Msg.Update relation (maybe_old_of (part_view old.now)) (cells_of new.now))) }
    ensures texts { HasTexts (Msg.Update relation (maybe_old_of (part_view old.now)) (cells_of new.now)) }
{
    put_byte(b'U', out);
    put_int32(relation, out);
    put_part(old, out);
    put_byte(b'N', out);
    put_row(new, out);
}
