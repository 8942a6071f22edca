//! Delete, written from what is recorded of the row that was deleted.

ghost use Rattle.std.specs.Prelude.{◌≡◌, ◌++◌, OnOk, OnErr};
ghost use Rattle.replica_identity.specs.ChangeView.{part_view};
ghost use Rattle.pgoutput_msgs.specs.Ranges.{IsMaybeOldText, IsMaybeOldWithinRange};
ghost use Rattle.pgoutput_msgs.specs.Room.{HasRoom, Puts};
ghost use Rattle.pgoutput_msgs.specs.Spelling.{maybe_delete_spelling};
ghost use Rattle.pgoutput_msgs.specs.Telling.{maybe_old_of};

use crate::room::{put_byte, put_int32};
use crate::row_old::{part_room, put_part};
use replica_identity::OldPart;
use std::alloc::AllocError;

/// Appends the bytes that spell the Delete message of what is recorded of a row of the table with this OID: those that
/// `encode` appends, without the memory of a tuple. Nothing is appended if nothing is recorded. The row needs room in
/// the layout. The only error is out of memory, which leaves `out` as it was. Room is made for the whole message at
/// once. The row's texts are UTF-8.
///
/// PostgreSQL 15, 55.9. Logical Replication Message Formats (Delete, TupleData).
pub fn encode_delete(relation: u32, old: &OldPart, out: &mut Vec<u8>) -> Result<(), AllocError>
    requires { IsMaybeOldWithinRange (maybe_old_of (part_view old.now)) }
    ensures ok { OnOk result (out.new.items
        ≡ out.old.items ++ maybe_delete_spelling relation (maybe_old_of (part_view old.now))) }
    ensures err { OnErr result (out.new.items ≡ out.old.items) }
    ensures texts { OnOk result (IsMaybeOldText (maybe_old_of (part_view old.now))) }
{
    out.reserve(part_room(5, old))?;
    put_delete(relation, old, out);
    Ok(())
}

fn put_delete(relation: u32, old: &OldPart, out: &mut Vec<u8>)
    requires fits { IsMaybeOldWithinRange (maybe_old_of (part_view old.now)) }
    requires room { HasRoom out.old (maybe_delete_spelling relation (maybe_old_of (part_view old.now))) }
    ensures puts { Puts out.old out.new (maybe_delete_spelling relation (maybe_old_of (part_view old.now))) }
    ensures texts { IsMaybeOldText (maybe_old_of (part_view old.now)) }
{
    match old {
        OldPart::None => {}
        OldPart::Key(_) | OldPart::Full(_) => {
            put_byte(b'D', out);
            put_int32(relation, out);
            put_part(old, out);
        }
    }
}
