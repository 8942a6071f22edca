//! What is recorded of an old row, in a message.

ghost use Rattle.std.specs.Prelude.{◌+◌, ◌-◌, ◌^◌, ◌≤◌, length, min};
ghost use Rattle.replica_identity.specs.ChangeView.{part_view};
ghost use Rattle.pgoutput_msgs.specs.Ranges.{IsMaybeOldText, IsMaybeOldWithinRange};
ghost use Rattle.pgoutput_msgs.specs.Room.{HasRoom, Puts};
ghost use Rattle.pgoutput_msgs.specs.Spelling.{maybe_old_spelling};
ghost use Rattle.pgoutput_msgs.specs.Telling.{maybe_old_of};

use crate::room::put_byte;
use crate::row_tuple::{put_row, row_room};
use replica_identity::OldPart;

/// Room for `before` bytes and for what is recorded of an old row, up to `usize::MAX`.
pub(crate) fn part_room(before: usize, part: &OldPart) -> usize
    ensures { min (before + length (maybe_old_spelling (maybe_old_of (part_view part.now)))) (2 ^ 64 - 1) ≤ result }
{
    match part {
        OldPart::None => before,
        OldPart::Key(row) | OldPart::Full(row) => row_room(before, row.row()),
    }
}

/// Writes `K` or `O` and the row that is recorded, if any.
pub(crate) fn put_part(part: &OldPart, out: &mut Vec<u8>)
    requires fits { IsMaybeOldWithinRange (maybe_old_of (part_view part.now)) }
    requires room { HasRoom out.old (maybe_old_spelling (maybe_old_of (part_view part.now))) }
    ensures puts { Puts out.old out.new (maybe_old_spelling (maybe_old_of (part_view part.now))) }
    ensures texts { IsMaybeOldText (maybe_old_of (part_view part.now)) }
{
    match part {
        OldPart::None => {}
        OldPart::Key(row) => {
            put_byte(b'K', out);
            put_row(row.row(), out);
        }
        OldPart::Full(row) => {
            put_byte(b'O', out);
            put_row(row.row(), out);
        }
    }
}
