//! The source of an input.

ghost use Rattle.std.specs.Prelude.{Some};

use std::io;
use std::io::Read;

/// A reader whose type says whether reads may fail (`may_fail`). Those of bytes in memory do not.
pub trait Reader: Read {
    ghost use Rattle.std.specs.Prelude.{◌≡◌, Bool, true, length, OnErr};
    ghost use Rattle.std.specs.Io.{ReadsAtMost};
    ghost use Rattle.std.specs.Io.KnownBytes.{ReadConsumes};

    ghost may_fail: { Bool };

    /// Reads the next bytes, as `read` does. Fails only if reads of this type may fail.
    fn read_piece(&mut self, piece: &mut [u8]) -> io::Result<usize>
        ensures bound { ReadsAtMost result piece.new }
        ensures bytes { ReadConsumes (Self.remaining self.old) (Self.remaining self.new) result piece.new }
        ensures fails { OnErr result (may_fail ≡ true) };
}

/// No read of bytes in memory fails.
impl Reader for &[u8] {
    ghost use Rattle.std.specs.Prelude.{false};

    ghost may_fail = { false };

    fn read_piece(&mut self, piece: &mut [u8]) -> io::Result<usize> {
        self.read(piece)
    }
}
