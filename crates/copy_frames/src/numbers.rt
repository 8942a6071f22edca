//! Numbers in bytes.

ghost use Rattle.std.specs.Prelude.{◌≡◌, ◌≤◌, ◌+◌, length};
ghost use Rattle.copy_frames.specs.Contents.{number_at};

use byteorder::{BigEndian, ByteOrder};

/// The number of 64 bits from this place on, the high byte first.
pub fn int64_at(bytes: &[u8], place: usize) -> u64
    requires { place + 8 ≤ length bytes.now }
    ensures { result ≡ number_at place bytes.now }
{
    BigEndian::read_u64(&bytes[place..place + 8])
}
