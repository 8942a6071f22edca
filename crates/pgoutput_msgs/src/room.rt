//! Fields of a message, written if there is room for them.

ghost use Rattle.std.specs.Prelude.{◌≡◌, ◌∷◌, [], ◌^◌, ◌-◌, length, min};
ghost use Rattle.pgoutput_msgs.specs.Room.{HasRoom, Puts};
ghost use Rattle.pgoutput_msgs.specs.Spelling.{int8, int16, int32, signed_int32, int64, string};

use byteorder::{BigEndian, ByteOrder};
use filter_tree::Text;

pub(crate) fn put(bytes: &[u8], out: &mut Vec<u8>)
    requires { HasRoom out.old bytes.now }
    ensures { Puts out.old out.new bytes.now }
{
    let _ = out.extend_from_slice(bytes);
}

/// Writes a byte for which there is room.
pub fn put_byte(number: u8, out: &mut Vec<u8>)
    requires { HasRoom out.old (int8 number) }
    ensures { Puts out.old out.new (int8 number) }
{
    put(&[number], out);
}

pub(crate) fn put_int16(number: u16, out: &mut Vec<u8>)
    requires { HasRoom out.old (int16 number) }
    ensures { Puts out.old out.new (int16 number) }
{
    let mut bytes = [0; 2];
    BigEndian::write_u16(&mut bytes, number);
    put(&bytes, out);
}

/// Writes a number of 32 bits for which there is room, the high byte first.
pub fn put_int32(number: u32, out: &mut Vec<u8>)
    requires { HasRoom out.old (int32 number) }
    ensures { Puts out.old out.new (int32 number) }
{
    let mut bytes = [0; 4];
    BigEndian::write_u32(&mut bytes, number);
    put(&bytes, out);
}

pub(crate) fn put_signed_int32(number: i32, out: &mut Vec<u8>)
    requires { HasRoom out.old (signed_int32 number) }
    ensures { Puts out.old out.new (signed_int32 number) }
{
    let mut bytes = [0; 4];
    BigEndian::write_i32(&mut bytes, number);
    put(&bytes, out);
}

/// Writes a number of 64 bits for which there is room, the high byte first.
pub fn put_int64(number: u64, out: &mut Vec<u8>)
    requires { HasRoom out.old (int64 number) }
    ensures { Puts out.old out.new (int64 number) }
{
    let mut bytes = [0; 8];
    BigEndian::write_u64(&mut bytes, number);
    put(&bytes, out);
}

/// How many bytes spell the text as a String, up to `usize::MAX`.
pub(crate) fn string_len(text: &Text) -> usize
    ensures { result ≡ min (length (string text.now)) (2 ^ 64 - 1) }
{
    text.len().saturating_add(1)
}

/// Writes a text, and a zero byte.
pub(crate) fn put_string(text: &Text, out: &mut Vec<u8>)
    requires { HasRoom out.old (string text.now) }
    ensures { Puts out.old out.new (string text.now) }
{
    put(text.as_bytes(), out);
    put_byte(0, out);
}
