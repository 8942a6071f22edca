//! Bytes that are appended if there is room for them.

ghost use Rattle.std.specs.Prelude.{◌≡◌, ◌≤◌, ◌+◌, ◌++◌, ◌∷◌, [], length};
ghost use Rattle.copy_frames.specs.Contents.{flag};
ghost use Rattle.std.specs.Int.{to_be_bytes, w32, w64};

use byteorder::{BigEndian, ByteOrder};
use bytes::BytesMut;

/// Appends bytes for which there is room.
pub fn put(out: &mut BytesMut, bytes: &[u8])
    requires { length bytes.now ≤ out.old.spare }
    ensures items { out.new.items ≡ out.old.items ++ bytes.now }
    ensures spare { out.new.spare + length bytes.now ≡ out.old.spare }
{
    out.extend_reserved(bytes);
}

/// Appends a byte for which there is room.
pub fn put_byte(out: &mut BytesMut, byte: u8)
    requires { 1 ≤ out.old.spare }
    ensures items { out.new.items ≡ out.old.items ++ (byte ∷ []) }
    ensures spare { out.new.spare + 1 ≡ out.old.spare }
{
    out.extend_reserved(&[byte]);
}

/// Appends a number of 32 bits for which there is room, the high byte first.
pub fn put_int32(out: &mut BytesMut, number: u32)
    requires { 4 ≤ out.old.spare }
    ensures items { out.new.items ≡ out.old.items ++ to_be_bytes w32 number }
    ensures spare { out.new.spare + 4 ≡ out.old.spare }
{
    let mut bytes = [0; 4];
    BigEndian::write_u32(&mut bytes, number);
    out.extend_reserved(&bytes);
}

/// Appends a number of 64 bits for which there is room, the high byte first.
pub fn put_int64(out: &mut BytesMut, number: u64)
    requires { 8 ≤ out.old.spare }
    ensures items { out.new.items ≡ out.old.items ++ to_be_bytes w64 number }
    ensures spare { out.new.spare + 8 ≡ out.old.spare }
{
    let mut bytes = [0; 8];
    BigEndian::write_u64(&mut bytes, number);
    out.extend_reserved(&bytes);
}

/// Appends a yes or no for which there is room.
pub fn put_flag(out: &mut BytesMut, is_yes: bool)
    requires { 1 ≤ out.old.spare }
    ensures items { out.new.items ≡ out.old.items ++ (flag is_yes ∷ []) }
    ensures spare { out.new.spare + 1 ≡ out.old.spare }
{
    if is_yes {
        put_byte(out, 1);
    } else {
        put_byte(out, 0);
    }
}

/// Appends a text for which there is room.
pub fn put_text(out: &mut BytesMut, text: &str)
    requires { length text.now ≤ out.old.spare }
    ensures items { out.new.items ≡ out.old.items ++ text.now }
    ensures spare { out.new.spare + length text.now ≡ out.old.spare }
{
    out.extend_reserved(text.as_bytes());
}
