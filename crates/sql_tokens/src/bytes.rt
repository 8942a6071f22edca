//! Single bytes, and runs of bytes of one class.

ghost use Rattle.std.specs.Prelude.{◌≡◌, ◌≢◌, ◌<◌, ◌≤◌, length, slice_index};
ghost use Rattle.std.specs.List.{prefix_len};
ghost use Rattle.sql_tokens.specs.Bytes as spec;

/// The classes of bytes that tokens are made of.
#[derive(Clone, Copy)]
pub(crate) enum Class {
    /// White space: a space, a tab, a newline, a carriage return or a form feed.
    Space,
    /// The first byte of a word: an ASCII letter or an underscore.
    Letter,
    /// A later byte of a word: a letter, an underscore, a digit or a dollar sign.
    WordByte,
    /// A decimal digit.
    Digit,
    /// A byte of a comment to the end of the line: no line end and no zero byte.
    LineByte,
    /// A character of operators.
    Sign,
    /// A character of operators that lets an operator end in a plus or a minus.
    FreeSign,
    /// A plus or a minus.
    PlusMinus,
}

/// Whether a byte is of a class.
pub(crate) fn is_of(class: Class, byte: u8) -> bool
    ensures { result ≡ spec.is_in_class class byte }
{
    match class {
        Class::Space => matches!(byte, b' ' | b'\t' | b'\n' | b'\r' | 12),
        Class::Letter => byte.is_ascii_alphabetic() || byte == b'_',
        Class::WordByte => byte.is_ascii_alphanumeric() || byte == b'_' || byte == b'$',
        Class::Digit => byte.is_ascii_digit(),
        Class::LineByte => !matches!(byte, 0 | b'\n' | b'\r'),
        Class::Sign => is_sign(byte),
        Class::FreeSign => is_free_sign(byte),
        Class::PlusMinus => byte == b'+' || byte == b'-',
    }
}

fn is_free_sign(byte: u8) -> bool
    ensures { result ≡ spec.is_free_sign byte }
{
    matches!(
        byte,
        b'~' | b'!' | b'@' | b'#' | b'%' | b'^' | b'&' | b'|' | b'`' | b'?'
    )
}

fn is_sign(byte: u8) -> bool
    ensures { result ≡ spec.is_sign byte }
{
    matches!(byte, b'+' | b'-' | b'*' | b'/' | b'<' | b'>' | b'=') || is_free_sign(byte)
}

/// The byte at an index, or 0 past the end.
pub(crate) fn byte_at(bytes: &[u8], index: usize) -> u8
    ensures value { result ≡ slice_index bytes.now index }
    ensures within { result ≢ 0 → index < length bytes.now }
{
    if index < bytes.len() { bytes[index] } else { 0 }
}

/// How many bytes at the front are of a class.
pub(crate) fn run_len(class: Class, bytes: &[u8]) -> usize
    ensures value { result ≡ prefix_len (spec.is_in_class class) bytes.now }
    ensures within { result ≤ length bytes.now }
{
    let mut length = 0;
    while length < bytes.len() && is_of(class, bytes[length]) {
        length += 1;
    }
    length
}
