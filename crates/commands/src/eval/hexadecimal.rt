//! Bytes as text.

ghost use Rattle.std.specs.Prelude.{◌≡◌, ◌++◌, ◌<◌, length, map, OnOk, IsUtf8};
ghost use Rattle.std.specs.List.{flat_map};
ghost use Rattle.std.specs.String.{string_bytes};
ghost use Rattle.commands.specs.Eval.Hexadecimal as spec;

use std::alloc::AllocError;

/// Writes each byte as two hexadecimal digits in lower case, after what is on the line. The digits are made in memory
/// that is kept for them, whatever it has.
pub fn push_hexadecimal(
    line: &mut String,
    pairs: &mut Vec<[u8; 2]>,
    bytes: &[u8],
) -> Result<(), AllocError>
    ensures { OnOk result (string_bytes line.new ≡ string_bytes line.old ++ spec.hexadecimal bytes.now) }
{
    spell(pairs, bytes)?;
    line.push_str(text_of(pairs.as_slice()))?;
    Ok(())
}

/// The text of pairs of digits.
#[tactic(auto, using(crate::proofs::Digits::read_of_text))]
fn text_of(pairs: &[[u8; 2]]) -> &str
    requires { IsUtf8 (flat_map (λ pair. pair) pairs.now) }
    ensures { result.now ≡ flat_map (λ pair. pair) pairs.now }
{
    str::from_utf8(pairs.as_flattened()).unwrap()
}

/// Leaves the digits of each byte, and nothing else.
fn spell(pairs: &mut Vec<[u8; 2]>, bytes: &[u8]) -> Result<(), AllocError>
    ensures { OnOk result (pairs.new.items ≡ map spec.digits_of bytes.now) }
{
    pairs.resize(bytes.len(), [0; 2])?;
    fill(pairs.as_mut_slice(), bytes);
    Ok(())
}

/// Puts the digits of each byte at its place.
fn fill(pairs: &mut [[u8; 2]], bytes: &[u8])
    requires { length pairs.old ≡ length bytes.now }
    ensures { pairs.new ≡ map spec.digits_of bytes.now }
{
    for place in 0..bytes.len() {
        pairs[place] = digits_of(bytes[place]);
    }
}

fn digits_of(byte: u8) -> [u8; 2]
    ensures { result ≡ spec.digits_of byte }
{
    [digit(byte / 16), digit(byte % 16)]
}

/// The digit of a number below 16.
fn digit(number: u8) -> u8
    requires { number < 16 }
    ensures { result ≡ spec.digit number }
{
    if number < 10 {
        b'0' + number
    } else {
        b'a' - 10 + number
    }
}
