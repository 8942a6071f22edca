//! Numbers.

ghost use Rattle.std.specs.Prelude.{◌≡◌, ◌^◌, true, nat_lt, if◌then◌else◌, slice_index};
ghost use Rattle.sql_tokens.specs.declared.bytes.Class.TheVariants as class;
ghost use Rattle.sql_tokens.specs.Bytes.{is_in_class};
ghost use Rattle.sql_tokens.specs.Numbers as spec;
ghost use Rattle.sql_tokens.specs.Pieces.{IsPiece};

use crate::bytes::{Class, byte_at, is_of, run_len};
use crate::kinds::{FaultKind, Piece, TokenKind};

/// The greatest number.
const LIMIT: u64 = 9_223_372_036_854_775_807;

/// The number that digits spell, or `None` if it is too large.
#[tactic(auto, using(crate::proofs::NumberLoops::number_turns), unfolding(crate::specs::Numbers::number_from))]
fn value_of(digits: &[u8]) -> Option<u64>
    ensures value { let n = spec.number_of digits.now in
        result ≡ (if nat_lt n (2 ^ 63) then Some n else None) }
{
    let mut rest = digits;
    let mut value = 0;
    while let [byte, after @ ..] = rest {
        if LIMIT / 10 < value {
            return None;
        }
        value = 10 * value + u64::from(byte.saturating_sub(b'0'));
        rest = after;
    }
    if LIMIT < value { None } else { Some(value) }
}

/// The number at the front of some bytes, which begin with a digit.
#[tactic(auto, unfolding(crate::specs::Numbers::front_number))]
pub(crate) fn number(bytes: &[u8]) -> Piece
    requires { is_in_class class.Digit (slice_index bytes.now 0) ≡ true }
    ensures value { result ≡ spec.front_number bytes.now }
    ensures within { IsPiece bytes.now result }
{
    let length = run_len(Class::Digit, bytes);
    let next = byte_at(bytes, length);
    if is_of(Class::Letter, next) {
        return Piece::Faulty(FaultKind::BadToken);
    }
    if next == b'.' {
        return Piece::Faulty(FaultKind::Number);
    }
    match value_of(&bytes[..length]) {
        Some(value) => Piece::Whole(TokenKind::Number(value), length),
        None => Piece::Faulty(FaultKind::NumberTooLarge),
    }
}
