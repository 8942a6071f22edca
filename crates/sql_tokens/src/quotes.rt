//! Quoted names and string constants.

ghost use Rattle.std.specs.Prelude.{◌≡◌, ◌<◌, length, nat_lt, slice_index, IfSome};
ghost use Rattle.sql_tokens.specs.Quotes as spec;
ghost use Rattle.sql_tokens.specs.Pieces.{IsPiece};

use crate::kinds::{FaultKind, NAME_BYTES, Piece, TokenKind};

/// The most bytes of a string constant.
const STRING_BYTES: usize = 65_535;

/// How many bytes come before the closing quote, or `None` if there is none.
#[tactic(auto, using(crate::proofs::QuoteLoops::inner_turns), unfolding(crate::proofs::QuoteLoops::inner_from))]
fn inner_len(quote: u8, bytes: &[u8]) -> Option<usize>
    ensures value { result ≡ spec.inner_len quote bytes.now }
    ensures within { IfSome result (λ n. n < length bytes.now) }
    ensures closes { IfSome result (λ n. slice_index bytes.now n ≡ quote) }
{
    let mut rest = bytes;
    let mut length = 0;
    // Whether the byte before the rest is a quote, which closes unless another quote follows.
    let mut is_quote = false;
    while let [byte, after @ ..] = rest {
        if is_quote {
            if *byte != quote {
                return Some(length);
            }
            length += 2;
            is_quote = false;
        } else if *byte == 0 {
            return None;
        } else if *byte == quote {
            is_quote = true;
        } else {
            length += 1;
        }
        rest = after;
    }
    if is_quote { Some(length) } else { None }
}

/// How many bytes are left once doubled quotes are undone.
#[tactic(auto, using(crate::proofs::QuoteLoops::undoubled_turns), unfolding(crate::proofs::QuoteLoops::undoubled_from))]
fn undoubled_len(quote: u8, inner: &[u8]) -> usize
    ensures { result ≡ length (spec.undoubled quote inner.now) }
{
    let mut rest = inner;
    let mut length = 0;
    // Whether the byte before the rest is the first of two quotes, if another quote follows.
    let mut is_quote = false;
    while let [byte, after @ ..] = rest {
        if is_quote && *byte == quote {
            is_quote = false;
        } else {
            is_quote = *byte == quote;
            length += 1;
        }
        rest = after;
    }
    length
}

/// Whether more bytes than the limit are left once doubled quotes are undone. Undoing never makes more.
#[tactic(auto, using(crate::proofs::QuoteLoops::shorter))]
fn is_longer(quote: u8, inner: &[u8], limit: usize) -> bool
    ensures { result ≡ nat_lt limit (length (spec.undoubled quote inner.now)) }
{
    limit < inner.len() && limit < undoubled_len(quote, inner)
}

/// The name that begins with a double quote at the front of some bytes.
#[tactic(auto, unfolding(crate::specs::Quotes::quoted_name))]
pub(crate) fn quoted_name(bytes: &[u8]) -> Piece
    requires { slice_index bytes.now 0 ≡ 34 }
    ensures value { result ≡ spec.quoted_name bytes.now }
    ensures within { IsPiece bytes.now result }
{
    let after = &bytes[1..];
    let Some(length) = inner_len(b'"', after) else {
        return Piece::Faulty(FaultKind::BadToken);
    };
    if length == 0 {
        Piece::Faulty(FaultKind::BadToken)
    } else if is_longer(b'"', &after[..length], NAME_BYTES) {
        Piece::Faulty(FaultKind::NameTooLong)
    } else {
        Piece::Whole(TokenKind::QuotedName, length + 2)
    }
}

/// The string constant that begins with a quote at the front of some bytes.
#[tactic(auto, unfolding(crate::specs::Quotes::front_string))]
pub(crate) fn string(bytes: &[u8]) -> Piece
    requires { slice_index bytes.now 0 ≡ 39 }
    ensures value { result ≡ spec.front_string bytes.now }
    ensures within { IsPiece bytes.now result }
{
    let after = &bytes[1..];
    let Some(length) = inner_len(b'\'', after) else {
        return Piece::Faulty(FaultKind::BadToken);
    };
    if is_longer(b'\'', &after[..length], STRING_BYTES) {
        Piece::Faulty(FaultKind::LiteralBytes)
    } else {
        Piece::Whole(TokenKind::Text, length + 2)
    }
}
