//! What is at the front of some bytes.

ghost use Rattle.std.specs.Prelude.{◌≡◌, ◌<◌, ◌^◌, length, slice_index, true, IfSome};
ghost use Rattle.sql_tokens.specs.declared.bytes.Class.TheVariants as class;
ghost use Rattle.sql_tokens.specs.Bytes.{is_in_class};
ghost use Rattle.sql_tokens.specs.Front as spec;
ghost use Rattle.sql_tokens.specs.Pieces.{IsPiece};

use crate::bytes::{Class, byte_at, is_of, run_len};
use crate::comments::{begins_block_comment, begins_line_comment, block_comment, line_comment};
use crate::kinds::{FaultKind, NAME_BYTES, Piece, TokenKind};
use crate::numbers::number;
use crate::quotes::{quoted_name, string};
use crate::signs::operator;

/// The piece that a comment makes, by its length after the two characters that begin it.
fn comment_piece(length: Option<usize>) -> Piece
    requires { IfSome length (λ n. n < 2 ^ 63) }
    ensures { result ≡ spec.comment_piece length }
{
    match length {
        Some(length) => Piece::Blank(2 + length),
        None => Piece::Faulty(FaultKind::BadToken),
    }
}

/// Whether a letter comes directly before a quote whose meaning it changes, by the bytes after it.
fn is_string_form(letter: u8, next: u8, after: u8) -> bool
    ensures { result ≡ spec.is_string_form letter next after }
{
    match letter.to_ascii_lowercase() {
        b'e' | b'b' | b'x' | b'n' => next == b'\'',
        b'u' => next == b'&' && (after == b'\'' || after == b'"'),
        _ => false,
    }
}

/// The word at the front of some bytes, which begin with a letter.
#[tactic(auto, unfolding(crate::specs::Front::front_word))]
fn word(bytes: &[u8]) -> Piece
    requires { is_in_class class.Letter (slice_index bytes.now 0) ≡ true }
    ensures value { result ≡ spec.front_word bytes.now }
    ensures within { IsPiece bytes.now result }
{
    let length = 1 + run_len(Class::WordByte, &bytes[1..]);
    if length == 1 && is_string_form(bytes[0], byte_at(bytes, 1), byte_at(bytes, 2)) {
        Piece::Faulty(FaultKind::StringForm)
    } else if NAME_BYTES < length {
        Piece::Faulty(FaultKind::NameTooLong)
    } else {
        Piece::Whole(TokenKind::Word, length)
    }
}

/// A byte that begins nothing longer, except for two colons.
fn punctuation(bytes: &[u8]) -> Piece
    requires { 0 < length bytes.now }
    ensures value { result ≡ spec.punctuation (slice_index bytes.now 0) (slice_index bytes.now 1) }
    ensures within { IsPiece bytes.now result }
{
    match bytes[0] {
        b'(' => Piece::Whole(TokenKind::Open, 1),
        b')' => Piece::Whole(TokenKind::Close, 1),
        b',' => Piece::Whole(TokenKind::Comma, 1),
        b';' => Piece::Whole(TokenKind::Semicolon, 1),
        b'.' => Piece::Whole(TokenKind::Dot, 1),
        b':' if byte_at(bytes, 1) == b':' => Piece::Whole(TokenKind::DoubleColon, 2),
        _ => Piece::Faulty(FaultKind::BadToken),
    }
}

/// What is at the front of some bytes, by testing for all that it may be.
#[tactic(auto, unfolding(crate::specs::Front::front))]
fn any_front(bytes: &[u8]) -> Piece
    requires { 0 < length bytes.now }
    ensures value { result ≡ spec.front bytes.now }
    ensures within { IsPiece bytes.now result }
{
    let byte = bytes[0];
    if is_of(Class::Space, byte) {
        Piece::Blank(1)
    } else if begins_line_comment(bytes) {
        comment_piece(line_comment(&bytes[2..]))
    } else if begins_block_comment(bytes) {
        comment_piece(block_comment(&bytes[2..]))
    } else if is_of(Class::Letter, byte) {
        word(bytes)
    } else if is_of(Class::Digit, byte) {
        number(bytes)
    } else if byte == b'"' {
        quoted_name(bytes)
    } else if byte == b'\'' {
        string(bytes)
    } else if is_of(Class::Sign, byte) {
        operator(bytes)
    } else {
        punctuation(bytes)
    }
}

/// What is at the front of some bytes. Digits, and the marks that separate values, are so frequent that they are
/// recognized by their first byte alone.
#[tactic(auto, using(crate::proofs::Fronts::fronts))]
pub(crate) fn front(bytes: &[u8]) -> Piece
    requires { 0 < length bytes.now }
    ensures value { result ≡ spec.front bytes.now }
    ensures within { IsPiece bytes.now result }
{
    match bytes[0] {
        b'0'..=b'9' => number(bytes),
        b'(' | b')' | b',' | b';' => punctuation(bytes),
        _ => any_front(bytes),
    }
}
