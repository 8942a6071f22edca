//! What is at the front of a text.

ghost use Rattle.std.specs.Prelude.{◌≡◌, ◌<◌, ◌≤◌, ◌^◌, IfOk, IfSome, drop, length, slice_index, take, true};
ghost use Rattle.std.specs.Char.{is_ascii_hexdigit};
ghost use Rattle.std.specs.List.{list_all, prefix_len};
ghost use Rattle.std.specs.Str.{IsCharBoundary};
ghost use Rattle.std.specs.Str.Parse.{digits_value};
ghost use Rattle.copy_both.specs.CommandTokens as spec;

use crate::quoted::{QuotedText, after_first, first_byte, read_quoted};
use crate::token::{Piece, Token};
use filter_tree::Text;
use std::alloc::{AllocError, Global};
use tables_log::Lsn;

fn is_letter(byte: u8) -> bool
    ensures { result ≡ spec.is_letter byte }
{
    byte.is_ascii_alphabetic() || byte == b'_'
}

fn is_word_byte(byte: u8) -> bool
    ensures { result ≡ spec.is_word_byte byte }
{
    byte.is_ascii_alphanumeric() || byte == b'_' || byte == b'$'
}

fn all_hexadecimal(digits: &[u8]) -> bool
    ensures { result ≡ list_all is_ascii_hexdigit digits.now }
{
    digits.iter().all(|byte| byte.is_ascii_hexdigit())
}

fn hexadecimal_value(digits: &str) -> u32
    requires some { 0 < length digits.now }
    requires few { length digits.now ≤ 8 }
    requires digits { list_all is_ascii_hexdigit digits.now ≡ true }
    ensures { result ≡ digits_value 16 digits.now }
{
    match u32::from_str_radix(digits, 16) {
        Ok(value) => value,
        Err(_) => 0,
    }
}

/// The number that 1 to 8 hexadecimal digits represent.
fn hexadecimal(digits: &str) -> Option<u32>
    ensures { result ≡ spec.hexadecimal digits.now }
{
    let bytes = digits.as_bytes();
    if bytes.is_empty() || 8 < bytes.len() || !all_hexadecimal(bytes) {
        return None;
    }
    Some(hexadecimal_value(digits))
}

fn run_len(bytes: &[u8]) -> usize
    ensures { result ≡ prefix_len spec.is_word_byte bytes.now }
{
    bytes.iter().take_while(|byte| is_word_byte(**byte)).count()
}

/// The longest run of a word's bytes at the front of a text, and the rest of the text.
#[tactic(auto, using(crate::proofs::Cuts::run_ends))]
fn split_run(text: &str) -> (&str, &str)
    ensures run { result.0.now ≡ take (prefix_len spec.is_word_byte text.now) text.now }
    ensures rest { result.1.now ≡ drop (prefix_len spec.is_word_byte text.now) text.now }
    ensures place { IsCharBoundary text.now (length result.0.now) }
    ensures same { length result.0.now ≡ prefix_len spec.is_word_byte text.now }
{
    let length = run_len(text.as_bytes());
    text.split_at(length)
}

fn place_piece(length: usize, high: Option<u32>, low: Option<u32>) -> Piece
    ensures { result ≡ spec.place_piece length high low }
{
    let (Some(high), Some(low)) = (high, low) else {
        return Piece::Bad;
    };
    let place = u64::from(high) * 0x1_0000_0000 + u64::from(low);
    Piece::Whole(Token::Position(Lsn::new(place)), length)
}

/// A place that is written by these digits, a slash, and the digits after it.
fn place(high: &str, after: &str) -> Piece
    ensures { result ≡ spec.place high.now after.now }
{
    let (low, _) = split_run(after);
    place_piece(
        high.len() + 1 + low.len(),
        hexadecimal(high),
        hexadecimal(low),
    )
}

fn word(alloc: Global, written: &str) -> Result<Piece, AllocError>
    ensures { IfOk result (λ piece. piece ≡ spec.word written.now) }
{
    if !is_letter(first_byte(written)) {
        return Ok(Piece::Bad);
    }
    let meant = written.to_ascii_lowercase(alloc)?;
    Ok(Piece::Whole(Token::Word(Text::new(meant)), written.len()))
}

/// A word, or a place.
#[tactic(auto, unfolding(crate::specs::CommandTokens::run))]
fn run(alloc: Global, text: &str) -> Result<Piece, AllocError>
    ensures { IfOk result (λ piece. piece ≡ spec.run text.now) }
{
    let (written, rest) = split_run(text);
    if first_byte(rest) == b'/' {
        Ok(place(written, after_first(rest)))
    } else {
        word(alloc, written)
    }
}

fn name_piece(found: Option<QuotedText>) -> Piece
    requires { IfSome found (λ q. q.length < 2 ^ 63) }
    ensures { result ≡ spec.name_piece found }
{
    match found {
        None => Piece::Bad,
        Some(name) => Piece::Whole(Token::QuotedName(name.meant), 1 + name.length),
    }
}

fn value_piece(found: Option<QuotedText>) -> Piece
    requires { IfSome found (λ q. q.length < 2 ^ 63) }
    ensures { result ≡ spec.value_piece found }
{
    match found {
        None => Piece::Bad,
        Some(value) => Piece::Whole(Token::Value(value.meant), 1 + value.length),
    }
}

fn mark(byte: u8) -> Piece
    ensures { result ≡ spec.mark byte }
{
    match byte {
        b'(' => Piece::Whole(Token::Open, 1),
        b')' => Piece::Whole(Token::Close, 1),
        b',' => Piece::Whole(Token::Comma, 1),
        b';' => Piece::Whole(Token::Semicolon, 1),
        _ => Piece::Bad,
    }
}

/// What is at the front of a text that is not empty.
#[tactic(auto, unfolding(crate::specs::CommandTokens::front))]
pub fn front(alloc: Global, text: &str) -> Result<Piece, AllocError>
    requires { 0 < length text.now }
    ensures { IfOk result (λ piece. piece ≡ spec.front text.now) }
{
    let byte = first_byte(text);
    if byte.is_ascii_whitespace() {
        Ok(Piece::Blank)
    } else if byte == b'"' {
        Ok(name_piece(read_quoted(alloc, b'"', after_first(text))?))
    } else if byte == b'\'' {
        Ok(value_piece(read_quoted(alloc, b'\'', after_first(text))?))
    } else if is_word_byte(byte) {
        Ok(run(alloc, text)?)
    } else {
        Ok(mark(byte))
    }
}
