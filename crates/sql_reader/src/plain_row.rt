//! Rows as they are mostly written, read byte by byte: numbers of digits, NULL, TRUE and FALSE in upper case, and
//! strings without a quote in them, with a comma and at most one space between values. Any other row is read by its
//! tokens.

ghost use Rattle.std.specs.Prelude.{◌^◌, pos, neg_ℤ, ◌≡◌, ◌≢◌, ◌+◌, ◌<◌, ◌≤◌, ◌++◌, length, take, drop, slice_index, IfOk, IfSome, IsTrue, Ok, Some};
ghost use Rattle.std.specs.List.{prefix_len};
ghost use Rattle.sql_reader.specs.PlainRows as spec;
ghost use Rattle.sql_reader.specs.Rows.{row_of};

use filter_tree::{MAX_TEXT_BYTES, Row, Text, Value};
use std::alloc::{AllocError, Global};

/// The greatest number.
const LIMIT: u64 = 9_223_372_036_854_775_807;

/// The number that some digits spell, and how many digits there are.
#[derive(Clone, Copy)]
pub(crate) struct Digits {
    pub number: u64,
    pub length: usize,
}

/// A value, and the place after it.
#[derive(Drop)]
pub(crate) struct PlacedValue {
    pub value: Value,
    pub after: usize,
}

/// The byte at a place, or 0 past the end.
fn byte_at(text: &str, place: usize) -> u8
    ensures value { result ≡ slice_index text.now place }
    ensures within { result ≢ 0 → place < length text.now }
{
    let bytes = text.as_bytes();
    if place < bytes.len() { bytes[place] } else { 0 }
}

/// The bytes from a place on.
fn rest_from(text: &str, place: usize) -> &[u8]
    requires { place ≤ length text.now }
    ensures { result.now ≡ drop place text.now }
{
    let (_, rest) = text.as_bytes().split_at(place);
    rest
}

/// Whether a value ends before this place: at a comma or a closing parenthesis.
fn is_end(text: &str, place: usize) -> bool
    ensures value { result ≡ spec.is_end (slice_index text.now place) }
    ensures within { IsTrue result → place < length text.now }
{
    let byte = byte_at(text, place);
    byte == b',' || byte == b')'
}

/// The number that the digits at the front of some bytes spell; `None` if there are none, or if the number is too
/// large.
#[tactic(auto, using(crate::proofs::PlainRows::digit_turns), unfolding(sql_tokens::specs::Numbers::number_from))]
fn leading_digits(bytes: &[u8]) -> Option<Digits>
    ensures digits { IfSome result (spec.AreDigits bytes.now) }
    ensures within { IfSome result (λ digits. digits.length ≤ length bytes.now) }
{
    let mut number = 0;
    let mut length = 0;
    while length < bytes.len() && bytes[length].is_ascii_digit() {
        if LIMIT / 10 < number {
            return None;
        }
        number = 10 * number + u64::from(bytes[length].saturating_sub(b'0'));
        length += 1;
    }
    if length == 0 || LIMIT < number {
        return None;
    }
    Some(Digits { number, length })
}

fn positive(number: u64) -> i64
    requires { number < 2 ^ 63 }
    ensures { result ≡ pos number }
{
    number as i64
}

fn negative(number: u64) -> i64
    requires { number < 2 ^ 63 }
    ensures { result ≡ neg_ℤ (pos number) }
{
    -(number as i64)
}

/// The number without a sign at a place.
fn plain_number(text: &str, place: usize) -> Option<PlacedValue>
    requires { place < length text.now }
    ensures { IfSome result (spec.IsPlain text.now place) }
{
    let digits = leading_digits(rest_from(text, place))?;
    let after = place + digits.length;
    if !is_end(text, after) {
        return None;
    }
    Some(PlacedValue {
        value: Value::Int(positive(digits.number)),
        after,
    })
}

/// The number at a place with a minus.
fn negative_number(text: &str, place: usize) -> Option<PlacedValue>
    requires minus { slice_index text.now place ≡ 45 }
    requires within { place < length text.now }
    ensures { IfSome result (spec.IsPlain text.now place) }
{
    let digits = leading_digits(rest_from(text, place + 1))?;
    let after = place + 1 + digits.length;
    if !is_end(text, after) {
        return None;
    }
    Some(PlacedValue {
        value: Value::Int(negative(digits.number)),
        after,
    })
}

/// How many bytes at the front are neither a quote nor zero.
fn plain_len(bytes: &[u8]) -> usize
    ensures value { result ≡ prefix_len spec.is_plain bytes.now }
    ensures within { result ≤ length bytes.now }
{
    let mut length = 0;
    while length < bytes.len() && bytes[length] != b'\'' && bytes[length] != 0 {
        length += 1;
    }
    length
}

/// The string at a place with a quote, if no other quote is in it.
fn plain_string(text: &str, place: usize, alloc: Global) -> Result<Option<PlacedValue>, AllocError>
    requires quote { slice_index text.now place ≡ 39 }
    requires within { place < length text.now }
    ensures { IfOk result (λ found. IfSome found (spec.IsPlain text.now place)) }
{
    let length = plain_len(rest_from(text, place + 1));
    let end = place + 1 + length;
    if byte_at(text, end) != b'\'' || !is_end(text, end + 1) || MAX_TEXT_BYTES < length {
        return Ok(None);
    }
    let copy = Text::from_str(alloc, &text[place + 1..end])?;
    Ok(Some(PlacedValue {
        value: Value::Text(copy),
        after: end + 1,
    }))
}

/// Whether a word is at a place, and a value ends after it.
fn is_word(text: &str, place: usize, word: &[u8]) -> bool
    requires { place < length text.now }
    ensures { IsTrue result → spec.IsWord text.now place word.now }
{
    rest_from(text, place).starts_with(word) && is_end(text, place + word.len())
}

/// The value at a place that is spelled as a word.
fn plain_word(text: &str, place: usize) -> Option<PlacedValue>
    requires { place < length text.now }
    ensures { IfSome result (spec.IsPlain text.now place) }
{
    if is_word(text, place, b"NULL") {
        return Some(PlacedValue {
            value: Value::Null,
            after: place + 4,
        });
    }
    if is_word(text, place, b"TRUE") {
        return Some(PlacedValue {
            value: Value::Bool(true),
            after: place + 4,
        });
    }
    if is_word(text, place, b"FALSE") {
        return Some(PlacedValue {
            value: Value::Bool(false),
            after: place + 5,
        });
    }
    None
}

/// The value at a place, if it is written plainly.
fn plain_value(text: &str, place: usize, alloc: Global) -> Result<Option<PlacedValue>, AllocError>
    requires { place < length text.now }
    ensures { IfOk result (λ found. IfSome found (spec.IsPlain text.now place)) }
{
    match byte_at(text, place) {
        b'0'..=b'9' => Ok(plain_number(text, place)),
        b'-' => Ok(negative_number(text, place)),
        b'\'' => Ok(plain_string(text, place, alloc)?),
        _ => Ok(plain_word(text, place)),
    }
}

/// Where the next value begins, after a comma at this place: after one space, if there is one.
#[tactic(auto, using(crate::proofs::PlainRows::space_skipped))]
fn after_comma(text: &str, place: usize) -> usize
    requires { place < length text.now }
    ensures same { spec.tokens_at text.now result ≡ spec.tokens_at text.now (place + 1) }
    ensures later { place < result }
{
    let next = place + 1;
    if byte_at(text, next) == b' ' {
        next + 1
    } else {
        next
    }
}

/// The row of a text, if it is written plainly, in the memory of a row that is no longer needed.
///
/// # Errors
///
/// Only out of memory.
pub(crate) fn plain_row(alloc: Global, used: Row, text: &str) -> Result<Option<Row>, AllocError>
    ensures { IfOk result (λ found. IfSome found (λ row. row_of text.now ≡ Ok row)) }
{
    if byte_at(text, 0) != b'(' {
        return Ok(None);
    }
    let mut values = used.into_values();
    values.clear();
    let mut place = 1;
    while place < text.len() {
        let Some(PlacedValue { value, after }) = plain_value(text, place, alloc)? else {
            return Ok(None);
        };
        values.push(value)?;
        if byte_at(text, after) == b')' {
            if after + 1 < text.len() {
                return Ok(None);
            }
            return Ok(Some(Row::from_values(values)));
        }
        place = after_comma(text, after);
    }
    Ok(None)
}
