//! What is between quotes.

ghost use Rattle.std.specs.Prelude.{◌≡◌, ◌<◌, ◌≤◌, IfOk, IfSome, drop, length, slice_index};
ghost use Rattle.copy_both.specs.CommandTokens as spec;

use filter_tree::Text;
use std::alloc::{AllocError, Global};

/// What is between quotes: its meaning, and the number of its bytes with the last quote.
#[derive(Drop)]
pub struct QuotedText {
    pub meant: Text,
    pub length: usize,
}

/// The first byte, or 0 if there is none.
pub fn first_byte(text: &str) -> u8
    ensures { result ≡ slice_index text.now 0 }
{
    let bytes = text.as_bytes();
    if bytes.is_empty() { 0 } else { bytes[0] }
}

/// The text after its first byte.
#[tactic(auto, using(crate::proofs::Cuts::after_first))]
pub fn after_first(text: &str) -> &str
    requires some { 0 < length text.now }
    requires ascii { slice_index text.now 0 < 128 }
    ensures { result.now ≡ drop 1 text.now }
{
    text.split_at(1).1
}

/// What is between quotes, after the first one.
pub fn read_quoted(alloc: Global, quote: u8, text: &str) -> Result<Option<QuotedText>, AllocError>
    requires some { 0 < quote }
    requires ascii { quote < 128 }
    ensures value { IfOk result (λ found. found ≡ spec.quoted quote text.now) }
    ensures within { IfOk result (λ found. IfSome found (λ q. q.length ≤ length text.now)) }
{
    let mut meant = String::new(alloc);
    let mut rest = text;
    while let Some((part, after)) = rest.split_once(char::from(quote)) {
        meant.push_str(part)?;
        if first_byte(after) != quote {
            return Ok(Some(QuotedText {
                meant: Text::new(meant),
                length: text.len() - after.len(),
            }));
        }
        meant.push(char::from(quote))?;
        rest = after_first(after);
    }
    Ok(None)
}
