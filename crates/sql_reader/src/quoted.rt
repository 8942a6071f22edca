//! What is between quotes.

ghost use Rattle.std.specs.Prelude.{◌≡◌, ◌<◌, ◌==◌, IfOk};
ghost use Rattle.std.specs.List.{list_any};
ghost use Rattle.std.specs.String.{string_bytes};
ghost use Rattle.sql_tokens.specs.Meant.{undoubled as meant};

use std::alloc::{AllocError, Global};

/// Whether a text has a quote.
fn has_quote(quote: char, written: &str) -> bool
    requires { quote < 128 }
    ensures { result ≡ list_any (λ byte. byte == quote) written.now }
{
    let quote = quote as u8;
    written.as_bytes().contains(&quote)
}

/// What is between two quotes, with each two quotes side by side read as one.
#[tactic(auto, using(crate::proofs::Undoubling::undoubled_without))]
pub fn undoubled(alloc: Global, quote: char, written: &str) -> Result<String, AllocError>
    requires { quote < 128 }
    ensures { IfOk result (λ text. string_bytes text ≡ meant quote written.now) }
{
    if has_quote(quote, written) {
        return undoubled_by_character(alloc, quote, written);
    }
    let text = String::from_str(alloc, written)?;
    Ok(text)
}

#[tactic(auto, using(crate::proofs::Undoubling::undoubled_turns))]
fn undoubled_by_character(alloc: Global, quote: char, written: &str) -> Result<String, AllocError>
    requires { quote < 128 }
    ensures { IfOk result (λ text. string_bytes text ≡ meant quote written.now) }
{
    let mut text = String::new(alloc);
    // Whether the last character is the first of two quotes, if another quote follows.
    let mut is_quote = false;
    for character in written.chars() {
        if is_quote && character == quote {
            is_quote = false;
        } else {
            is_quote = character == quote;
            text.push(character)?;
        }
    }
    Ok(text)
}
