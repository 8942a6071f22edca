//! What the value of an option means.

ghost use Rattle.std.specs.Prelude.{◌≡◌, ◌==◌, ◌≤◌, IfOk, codes, length};
ghost use Rattle.std.specs.Char.{is_ascii_digit};
ghost use Rattle.std.specs.List.{list_all, prefix_len};
ghost use Rattle.std.specs.Option.{option_copied};
ghost use Rattle.std.specs.Str.{bytes_eq};
ghost use Rattle.copy_both.specs.OptionValues as spec;

use crate::names::names_in;
use crate::start_command::OptionValue;
use crate::tokens::tokens_of;
use std::alloc::{AllocError, Global};

/// The most digits of a version.
const VERSION_DIGITS: usize = 10;

fn all_digits(digits: &[u8]) -> bool
    ensures { result ≡ list_all is_ascii_digit digits.now }
{
    digits.iter().all(|byte| byte.is_ascii_digit())
}

fn zeros(digits: &[u8]) -> usize
    ensures value { result ≡ prefix_len (λ b. b == 48) digits.now }
    ensures within { result ≤ length digits.now }
{
    digits.iter().take_while(|byte| **byte == b'0').count()
}

/// Whether the digits are `1` after leading zeros.
fn is_one(digits: &[u8]) -> bool
    ensures { result ≡ bytes_eq (spec.without_zeros digits.now) (codes "1") }
{
    digits.split_at(zeros(digits)).1 == b"1".as_slice()
}

fn version(text: &str) -> OptionValue
    ensures { result ≡ spec.version text.now }
{
    let digits = text.as_bytes();
    if digits.is_empty() || VERSION_DIGITS < digits.len() || !all_digits(digits) {
        return OptionValue::Wrong;
    }
    if is_one(digits) {
        OptionValue::Version
    } else {
        OptionValue::Unsupported
    }
}

fn publications(alloc: Global, text: &str) -> Result<OptionValue, AllocError>
    ensures { IfOk result (λ value. value ≡ spec.publications text.now) }
{
    let Some(tokens) = tokens_of(alloc, text)? else {
        return Ok(OptionValue::Wrong);
    };
    match names_in(alloc, tokens.as_slice())? {
        None => Ok(OptionValue::Wrong),
        Some(names) => Ok(OptionValue::Publications(names)),
    }
}

fn is_only_off(name: &str) -> bool
    ensures { result ≡ spec.is_only_off name.now }
{
    name == "binary" || name == "messages" || name == "streaming" || name == "two_phase"
}

fn off(text: &str) -> OptionValue
    ensures { result ≡ spec.off text.now }
{
    if text == "false" || text == "off" || text == "0" {
        OptionValue::Off
    } else {
        OptionValue::Unsupported
    }
}

fn given(alloc: Global, name: &str, text: &str) -> Result<OptionValue, AllocError>
    ensures { IfOk result (λ value. value ≡ spec.given name.now text.now) }
{
    if name == "proto_version" {
        Ok(version(text))
    } else if name == "publication_names" {
        publications(alloc, text)
    } else if is_only_off(name) {
        Ok(off(text))
    } else {
        Ok(OptionValue::Wrong)
    }
}

/// What the value of the option with this name means.
pub fn option_value(
    alloc: Global,
    name: &str,
    text: Option<&str>,
) -> Result<OptionValue, AllocError>
    ensures { IfOk result (λ value. value ≡ spec.option_value name.now (option_copied text.entry)) }
{
    match text {
        None => Ok(OptionValue::Wrong),
        Some(text) => given(alloc, name, text),
    }
}
