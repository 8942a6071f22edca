//! Texts that fit on one line: `\n` is a newline, `\\` a backslash, and `\xHH` the byte of two hexadecimal digits below
//! 128.

use anyhow::{Context, Result, bail};
use std::alloc::Global;

/// What came before a character of an escaped text.
#[derive(Clone, Copy)]
enum Before {
    Nothing,
    Backslash,
    /// A backslash and an `x`.
    Letter,
    /// Those, and this digit.
    Digit(u32),
}

/// The value of a hexadecimal digit.
fn digit(character: char) -> Result<u32> {
    character
        .to_digit(16)
        .context("an escape has no two hexadecimal digits")
}

/// What comes before the next character after this one, which follows a backslash, is read.
fn after_backslash(character: char, text: &mut String) -> Result<Before> {
    match character {
        'n' => text.push('\n')?,
        '\\' => text.push('\\')?,
        'x' => return Ok(Before::Letter),
        _ => bail!("there is no such escape"),
    }
    Ok(Before::Nothing)
}

/// Appends the character of two digits.
fn push_byte(high: u32, low: u32, text: &mut String) -> Result<Before> {
    let number = high.wrapping_mul(16).wrapping_add(low) as u64;
    let byte = u8::try_from(number).ok().context("a byte is below 256")?;
    if byte > 127 {
        bail!("an escaped byte is below 128");
    }
    text.push(char::from(byte))?;
    Ok(Before::Nothing)
}

/// What comes before the next character after this one is read.
fn after(before: Before, character: char, text: &mut String) -> Result<Before> {
    match before {
        Before::Nothing if character == '\\' => Ok(Before::Backslash),
        Before::Nothing => {
            text.push(character)?;
            Ok(Before::Nothing)
        }
        Before::Backslash => after_backslash(character, text),
        Before::Letter => Ok(Before::Digit(digit(character)?)),
        Before::Digit(high) => push_byte(high, digit(character)?, text),
    }
}

/// The text that is written with escapes.
pub fn unescaped(alloc: Global, written: &str) -> Result<String> {
    let mut text = String::new(alloc);
    let mut before = Before::Nothing;
    for character in written.chars() {
        before = after(before, character, &mut text)?;
    }
    match before {
        Before::Nothing => Ok(text),
        _ => bail!("an escape is cut short"),
    }
}

/// Appends the character, with an escape if it needs one.
fn push_escaped(character: char, written: &mut String) -> Result<()> {
    match character {
        '\n' => written.push_str("\\n")?,
        '\\' => written.push_str("\\\\")?,
        '\0'..='\x1f' => write!(written, "\\x{:02x}", character as u32)?,
        _ => written.push(character)?,
    }
    Ok(())
}

/// The text, written with escapes.
pub fn escaped(alloc: Global, text: &str) -> Result<String> {
    let mut written = String::new(alloc);
    for character in text.chars() {
        push_escaped(character, &mut written)?;
    }
    Ok(written)
}
