//! The text of a start command.

ghost use Rattle.std.specs.Prelude.{◌≡◌, IfOk, position};
ghost use Rattle.std.specs.Option.{option_copied};
ghost use Rattle.copy_both.specs.CommandTokens.{is_close, separated};
ghost use Rattle.copy_both.specs.CommandText as spec;

use crate::names::split_comma;
use crate::option_value::option_value;
use crate::start_command::{StartCommand, StartOption};
use crate::token::{Token, is_close, is_keyword, name_in, position_in};
use crate::tokens::tokens_of;
use filter_tree::{Items, Text};
use std::alloc::{AllocError, Global};
use tables_log::Lsn;

fn named_option(
    alloc: Global,
    name: Option<&str>,
    text: Option<&str>,
) -> Result<Option<StartOption>, AllocError>
    ensures { IfOk result (λ found. found ≡ spec.named_option (option_copied name.entry) (option_copied text.entry)) }
{
    let Some(name) = name else {
        return Ok(None);
    };
    let value = option_value(alloc, name, text)?;
    let name = Text::from_str(alloc, name)?;
    Ok(Some(StartOption { name, value }))
}

/// The option that tokens are: a name, and a value that may be missing.
fn option_in(alloc: Global, tokens: &[Token]) -> Result<Option<StartOption>, AllocError>
    ensures { IfOk result (λ found. found ≡ spec.option_in tokens.now) }
{
    match tokens {
        [name] => named_option(alloc, name_in(name), None),
        [name, Token::Value(text)] => named_option(alloc, name_in(name), Some(text.as_str())),
        _ => Ok(None),
    }
}

/// Options with commas between them.
fn options_between(
    alloc: Global,
    tokens: &[Token],
) -> Result<Option<Items<StartOption>>, AllocError>
    ensures { IfOk result (λ options. options ≡ separated spec.option_in tokens.now) }
{
    let mut options = Vec::new(alloc);
    let mut rest = Some(tokens);
    while let Some(left) = rest {
        let (part, after) = split_comma(left);
        let Some(option) = option_in(alloc, part)? else {
            return Ok(None);
        };
        options.push(option)?;
        rest = after;
    }
    Ok(Some(Items::from_vec(options)))
}

/// Whether nothing follows, or only a semicolon.
fn ends(tokens: &[Token]) -> bool
    ensures { result ≡ spec.ends tokens.now }
{
    matches!(tokens, [] | [Token::Semicolon])
}

fn first_close(tokens: &[Token]) -> Option<usize>
    ensures { result ≡ position is_close tokens.now }
{
    tokens.iter().position(|token| is_close(token))
}

/// Options, and the parenthesis that closes.
fn listed_options(alloc: Global, tokens: &[Token]) -> Result<Option<Items<StartOption>>, AllocError>
    ensures { IfOk result (λ options. options ≡ spec.listed_options tokens.now) }
{
    let Some(place) = first_close(tokens) else {
        return Ok(None);
    };
    if !ends(tokens.split_at(place + 1).1) {
        return Ok(None);
    }
    Ok(options_between(alloc, tokens.split_at(place).0)?)
}

fn no_options(alloc: Global, tokens: &[Token]) -> Option<Items<StartOption>>
    ensures { result ≡ spec.no_options tokens.now }
{
    if ends(tokens) {
        Some(Items::from_vec(Vec::new(alloc)))
    } else {
        None
    }
}

fn options_in(alloc: Global, tokens: &[Token]) -> Result<Option<Items<StartOption>>, AllocError>
    ensures { IfOk result (λ options. options ≡ spec.options_in tokens.now) }
{
    if let [Token::Open, listed @ ..] = tokens {
        return Ok(listed_options(alloc, listed)?);
    }
    Ok(no_options(alloc, tokens))
}

fn command_with(
    alloc: Global,
    slot: Option<&str>,
    position: Option<Lsn>,
    options: Option<Items<StartOption>>,
) -> Result<Option<StartCommand>, AllocError>
    ensures { IfOk result (λ found. found ≡ spec.command_with (option_copied slot.entry) position options) }
{
    let Some(slot) = slot else {
        return Ok(None);
    };
    let Some(position) = position else {
        return Ok(None);
    };
    let Some(options) = options else {
        return Ok(None);
    };
    let slot = Text::from_str(alloc, slot)?;
    Ok(Some(StartCommand {
        slot,
        position,
        options,
    }))
}

fn has_keywords(start: &Token, slot: &Token, logical: &Token) -> bool
    ensures { result ≡ spec.has_keywords start.now slot.now logical.now }
{
    is_keyword(start, "start_replication")
        && is_keyword(slot, "slot")
        && is_keyword(logical, "logical")
}

fn command_in(alloc: Global, tokens: &[Token]) -> Result<Option<StartCommand>, AllocError>
    ensures { IfOk result (λ command. command ≡ spec.command_in tokens.now) }
{
    let [start, slot, name, logical, place, options @ ..] = tokens else {
        return Ok(None);
    };
    if !has_keywords(start, slot, logical) {
        return Ok(None);
    }
    let options = options_in(alloc, options)?;
    Ok(command_with(alloc, name_in(name), position_in(place), options)?)
}

/// The command that a text is, or `None` if it is not a command that starts a stream from a logical slot.
pub fn command_of(alloc: Global, text: &str) -> Result<Option<StartCommand>, AllocError>
    ensures { IfOk result (λ command. command ≡ spec.command_of text.now) }
{
    let Some(tokens) = tokens_of(alloc, text)? else {
        return Ok(None);
    };
    command_in(alloc, tokens.as_slice())
}
