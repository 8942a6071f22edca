//! Calls of `Tokens::next`.

use crate::escapes::unescaped;
use anyhow::Result;
use sql_tokens::{Token, TokenFault, Tokens};
use std::alloc::Global;

/// The next token or fault, under a name without a contract.
fn next(tokens: &mut Tokens<'_>) -> Result<Option<Token>, TokenFault> {
    tokens.next()
}

fn push_token(token: &Token, answer: &mut String) -> Result<()> {
    write!(
        answer,
        "{:?} {} {}; ",
        token.kind, token.place, token.length
    )?;
    Ok(())
}

fn push_fault(fault: &TokenFault, answer: &mut String) -> Result<()> {
    write!(answer, "{:?} {}", fault.kind, fault.place)?;
    Ok(())
}

/// Appends what comes after the last token, which must come again.
fn push_end(
    end: Result<Option<Token>, TokenFault>,
    tokens: &mut Tokens<'_>,
    answer: &mut String,
) -> Result<()> {
    match &end {
        Ok(_) => answer.push_str("end")?,
        Err(fault) => push_fault(fault, answer)?,
    }
    if next(tokens) != end {
        answer.push_str(", and then another answer")?;
    }
    Ok(())
}

/// The tokens by kind, place and length, and `end`, or the fault by kind and place.
fn tokens_in(alloc: Global, text: &str) -> Result<String> {
    let mut answer = String::new(alloc);
    let mut tokens = Tokens::new(text);
    for _ in 0..=text.len() {
        match next(&mut tokens) {
            Ok(Some(token)) => push_token(&token, &mut answer)?,
            end => {
                push_end(end, &mut tokens, &mut answer)?;
                break;
            }
        }
    }
    Ok(answer)
}

/// The answer to the call.
pub fn answer(alloc: Global, call: &str, rest: &str) -> Result<Option<String>> {
    match call {
        "next" => Ok(Some(tokens_in(alloc, unescaped(alloc, rest)?.as_str())?)),
        _ => Ok(None),
    }
}
