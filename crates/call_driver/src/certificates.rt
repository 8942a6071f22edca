//! Calls on the texts of certificates.

use crate::escapes::unescaped;
use anyhow::Result;
use bumpalo::Bump;
use split_cert::{Cert, CertError, Node, NodeReader, is_within_limits, read_in, write};
use std::alloc::Global;

/// A fault, as shown for debugging.
fn fault(alloc: Global, error: CertError) -> Result<String> {
    Ok(format!(in alloc; "{error:?}")?)
}

/// The certificate that the text spells, written again, or the text's fault.
fn again(alloc: Global, text: &str) -> Result<String> {
    match read_in(alloc, text) {
        Ok(cert) => Ok(write(alloc, &cert)?),
        Err(error) => fault(alloc, error),
    }
}

/// The same, with the certificate's nodes in an arena.
fn again_in_arena(alloc: Global, text: &str) -> Result<String> {
    let arena = Bump::new(alloc);
    match read_in(&arena, text) {
        Ok(cert) => Ok(write(alloc, &cert)?),
        Err(error) => fault(alloc, error),
    }
}

/// Whether the certificate is within the limits.
fn limits(alloc: Global, text: &str) -> Result<String> {
    match read_in(alloc, text) {
        Ok(cert) => within(alloc, &cert),
        Err(error) => fault(alloc, error),
    }
}

fn within(alloc: Global, cert: &Cert) -> Result<String> {
    let is_within = is_within_limits(cert);
    Ok(format!(in alloc; "{is_within}")?)
}

/// The tree of the certificate, as shown for debugging.
fn tree(alloc: Global, text: &str) -> Result<String> {
    match read_in(alloc, text) {
        Ok(cert) => Ok(format!(in alloc; "{cert:?}")?),
        Err(error) => fault(alloc, error),
    }
}

/// The next node, under a name without a contract.
fn next(reader: &mut NodeReader<'_>) -> Result<Option<Node>, CertError> {
    reader.next()
}

/// The nodes of the text, and `end` or its fault, which is returned again.
fn nodes(alloc: Global, text: &str) -> Result<String> {
    let mut answer = String::new(alloc);
    let mut reader = NodeReader::new(text);
    for _ in 0..=text.len() {
        match next(&mut reader) {
            Ok(Some(node)) => write!(answer, "{node:?} ")?,
            Ok(None) => {
                answer.push_str("end")?;
                break;
            }
            Err(error) => {
                write!(answer, "{error:?}")?;
                break;
            }
        }
    }
    let again = next(&mut reader);
    write!(answer, ", {again:?}")?;
    Ok(answer)
}

/// What a reader of nodes returns for the whole text, and next.
fn finish(alloc: Global, text: &str) -> Result<String> {
    let mut reader = NodeReader::new(text);
    let end = reader.finish();
    let after = next(&mut reader);
    Ok(format!(in alloc; "{end:?}, {after:?}")?)
}

/// The answer to the call.
pub fn answer(alloc: Global, call: &str, rest: &str) -> Result<Option<String>> {
    let text = unescaped(alloc, rest)?;
    let text = text.as_str();
    Ok(Some(match call {
        "read" => again(alloc, text)?,
        "read_in_arena" => again_in_arena(alloc, text)?,
        "limits" => limits(alloc, text)?,
        "tree" => tree(alloc, text)?,
        "nodes" => nodes(alloc, text)?,
        "finish" => finish(alloc, text)?,
        _ => return Ok(None),
    }))
}
