//! The tokens of a text.

ghost use Rattle.std.specs.Prelude.{◌≡◌, IfOk};
ghost use Rattle.copy_both.specs.CommandTokens as spec;

use crate::front::front;
use crate::token::{Piece, Token};
use filter_tree::Items;
use std::alloc::{AllocError, Global};

/// The tokens of a text, or `None` if a part of it is not a token.
pub fn tokens_of(alloc: Global, text: &str) -> Result<Option<Items<Token>>, AllocError>
    ensures { IfOk result (λ tokens. tokens ≡ spec.tokens_of text.now) }
{
    let mut tokens = Vec::new(alloc);
    let mut rest = text;
    while !rest.is_empty() {
        match front(alloc, rest)? {
            Piece::Blank => rest = rest.split_at(1).1,
            Piece::Whole(token, length) => {
                tokens.push(token)?;
                rest = rest.split_at(length).1;
            }
            Piece::Bad => return Ok(None),
        }
    }
    Ok(Some(Items::from_vec(tokens)))
}
