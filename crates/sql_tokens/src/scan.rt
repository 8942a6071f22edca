//! The next token from a place on.

ghost use Rattle.std.specs.Prelude.{◌≡◌, ◌≤◌, length, IfOk, IfErr, IfSome};
ghost use Rattle.sql_tokens.specs.Lexed.{at};
ghost use Rattle.sql_tokens.specs.Left.{answered, place_after, IsCut};

use crate::front::front;
use crate::kinds::{Piece, Token, TokenFault};

/// The first token from a place on, or `None` at the end of the text.
#[tactic(auto, using(crate::proofs::Lexing::lexing))]
pub(crate) fn token_at(text: &str, place: usize) -> Result<Option<Token>, TokenFault>
    requires { place ≤ length text.now }
    ensures value { at text.now place ≡ answered text.now result (at text.now (place_after text.now result)) }
    ensures token { IfOk result (λ found. IfSome found (IsCut text.now)) }
    ensures fault { IfErr result (λ f. f.place ≤ length text.now) }
{
    let bytes = text.as_bytes();
    let mut place = place;
    while place < bytes.len() {
        let (_, rest) = bytes.split_at(place);
        match front(rest) {
            Piece::Blank(length) => place += length,
            Piece::Whole(kind, length) => return Ok(Some(Token {
                kind,
                place,
                length,
            })),
            Piece::Faulty(kind) => return Err(TokenFault { place, kind }),
        }
    }
    Ok(None)
}
