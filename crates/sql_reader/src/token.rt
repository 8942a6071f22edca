//! What the reader makes of a token and of a faulty token.

ghost use Rattle.std.specs.Prelude.{◌≡◌, Some};
ghost use Rattle.sql_tokens.specs.Left.{IsCut, lexeme};
ghost use Rattle.sql_reader.specs.Items as spec;
ghost use Rattle.sql_reader.specs.ErrorKinds.{wrong_of, wrong_token};

use crate::error::{ErrorKind, Limit, Omitted};
use sql_tokens::{FaultKind, Token, TokenKind};

/// A token as it is written.
pub fn whole<'a>(text: &'a str, token: Token) -> &'a str
    requires { IsCut text.now token }
    ensures { result.now ≡ (lexeme text.now token).text }
{
    &text[token.place..token.place + token.length]
}

/// What is between the quotes of a quoted name or a string; the whole token of any other kind.
#[tactic(auto, using(crate::proofs::Cuts::between_ends))]
pub fn within_quotes<'a>(text: &'a str, token: Token) -> &'a str
    requires { IsCut text.now token }
    ensures { result.now ≡ spec.within_quotes token.kind (lexeme text.now token).text }
{
    match token.kind {
        TokenKind::QuotedName | TokenKind::Text => {
            &text[token.place + 1..token.place + token.length - 1]
        }
        _ => whole(text, token),
    }
}

/// What is wrong if a token is faulty.
pub fn token_kind(fault: FaultKind) -> ErrorKind
    ensures { wrong_of result ≡ Some (wrong_token fault) }
{
    match fault {
        FaultKind::BadToken => ErrorKind::BadToken,
        FaultKind::NameTooLong => ErrorKind::NameTooLong,
        FaultKind::NumberTooLarge => ErrorKind::NumberTooLarge,
        FaultKind::LiteralBytes => ErrorKind::TooMany(Limit::LiteralBytes),
        FaultKind::Number => ErrorKind::LeftOut(Omitted::Number),
        FaultKind::StringForm => ErrorKind::LeftOut(Omitted::StringForm),
        FaultKind::Operator => ErrorKind::LeftOut(Omitted::Operator),
    }
}
