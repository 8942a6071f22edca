//! Tokens of a replication command.

ghost use Rattle.std.specs.Prelude.{◌≡◌};
ghost use Rattle.std.specs.Option.{option_copied};
ghost use Rattle.copy_both.specs.CommandTokens as spec;

use filter_tree::Text;
use tables_log::Lsn;

/// A token of a replication command, or of a list of names.
#[derive(Debug, Drop)]
pub enum Token {
    /// A word, in lower case.
    Word(Text),
    /// What a name between double quotes means.
    QuotedName(Text),
    /// What a string between single quotes means.
    Value(Text),
    /// A place in the log.
    Position(Lsn),
    /// `(`
    Open,
    /// `)`
    Close,
    /// `,`
    Comma,
    /// `;`
    Semicolon,
}

/// What is at the front of a text.
#[derive(Drop)]
pub enum Piece {
    /// A byte of white space.
    Blank,
    /// A token, and the number of its bytes.
    Whole(Token, usize),
    /// Something that is not a token.
    Bad,
}

/// The most bytes of a name.
const NAME_BYTES: usize = 63;

/// Whether the token is `,`.
pub fn is_comma(token: &Token) -> bool
    ensures { result ≡ spec.is_comma token.now }
{
    matches!(token, Token::Comma)
}

/// Whether the token is `)`.
pub fn is_close(token: &Token) -> bool
    ensures { result ≡ spec.is_close token.now }
{
    matches!(token, Token::Close)
}

/// Whether the token is this word, which is in lower case.
pub fn is_keyword(token: &Token, keyword: &str) -> bool
    ensures { result ≡ spec.is_keyword keyword.now token.now }
{
    match token {
        Token::Word(text) => text.as_str() == keyword,
        _ => false,
    }
}

/// The text, if it has as many bytes as a name may have.
fn as_name(text: &str) -> Option<&str>
    ensures { option_copied result ≡ spec.as_name text.now }
{
    if text.is_empty() || NAME_BYTES < text.len() {
        None
    } else {
        Some(text)
    }
}

/// The name that a token is.
pub fn name_in(token: &Token) -> Option<&str>
    ensures { option_copied result ≡ spec.name_in token.now }
{
    match token {
        Token::Word(text) | Token::QuotedName(text) => as_name(text.as_str()),
        _ => None,
    }
}

/// The place that a token is.
pub fn position_in(token: &Token) -> Option<Lsn>
    ensures { result ≡ spec.token_position token.now }
{
    match token {
        Token::Position(place) => Some(*place),
        _ => None,
    }
}
