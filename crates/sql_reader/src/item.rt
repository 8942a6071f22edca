//! Tokens as the grammar distinguishes them.

ghost use Rattle.std.specs.Prelude.{◌≡◌};
ghost use Rattle.sql_reader.specs.Items as spec;

use crate::word::{Keyword, keyword_of};
use sql_tokens::{Operator, TokenKind};

/// What a token is to the grammar (PostgreSQL 15, "4.1 Lexical Structure").
#[derive(Clone, Copy)]
pub enum Item {
    Keyword(Keyword),
    /// A word that is not a keyword.
    Word,
    /// A name between double quotes.
    QuotedName,
    /// A number without a sign.
    Number(u64),
    /// A string between single quotes.
    Text,
    Operator(Operator),
    /// `(`
    Open,
    /// `)`
    Close,
    Comma,
    Semicolon,
    Dot,
    /// `::`
    DoubleColon,
}

impl Item {
    /// The item that a token of this kind is; `written` is the token as it is written.
    pub(crate) fn of(kind: TokenKind, written: &str) -> Item
        ensures { result ≡ spec.item_of kind written.now }
    {
        match kind {
            TokenKind::Word => match keyword_of(written) {
                Some(keyword) => Item::Keyword(keyword),
                None => Item::Word,
            },
            TokenKind::QuotedName => Item::QuotedName,
            TokenKind::Number(number) => Item::Number(number),
            TokenKind::Text => Item::Text,
            TokenKind::Operator(operator) => Item::Operator(operator),
            TokenKind::Open => Item::Open,
            TokenKind::Close => Item::Close,
            TokenKind::Comma => Item::Comma,
            TokenKind::Semicolon => Item::Semicolon,
            TokenKind::Dot => Item::Dot,
            TokenKind::DoubleColon => Item::DoubleColon,
        }
    }

    /// Whether two items are of one sort: the same keyword, operator or mark, two numbers, two names of a kind or two
    /// strings.
    pub(crate) fn is_like(self, other: Item) -> bool
        ensures { result ≡ spec.is_like self other }
    {
        match (self, other) {
            (Item::Keyword(keyword), Item::Keyword(other)) => keyword == other,
            (Item::Operator(operator), Item::Operator(other)) => operator == other,
            (Item::Word, Item::Word)
            | (Item::QuotedName, Item::QuotedName)
            | (Item::Number(_), Item::Number(_))
            | (Item::Text, Item::Text)
            | (Item::Open, Item::Open)
            | (Item::Close, Item::Close)
            | (Item::Comma, Item::Comma)
            | (Item::Semicolon, Item::Semicolon)
            | (Item::Dot, Item::Dot)
            | (Item::DoubleColon, Item::DoubleColon) => true,
            _ => false,
        }
    }

    /// Whether a name may be written like this.
    pub(crate) fn is_name(self) -> bool
        ensures { result ≡ spec.is_name self }
    {
        match self {
            Item::Word | Item::QuotedName => true,
            Item::Keyword(keyword) => !crate::word::is_reserved(keyword),
            _ => false,
        }
    }
}
