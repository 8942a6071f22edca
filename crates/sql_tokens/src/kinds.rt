//! Tokens and faulty tokens.

/// A token of a text: its kind, and where it is.
#[derive(Clone, Copy, Debug, PartialEq, Eq)]
pub struct Token {
    pub kind: TokenKind,
    /// The place of its first byte, in bytes from the start of the text.
    pub place: usize,
    /// How many bytes it has as it is written, quotes included.
    pub length: usize,
}

/// The kinds of tokens.
#[derive(Clone, Copy, Debug, PartialEq, Eq)]
pub enum TokenKind {
    /// An unquoted name or a keyword, of at most 63 bytes.
    Word,
    /// A name between double quotes, of 1 to 63 bytes once doubled quotes are undone.
    QuotedName,
    /// A number of decimal digits, at most 9223372036854775807, with its value.
    Number(u64),
    /// A string constant, of at most 65,535 bytes once doubled quotes are undone.
    Text,
    /// A known operator.
    Operator(Operator),
    /// `(`
    Open,
    /// `)`
    Close,
    /// `,`
    Comma,
    /// `;`
    Semicolon,
    /// `.`
    Dot,
    /// `::`
    DoubleColon,
}

/// The known operators.
///
/// PostgreSQL 15, "SQL Syntax", 4.1.3 Operators.
#[derive(Clone, Copy, Debug, PartialEq, Eq)]
pub enum Operator {
    /// `=`
    Equal,
    /// `<>`, also written `!=`
    NotEqual,
    /// `<`
    Less,
    /// `<=`
    LessOrEqual,
    /// `>`
    Greater,
    /// `>=`
    GreaterOrEqual,
    /// `%`
    Percent,
    /// `-`
    Minus,
    /// `*`
    Star,
}

/// A piece of text that is not a token, or a token that is refused.
#[derive(Clone, Copy, Debug, PartialEq, Eq)]
pub struct TokenFault {
    /// The place of its first byte, in bytes from the start of the text.
    pub place: usize,
    pub kind: FaultKind,
}

/// Why a piece of text is refused.
#[derive(Clone, Copy, Debug, PartialEq, Eq)]
pub enum FaultKind {
    /// A byte that does not begin a token, a quote or comment that does not end, a zero byte, an empty quoted name, or
    /// a number that runs into a letter.
    BadToken,
    /// A name of more than 63 bytes.
    NameTooLong,
    /// A number above 9223372036854775807.
    NumberTooLarge,
    /// A string constant of more than 65,535 bytes.
    LiteralBytes,
    /// A number with a point after it, which may be a decimal number.
    Number,
    /// A string constant or a quoted name with a letter before it that changes how it is read.
    StringForm,
    /// An operator that is not known here.
    Operator,
}

/// The most bytes of a name.
pub(crate) const NAME_BYTES: usize = 63;

/// What is at the front of some bytes.
#[derive(Clone, Copy)]
pub(crate) enum Piece {
    /// White space or a comment, of this many bytes.
    Blank(usize),
    /// A token, of this many bytes.
    Whole(TokenKind, usize),
    /// Something that is refused.
    Faulty(FaultKind),
}
