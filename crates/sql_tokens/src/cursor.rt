//! The cursor.

ghost use Rattle.std.specs.Prelude.{◌≤◌, length, IsUtf8};

use crate::kinds::{Token, TokenFault};
use crate::scan::token_at;

/// A cursor over the tokens of a text. It allocates no memory, and may be copied to read ahead.
///
/// PostgreSQL 15, "SQL Syntax", 4.1 Lexical Structure.
#[derive(Clone, Copy)]
pub struct Tokens<'a> {
    text: &'a str,
    place: usize,
    ghost in_range: { place ≤ length text.now },
    ghost utf8: { ∥ IsUtf8 text.now ∥₁ },
}

impl<'a> Tokens<'a> {
    ghost use Rattle.std.specs.Prelude.{◌≡◌, IfOk, IfErr, IfSome, IfNone, OnErr};
    ghost use Rattle.sql_tokens.specs.Lexed.{tokens_of};
    ghost use Rattle.sql_tokens.specs.Left.{text_of, left, answered, IsCut};

    /// A cursor before the first token of a text.
    pub fn new(text: &'a str) -> Tokens<'a>
        ensures text { text_of result ≡ text.now }
        ensures left { left result ≡ tokens_of text.now }
    {
        Tokens { text, place: 0 }
    }

    /// The next token, or `None` at the end of the text.
    ///
    /// # Errors
    ///
    /// The fault of the next piece of text, if it is not a token. Each later call returns the end or the fault again.
    pub fn next(&mut self) -> Result<Option<Token>, TokenFault>
        ensures text { text_of self.new ≡ text_of self.old }
        ensures next { left self.old ≡ answered (text_of self.old) result (left self.new) }
        ensures token { IfOk result (λ found. IfSome found (IsCut (text_of self.old))) }
        ensures end { IfOk result (λ found. IfNone found (left self.new ≡ left self.old)) }
        ensures fault { IfErr result (λ f. f.place ≤ length (text_of self.old)) }
        ensures err { OnErr result (left self.new ≡ left self.old) }
    {
        let answer = token_at(self.text, self.place)?;
        if let Some(token) = answer {
            self.place = token.place + token.length;
        }
        Ok(answer)
    }
}
