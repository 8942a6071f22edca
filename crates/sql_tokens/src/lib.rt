//! Cuts a text into tokens, as PostgreSQL 15 does ("SQL Syntax", 4.1 Lexical Structure).
//!
//! `Tokens` is a cursor over a text. It allocates no memory. It returns one token at a time: its kind, and the bytes of
//! the text where it is.
#![tactic(auto)]

mod bytes;
mod comments;
mod cursor;
mod front;
mod kinds;
mod numbers;
mod quotes;
mod scan;
mod signs;

pub use cursor::Tokens;
pub use kinds::{FaultKind, Operator, Token, TokenFault, TokenKind};
