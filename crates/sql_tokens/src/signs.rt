//! Operators.

ghost use Rattle.std.specs.Prelude.{◌≡◌, ◌≤◌, ◌<◌, ◌-◌, ◌+◌, max, length, slice_index, false, true};
ghost use Rattle.std.specs.List.{suffix_len, list_any};
ghost use Rattle.sql_tokens.specs.declared.bytes.Class.TheVariants as class;
ghost use Rattle.sql_tokens.specs.Bytes.{is_in_class};
ghost use Rattle.sql_tokens.specs.Comments.{begins_line_comment, begins_block_comment};
ghost use Rattle.sql_tokens.specs.Operators as spec;
ghost use Rattle.sql_tokens.specs.Pieces.{IsPiece};

use crate::bytes::{Class, is_of};
use crate::comments::{begins_block_comment, begins_line_comment};
use crate::kinds::{FaultKind, Operator, Piece, TokenKind};

/// The length of the run of an operator's characters at the front of some bytes, which stops
/// before a comment.
#[tactic(auto, unfolding(crate::specs::Operators::signs_len))]
fn signs_len(bytes: &[u8]) -> usize
    ensures value { result ≡ spec.signs_len bytes.now }
    ensures within { result ≤ length bytes.now }
{
    let mut rest = bytes;
    let mut length = 0;
    while let [byte, after @ ..] = rest {
        if !is_of(Class::Sign, *byte) || begins_line_comment(rest) || begins_block_comment(rest) {
            return length;
        }
        length += 1;
        rest = after;
    }
    length
}

/// How many plus and minus characters are at the end of a run.
fn plus_minus_len(run: &[u8]) -> usize
    ensures value { result ≡ suffix_len (is_in_class class.PlusMinus) run.now }
    ensures within { result ≤ length run.now }
{
    run.iter()
        .rev()
        .take_while(|byte| is_of(Class::PlusMinus, **byte))
        .count()
}

fn has_free_sign(run: &[u8]) -> bool
    ensures { result ≡ list_any (is_in_class class.FreeSign) run.now }
{
    run.iter().any(|byte| is_of(Class::FreeSign, *byte))
}

/// How many bytes of a run are one operator.
fn operator_len(run: &[u8]) -> usize
    requires { 0 < length run.now }
    ensures value { result ≡ spec.operator_len run.now }
    ensures within { result ≤ length run.now }
    ensures some { 0 < result }
{
    if has_free_sign(run) {
        run.len()
    } else {
        (run.len() - plus_minus_len(run)).max(1)
    }
}

fn operator_of(signs: &[u8]) -> Option<Operator>
    ensures { result ≡ spec.operator_of signs.now }
{
    match signs {
        b"=" => Some(Operator::Equal),
        b"<" => Some(Operator::Less),
        b">" => Some(Operator::Greater),
        b"%" => Some(Operator::Percent),
        b"-" => Some(Operator::Minus),
        b"*" => Some(Operator::Star),
        b"<>" | b"!=" => Some(Operator::NotEqual),
        b"<=" => Some(Operator::LessOrEqual),
        b">=" => Some(Operator::GreaterOrEqual),
        _ => None,
    }
}

/// The operator at the front of some bytes, which begin with one of its characters and not with a comment.
#[tactic(auto, unfolding(crate::specs::Operators::operator))]
pub(crate) fn operator(bytes: &[u8]) -> Piece
    requires sign { is_in_class class.Sign (slice_index bytes.now 0) ≡ true }
    requires line { begins_line_comment bytes.now ≡ false }
    requires block { begins_block_comment bytes.now ≡ false }
    ensures value { result ≡ spec.operator bytes.now }
    ensures within { IsPiece bytes.now result }
{
    let length = operator_len(&bytes[..signs_len(bytes)]);
    match operator_of(&bytes[..length]) {
        Some(operator) => Piece::Whole(TokenKind::Operator(operator), length),
        None => Piece::Faulty(FaultKind::Operator),
    }
}
