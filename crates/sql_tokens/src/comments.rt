//! Comments.

ghost use Rattle.std.specs.Prelude.{◌≡◌, ◌≤◌, length, IfSome};
ghost use Rattle.sql_tokens.specs.Comments as spec;

use crate::bytes::{Class, byte_at, run_len};

/// Whether bytes begin with two hyphens.
pub(crate) fn begins_line_comment(bytes: &[u8]) -> bool
    ensures { result ≡ spec.begins_line_comment bytes.now }
{
    byte_at(bytes, 0) == b'-' && byte_at(bytes, 1) == b'-'
}

/// Whether bytes begin with a slash and an asterisk.
pub(crate) fn begins_block_comment(bytes: &[u8]) -> bool
    ensures { result ≡ spec.begins_block_comment bytes.now }
{
    byte_at(bytes, 0) == b'/' && byte_at(bytes, 1) == b'*'
}

/// The length of a comment after its two hyphens, or `None` if it has a zero byte.
pub(crate) fn line_comment(bytes: &[u8]) -> Option<usize>
    ensures value { result ≡ spec.line_comment bytes.now }
    ensures within { IfSome result (λ n. n ≤ length bytes.now) }
{
    let length = run_len(Class::LineByte, bytes);
    if length < bytes.len() && byte_at(bytes, length) == 0 {
        None
    } else {
        Some(length)
    }
}

/// The length of a comment after its slash and asterisk, or `None` if it does not end or has a zero byte.
#[tactic(auto, using(crate::proofs::CommentLoops::comment_turns), unfolding(crate::proofs::CommentLoops::comment_from))]
pub(crate) fn block_comment(bytes: &[u8]) -> Option<usize>
    ensures value { result ≡ spec.block_comment 0 bytes.now }
    ensures within { IfSome result (λ n. n ≤ length bytes.now) }
{
    let mut rest = bytes;
    let mut length = 0;
    // How many comments are open around the innermost one.
    let mut depth: usize = 0;
    // The byte before the rest, or 0 if it belongs to a mark.
    let mut before = 0;
    while let [byte, after @ ..] = rest {
        if *byte == 0 {
            return None;
        }
        length += 1;
        if before == b'/' && *byte == b'*' {
            depth += 1;
            before = 0;
        } else if before == b'*' && *byte == b'/' {
            if depth == 0 {
                return Some(length);
            }
            depth -= 1;
            before = 0;
        } else {
            before = *byte;
        }
        rest = after;
    }
    None
}
