//! The parts of an input before its commands.

ghost use Rattle.std.specs.Prelude.{◌≡◌, true, false, codes, IfErr, IfOk};
ghost use Rattle.std.specs.String.{string_bytes};
ghost use Rattle.commands.specs.Parts as spec;
ghost use Rattle.cli.specs.Incoming.{coming};
ghost use Rattle.cli.specs.Lines.{ReadsPart, StopsPart};

use crate::publish::incoming::LineReader;
use commands::{Failure, InputFault, Reader};
use std::alloc::Global;
use std::sync::Wait;

/// The most bytes that a part may have.
const MAX_PART: usize = 16_777_216;

/// Whether a line ends a part.
fn is_separator(line: &[u8]) -> bool
    ensures yes { result ≡ true → line.now ≡ codes "%%" }
    ensures no { result ≡ false → spec.is_separator line.now ≡ false }
{
    line == "%%".as_bytes()
}

/// The lines of a part, up to the line that is exactly `%%`.
#[tactic(auto, using(crate::proofs::LineLemmas::reading_unread, crate::proofs::LineLemmas::reading_too_much))]
fn read_lines<'a, I: Reader, R: Wait>(
    rt: &R,
    alloc: Global,
    lines: &mut LineReader<I>,
) -> Result<Vec<u8>, Failure<'a>>
    ensures ok { IfOk result (λ part.
        ReadsPart (coming I.remaining lines.old) (coming I.remaining lines.new) part.items) }
    ensures err { IfErr result (StopsPart I.may_fail (coming I.remaining lines.old) (coming I.remaining lines.new)) }
{
    let mut part = Vec::new(alloc);
    let mut line = Vec::new(alloc);
    for _ in rt.forever() {
        if !lines.next_line(rt, &mut line)? {
            return Err(Failure::Input(InputFault::Parts));
        }
        if is_separator(line.as_slice()) {
            return Ok(part);
        }
        line.push(b'\n')?;
        part.extend_from_slice(line.as_slice())?;
        if MAX_PART < part.len() {
            return Err(Failure::Input(InputFault::Unread));
        }
    }
    unreachable!()
}

/// A part, up to the line that is exactly `%%`.
///
/// # Errors
///
/// `Input(Parts)` if there is no such line; `Input(Unread)` if the reader fails, or the part is not UTF-8 or has more
/// than 16,777,216 bytes; `OutOfMemory`.
#[tactic(auto, using(crate::proofs::LineLemmas::part_no_text))]
pub(crate) fn read_part<'a, I: Reader, R: Wait>(
    rt: &R,
    alloc: Global,
    lines: &mut LineReader<I>,
) -> Result<String, Failure<'a>>
    ensures ok { IfOk result (λ text. ReadsPart (coming I.remaining lines.old) (coming I.remaining lines.new)
        (string_bytes text)) }
    ensures err { IfErr result (StopsPart I.may_fail (coming I.remaining lines.old) (coming I.remaining lines.new)) }
{
    let part = read_lines(rt, alloc, lines)?;
    match String::from_utf8(part) {
        Ok(text) => Ok(text),
        Err(_) => Err(Failure::Input(InputFault::Unread)),
    }
}
