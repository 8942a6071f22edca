//! The text of an input.

ghost use Rattle.std.specs.Prelude.{◌≡◌, ◌≤◌, ◌<◌, length, true, IfErr, IfOk};
ghost use Rattle.std.specs.String.{string_bytes};
ghost use Rattle.commands.specs.Inputs.{IsInput, IsOfReading};

use crate::failure::{Failure, InputFault};
use crate::input::MAX_INPUT;
use crate::reader::Reader;
use std::alloc::Global;
use std::io::ErrorKind;

/// The most bytes that one read returns.
const PIECE: usize = 65_536;

/// The bytes of an input, to its end, by at most 16,777,217 reads.
///
/// # Errors
///
/// `Input(Unread)` if a read fails, or there are more than 16,777,216 bytes; `OutOfMemory`.
#[tactic(auto, using(crate::proofs::Rules::reading_pieces))]
fn read_bytes<'a, R: Reader>(alloc: Global, reader: &mut R) -> Result<Vec<u8>, Failure<'a>>
    ensures bytes { IfOk result (λ bytes. IsInput (R.remaining reader.old) bytes.items) }
    ensures short { IfOk result (λ bytes. length bytes.items ≤ MAX_INPUT) }
    ensures stopped { IfErr result (IsOfReading R.may_fail (R.remaining reader.old)) }
{
    let mut bytes = Vec::new(alloc);
    let mut piece = [0; PIECE];
    for _ in 0..MAX_INPUT + 1 {
        match reader.read_piece(&mut piece) {
            Ok(0) => return Ok(bytes),
            Ok(count) => {
                bytes.extend_from_slice(&piece[..count])?;
                if bytes.len() > MAX_INPUT {
                    return Err(Failure::Input(InputFault::Unread));
                }
            }
            Err(error) => match error.kind() {
                ErrorKind::Interrupted => {}
                ErrorKind::OutOfMemory => return Err(Failure::OutOfMemory),
                _ => return Err(Failure::Input(InputFault::Unread)),
            },
        }
    }
    Err(Failure::Input(InputFault::Unread))
}

/// The text of an input, to its end.
///
/// # Errors
///
/// `Input(Unread)` if a read fails, or the input is not UTF-8 or has more than 16,777,216 bytes; `OutOfMemory`.
#[tactic(auto, using(crate::proofs::Pieces::read_no_text))]
pub fn read_input<'a, R: Reader + Drop>(alloc: Global, input: R) -> Result<String, Failure<'a>>
    ensures bytes { IfOk result (λ text. IsInput (R.remaining input) (string_bytes text)) }
    ensures short { IfOk result (λ text. length (string_bytes text) ≤ MAX_INPUT) }
    ensures stopped { IfErr result (IsOfReading R.may_fail (R.remaining input)) }
{
    let mut reader = input;
    let bytes = read_bytes(alloc, &mut reader)?;
    match String::from_utf8(bytes) {
        Ok(text) => Ok(text),
        Err(_) => Err(Failure::Input(InputFault::Unread)),
    }
}
