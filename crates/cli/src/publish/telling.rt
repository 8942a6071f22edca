//! How a text is written for which somebody waits.

ghost use Rattle.std.specs.Prelude.{◌≡◌, true, IfErr, OnOk};
ghost use Rattle.std.specs.Io.KnownBytes.{Appends};
ghost use Rattle.commands.specs.Output.{StopsText};

use commands::{Failure, Writer, write_text};

/// Writes a text at once.
///
/// # Errors
///
/// `Output` if the writer fails.
pub(crate) fn tell<'a, W: Writer>(text: &str, writer: &mut W) -> Result<(), Failure<'a>>
    ensures written { OnOk result (Appends (W.contents writer.old) (W.contents writer.new) text.now) }
    ensures stopped { IfErr result (StopsText text.now (W.contents writer.old) (W.contents writer.new)) }
    ensures flushed { OnOk result (W.is_flushed writer.new ≡ true) }
{
    write_text(text, writer)?;
    match writer.flush() {
        Ok(()) => Ok(()),
        Err(_) => Err(Failure::Output),
    }
}
