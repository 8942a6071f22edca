//! Texts and lines of output.

ghost use Rattle.std.specs.Prelude.{IfErr, OnOk};
ghost use Rattle.std.specs.Io.KnownBytes.{Appends};
ghost use Rattle.std.specs.String.{string_bytes};
ghost use Rattle.commands.specs.Output.{StopsText, TellsFault, ended};

use crate::failure::Failure;
use crate::writer::Writer;

/// Writes a text.
///
/// # Errors
///
/// `Output` if the writer fails. A prefix of the text may have been written, and nothing else.
pub fn write_text<'a, W: Writer>(text: &str, writer: &mut W) -> Result<(), Failure<'a>>
    ensures written { OnOk result (Appends (W.contents writer.old) (W.contents writer.new) text.now) }
    ensures stopped { IfErr result (StopsText text.now (W.contents writer.old) (W.contents writer.new)) }
    ensures failed { TellsFault (W.has_failed writer.old) (W.has_failed writer.new) result }
{
    match writer.write_text(text) {
        Ok(()) => Ok(()),
        Err(_) => Err(Failure::Output),
    }
}

/// Writes a line with its newline.
///
/// # Errors
///
/// `OutOfMemory`, and nothing is written; `Output` if the writer fails. A prefix of the line may have been written, and
/// nothing else.
pub fn write_line<'a, W: Writer>(line: &mut String, writer: &mut W) -> Result<(), Failure<'a>>
    ensures written { OnOk result (Appends (W.contents writer.old) (W.contents writer.new)
        (ended (string_bytes line.old))) }
    ensures stopped { IfErr result (StopsText (ended (string_bytes line.old)) (W.contents writer.old)
        (W.contents writer.new)) }
    ensures failed { TellsFault (W.has_failed writer.old) (W.has_failed writer.new) result }
{
    line.push('\n')?;
    write_text(line.as_str(), writer)
}
