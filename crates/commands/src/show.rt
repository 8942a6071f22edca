//! `show`: a catalog as it was read, as SQL.

ghost use Rattle.std.specs.Prelude.{◌≡◌, IfErr, IfOk, OnOk};
ghost use Rattle.std.specs.Io.KnownBytes.{Appends};
ghost use Rattle.std.specs.String.{string_bytes};
ghost use Rattle.commands.specs.Output.{EndsByFault, StopsText};
ghost use Rattle.commands.specs.Show.Showing.{EndsShowing};
ghost use Rattle.commands.specs.declared.failure.Status.TheVariants.{Done};

use crate::failure::{Failure, InputFault, Status};
use crate::output::write_text;
use crate::parts::cut;
use crate::writer::Writer;
use catalog_text::write_catalog;
use pub_reader::read_catalog;
use std::alloc::Global;

/// Writes the text of a catalog.
fn write_shown<'a, W: Writer>(text: String, writer: &mut W) -> Result<Status, Failure<'a>>
    ensures status { IfOk result (λ status. status ≡ Done) }
    ensures written { OnOk result (Appends (W.contents writer.old) (W.contents writer.new) (string_bytes text)) }
    ensures stopped { IfErr result (StopsText (string_bytes text) (W.contents writer.old) (W.contents writer.new)) }
    ensures failed { EndsByFault (W.has_failed writer.old) (W.has_failed writer.new) result }
{
    write_text(text.as_str(), writer)?;
    Ok(Status::Done)
}

/// Answers an input, which is a catalog.
pub fn show_input<'a, W: Writer>(
    alloc: Global,
    input: &str,
    writer: &mut W,
) -> Result<Status, Failure<'a>>
    ensures ends { EndsShowing input.now (W.contents writer.old) (W.contents writer.new) result }
    ensures failed { EndsByFault (W.has_failed writer.old) (W.has_failed writer.new) result }
{
    if cut(input).is_some() {
        return Err(Failure::Input(InputFault::Parts));
    }
    let catalog = read_catalog(alloc, input)?;
    let text = write_catalog(alloc, &catalog)?;
    write_shown(text, writer)
}
