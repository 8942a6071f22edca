//! `check`: whether the certificates of its tables show that a sharding is sound.

ghost use Rattle.std.specs.Prelude.{◌≡◌, ◌++◌, IfErr, IfOk, OnOk, codes};
ghost use Rattle.std.specs.Io.KnownBytes.{Appends};
ghost use Rattle.std.specs.String.{string_bytes};
ghost use Rattle.catalog_text.specs.CatalogText.{catalog_text};
ghost use Rattle.catalog_text.specs.FilterText.{text_if};
ghost use Rattle.pub_catalog.specs.CatalogView.{catalog_view};
ghost use Rattle.commands.specs.Check.Checking.{EndsCheck};
ghost use Rattle.commands.specs.Output.{EndsByFault, StopsText, ended};
ghost use Rattle.commands.specs.Refusals.{refused_line};
ghost use Rattle.commands.specs.declared.failure.Status.TheVariants.{Done, Refused};

use crate::failure::{Failure, InputFault, Status};
use crate::output::write_line;
use crate::parts::two_parts;
use crate::refusals::refusal_text;
use crate::verdicts::{lines_of, verdict_of};
use crate::writer::Writer;
use catalog_text::write_catalog;
use pub_catalog::Catalog;
use pub_reader::read_catalog;
use shard_checker::CheckError;
use std::alloc::{AllocError, Global};

/// What is written before the verdict: the text of the catalog if it is to be shown, and otherwise nothing.
fn shown_text(alloc: Global, shows: bool, catalog: &Catalog) -> Result<String, AllocError>
    ensures { IfOk result (λ text. string_bytes text ≡ text_if shows (catalog_text (catalog_view catalog.now))) }
{
    if shows {
        write_catalog(alloc, catalog)
    } else {
        Ok(String::new(alloc))
    }
}

/// Writes a text, and then the line `accepted`.
fn write_accepted<'a, W: Writer>(mut text: String, writer: &mut W) -> Result<Status, Failure<'a>>
    ensures status { IfOk result (λ status. status ≡ Done) }
    ensures written { OnOk result (Appends (W.contents writer.old) (W.contents writer.new)
        (ended (string_bytes text ++ codes "accepted"))) }
    ensures stopped { IfErr result (StopsText (ended (string_bytes text ++ codes "accepted"))
        (W.contents writer.old) (W.contents writer.new)) }
    ensures failed { EndsByFault (W.has_failed writer.old) (W.has_failed writer.new) result }
{
    text.push_str("accepted")?;
    write_line(&mut text, writer)?;
    Ok(Status::Done)
}

/// Writes a text, and then the line of a refusal, with the names of its catalog.
fn write_refusal<'a, W: Writer>(
    alloc: Global,
    mut text: String,
    catalog: &Catalog,
    refusal: CheckError,
    writer: &mut W,
) -> Result<Status, Failure<'a>>
    ensures status { IfOk result (λ status. status ≡ Refused) }
    ensures written { OnOk result (Appends (W.contents writer.old) (W.contents writer.new)
        (ended (string_bytes text ++ refused_line (catalog_view catalog.now) refusal))) }
    ensures stopped { IfErr result (StopsText (ended (string_bytes text
        ++ refused_line (catalog_view catalog.now) refusal)) (W.contents writer.old) (W.contents writer.new)) }
    ensures failed { EndsByFault (W.has_failed writer.old) (W.has_failed writer.new) result }
{
    let line = refusal_text(alloc, catalog, refusal)?;
    text.push_str(line.as_str())?;
    write_line(&mut text, writer)?;
    Ok(Status::Refused)
}

/// Answers an input: a catalog, a line `%%`, and the texts of the certificates of its tables, one per line, in the
/// order of the tables. With `shows`, the text of the catalog precedes the verdict. The check takes the catalog, so its
/// text is read once more for the names in a refusal.
pub fn check_input<'a, W: Writer>(
    alloc: Global,
    shows: bool,
    input: &str,
    writer: &mut W,
) -> Result<Status, Failure<'a>>
    ensures ends { EndsCheck shows input.now (W.contents writer.old) (W.contents writer.new) result }
    ensures failed { EndsByFault (W.has_failed writer.old) (W.has_failed writer.new) result }
{
    let (text, lines) = two_parts(input).ok_or(InputFault::Parts)?;
    let catalog = read_catalog(alloc, text)?;
    let texts = lines_of(alloc, lines)?;
    let shown = shown_text(alloc, shows, &catalog)?;
    match verdict_of(alloc, catalog, texts.as_slice())? {
        Ok(_) => write_accepted(shown, writer),
        Err(refusal) => {
            let catalog = read_catalog(alloc, text)?;
            write_refusal(alloc, shown, &catalog, refusal, writer)
        }
    }
}
