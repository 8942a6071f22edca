//! The verdict on a sharding by the texts of its certificates.

ghost use Rattle.std.specs.Prelude.{◌≡◌, IfErr, IfOk, OnOk, None, Some};
ghost use Rattle.std.specs.Io.KnownBytes.{Appends};
ghost use Rattle.pub_catalog.specs.CatalogView.{catalog_view};
ghost use Rattle.replica_identity.specs.Plans.{plan_of};
ghost use Rattle.shard_checker.specs.CatalogTruth.{ShardingIsWrong};
ghost use Rattle.shard_checker.specs.CheckedView.{checked_view};
ghost use Rattle.shard_checker.specs.Sound.{IsSound};
ghost use Rattle.shard_checker.specs.Texts.{text_fault, texts_view, trees_in};
ghost use Rattle.commands.specs.Certificates as certificates;
ghost use Rattle.commands.specs.Certificates.{IsOfLines};
ghost use Rattle.commands.specs.Output.{EndsByFault, StopsText, ended};
ghost use Rattle.commands.specs.Parts as parts;
ghost use Rattle.commands.specs.Refusals.{refused_line};
ghost use Rattle.commands.specs.Verdicts as spec;
ghost use Rattle.commands.specs.declared.failure.Status.TheVariants.{Refused};

use crate::failure::{Failure, InputFault, Status};
use crate::output::write_line;
use crate::parts::Lines;
use crate::refusals::refusal_text;
use crate::writer::Writer;
use pub_catalog::Catalog;
use replica_identity::plan;
use shard_checker::{CheckError, Checked, TextError, check_text};
use std::alloc::{AllocError, Global};

/// The lines of a text.
pub fn lines_of(alloc: Global, text: &str) -> Result<Vec<&str>, AllocError>
    ensures { IfOk result (λ lines. texts_view lines.items ≡ parts.lines_of text.now) }
{
    let mut lines = Vec::new(alloc);
    for line in Lines::new(text) {
        lines.push(line)?;
    }
    Ok(lines)
}

/// The refusal that is the error of a check.
fn refusal_in<'a>(error: TextError) -> Result<CheckError, Failure<'a>>
    ensures { result ≡ certificates.refusal_in error }
{
    match error {
        TextError::Text(line, error) => Err(Failure::Input(InputFault::Certificate {
            line,
            error,
        })),
        TextError::Check(CheckError::OutOfMemory) => Err(Failure::OutOfMemory),
        TextError::Check(refusal) => Ok(refusal),
    }
}

/// The sharding, if the texts of certificates show that it is sound, or the first reason to refuse it.
pub fn verdict_of<'a>(
    alloc: Global,
    catalog: Catalog,
    texts: &[&str],
) -> Result<Result<Checked, CheckError>, Failure<'a>>
    ensures read { OnOk result (text_fault 1 (texts_view texts.now) ≡ None) }
    ensures sound { IfOk result (λ verdict. OnOk verdict (IsSound (catalog_view catalog))) }
    ensures kept { IfOk result (λ verdict. IfOk verdict (λ checked. checked_view checked
        ≡ spec.checked_by (catalog_view catalog))) }
    ensures unrefused { IfOk result (λ verdict. OnOk verdict (spec.IsFirstRefusal (catalog_view catalog)
        (trees_in (texts_view texts.now)) None)) }
    ensures refused { IfOk result (λ verdict. IfErr verdict (λ error. spec.IsFirstRefusal (catalog_view catalog)
        (trees_in (texts_view texts.now)) (Some error))) }
    ensures wrong { IfOk result (λ verdict. IfErr verdict (ShardingIsWrong (catalog_view catalog)
        (plan_of (catalog_view catalog)) (trees_in (texts_view texts.now)))) }
    ensures err { IfErr result (IsOfLines (texts_view texts.now)) }
{
    let plan = plan(alloc, &catalog)?;
    match check_text(alloc, catalog, plan, texts) {
        Ok(checked) => Ok(Ok(checked)),
        Err(error) => Ok(Err(refusal_in(error)?)),
    }
}

/// Writes the line of a refusal, with the names of its catalog.
pub fn write_refused<'a, W: Writer>(
    alloc: Global,
    catalog: &Catalog,
    refusal: CheckError,
    writer: &mut W,
) -> Result<Status, Failure<'a>>
    ensures status { IfOk result (λ status. status ≡ Refused) }
    ensures written { OnOk result (Appends (W.contents writer.old) (W.contents writer.new)
        (ended (refused_line (catalog_view catalog.now) refusal))) }
    ensures stopped { IfErr result (StopsText (ended (refused_line (catalog_view catalog.now) refusal))
        (W.contents writer.old) (W.contents writer.new)) }
    ensures failed { EndsByFault (W.has_failed writer.old) (W.has_failed writer.new) result }
{
    let mut line = refusal_text(alloc, catalog, refusal)?;
    write_line(&mut line, writer)?;
    Ok(Status::Refused)
}
