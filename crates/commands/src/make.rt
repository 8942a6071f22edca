//! `make`: for each table of a catalog, a certificate, or a row that shows that there is none.

ghost use Rattle.std.specs.Prelude.{◌≡◌, IfErr, IfOk};
ghost use Rattle.pub_catalog.specs.CatalogView.{catalog_view};
ghost use Rattle.commands.specs.Make.Making as spec;
ghost use Rattle.commands.specs.Output.{EndsByFault, TellsFault};
ghost use Rattle.replica_identity.specs.Plans.{plan_of, plan_view};

pub mod findings;

use crate::failure::{Failure, InputFault, Status};
use crate::make::findings::finding_line;
use crate::output::write_line;
use crate::parts::cut;
use crate::writer::Writer;
use bumpalo::Bump;
use cert_maker::{Made, make};
use filter_tree::TableNumber;
use pub_catalog::Catalog;
use pub_reader::read_catalog;
use replica_identity::{Plan, plan};
use std::alloc::Global;

/// Writes the line of the table with this number, and returns whether it is a certificate. The certificate is in an
/// arena of its own.
#[tactic(auto, using(crate::proofs::FindingLines::table_written, crate::proofs::FindingLines::table_stopped))]
fn write_table<'a, W: Writer>(
    alloc: Global,
    catalog: &Catalog,
    plan: &Plan,
    number: TableNumber,
    writer: &mut W,
) -> Result<bool, Failure<'a>>
    requires { plan_view plan.now ≡ plan_of (catalog_view catalog.now) }
    ensures written { IfOk result (spec.WritesTable (catalog_view catalog.now) number (W.contents writer.old)
        (W.contents writer.new)) }
    ensures stopped { IfErr result (spec.StopsTable (catalog_view catalog.now) number (W.contents writer.old)
        (W.contents writer.new)) }
    ensures failed { TellsFault (W.has_failed writer.old) (W.has_failed writer.new) result }
{
    let arena = Bump::new(alloc);
    let made = make(alloc, &arena, catalog, plan, number);
    let mut line = finding_line(alloc, catalog, number, &made)?;
    write_line(&mut line, writer)?;
    Ok(matches!(made, Made::Cert(_)))
}

/// Writes a line for each table.
#[tactic(auto, using(crate::proofs::Rules::writing_tables))]
fn write_tables<'a, W: Writer>(
    alloc: Global,
    catalog: &Catalog,
    plan: &Plan,
    writer: &mut W,
) -> Result<Status, Failure<'a>>
    requires { plan_view plan.now ≡ plan_of (catalog_view catalog.now) }
    ensures written { spec.WritesTables (catalog_view catalog.now) (W.contents writer.old) (W.contents writer.new)
        result }
    ensures failed { EndsByFault (W.has_failed writer.old) (W.has_failed writer.new) result }
{
    let mut all = true;
    for number in 0..catalog.tables.as_slice().len() {
        all &= write_table(alloc, catalog, plan, number, writer)?;
    }
    Ok(if all { Status::Done } else { Status::Refused })
}

/// Answers an input, which is a catalog.
pub fn make_input<'a, W: Writer>(
    alloc: Global,
    input: &str,
    writer: &mut W,
) -> Result<Status, Failure<'a>>
    ensures ends { spec.EndsMaking input.now (W.contents writer.old) (W.contents writer.new) result }
    ensures failed { EndsByFault (W.has_failed writer.old) (W.has_failed writer.new) result }
{
    if cut(input).is_some() {
        return Err(Failure::Input(InputFault::Parts));
    }
    let catalog = read_catalog(alloc, input)?;
    let plan = plan(alloc, &catalog)?;
    write_tables(alloc, &catalog, &plan, writer)
}
