//! CREATE PUBLICATION.

ghost use Rattle.std.specs.Prelude.{◌≡◌, IfOk, None, OnOk};
ghost use Rattle.sql_reader.specs.ParsingContracts.{Takes, TakesSome};
ghost use Rattle.sql_reader.specs.Written.{as_filter};
ghost use Rattle.pub_reader.specs.Drafts.{find_publication};
ghost use Rattle.pub_reader.specs.DraftView.{coverage_view, draft_view};
ghost use Rattle.pub_reader.specs.Publications as spec;

use crate::coverage::Coverage;
use crate::draft::{Draft, DraftPublication};
use crate::object::objects;
use crate::parameter::{Given, parameters_clause};
use pub_catalog::Operations;
use sql_reader::{Item, Keyword, PlacedName, ReadError, Reader, read_name};
use std::alloc::{AllocError, Global};

/// What a publication publishes by default.
const EVERY_OPERATION: Operations = Operations {
    insert: true,
    update: true,
    delete: true,
    truncate: true,
};

/// Reads the name of a new publication.
#[tactic(auto, unfolding(crate::specs::Publications::new_publication_name))]
fn publication_name(
    r: &mut Reader<'_>,
    alloc: Global,
    draft: &Draft,
) -> Result<PlacedName, ReadError>
    ensures takes { TakesSome (λ name. name) (spec.new_publication_name (draft_view draft.now)) r.old result r.new }
    ensures free { IfOk result (λ name. find_publication name.text (draft_view draft.now).publications ≡ None) }
{
    let name = read_name(r, alloc, "the name of a publication")?;
    draft.check_new_publication(&name)?;
    Ok(name)
}

/// Reads ALL TABLES.
#[tactic(auto, unfolding(crate::specs::Publications::all_tables))]
fn all_tables(r: &mut Reader<'_>, alloc: Global) -> Result<Coverage, ReadError>
    ensures { TakesSome (λ coverage. coverage_view coverage) spec.all_tables r.old result r.new }
{
    r.expect(Item::Keyword(Keyword::All), "ALL TABLES")?;
    r.expect(Item::Keyword(Keyword::Tables), "TABLES")?;
    let mut coverage = Coverage::new(alloc);
    coverage.everything = true;
    Ok(coverage)
}

/// Reads tables and schemas.
#[tactic(auto, unfolding(crate::specs::Publications::listed_objects))]
fn listed_objects(r: &mut Reader<'_>, alloc: Global, draft: &Draft) -> Result<Coverage, ReadError>
    ensures { TakesSome (λ coverage. coverage_view coverage) (spec.listed_objects as_filter (draft_view draft.now))
        r.old result r.new }
{
    let mut coverage = Coverage::new(alloc);
    objects(r, alloc, draft, &mut coverage)?;
    Ok(coverage)
}

/// Reads what the publication is for, after FOR.
#[tactic(auto, unfolding(crate::specs::Publications::scope))]
fn scope(r: &mut Reader<'_>, alloc: Global, draft: &Draft) -> Result<Coverage, ReadError>
    ensures { TakesSome (λ coverage. coverage_view coverage) (spec.scope as_filter (draft_view draft.now))
        r.old result r.new }
{
    match r.item() {
        Some(Item::Keyword(Keyword::All)) => all_tables(r, alloc),
        _ => listed_objects(r, alloc, draft),
    }
}

/// Reads FOR and what the publication is for; without FOR it has no tables.
#[tactic(auto, using(sql_reader::proofs::Ahead::rest_is_no_more), unfolding(crate::specs::Publications::for_clause))]
fn for_clause(r: &mut Reader<'_>, alloc: Global, draft: &Draft) -> Result<Coverage, ReadError>
    ensures { Takes (λ coverage. coverage_view coverage) (spec.for_clause as_filter (draft_view draft.now))
        r.old result r.new }
{
    match r.item() {
        Some(Item::Keyword(Keyword::For)) => {
            r.advance();
            scope(r, alloc, draft)
        }
        _ => Ok(Coverage::new(alloc)),
    }
}

fn add_publication(
    alloc: Global,
    draft: &mut Draft,
    name: PlacedName,
    coverage: Coverage,
    given: Given,
) -> Result<(), AllocError>
    requires { find_publication name.text (draft_view draft.old).publications ≡ None }
    ensures { OnOk result
        (draft_view draft.new ≡ spec.with_publication (draft_view draft.old) name (coverage_view coverage) given) }
{
    let publication = DraftPublication {
        name: name.text,
        publishes: given.publishes.unwrap_or(EVERY_OPERATION),
        coverage,
    };
    draft.add_publication(alloc, publication)
}

/// Reads what follows CREATE PUBLICATION, and creates the publication.
#[tactic(auto, unfolding(crate::specs::Publications::create_publication))]
pub fn create_publication(
    r: &mut Reader<'_>,
    alloc: Global,
    draft: &mut Draft,
) -> Result<(), ReadError>
    ensures { TakesSome (λ _. draft_view draft.new) (spec.create_publication as_filter (draft_view draft.old))
        r.old result r.new }
{
    let name = publication_name(r, alloc, draft)?;
    let coverage = for_clause(r, alloc, draft)?;
    let given = parameters_clause(r)?;
    add_publication(alloc, draft, name, coverage, given)?;
    Ok(())
}
