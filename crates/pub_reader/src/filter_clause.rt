//! The WHERE clause of a table in a publication.

ghost use Rattle.std.specs.Prelude.{◌<◌, ◌∷◌, ◌++◌, [], length, map};
ghost use Rattle.std.specs.Option.{option_map};
ghost use Rattle.filter_tree.specs.Shape.{expr_view};
ghost use Rattle.sql_reader.specs.ParsingContracts.{Takes, TakesSome, Answers};
ghost use Rattle.sql_reader.specs.Written.{as_filter};
ghost use Rattle.pub_reader.specs.Drafts.{filters_in, filters_on};
ghost use Rattle.pub_reader.specs.DraftView.{coverage_view, draft_view};
ghost use Rattle.pub_reader.specs.Objects as spec;

use crate::coverage::Coverage;
use crate::draft::Draft;
use crate::filters::add_filters;
use filter_tree::{Filter, TableNumber};
use sql_reader::{ErrorKind, Item, Keyword, ReadError, Reader, exceeded_limit, read_filter};
use std::alloc::Global;

/// Refuses filters that exceed a limit together.
#[tactic(auto, unfolding(crate::specs::Objects::limited))]
fn limited(alloc: Global, place: usize, filters: &[&Filter]) -> Result<(), ReadError>
    ensures { Answers (λ u. u) (spec.limited place (map (λ f. expr_view f.now) filters.now)) result }
{
    match exceeded_limit(alloc, filters)? {
        None => Ok(()),
        Some(limit) => Err(ReadError {
            place,
            kind: ErrorKind::TooMany(limit),
        }),
    }
}

/// Refuses filters that exceed a limit together.
fn within_limits(
    alloc: Global,
    draft: &Draft,
    coverage: &Coverage,
    number: TableNumber,
    place: usize,
    filter: &Filter,
) -> Result<(), ReadError>
    ensures { Answers (λ u. u) (spec.limited place ((filters_on (λ f. f) number (draft_view draft.now).publications
        ++ filters_in (λ f. f) number (coverage_view coverage.now).entries) ++ expr_view filter.now ∷ [])) result }
{
    let mut filters = draft.filters(alloc, number)?;
    add_filters(&mut filters, coverage.entries.as_slice(), number)?;
    filters.push(filter)?;
    Ok(limited(alloc, place, &filters)?)
}

/// Reads the parenthesis after a filter.
#[tactic(auto, unfolding(crate::specs::Objects::filter_end))]
fn ended(
    r: &mut Reader<'_>,
    alloc: Global,
    draft: &Draft,
    coverage: &Coverage,
    number: TableNumber,
    place: usize,
    filter: Filter,
) -> Result<Option<Filter>, ReadError>
    ensures { TakesSome (λ filter. option_map expr_view filter)
        (spec.filter_end as_filter (draft_view draft.now) (coverage_view coverage.now) number place (expr_view filter))
        r.old result r.new }
{
    r.expect(Item::Close, "AND, OR or `)`")?;
    within_limits(alloc, draft, coverage, number, place, &filter)?;
    Ok(Some(filter))
}

/// Reads WHERE and a filter for the rows of a table.
#[tactic(auto, unfolding(crate::specs::Objects::where_clause))]
fn where_clause(
    r: &mut Reader<'_>,
    alloc: Global,
    draft: &Draft,
    coverage: &Coverage,
    number: TableNumber,
) -> Result<Option<Filter>, ReadError>
    requires { number < length (draft_view draft.now).tables }
    ensures { TakesSome (λ filter. option_map expr_view filter)
        (spec.where_clause as_filter (draft_view draft.now) (coverage_view coverage.now) number) r.old result r.new }
{
    let place = r.expect(Item::Keyword(Keyword::Where), "WHERE")?;
    r.expect(Item::Open, "`(`")?;
    let filter = read_filter(r, alloc, draft.columns(number))?;
    Ok(ended(r, alloc, draft, coverage, number, place, filter)?)
}

/// Reads the filter after a table, if there is one.
#[tactic(auto, unfolding(crate::specs::Objects::filter_clause))]
pub fn filter_clause(
    r: &mut Reader<'_>,
    alloc: Global,
    draft: &Draft,
    coverage: &Coverage,
    number: TableNumber,
) -> Result<Option<Filter>, ReadError>
    requires { number < length (draft_view draft.now).tables }
    ensures { Takes (λ filter. option_map expr_view filter)
        (spec.filter_clause as_filter (draft_view draft.now) (coverage_view coverage.now) number) r.old result r.new }
{
    r.look()?;
    match r.item() {
        Some(Item::Keyword(Keyword::Where)) => Ok(where_clause(r, alloc, draft, coverage, number)?),
        Some(Item::Open) => Err(r.refused(ErrorKind::ColumnList)),
        _ => Ok(None),
    }
}
