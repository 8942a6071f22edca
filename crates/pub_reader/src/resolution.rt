//! What publications cover, after all tables were created.

ghost use Rattle.std.specs.Prelude.{◌≡◌, IfOk, map};
ghost use Rattle.pub_catalog.specs.CatalogView.{entry_view, publication_view};
ghost use Rattle.pub_reader.specs.Drafts as spec;
ghost use Rattle.pub_reader.specs.DraftView.{coverage_view, draft_publication_view};

use crate::coverage::Coverage;
use crate::draft::DraftPublication;
use filter_tree::Table;
use pub_catalog::{Entry, Publication};
use std::alloc::{AllocError, Global};

/// The entries of a publication: the tables that it names, and then each table that it carries whole.
fn resolved_entries(tables: &[Table], coverage: Coverage) -> Result<Vec<Entry>, AllocError>
    ensures { IfOk result
        (λ entries. map entry_view entries.items ≡ spec.resolved_entries tables.now (coverage_view coverage)) }
{
    let mut coverage = coverage;
    for (number, table) in tables.iter().enumerate() {
        if coverage.covers(table) {
            coverage.entries.push(Entry {
                table: number,
                filter: None,
            })?;
        }
    }
    let Coverage {
        entries,
        schemas: _,
        everything: _,
    } = coverage;
    Ok(entries)
}

fn resolved_publication(
    tables: &[Table],
    publication: DraftPublication,
) -> Result<Publication, AllocError>
    ensures { IfOk result
        (λ made. publication_view made ≡ spec.resolved_publication tables.now (draft_publication_view publication)) }
{
    let DraftPublication {
        name,
        publishes,
        coverage,
    } = publication;
    let entries = resolved_entries(tables, coverage)?;
    Ok(Publication {
        name,
        publishes,
        entries,
    })
}

/// The publications with the tables that they carry.
pub fn resolved(
    alloc: Global,
    tables: &[Table],
    publications: Vec<DraftPublication>,
) -> Result<Vec<Publication>, AllocError>
    ensures { IfOk result
        (λ made. map publication_view made.items ≡ map (spec.resolved_publication tables.now)
        (map draft_publication_view publications.items)) }
{
    let mut made = Vec::new(alloc);
    for publication in publications {
        made.push(resolved_publication(tables, publication)?)?;
    }
    Ok(made)
}
