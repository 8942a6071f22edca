//! The filters on a table.

ghost use Rattle.std.specs.Prelude.{◌≡◌, ◌++◌, OnOk, map};
ghost use Rattle.filter_tree.specs.Shape.{expr_view};
ghost use Rattle.pub_catalog.specs.CatalogView.{entry_view};
ghost use Rattle.pub_reader.specs.Drafts as spec;

use filter_tree::{Filter, TableNumber};
use pub_catalog::Entry;
use std::alloc::AllocError;

/// Adds the filter of an entry, if the entry is for this table and has one.
fn add_filter<'a>(
    filters: &mut Vec<&'a Filter>,
    entry: &'a Entry,
    number: TableNumber,
) -> Result<(), AllocError>
    ensures { OnOk result
        (map (λ f. expr_view f.now) filters.new.items ≡ map (λ f. expr_view f.now) filters.old.items
        ++ spec.filter_on (λ f. f) number (entry_view entry.now)) }
{
    if entry.table != number {
        return Ok(());
    }
    if let Some(filter) = &entry.filter {
        filters.push(filter)?;
    }
    Ok(())
}

/// Adds the filters of the entries for this table.
pub fn add_filters<'a>(
    filters: &mut Vec<&'a Filter>,
    entries: &'a [Entry],
    number: TableNumber,
) -> Result<(), AllocError>
    ensures { OnOk result
        (map (λ f. expr_view f.now) filters.new.items ≡ map (λ f. expr_view f.now) filters.old.items
        ++ spec.filters_in (λ f. f) number (map entry_view entries.now)) }
{
    for entry in entries {
        add_filter(filters, entry, number)?;
    }
    Ok(())
}
