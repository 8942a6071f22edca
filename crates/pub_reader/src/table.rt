//! CREATE TABLE.

ghost use Rattle.std.specs.Prelude.{◌≡◌};
ghost use Rattle.sql_reader.specs.Columns.{parts_view};
ghost use Rattle.pub_reader.specs.DraftView.{draft_view};
ghost use Rattle.pub_reader.specs.Tables as spec;
ghost use Rattle.sql_reader.specs.ParsingContracts.{TakesSome, to_read, Reads, Answers};

use crate::draft::Draft;
use crate::table_name::{NewName, new_name};
use filter_tree::{Identity, Items, Table};
use sql_reader::{
    ErrorKind, Item, Keyword, PlacedName, ReadError, Reader, TableParts, read_elements,
    unsupported_clause,
};
use std::alloc::Global;

/// Refuses a table without a primary key.
#[tactic(auto, unfolding(crate::specs::Tables::keyed))]
fn keyed(name: &PlacedName, parts: &TableParts) -> Result<(), ReadError>
    ensures { Answers (λ u. u) (spec.keyed name.now (parts_view parts.now)) result }
{
    if parts.key.is_empty() {
        return Err(ReadError {
            place: name.place,
            kind: ErrorKind::NoKey,
        });
    }
    Ok(())
}

/// Refuses an unsupported clause after the elements of a table.
#[tactic(auto, unfolding(crate::specs::Tables::table_tail))]
fn table_tail(r: &Reader<'_>) -> Result<(), ReadError>
    ensures { Reads (λ u. u) (spec.table_tail (to_read r.now)) result (to_read r.now) }
{
    match r.item() {
        Some(Item::Keyword(Keyword::Inherits)) => Err(unsupported_clause(r)),
        Some(Item::Keyword(Keyword::Partition)) => Err(unsupported_clause(r)),
        _ => Ok(()),
    }
}

/// The table with a name and elements. It has no unique index yet.
fn table_of(alloc: Global, name: NewName, parts: TableParts) -> Table
    ensures { result ≡ spec.new_table name (parts_view parts) }
{
    let NewName { schema, name } = name;
    let TableParts { columns, key } = parts;
    Table {
        schema,
        name: name.text,
        columns: Items::from_vec(columns),
        key: Items::from_vec(key),
        indexes: Items::from_vec(Vec::new(alloc)),
        identity: Identity::Default,
    }
}

/// Reads what follows the name of a new table.
#[tactic(auto, unfolding(crate::specs::Tables::table_body))]
fn table_body(r: &mut Reader<'_>, alloc: Global, name: &PlacedName) -> Result<TableParts, ReadError>
    ensures { TakesSome parts_view (spec.table_body name.now) r.old result r.new }
{
    r.expect(Item::Open, "`(`")?;
    let parts = read_elements(r, alloc)?;
    r.expect(Item::Close, "`,` or `)`")?;
    keyed(name, &parts)?;
    table_tail(r)?;
    Ok(parts)
}

/// Reads what follows CREATE TABLE, and creates the table.
#[tactic(auto, unfolding(crate::specs::Tables::create_table))]
pub fn create_table(r: &mut Reader<'_>, alloc: Global, draft: &mut Draft) -> Result<(), ReadError>
    ensures { TakesSome (λ _. draft_view draft.new) (spec.create_table (draft_view draft.old)) r.old result r.new }
{
    let name = new_name(r, alloc, draft)?;
    let parts = table_body(r, alloc, &name.name)?;
    draft.add_table(table_of(alloc, name, parts))?;
    Ok(())
}
