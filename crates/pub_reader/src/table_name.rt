//! The names of tables, with their schemas.

ghost use Rattle.std.specs.Prelude.{◌<◌, IfOk, length};
ghost use Rattle.pub_reader.specs.DraftView.{draft_view};
ghost use Rattle.pub_reader.specs.TableNames as spec;
ghost use Rattle.sql_reader.specs.ParsingContracts.{Takes, TakesSome, to_read, Reads};

use crate::draft::{Draft, PUBLIC};
use filter_tree::{TableNumber, Text};
use sql_reader::{
    ErrorKind, Item, Keyword, Omitted, PlacedName, ReadError, Reader, read_name, unsupported_clause,
};
use std::alloc::Global;

/// The name of a new table, and its schema.
#[derive(Drop)]
pub struct NewName {
    pub schema: Text,
    pub name: PlacedName,
}

/// Reads a dot and a name, after the name of a schema that was created before.
#[tactic(auto, unfolding(crate::specs::TableNames::name_in_schema))]
fn name_in_schema(
    r: &mut Reader<'_>,
    alloc: Global,
    draft: &Draft,
    schema: &PlacedName,
) -> Result<PlacedName, ReadError>
    ensures { TakesSome (λ name. name) (spec.name_in_schema (draft_view draft.now).schemas schema.now)
        r.old result r.new }
{
    draft.known_schema(schema)?;
    r.expect(Item::Dot, "`.`")?;
    read_name(r, alloc, "the name of a table")
}

/// Reads a dot and the name of a table that was created before, after the name of its schema, and returns its number.
#[tactic(auto, unfolding(crate::specs::TableNames::table_in_schema))]
fn table_in_schema(
    r: &mut Reader<'_>,
    alloc: Global,
    draft: &Draft,
    schema: &PlacedName,
) -> Result<TableNumber, ReadError>
    ensures takes { TakesSome (λ number. number) (spec.table_in_schema (draft_view draft.now) schema.now)
        r.old result r.new }
    ensures within { IfOk result (λ number. number < length (draft_view draft.now).tables) }
{
    let name = name_in_schema(r, alloc, draft, schema)?;
    Ok(draft.known_table(schema.text.as_str(), &name)?)
}

/// Returns the number of a table that was created before, after the first part of its name was read.
#[tactic(auto, unfolding(crate::specs::TableNames::table_named))]
pub fn table_named(
    r: &mut Reader<'_>,
    alloc: Global,
    draft: &Draft,
    name: &PlacedName,
) -> Result<TableNumber, ReadError>
    ensures takes { Takes (λ number. number) (spec.table_named (draft_view draft.now) name.now) r.old result r.new }
    ensures within { IfOk result (λ number. number < length (draft_view draft.now).tables) }
{
    r.look()?;
    if r.is(Item::Dot) {
        return Ok(table_in_schema(r, alloc, draft, name)?);
    }
    Ok(draft.known_table(PUBLIC, name)?)
}

/// Reads the name of a table that was created before, and returns its number.
#[tactic(auto, unfolding(crate::specs::TableNames::table_number))]
pub fn table_number(
    r: &mut Reader<'_>,
    alloc: Global,
    draft: &Draft,
) -> Result<TableNumber, ReadError>
    ensures takes { TakesSome (λ number. number) (spec.table_number (draft_view draft.now)) r.old result r.new }
    ensures within { IfOk result (λ number. number < length (draft_view draft.now).tables) }
{
    let name = read_name(r, alloc, "the name of a table")?;
    Ok(table_named(r, alloc, draft, &name)?)
}

/// Reads a dot and the name of a new table, after the name of its schema.
#[tactic(auto, unfolding(crate::specs::TableNames::new_in_schema))]
fn new_in_schema(
    r: &mut Reader<'_>,
    alloc: Global,
    draft: &Draft,
    schema: PlacedName,
) -> Result<NewName, ReadError>
    ensures { TakesSome (λ name. name) (spec.new_in_schema (draft_view draft.now).schemas schema) r.old result r.new }
{
    let name = name_in_schema(r, alloc, draft, &schema)?;
    Ok(NewName {
        schema: schema.text,
        name,
    })
}

/// Reads the rest of the name of a new table, after its first part was read.
#[tactic(auto, unfolding(crate::specs::TableNames::new_named))]
fn new_named(
    r: &mut Reader<'_>,
    alloc: Global,
    draft: &Draft,
    is_if: bool,
    name: PlacedName,
) -> Result<NewName, ReadError>
    ensures { Takes (λ name. name) (spec.new_named (draft_view draft.now).schemas is_if name) r.old result r.new }
{
    r.look()?;
    match (is_if, r.item()) {
        (true, Some(Item::Keyword(Keyword::Not))) => Err(ReadError {
            place: name.place,
            kind: ErrorKind::LeftOut(Omitted::Constraint),
        }),
        (_, Some(Item::Dot)) => Ok(new_in_schema(r, alloc, draft, name)?),
        _ => Ok(NewName {
            schema: Text::from_str(alloc, PUBLIC)?,
            name,
        }),
    }
}

/// Refuses an unsupported clause after the name of a table.
#[tactic(auto, unfolding(crate::specs::TableNames::table_head))]
fn table_head(r: &Reader<'_>) -> Result<(), ReadError>
    ensures { Reads (λ u. u) (spec.table_head (to_read r.now)) result (to_read r.now) }
{
    match r.item() {
        Some(Item::Keyword(Keyword::Partition)) => Err(unsupported_clause(r)),
        _ => Ok(()),
    }
}

/// Reads the name of a new table.
#[tactic(auto, unfolding(crate::specs::TableNames::new_name))]
pub fn new_name(r: &mut Reader<'_>, alloc: Global, draft: &Draft) -> Result<NewName, ReadError>
    ensures { TakesSome (λ name. name) (spec.new_name (draft_view draft.now)) r.old result r.new }
{
    let is_if = r.is(Item::Keyword(Keyword::If));
    let first = read_name(r, alloc, "the name of a table")?;
    let name = new_named(r, alloc, draft, is_if, first)?;
    draft.check_new_table(&name)?;
    table_head(r)?;
    Ok(name)
}
