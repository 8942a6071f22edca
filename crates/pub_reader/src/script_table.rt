//! The tables that a script names.

ghost use Rattle.std.specs.Prelude.{◌≡◌};
ghost use Rattle.sql_reader.specs.ParsingContracts.{Takes, TakesSome, Answers};
ghost use Rattle.pub_reader.specs.Drafts.{find_table as table_found};
ghost use Rattle.pub_reader.specs.ScriptTables as spec;
ghost use Rattle.pub_reader.specs.TableNames.{known_table as table_known};

use crate::draft::PUBLIC;
use crate::names::known_number;
use filter_tree::{Table, TableNumber};
use sql_reader::{ErrorKind, Item, PlacedName, ReadError, Reader, read_name};
use std::alloc::Global;

/// Whether a table is in this schema.
fn has_table(tables: &[Table], schema: &str) -> bool
    ensures { result ≡ spec.has_table tables.now schema.now }
{
    tables.iter().any(|table| schema == table.schema.as_str())
}

/// Whether this is the schema `public` or the schema of a table.
fn is_schema(tables: &[Table], name: &str) -> bool
    ensures { result ≡ spec.is_schema tables.now name.now }
{
    name == PUBLIC || has_table(tables, name)
}

/// Refuses a schema that is not known.
#[tactic(auto, unfolding(crate::specs::ScriptTables::schema_in_use))]
fn schema_in_use(tables: &[Table], name: &PlacedName) -> Result<(), ReadError>
    ensures { Answers (λ u. u) (spec.schema_in_use tables.now name.now) result }
{
    if is_schema(tables, name.text.as_str()) {
        return Ok(());
    }
    Err(ReadError {
        place: name.place,
        kind: ErrorKind::UnknownName,
    })
}

/// The number of the table with a schema and a name.
fn find_table(tables: &[Table], schema: &str, name: &str) -> Option<TableNumber>
    ensures { result ≡ table_found schema.now name.now tables.now }
{
    tables.iter().position(|table| schema == table.schema.as_str() && name == table.name.as_str())
}

/// The number of a table, which must exist.
#[tactic(auto, unfolding(crate::specs::TableNames::known_table))]
fn known_table(tables: &[Table], schema: &str, name: &PlacedName) -> Result<TableNumber, ReadError>
    ensures { Answers (λ n. n) (table_known tables.now schema.now name.now) result }
{
    Ok(known_number(name, find_table(tables, schema, name.text.as_str()))?)
}

/// Reads a dot and a name, after the name of a schema.
#[tactic(auto, unfolding(crate::specs::ScriptTables::name_after_schema))]
fn name_after_schema(
    r: &mut Reader<'_>,
    alloc: Global,
    tables: &[Table],
    schema: &PlacedName,
) -> Result<PlacedName, ReadError>
    ensures { TakesSome (λ name. name) (spec.name_after_schema tables.now schema.now) r.old result r.new }
{
    schema_in_use(tables, schema)?;
    r.expect(Item::Dot, "`.`")?;
    read_name(r, alloc, "the name of a table")
}

/// Reads a dot and the name of a table, after the name of its schema, and returns its number.
#[tactic(auto, unfolding(crate::specs::ScriptTables::table_after_schema))]
fn table_after_schema(
    r: &mut Reader<'_>,
    alloc: Global,
    tables: &[Table],
    schema: &PlacedName,
) -> Result<TableNumber, ReadError>
    ensures { TakesSome (λ number. number) (spec.table_after_schema tables.now schema.now) r.old result r.new }
{
    let name = name_after_schema(r, alloc, tables, schema)?;
    Ok(known_table(tables, schema.text.as_str(), &name)?)
}

/// Returns the number of a table, after the first part of its name was read.
#[tactic(auto, unfolding(crate::specs::ScriptTables::table_called))]
fn table_called(
    r: &mut Reader<'_>,
    alloc: Global,
    tables: &[Table],
    name: &PlacedName,
) -> Result<TableNumber, ReadError>
    ensures { Takes (λ number. number) (spec.table_called tables.now name.now) r.old result r.new }
{
    r.look()?;
    if r.is(Item::Dot) {
        return Ok(table_after_schema(r, alloc, tables, name)?);
    }
    Ok(known_table(tables, PUBLIC, name)?)
}

/// Reads the name of a table, and returns its number.
#[tactic(auto, unfolding(crate::specs::ScriptTables::script_table))]
pub fn script_table(
    r: &mut Reader<'_>,
    alloc: Global,
    tables: &[Table],
) -> Result<TableNumber, ReadError>
    ensures { TakesSome (λ number. number) (spec.script_table tables.now) r.old result r.new }
{
    let name = read_name(r, alloc, "the name of a table")?;
    Ok(table_called(r, alloc, tables, &name)?)
}
