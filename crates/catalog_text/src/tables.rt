//! Tables, with their unique indexes and replica identities.

ghost use Rattle.std.specs.Prelude.{◌≡◌, ◌++◌, OnOk, codes};
ghost use Rattle.std.specs.List.{flat_map, join_by};
ghost use Rattle.std.specs.String.{string_bytes};
ghost use Rattle.catalog_text.specs.CatalogText as spec;
ghost use Rattle.catalog_text.specs.FilterText.{column_sql};

use crate::words::{text_if, write_column_name, write_name};
use filter_tree::{ColType, Column, Identity, Table, UniqueIndex};
use std::alloc::AllocError;

fn type_text(kind: ColType) -> &'static str
    ensures { result.now ≡ spec.type_text kind }
{
    match kind {
        ColType::SmallInt => " smallint",
        ColType::Integer => " integer",
        ColType::BigInt => " bigint",
        ColType::Boolean => " boolean",
        ColType::Text => " text",
    }
}

#[tactic(auto, unfolding(crate::specs::CatalogText::column_text))]
fn write_column(column: &Column, text: &mut String) -> Result<(), AllocError>
    ensures { OnOk result (string_bytes text.new ≡ string_bytes text.old ++ spec.column_text column.now) }
{
    write_name(column.name.as_str(), text)?;
    text.push_str(type_text(column.kind))?;
    text.push_str(text_if(column.not_null, " NOT NULL"))?;
    text.push_str(", ")
}

fn write_columns(columns: &[Column], text: &mut String) -> Result<(), AllocError>
    ensures { OnOk result (string_bytes text.new ≡ string_bytes text.old ++ flat_map spec.column_text columns.now) }
{
    for column in columns {
        write_column(column, text)?;
    }
    Ok(())
}

/// Writes the names of the columns with these numbers, separated by a comma and a space.
fn write_column_names(
    columns: &[Column],
    numbers: &[usize],
    text: &mut String,
) -> Result<(), AllocError>
    ensures { OnOk result (string_bytes text.new
        ≡ string_bytes text.old ++ join_by (column_sql columns.now) (codes ", ") numbers.now) }
{
    if let [first, others @ ..] = numbers {
        write_column_name(columns, *first, text)?;
        for number in others {
            text.push_str(", ")?;
            write_column_name(columns, *number, text)?;
        }
    }
    Ok(())
}

#[tactic(auto, unfolding(crate::specs::CatalogText::columns_text))]
fn write_column_list(
    columns: &[Column],
    numbers: &[usize],
    text: &mut String,
) -> Result<(), AllocError>
    ensures { OnOk result (string_bytes text.new
        ≡ string_bytes text.old ++ spec.columns_text columns.now numbers.now) }
{
    text.push_str(" (")?;
    write_column_names(columns, numbers, text)?;
    text.push(')')
}

#[tactic(auto, unfolding(crate::specs::CatalogText::table_sql))]
pub(crate) fn write_table_name(table: &Table, text: &mut String) -> Result<(), AllocError>
    ensures { OnOk result (string_bytes text.new ≡ string_bytes text.old ++ spec.table_sql table.now) }
{
    write_name(table.schema.as_str(), text)?;
    text.push('.')?;
    write_name(table.name.as_str(), text)
}

#[tactic(auto, unfolding(crate::specs::CatalogText::create_text))]
fn write_create(table: &Table, text: &mut String) -> Result<(), AllocError>
    ensures { OnOk result (string_bytes text.new ≡ string_bytes text.old ++ spec.create_text table.now) }
{
    let columns = table.columns.as_slice();
    text.push_str("CREATE TABLE ")?;
    write_table_name(table, text)?;
    text.push_str(" (")?;
    write_columns(columns, text)?;
    text.push_str("PRIMARY KEY")?;
    write_column_list(columns, table.key.as_slice(), text)?;
    text.push_str(");\n")?;
    Ok(())
}

#[tactic(auto, unfolding(crate::specs::CatalogText::index_text))]
fn write_index(table: &Table, index: &UniqueIndex, text: &mut String) -> Result<(), AllocError>
    ensures { OnOk result (string_bytes text.new ≡ string_bytes text.old ++ spec.index_text table.now index.now) }
{
    text.push_str("CREATE UNIQUE INDEX ")?;
    write_name(index.name.as_str(), text)?;
    text.push_str(" ON ")?;
    write_table_name(table, text)?;
    write_column_list(table.columns.as_slice(), index.columns.as_slice(), text)?;
    text.push_str(";\n")?;
    Ok(())
}

fn write_indexes(
    table: &Table,
    indexes: &[UniqueIndex],
    text: &mut String,
) -> Result<(), AllocError>
    ensures { OnOk result (string_bytes text.new
        ≡ string_bytes text.old ++ flat_map (spec.index_text table.now) indexes.now) }
{
    for index in indexes {
        write_index(table, index, text)?;
    }
    Ok(())
}

fn write_index_name(
    indexes: &[UniqueIndex],
    number: usize,
    text: &mut String,
) -> Result<(), AllocError>
    ensures { OnOk result (string_bytes text.new
        ≡ string_bytes text.old ++ spec.index_name indexes.now number) }
{
    match indexes.get(number) {
        Some(index) => write_name(index.name.as_str(), text),
        None => Ok(()),
    }
}

fn write_index_identity(
    indexes: &[UniqueIndex],
    number: usize,
    text: &mut String,
) -> Result<(), AllocError>
    ensures { OnOk result (string_bytes text.new
        ≡ string_bytes text.old ++ (codes "USING INDEX " ++ spec.index_name indexes.now number)) }
{
    text.push_str("USING INDEX ")?;
    write_index_name(indexes, number, text)?;
    Ok(())
}

fn write_identity(
    indexes: &[UniqueIndex],
    identity: Identity,
    text: &mut String,
) -> Result<(), AllocError>
    ensures { OnOk result (string_bytes text.new
        ≡ string_bytes text.old ++ spec.identity_text indexes.now identity) }
{
    match identity {
        Identity::Default => text.push_str("DEFAULT"),
        Identity::Index(number) => write_index_identity(indexes, number, text),
        Identity::Full => text.push_str("FULL"),
        Identity::Nothing => text.push_str("NOTHING"),
    }
}

#[tactic(auto, unfolding(crate::specs::CatalogText::alter_text))]
fn write_alter(table: &Table, text: &mut String) -> Result<(), AllocError>
    ensures { OnOk result (string_bytes text.new ≡ string_bytes text.old ++ spec.alter_text table.now) }
{
    text.push_str("ALTER TABLE ")?;
    write_table_name(table, text)?;
    text.push_str(" REPLICA IDENTITY ")?;
    write_identity(table.indexes.as_slice(), table.identity, text)?;
    text.push_str(";\n")?;
    Ok(())
}

#[tactic(auto, unfolding(crate::specs::CatalogText::table_text))]
fn write_table(table: &Table, text: &mut String) -> Result<(), AllocError>
    ensures { OnOk result (string_bytes text.new ≡ string_bytes text.old ++ spec.table_text table.now) }
{
    write_create(table, text)?;
    write_indexes(table, table.indexes.as_slice(), text)?;
    write_alter(table, text)
}

/// Whether the schema exists once these tables are created.
fn is_made(earlier: &[Table], schema: &str) -> bool
    ensures { result ≡ spec.is_made earlier.now schema.now }
{
    if schema == "public" {
        return true;
    }
    for table in earlier {
        if schema == table.schema.as_str() {
            return true;
        }
    }
    false
}

/// Writes the statement that creates a schema, unless it exists.
fn write_schema(earlier: &[Table], schema: &str, text: &mut String) -> Result<(), AllocError>
    ensures { OnOk result (string_bytes text.new
        ≡ string_bytes text.old ++ spec.made_text earlier.now schema.now) }
{
    if is_made(earlier, schema) {
        return Ok(());
    }
    text.push_str("CREATE SCHEMA ")?;
    write_name(schema, text)?;
    text.push_str(";\n")
}

/// Writes tables, each after its schema if that does not exist yet.
pub(crate) fn write_tables(tables: &[Table], text: &mut String) -> Result<(), AllocError>
    ensures { OnOk result (string_bytes text.new
        ≡ string_bytes text.old ++ spec.tables_from tables.now 0 tables.now) }
{
    for (number, table) in tables.iter().enumerate() {
        write_schema(&tables[..number], table.schema.as_str(), text)?;
        write_table(table, text)?;
    }
    Ok(())
}
