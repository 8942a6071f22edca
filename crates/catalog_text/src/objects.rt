//! What a publication is for: the tables that it carries.

ghost use Rattle.std.specs.Prelude.{◌≡◌, ◌≤◌, ◌++◌, OnOk, codes, length, map};
ghost use Rattle.std.specs.List.{join_by};
ghost use Rattle.std.specs.Option.{option_map};
ghost use Rattle.filter_tree.specs.Shape.{expr_view};
ghost use Rattle.std.specs.String.{string_bytes};
ghost use Rattle.pub_catalog.specs.CatalogView.{entry_view};
ghost use Rattle.catalog_text.specs.CatalogText as spec;

use crate::filter::write_filter;
use crate::tables::write_table_name;
use crate::words::write_name;
use filter_tree::{Column, Filter, Table};
use pub_catalog::Entry;
use std::alloc::{AllocError, Global};

/// The schema of the table with this number; an empty name if there is none.
fn schema_of(tables: &[Table], number: usize) -> &str
    ensures { result.now ≡ spec.schema_of tables.now number }
{
    match tables.get(number) {
        Some(table) => table.schema.as_str(),
        None => "",
    }
}

/// Whether one of the entries is for the table with this number.
fn has_table(entries: &[Entry], number: usize) -> bool
    ensures { result ≡ spec.has_entry number (map entry_view entries.now) }
{
    for entry in entries {
        if entry.table == number {
            return true;
        }
    }
    false
}

/// Whether some table has two of the entries.
fn comes_twice(entries: &[Entry]) -> bool
    ensures { result ≡ spec.comes_twice (map entry_view entries.now) }
{
    let mut rest = entries;
    while let [entry, others @ ..] = rest {
        if has_table(others, entry.table) {
            return true;
        }
        rest = others;
    }
    false
}

/// Whether one of the entries is for a table of the schema.
fn has_schema(tables: &[Table], entries: &[Entry], schema: &str) -> bool
    ensures { result ≡ spec.has_schema tables.now (map entry_view entries.now) schema.now }
{
    for entry in entries {
        if schema == schema_of(tables, entry.table) {
            return true;
        }
    }
    false
}

/// Whether the table with this number is before the tables of all the entries.
fn is_before(number: usize, entries: &[Entry]) -> bool
    ensures { result ≡ spec.is_before number (map entry_view entries.now) }
{
    for entry in entries {
        if entry.table <= number {
            return false;
        }
    }
    true
}

/// Whether the entries are in the order of the tables, and none is for a table twice.
fn are_ascending(entries: &[Entry]) -> bool
    ensures { result ≡ spec.are_ascending (map entry_view entries.now) }
{
    let mut rest = entries;
    while let [entry, others @ ..] = rest {
        if !is_before(entry.table, others) {
            return false;
        }
        rest = others;
    }
    true
}

/// Whether the table with this number and schema has an entry, or no table of the schema has one.
fn is_listed(tables: &[Table], entries: &[Entry], number: usize, schema: &str) -> bool
    ensures { result ≡ spec.is_listed_whole tables.now (map entry_view entries.now) number schema.now }
{
    !has_schema(tables, entries, schema) || has_table(entries, number)
}

/// Whether each table of the schemas of the entries has an entry.
fn have_entries(tables: &[Table], entries: &[Entry]) -> bool
    ensures { result ≡ spec.have_entries tables.now (map entry_view entries.now) 0 tables.now }
{
    let mut rest = tables;
    let mut number = 0;
    while let [table, others @ ..] = rest {
        if !is_listed(tables, entries, number, table.schema.as_str()) {
            return false;
        }
        number += 1;
        rest = others;
    }
    true
}

/// Whether no entry has a filter.
fn are_whole(entries: &[Entry]) -> bool
    ensures { result ≡ spec.are_whole (map entry_view entries.now) }
{
    for entry in entries {
        if let Some(_) = &entry.filter {
            return false;
        }
    }
    true
}

/// Whether the entries are exactly the tables of some schemas.
fn are_schemas(tables: &[Table], entries: &[Entry]) -> bool
    ensures { result ≡ spec.are_schemas tables.now (map entry_view entries.now) }
{
    are_whole(entries) && are_ascending(entries) && have_entries(tables, entries)
}

/// How many entries come before those that are exactly the tables of some schemas.
fn named_before(tables: &[Table], entries: &[Entry]) -> usize
    ensures count { result ≡ spec.named_before tables.now (map entry_view entries.now) }
    ensures within { result ≤ length entries.now }
{
    let mut rest = entries;
    let mut number = 0;
    while let [_, others @ ..] = rest {
        if are_schemas(tables, rest) {
            return number;
        }
        number += 1;
        rest = others;
    }
    number
}

/// How many of a publication's entries are named.
fn named_count(tables: &[Table], entries: &[Entry]) -> usize
    ensures count { result ≡ spec.named_count tables.now (map entry_view entries.now) }
    ensures within { result ≤ length entries.now }
{
    if comes_twice(entries) {
        named_before(tables, entries)
    } else {
        entries.len()
    }
}

fn write_where(
    alloc: Global,
    columns: &[Column],
    filter: &Option<Filter>,
    text: &mut String,
) -> Result<(), AllocError>
    ensures { OnOk result (string_bytes text.new
        ≡ string_bytes text.old ++ spec.where_text columns.now (option_map expr_view filter.now)) }
{
    if let Some(filter) = filter {
        text.push_str(" WHERE (")?;
        write_filter(alloc, columns, filter, text)?;
        text.push(')')?;
    }
    Ok(())
}

fn write_named_table(
    alloc: Global,
    filter: &Option<Filter>,
    table: &Table,
    text: &mut String,
) -> Result<(), AllocError>
    ensures { OnOk result (string_bytes text.new
        ≡ string_bytes text.old ++ spec.named_text (option_map expr_view filter.now) table.now) }
{
    text.push_str("TABLE ")?;
    write_table_name(table, text)?;
    write_where(alloc, table.columns.as_slice(), filter, text)
}

/// Writes a table that is named, with its filter; nothing if there is no such table.
#[tactic(auto, unfolding(crate::specs::CatalogText::object_text))]
fn write_object(
    alloc: Global,
    tables: &[Table],
    entry: &Entry,
    text: &mut String,
) -> Result<(), AllocError>
    ensures { OnOk result (string_bytes text.new
        ≡ string_bytes text.old ++ spec.object_text tables.now (entry_view entry.now)) }
{
    match tables.get(entry.table) {
        Some(table) => write_named_table(alloc, &entry.filter, table, text),
        None => Ok(()),
    }
}

/// Writes tables with their filters, separated by a comma and a space.
fn write_named(
    alloc: Global,
    tables: &[Table],
    entries: &[Entry],
    text: &mut String,
) -> Result<(), AllocError>
    ensures { OnOk result (string_bytes text.new ≡ string_bytes text.old
        ++ join_by (spec.object_text tables.now) (codes ", ") (map entry_view entries.now)) }
{
    if let [first, others @ ..] = entries {
        write_object(alloc, tables, first, text)?;
        for entry in others {
            text.push_str(", ")?;
            write_object(alloc, tables, entry, text)?;
        }
    }
    Ok(())
}

/// Writes a schema after a comma, unless one of the earlier entries is for a table of it.
fn write_whole(
    tables: &[Table],
    earlier: &[Entry],
    schema: &str,
    text: &mut String,
) -> Result<(), AllocError>
    ensures { OnOk result (string_bytes text.new ≡ string_bytes text.old
        ++ spec.whole_text tables.now (map entry_view earlier.now) schema.now) }
{
    if has_schema(tables, earlier, schema) {
        return Ok(());
    }
    text.push_str(", TABLES IN SCHEMA ")?;
    write_name(schema, text)?;
    Ok(())
}

/// Writes the schemas of the entries, each once and after a comma.
fn write_schemas(tables: &[Table], entries: &[Entry], text: &mut String) -> Result<(), AllocError>
    ensures { OnOk result (string_bytes text.new ≡ string_bytes text.old
        ++ spec.schemas_from tables.now (map entry_view entries.now) 0 (map entry_view entries.now)) }
{
    for (number, entry) in entries.iter().enumerate() {
        let schema = schema_of(tables, entry.table);
        write_whole(tables, &entries[..number], schema, text)?;
    }
    Ok(())
}

/// Writes what a publication is for. The first `count` of its entries are named.
fn write_scope(
    alloc: Global,
    tables: &[Table],
    entries: &[Entry],
    count: usize,
    text: &mut String,
) -> Result<(), AllocError>
    requires { count ≤ length entries.now }
    ensures { OnOk result (string_bytes text.new ≡ string_bytes text.old
        ++ (codes " FOR " ++ spec.objects_by tables.now (map entry_view entries.now) count)) }
{
    text.push_str(" FOR ")?;
    write_named(alloc, tables, &entries[..count], text)?;
    write_schemas(tables, &entries[count..], text)?;
    Ok(())
}

/// Writes what a publication is for; nothing if it carries no table.
pub(crate) fn write_objects(
    alloc: Global,
    tables: &[Table],
    entries: &[Entry],
    text: &mut String,
) -> Result<(), AllocError>
    ensures { OnOk result (string_bytes text.new
        ≡ string_bytes text.old ++ spec.for_text tables.now (map entry_view entries.now)) }
{
    if let [_, ..] = entries {
        let count = named_count(tables, entries);
        write_scope(alloc, tables, entries, count, text)?;
    }
    Ok(())
}
