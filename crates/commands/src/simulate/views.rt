//! The lines that show the contents of the publisher and of each subscriber.

ghost use Rattle.std.specs.Prelude.{◌≡◌, ◌++◌, IfOk, OnOk, map};
ghost use Rattle.std.specs.String.{string_bytes};
ghost use Rattle.pub_catalog.specs.CatalogView.{catalog_view};
ghost use Rattle.commands.specs.Output.{ended, text_of};
ghost use Rattle.commands.specs.Simulate.Views as spec;

use crate::names::{push_table_name, subscriber_name};
use crate::simulate::answers::push_position;
use filter_tree::{Row, Table, TableNumber};
use pub_catalog::Catalog;
use shard_world::{SubscriberView, View};
use sql_reader::write_row;
use std::alloc::{AllocError, Global};

/// Writes the line of a row of the table with this number, after this prefix.
fn push_row(
    text: &mut String,
    alloc: Global,
    before: &str,
    tables: &[Table],
    number: TableNumber,
    row: &Row,
) -> Result<(), AllocError>
    ensures { OnOk result (string_bytes text.new ≡ string_bytes text.old
        ++ ended (spec.row_line before.now tables.now number row.now)) }
{
    text.push_str(before)?;
    push_table_name(text, tables, number)?;
    text.push(' ')?;
    text.push_str(write_row(alloc, row)?.as_str())?;
    text.push('\n')?;
    Ok(())
}

/// Writes a line for each row of the table with this number.
fn push_rows(
    text: &mut String,
    alloc: Global,
    before: &str,
    tables: &[Table],
    number: TableNumber,
    rows: &[Row],
) -> Result<(), AllocError>
    ensures { OnOk result (string_bytes text.new ≡ string_bytes text.old
        ++ text_of (map (spec.row_line before.now tables.now number) rows.now)) }
{
    for row in rows {
        push_row(text, alloc, before, tables, number, row)?;
    }
    Ok(())
}

/// Writes a line for each row of each table, after this prefix.
pub fn push_tables(
    text: &mut String,
    alloc: Global,
    before: &str,
    tables: &[Table],
    rows: &[Vec<Row>],
) -> Result<(), AllocError>
    ensures { OnOk result (string_bytes text.new ≡ string_bytes text.old
        ++ text_of (spec.rows_lines before.now tables.now 0 (map (λ rows. rows.items) rows.now))) }
{
    for (number, rows) in rows.iter().enumerate() {
        push_rows(text, alloc, before, tables, number, rows.as_slice())?;
    }
    Ok(())
}

/// Writes a subscriber's name, its position, how many commits that counts, and its slot's confirmed position.
fn push_place(text: &mut String, name: &str, shown: &SubscriberView) -> Result<(), AllocError>
    ensures { OnOk result (string_bytes text.new ≡ string_bytes text.old
        ++ ended (spec.subscriber_line name.now shown.now)) }
{
    text.push_str(name)?;
    text.push(' ')?;
    push_position(text, shown.position)?;
    let applied = shown.applied;
    write!(text, " {applied} confirmed ")?;
    push_position(text, shown.confirmed)?;
    text.push('\n')?;
    Ok(())
}

/// Writes the lines of a subscriber of this name.
fn push_subscriber(
    text: &mut String,
    alloc: Global,
    name: &str,
    tables: &[Table],
    shown: &SubscriberView,
) -> Result<(), AllocError>
    ensures { OnOk result (string_bytes text.new ≡ string_bytes text.old
        ++ text_of (spec.named_lines name.now tables.now shown.now)) }
{
    push_place(text, name, shown)?;
    let before = format!(in alloc; "{name} ")?;
    push_tables(text, alloc, before.as_str(), tables, shown.rows.as_slice())
}

/// Writes the lines of each subscriber.
fn push_subscribers(
    text: &mut String,
    alloc: Global,
    catalog: &Catalog,
    subscribers: &[SubscriberView],
) -> Result<(), AllocError>
    ensures { OnOk result (string_bytes text.new ≡ string_bytes text.old
        ++ text_of (spec.subscribers_lines (catalog_view catalog.now) 0 subscribers.now)) }
{
    for (number, shown) in subscribers.iter().enumerate() {
        let name = subscriber_name(catalog.subscriptions.as_slice(), number);
        push_subscriber(text, alloc, name, catalog.tables.as_slice(), shown)?;
    }
    Ok(())
}

/// The lines of VIEW: the log's length, the publisher's rows, and each subscriber.
pub fn view_text(alloc: Global, catalog: &Catalog, view: &View) -> Result<String, AllocError>
    ensures { IfOk result (λ text. string_bytes text ≡ text_of (spec.view_lines (catalog_view catalog.now) view.now)) }
{
    let log = view.log;
    let mut text = format!(in alloc; "log {log}\n")?;
    push_tables(
        &mut text,
        alloc,
        "",
        catalog.tables.as_slice(),
        view.rows.as_slice(),
    )?;
    push_subscribers(&mut text, alloc, catalog, view.subscribers.as_slice())?;
    Ok(text)
}
