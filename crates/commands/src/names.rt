//! The names of a catalog's publications, tables, columns and subscribers, by their numbers from 0, and the words of a
//! line. If the catalog has nothing of a number, its name is empty.

ghost use Rattle.std.specs.Prelude.{◌≡◌, ◌++◌, ◌∷◌, [], OnOk, Some, map, slice_get};
ghost use Rattle.std.specs.String.{string_bytes};
ghost use Rattle.pub_catalog.specs.CatalogView.{publication_view};
ghost use Rattle.commands.specs.Names as spec;

use filter_tree::{Column, Table, TableNumber};
use pub_catalog::{Publication, SubscriberNumber, Subscription};
use std::alloc::AllocError;

/// The name of the publication with this number.
pub fn publication_name(publications: &[Publication], number: usize) -> &str
    ensures { result.now ≡ spec.plain_publication (map publication_view publications.now) number }
{
    match publications.get(number) {
        None => "",
        Some(publication) => publication.name.as_str(),
    }
}

/// The name of the subscriber with this number, which is that of its subscription.
pub fn subscriber_name(subscriptions: &[Subscription], number: SubscriberNumber) -> &str
    ensures { result.now ≡ spec.subscriber_name subscriptions.now number }
{
    match subscriptions.get(number) {
        None => "",
        Some(subscription) => subscription.name.as_str(),
    }
}

fn column_named(columns: &[Column], number: usize) -> &str
    ensures { result.now ≡ spec.column_named (slice_get columns.now number) }
{
    match columns.get(number) {
        None => "",
        Some(column) => column.name.as_str(),
    }
}

/// The name of a column of the table with this number.
pub fn column_name(tables: &[Table], table: TableNumber, number: usize) -> &str
    ensures { result.now ≡ spec.plain_column tables.now table number }
{
    match tables.get(table) {
        None => "",
        Some(table) => column_named(table.columns.as_slice(), number),
    }
}

/// Writes a space and a word after what is on the line.
pub fn push_word(line: &mut String, word: &str) -> Result<(), AllocError>
    ensures { OnOk result (string_bytes line.new ≡ string_bytes line.old ++ spec.spaced (word.now ∷ [])) }
{
    line.push(' ')?;
    line.push_str(word)
}

/// Writes the name of a table after that of its schema.
fn push_named(line: &mut String, table: &Table) -> Result<(), AllocError>
    ensures { OnOk result (string_bytes line.new ≡ string_bytes line.old ++ spec.dotted_name (Some table.now)) }
{
    line.push_str(table.schema.as_str())?;
    line.push('.')?;
    line.push_str(table.name.as_str())
}

/// Writes the name of the table with this number.
pub fn push_table_name(
    line: &mut String,
    tables: &[Table],
    number: TableNumber,
) -> Result<(), AllocError>
    ensures { OnOk result (string_bytes line.new ≡ string_bytes line.old ++ spec.plain_table tables.now number) }
{
    match tables.get(number) {
        None => Ok(()),
        Some(table) => push_named(line, table),
    }
}

/// Writes a space, and the name of the table with this number.
pub fn push_table(
    line: &mut String,
    tables: &[Table],
    number: TableNumber,
) -> Result<(), AllocError>
    ensures { OnOk result (string_bytes line.new ≡ string_bytes line.old ++ spec.spaced
        (spec.plain_table tables.now number ∷ [])) }
{
    line.push(' ')?;
    push_table_name(line, tables, number)
}
