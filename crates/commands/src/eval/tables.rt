//! The table of a catalog that a word names.

ghost use Rattle.std.specs.Prelude.{◌≡◌, ◌<◌, ◌≤◌, length, IfSome};
ghost use Rattle.commands.specs.Eval.Tables.{schema_word, name_word, table_named_by};

use crate::eval::carriers::Carrier;
use filter_tree::{Table, TableNumber};

/// A table of a catalog: its number there, and the publications that carry it. A catalog has at most 64 tables of at
/// most 100 columns.
#[derive(Clone, Copy)]
pub struct CatalogTable<'a> {
    pub number: TableNumber,
    pub table: &'a Table,
    pub carriers: &'a [Carrier<'a>],
    ghost early: { number < 64 },
    ghost narrow: { length table.now.columns ≤ 100 },
}

/// The schema and the name of a table that a word names.
fn table_name(word: &str) -> (&str, &str)
    ensures schema { result.0.now ≡ schema_word word.now }
    ensures name { result.1.now ≡ name_word word.now }
{
    word.split_once('.').unwrap_or(("public", word))
}

/// The number of the table that a word names: `name` of the schema public, or `schema.name`.
pub fn find_table(tables: &[Table], word: &str) -> Option<TableNumber>
    ensures value { result ≡ table_named_by word.now tables.now }
    ensures within { IfSome result (λ number. number < length tables.now) }
{
    let (schema, name) = table_name(word);
    tables.iter().position(|table| table.schema.as_str() == schema && table.name.as_str() == name)
}
