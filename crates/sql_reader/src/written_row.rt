//! Rows as they are printed.

ghost use Rattle.std.specs.Prelude.{◌≡◌, ◌≢◌, ◌++◌, [], List, Contains, None, Ok, IfOk, OnOk, map, codes};
ghost use Rattle.std.specs.List.{join_by};
ghost use Rattle.std.specs.String.{string_bytes};
ghost use Rattle.filter_tree.specs.Datum.{Known, Bytes};
ghost use Rattle.filter_tree.specs.Valid.{row_fault};
ghost use Rattle.filter_tree.specs.Values.{datum_view};
ghost use Rattle.filter_tree.specs.declared.table.Column.{Column};
ghost use Rattle.sql_reader.specs.Rows.{row_of};
ghost use Rattle.sql_reader.specs.WrittenRows.{row_text, value_text, IsReadableRow, least};

use filter_tree::{Row, Value};
use std::alloc::{AllocError, Allocator, Global};

/// The text of a row, such as `(7, 'eu')`: NULL, TRUE and FALSE in upper case, numbers in decimal, and texts between
/// single quotes, with each quote in them doubled ("4.1.2. Constants"). `read_row` reads it as that row, if the row has
/// a value, no value is the least bigint, whose digits exceed the greatest, and each text has at most 65,535 bytes and
/// no zero byte.
///
/// # Errors
///
/// Only out of memory.
#[tactic(auto, using(crate::proofs::SpelledRows::is_read_again))]
pub fn write_row<R: Allocator>(alloc: Global, row: &Row<R>) -> Result<String, AllocError>
    ensures spelled { IfOk result (λ text. string_bytes text ≡ row_text row.now) }
    // It is read as that row if each value is readable,
    ensures again { IfOk result (λ text. IsReadableRow row.now → row_of (string_bytes text) ≡ Ok row.now) }
    // which holds if the row fits a table and does not have the least bigint.
    ensures valid { IfOk result
        (λ text. (columns : List Column) → row_fault columns row.now ≡ None → row.now ≢ [] → ¬ Contains row.now least
        → row_of (string_bytes text) ≡ Ok row.now) }
{
    let mut text = String::new(alloc);
    text.push('(')?;
    write_values(row.values(), &mut text)?;
    text.push(')')?;
    Ok(text)
}

/// Writes values with a comma and a space between each two.
fn write_values<R: Allocator>(values: &[Value<R>], text: &mut String) -> Result<(), AllocError>
    ensures { OnOk result
        (string_bytes text.new ≡ string_bytes text.old ++ join_by value_text (codes ", ") (map datum_view values.now)) }
{
    if let [first, others @ ..] = values {
        write_value(first, text)?;
        for value in others {
            text.push_str(", ")?;
            write_value(value, text)?;
        }
    }
    Ok(())
}

fn write_value<R: Allocator>(value: &Value<R>, text: &mut String) -> Result<(), AllocError>
    ensures { OnOk result (string_bytes text.new ≡ string_bytes text.old ++ value_text (datum_view value.now)) }
{
    match value {
        Value::Null => text.push_str("NULL"),
        Value::Bool(true) => text.push_str("TRUE"),
        Value::Bool(false) => text.push_str("FALSE"),
        Value::Int(number) => write!(text, "{number}"),
        Value::Text(bytes) => write_quoted(bytes.as_str(), text),
    }
}

/// Writes a text between single quotes, with each quote in it doubled.
#[tactic(auto, using(crate::proofs::Doubling::doubling))]
fn write_quoted(inner: &str, text: &mut String) -> Result<(), AllocError>
    ensures { OnOk result (string_bytes text.new ≡ string_bytes text.old ++ value_text (Known (Bytes inner.now))) }
{
    text.push('\'')?;
    for character in inner.chars() {
        if character == '\'' {
            text.push('\'')?;
        }
        text.push(character)?;
    }
    text.push('\'')?;
    Ok(())
}
