ghost use Rattle.std.specs.Prelude.{◌≡◌, IsOk};
ghost use Rattle.filter_tree.specs.Values.{datum_view};
ghost use Rattle.filter_tree.specs.Datum.{value_at};
ghost use Rattle.filter_tree.specs.Valid.{IsValid, row_fault, verdict_of, value_fault, number_fault, bytes_fault};

use crate::table::{ColType, Column, Table};
use crate::text::Text;
use crate::value::{Row, Value};
use std::alloc::Allocator;
use thiserror::Error;

/// Why a row does not fit a table. Columns are numbered from 0.
#[derive(Clone, Copy, Debug, PartialEq, Eq, Error)]
pub enum RowFault {
    /// The row has more or fewer values than the table has columns.
    #[error("the row's number of values is not the table's number of columns")]
    Width,
    /// A null in a NOT NULL column.
    #[error("column {0} is NOT NULL, but its value is null")]
    NullInNotNull(usize),
    /// A value of another kind than the column's type.
    #[error("the value of column {0} is not of the column's type")]
    WrongType(usize),
    /// A number out of the range of the column's type.
    #[error("the number in column {0} is out of range for the column's type")]
    OutOfRange(usize),
    /// A text that has a zero byte.
    #[error("the text in column {0} has a zero byte")]
    NulInText(usize),
    /// A text of more than 65,535 bytes.
    #[error("the text in column {0} is longer than 65,535 bytes")]
    TextTooLong(usize),
}

/// The most bytes that a text value can have.
pub const MAX_TEXT_BYTES: usize = 65_535;

/// Returns whether the row fits the table, or its first fault: the width comes first, and then the columns in their
/// order. For a text that is also too long the zero byte is reported. A text is UTF-8 by its type, so the texts of a
/// row that fits are UTF-8.
///
/// PostgreSQL 15, 8.1 Numeric Types, 5.4 Constraints, and 24.3 Character Set Support.
#[tactic(auto, using(crate::proofs::ValidLemmas::valid_from_no_fault, crate::proofs::ValidLemmas::no_fault_from_valid))]
pub fn valid<R: Allocator>(table: &Table, row: &Row<R>) -> Result<(), RowFault>
    ensures exact { result ≡ verdict_of (row_fault table.now.columns row.now) }
    ensures sound { IsOk result → IsValid table.now.columns row.now }
    ensures complete { IsValid table.now.columns row.now → IsOk result }
{
    match first_fault(table.columns.as_slice(), row) {
        None => Ok(()),
        Some(fault) => Err(fault),
    }
}

fn first_fault<R: Allocator>(columns: &[Column], row: &Row<R>) -> Option<RowFault>
    ensures { result ≡ row_fault columns.now row.now }
{
    if row.len() != columns.len() {
        return Some(RowFault::Width);
    }
    for (number, column) in columns.iter().enumerate() {
        let fault = fault_in_column(number, column, row);
        if fault.is_some() {
            return fault;
        }
    }
    None
}

/// The fault of the row's value in this column, which has this number; past the row's end the value is null.
fn fault_in_column<R: Allocator>(number: usize, column: &Column, row: &Row<R>) -> Option<RowFault>
    ensures { result ≡ value_fault number column.now (value_at row.now number) }
{
    match row.get(number) {
        None => fault_of_value(number, column, &Value::<R>::Null),
        Some(value) => fault_of_value(number, column, value),
    }
}

fn fault_of_value<R: Allocator>(
    number: usize,
    column: &Column,
    value: &Value<R>,
) -> Option<RowFault>
    ensures { result ≡ value_fault number column.now (datum_view value.now) }
{
    match (value, column.kind) {
        (Value::Null, _) if column.not_null => Some(RowFault::NullInNotNull(number)),
        (Value::Null, _) | (Value::Bool(_), ColType::Boolean) => None,
        (Value::Int(int), ColType::SmallInt | ColType::Integer | ColType::BigInt) =>
            fault_of_number(number, column.kind, *int),
        (Value::Text(text), ColType::Text) => fault_of_text(number, text),
        (Value::Int(_) | Value::Bool(_) | Value::Text(_), _) => Some(RowFault::WrongType(number)),
    }
}

fn fault_of_number(number: usize, kind: ColType, int: i64) -> Option<RowFault>
    ensures { result ≡ number_fault number kind int }
{
    if kind.least() <= int && int <= kind.greatest() {
        None
    } else {
        Some(RowFault::OutOfRange(number))
    }
}

#[tactic(auto, using(crate::proofs::ValidLemmas::utf8_fault))]
fn fault_of_text<R: Allocator>(number: usize, text: &Text<R>) -> Option<RowFault>
    ensures { result ≡ bytes_fault number text.now }
{
    let text = text.as_str();
    if text.as_bytes().contains(&0) {
        Some(RowFault::NulInText(number))
    } else if text.len() > MAX_TEXT_BYTES {
        Some(RowFault::TextTooLong(number))
    } else {
        None
    }
}
