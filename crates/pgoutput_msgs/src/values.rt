//! The values of rows as messages have them.

ghost use Rattle.std.specs.Prelude.{◌≡◌, ◌<◌, ◌^◌, IfOk, List, length};
ghost use Rattle.std.specs.String.{string_bytes};
ghost use Rattle.filter_tree.specs.declared.table.Column.{Column};
ghost use Rattle.filter_tree.specs.Valid.{IsValid};
ghost use Rattle.filter_tree.specs.Values.{datum_view};
ghost use Rattle.pgoutput_msgs.specs.Ranges.{IsTupleWithinRange, IsCellText, AreTexts};
ghost use Rattle.pgoutput_msgs.specs.ValueText.{cell_of, cells_of};

use crate::tuple::{Cell, Tuple};
use filter_tree::{Row, Text, Value};
use std::alloc::{AllocError, Allocator, Global};

/// The row's values as a message has them. An Insert message has room for those of a row that fits a table of fewer
/// than 2^15 columns. The only error is out of memory.
///
/// PostgreSQL 15, 55.9. Logical Replication Message Formats (TupleData).
pub fn tuple_of<A: Allocator>(alloc: Global, row: &Row<A>) -> Result<Tuple, AllocError>
    ensures exact { IfOk result (λ tuple. tuple ≡ cells_of row.now) }
    ensures room { IfOk result (λ tuple. (columns : List Column) → IsValid columns row.now
        → length columns < 2 ^ 15 → IsTupleWithinRange tuple) }
    ensures texts { IfOk result (λ tuple. AreTexts tuple) }
{
    let values = row.values();
    let mut cells = Vec::with_capacity(alloc, values.len())?;
    for value in values {
        cells.push(value_text(alloc, value)?)?;
    }
    Ok(Tuple::from_cells(cells))
}

fn text_cell(text: String) -> Cell
    ensures exact { result ≡ Cell.Text (string_bytes text) }
    ensures text { IsCellText result }
{
    Cell::Text(Text::new(text))
}

fn value_text<A: Allocator>(alloc: Global, value: &Value<A>) -> Result<Cell, AllocError>
    ensures exact { IfOk result (λ cell. cell ≡ cell_of (datum_view value.now)) }
    ensures text { IfOk result (λ cell. IsCellText cell) }
{
    match value {
        Value::Null => Ok(Cell::Null),
        Value::Int(number) => Ok(text_cell(number.to_string(alloc)?)),
        Value::Bool(true) => Ok(text_cell(String::from_str(alloc, "t")?)),
        Value::Bool(false) => Ok(text_cell(String::from_str(alloc, "f")?)),
        Value::Text(text) => Ok(text_cell(String::from_str(alloc, text.as_str())?)),
    }
}
