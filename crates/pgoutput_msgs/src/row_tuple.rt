//! The values of a row in a message, written from the row itself ("TupleData").

ghost use Rattle.std.specs.Prelude.{◌≡◌, ◌+◌, ◌-◌, ◌^◌, ◌≤◌, All, IsUtf8, length, map, min};
ghost use Rattle.std.specs.Fmt.{signed_decimal};
ghost use Rattle.std.specs.List.{flat_map};
ghost use Rattle.filter_tree.specs.Values.{datum_view};
ghost use Rattle.pgoutput_msgs.specs.Ranges.{AreTexts, IsCellText, IsCellWithinRange, IsTupleWithinRange};
ghost use Rattle.pgoutput_msgs.specs.Room.{HasRoom, Puts};
ghost use Rattle.pgoutput_msgs.specs.Spelling.{cell_spelling, new_spelling, tuple_spelling};
ghost use Rattle.pgoutput_msgs.specs.ValueText.{cell_of, cells_of, value_spelling};

use crate::room::{put_byte, put_int16};
use crate::tuple::{Cell, put_text};
use filter_tree::{Row, Value};
use itoa::Buffer;

/// Room for the text of a number of 64 bits with its letter and its length: the same for each number.
#[tactic(auto, using(crate::proofs::RowWriting::room_of_number))]
fn number_room(number: i64) -> usize
    ensures { 5 + length (signed_decimal number) ≤ result }
{
    let _ = number;
    26
}

/// Room for a value, up to `usize::MAX`.
fn value_room(value: &Value) -> usize
    ensures { min (length (value_spelling value.now)) (2 ^ 64 - 1) ≤ result }
{
    match value {
        Value::Null => 1,
        Value::Int(number) => number_room(*number),
        Value::Bool(_) => 6,
        Value::Text(text) => text.len().saturating_add(5),
    }
}

/// Room for `before` bytes and for the values, up to `usize::MAX`.
#[tactic(auto, using(crate::proofs::Writing::covers_on, crate::proofs::Writing::all_covered))]
fn values_room(before: usize, values: &[Value]) -> usize
    ensures { min (before + length (flat_map value_spelling values.now)) (2 ^ 64 - 1) ≤ result }
{
    let mut total = before;
    for value in values {
        total = total.saturating_add(value_room(value));
    }
    total
}

/// Room for `before` bytes, the letter before a row, and the row, up to `usize::MAX`.
pub(crate) fn row_room(before: usize, row: &Row) -> usize
    ensures { min (before + length (new_spelling (cells_of row.now))) (2 ^ 64 - 1) ≤ result }
{
    values_room(before.saturating_add(3), row.values())
}

/// Writes the number of the values, and the values.
pub(crate) fn put_row(row: &Row, out: &mut Vec<u8>)
    requires fits { IsTupleWithinRange (cells_of row.now) }
    requires room { HasRoom out.old (tuple_spelling (cells_of row.now)) }
    ensures puts { Puts out.old out.new (tuple_spelling (cells_of row.now)) }
    ensures texts { AreTexts (cells_of row.now) }
{
    put_counted(row.values(), out);
}

#[tactic(auto, using(crate::proofs::RowWriting::spelled_row))]
fn put_counted(values: &[Value], out: &mut Vec<u8>)
    requires fits { IsTupleWithinRange (cells_of (map datum_view values.now)) }
    requires room { HasRoom out.old (tuple_spelling (cells_of (map datum_view values.now))) }
    ensures puts { Puts out.old out.new (tuple_spelling (cells_of (map datum_view values.now))) }
    ensures texts { AreTexts (cells_of (map datum_view values.now)) }
{
    put_int16(values.len() as u16, out);
    put_values(values, out);
}

fn put_values(values: &[Value], out: &mut Vec<u8>)
    requires fits { All IsCellWithinRange (cells_of (map datum_view values.now)) }
    requires room { HasRoom out.old (flat_map value_spelling values.now) }
    ensures puts { Puts out.old out.new (flat_map value_spelling values.now) }
    ensures texts { AreTexts (cells_of (map datum_view values.now)) }
{
    for value in values {
        put_value(value, out);
    }
}

fn put_value(value: &Value, out: &mut Vec<u8>)
    requires fits { IsCellWithinRange (cell_of (datum_view value.now)) }
    requires room { HasRoom out.old (value_spelling value.now) }
    ensures puts { Puts out.old out.new (value_spelling value.now) }
    ensures text { IsCellText (cell_of (datum_view value.now)) }
{
    match value {
        Value::Null => put_byte(b'n', out),
        Value::Int(number) => put_number(*number, out),
        Value::Bool(true) => put_text("t", out),
        Value::Bool(false) => put_text("f", out),
        Value::Text(text) => put_text(text.as_str(), out),
    }
}

fn put_number(number: i64, out: &mut Vec<u8>)
    requires { HasRoom out.old (cell_spelling (Cell.Text (signed_decimal number))) }
    ensures puts { Puts out.old out.new (cell_spelling (Cell.Text (signed_decimal number))) }
    ensures text { IsUtf8 (signed_decimal number) }
{
    let mut buffer = Buffer::new();
    put_text(buffer.format(number), out);
}
