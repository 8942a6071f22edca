//! Rows as the keys of an ordered map.

use crate::checks::{holds, same};
use filter_tree::{Row, Text, Value};
use std::alloc::{AllocError, Global};
use std::collections::BTreeMap;
use std::test::Fail;

/// A value of a row that needs no memory.
#[derive(Clone, Copy)]
enum Cell {
    Null,
    Int(i64),
    Bool(bool),
    Text(&'static str),
}

fn value(alloc: Global, cell: Cell) -> Result<Value, AllocError> {
    match cell {
        Cell::Null => Ok(Value::Null),
        Cell::Int(number) => Ok(Value::Int(number)),
        Cell::Bool(truth) => Ok(Value::Bool(truth)),
        Cell::Text(text) => Ok(Value::Text(Text::from_str(alloc, text)?)),
    }
}

fn row(alloc: Global, cells: &[Cell]) -> Result<Row, AllocError> {
    let mut values = Vec::new(alloc);
    for cell in cells {
        values.push(value(alloc, *cell)?)?;
    }
    Ok(Row::from_values(values))
}

/// Rows in ascending order, as in `tools/testing/calls/orders.py`, which compares each of them with every other.
const ASCENDING: &[&[Cell]] = &[
    &[],
    &[Cell::Null],
    &[Cell::Null, Cell::Null],
    &[Cell::Null, Cell::Text("")],
    &[Cell::Null, Cell::Text("a")],
    &[Cell::Int(i64::MIN)],
    &[Cell::Int(-2)],
    &[Cell::Int(-1)],
    &[Cell::Int(0)],
    &[Cell::Int(5)],
    &[Cell::Int(7), Cell::Null],
    &[Cell::Int(7), Cell::Text("e")],
    &[Cell::Int(7), Cell::Text("eu")],
    &[Cell::Int(7), Cell::Text("us")],
    &[Cell::Int(40)],
    &[Cell::Int(i64::MAX)],
    &[Cell::Bool(false)],
    &[Cell::Bool(true)],
    &[Cell::Text("")],
    &[Cell::Text("10")],
    &[Cell::Text("9")],
    &[Cell::Text("Z")],
    &[Cell::Text("a")],
    &[Cell::Text("a ")],
    &[Cell::Text("ab")],
    &[Cell::Text("b")],
    &[Cell::Text("é")],
    &[Cell::Text("ﬀ")],
    &[Cell::Text("😀")],
];

/// The places of the rows, with the rows as keys, inserted from the last.
fn map(alloc: Global) -> Result<BTreeMap<Row, usize>, AllocError> {
    let mut places = BTreeMap::new(alloc);
    for (place, cells) in ASCENDING.iter().enumerate().rev() {
        let _before = places.insert(row(alloc, cells)?, place)?;
    }
    Ok(places)
}

/// The values of the map in the order of its keys.
fn values(alloc: Global, places: &BTreeMap<Row, usize>) -> Result<Vec<usize>, AllocError> {
    let mut found = Vec::new(alloc);
    for place in places.values() {
        found.push(*place)?;
    }
    Ok(found)
}

#[test]
fn an_ordered_map_has_rows_as_keys(rt: HostRuntime) -> Result<(), Fail> {
    let found = values(rt.alloc(), &map(rt.alloc())?)?;
    same(&rt, found.len(), 29);
    for (place, found) in found.iter().enumerate() {
        same(&rt, *found, place);
    }
    Ok(())
}

#[test]
fn an_ordered_map_finds_a_row(rt: HostRuntime) -> Result<(), Fail> {
    let mut places = map(rt.alloc())?;
    let key = row(rt.alloc(), &[Cell::Int(7), Cell::Text("eu")])?;
    same(&rt, places.get(&key), Some(&12));
    same(&rt, places.remove(&key), Some(12));
    holds(&rt, places.get(&key).is_none());
    Ok(())
}
