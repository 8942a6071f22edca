ghost use Rattle.std.specs.Prelude.{◌≡◌, ◌==◌, map, length, slice_get};
ghost use Rattle.std.specs.Option.{option_map};
ghost use Rattle.filter_tree.specs.Values.{datum_view};

use crate::text::Text;
use std::alloc::{Allocator, Global};
use std::marker::Model;

/// A column's value in a row. Numbers of all three integer types are `Int`.
#[derive(Debug, Drop)]
pub enum Value<A: Allocator = Global> {
    Null,
    Int(i64),
    Bool(bool),
    Text(Text<A>),
}

/// A constant with which a filter compares a column: a value that is never null.
#[derive(Debug, Drop)]
pub enum Literal<A: Allocator = Global> {
    Int(i64),
    Bool(bool),
    Text(Text<A>),
}

/// A row: one value for each column, in the order of the columns. Contracts see the list of the values as data that
/// names no allocator.
#[derive(Debug, Drop)]
pub struct Row<A: Allocator = Global> {
    values: Vec<Value<A>, A>,
}

impl<A: Allocator> Model for Row<A> {
    ghost use Rattle.std.specs.Prelude.{List, map};
    ghost use Rattle.filter_tree.specs.Datum.{Datum};

    ghost Value = { List Datum };

    ghost use Rattle.filter_tree.specs.Values.{datum_view};

    ghost view = { λ r. map datum_view r.values.items };
}

impl<A: Allocator> Row<A> {
    /// The row of these values.
    pub fn from_values(values: Vec<Value<A>, A>) -> Row<A>
        ensures { result ≡ map datum_view values.items }
    {
        Row { values }
    }

    /// The values in the order of the columns.
    pub fn values(&self) -> &[Value<A>]
        ensures { map datum_view result.now ≡ self.now }
    {
        self.values.as_slice()
    }

    /// The number of values.
    pub fn len(&self) -> usize
        ensures { result ≡ length self.now }
    {
        self.values.len()
    }

    /// Whether the row has no values.
    pub fn is_empty(&self) -> bool
        ensures { result ≡ (length self.now == 0) }
    {
        self.values.is_empty()
    }

    /// The value of the column numbered `column` from 0; `None` past the row's end.
    pub fn get(&self, column: usize) -> Option<&Value<A>>
        ensures { option_map (λ value. datum_view value.now) result ≡ slice_get self.now column }
    {
        self.values.get(column)
    }

    /// The `Vec` of the values.
    pub fn into_values(self) -> Vec<Value<A>, A>
        ensures { map datum_view result.items ≡ self }
    {
        let Row { values } = self;
        values
    }
}
