//! The columns and the primary key of CREATE TABLE.

ghost use Rattle.std.specs.Prelude.{◌≡◌, OnOk};
ghost use Rattle.sql_reader.specs.Columns as spec;
ghost use Rattle.sql_reader.specs.Columns.{parts_view};
ghost use Rattle.sql_reader.specs.ParsingContracts.{TakesSome, Answers};

use crate::column::{FoundColumn, find_column, known_column};
use crate::column_rule::{Constraints, column_constraints, column_type, unsupported_clause};
use crate::error::{ErrorKind, Limit, ReadError};
use crate::item::Item;
use crate::name::{PlacedName, read_name};
use crate::reader::Reader;
use crate::word::Keyword;
use filter_tree::{ColType, Column};
use std::alloc::{AllocError, Global};

/// How many columns a table may have.
const MAX_COLUMNS: usize = 100;

/// The elements of a table that were read: the columns, and the numbers of the key's columns, from 0, once there is a
/// key.
#[derive(Drop)]
pub struct TableParts {
    pub columns: Vec<Column>,
    pub key: Vec<usize>,
}

/// Refuses a column whose name is taken, or that is one column too many.
#[tactic(auto, unfolding(crate::specs::Columns::new_column))]
fn new_column(parts: &TableParts, name: &PlacedName) -> Result<(), ReadError>
    ensures { Answers (λ u. u) (spec.new_column (parts_view parts.now) name.now) result }
{
    let found = find_column(parts.columns.as_slice(), name.text.as_str());
    if found.is_some() {
        return Err(ReadError {
            place: name.place,
            kind: ErrorKind::NameTwice,
        });
    }
    if parts.columns.len() >= MAX_COLUMNS {
        return Err(ReadError {
            place: name.place,
            kind: ErrorKind::TooMany(Limit::Columns),
        });
    }
    Ok(())
}

fn add_column(
    parts: &mut TableParts,
    name: PlacedName,
    kind: ColType,
    given: Constraints,
) -> Result<(), AllocError>
    ensures { OnOk result (parts_view parts.new ≡ spec.with_column (parts_view parts.old) name kind given) }
{
    let number = parts.columns.len();
    let column = Column {
        name: name.text,
        kind,
        not_null: given.not_null || given.key,
    };
    parts.columns.push(column)?;
    if given.key {
        parts.key.clear();
        parts.key.push(number)?;
    }
    Ok(())
}

/// Reads a column.
#[tactic(auto, unfolding(crate::specs::Columns::column_element))]
fn column_element(
    r: &mut Reader<'_>,
    alloc: Global,
    parts: &mut TableParts,
) -> Result<(), ReadError>
    ensures { TakesSome (λ _. parts_view parts.new) (spec.column_element (parts_view parts.old)) r.old result r.new }
{
    let name = read_name(r, alloc, "a column or PRIMARY KEY")?;
    new_column(parts, &name)?;
    let kind = column_type(r)?;
    let given = column_constraints(r, !parts.key.is_empty())?;
    add_column(parts, name, kind, given)?;
    Ok(())
}

/// Makes the column with this number NOT NULL.
#[tactic(auto, using(crate::proofs::Required::requires_column))]
fn require(columns: &mut Vec<Column>, number: usize)
    ensures { columns.new.items ≡ spec.required columns.old.items number }
{
    if let Some(column) = columns.get_mut(number) {
        column.not_null = true;
    }
}

/// Refuses a column that is in the key already.
#[tactic(auto, unfolding(crate::specs::Columns::once_in_key))]
fn once_in_key(parts: &TableParts, name: &PlacedName, column: FoundColumn) -> Result<(), ReadError>
    ensures { Answers (λ u. u) (spec.once_in_key (parts_view parts.now) name.now column) result }
{
    if parts.key.contains(&column.number) {
        return Err(ReadError {
            place: name.place,
            kind: ErrorKind::NameTwice,
        });
    }
    Ok(())
}

/// Adds a column to the key.
fn add_key_column(parts: &mut TableParts, column: FoundColumn) -> Result<(), AllocError>
    ensures { OnOk result (parts_view parts.new ≡ spec.with_key_column (parts_view parts.old) column) }
{
    require(&mut parts.columns, column.number);
    parts.key.push(column.number)?;
    Ok(())
}

/// Reads the name of a column of the key.
#[tactic(auto, unfolding(crate::specs::Columns::key_column))]
fn key_column(r: &mut Reader<'_>, alloc: Global, parts: &mut TableParts) -> Result<(), ReadError>
    ensures { TakesSome (λ _. parts_view parts.new) (spec.key_column (parts_view parts.old)) r.old result r.new }
{
    let name = read_name(r, alloc, "a column of the key")?;
    let column = known_column(parts.columns.as_slice(), &name)?;
    once_in_key(parts, &name, column)?;
    add_key_column(parts, column)?;
    Ok(())
}

/// Reads the names of the key's columns, separated by commas.
#[tactic(auto, using(crate::proofs::RepetitionLemmas::chains), unfolding(crate::specs::Columns::key_columns))]
fn key_columns(r: &mut Reader<'_>, alloc: Global, parts: &mut TableParts) -> Result<(), ReadError>
    ensures { TakesSome (λ _. parts_view parts.new) (spec.key_columns (parts_view parts.old)) r.old result r.new }
{
    key_column(r, alloc, parts)?;
    while r.next_is(Item::Comma)? {
        r.advance();
        key_column(r, alloc, parts)?;
    }
    Ok(())
}

/// Reads `PRIMARY KEY ( name , .. )`.
#[tactic(auto, unfolding(crate::specs::Columns::first_key))]
fn first_key(r: &mut Reader<'_>, alloc: Global, parts: &mut TableParts) -> Result<(), ReadError>
    ensures { TakesSome (λ _. parts_view parts.new) (spec.first_key (parts_view parts.old)) r.old result r.new }
{
    r.expect(Item::Keyword(Keyword::Primary), "PRIMARY KEY")?;
    r.expect(Item::Keyword(Keyword::Key), "KEY")?;
    r.expect(Item::Open, "`(`")?;
    key_columns(r, alloc, parts)?;
    r.expect(Item::Close, "`,` or `)`")?;
    Ok(())
}

/// Reads the primary key, if the table has none so far.
#[tactic(auto, unfolding(crate::specs::Columns::key_element))]
fn key_element(r: &mut Reader<'_>, alloc: Global, parts: &mut TableParts) -> Result<(), ReadError>
    ensures { TakesSome (λ _. parts_view parts.new) (spec.key_element (parts_view parts.old)) r.old result r.new }
{
    if !parts.key.is_empty() {
        return Err(r.refusal("no second PRIMARY KEY"));
    }
    first_key(r, alloc, parts)
}

/// Reads an element of CREATE TABLE.
#[tactic(auto, unfolding(crate::specs::Columns::element))]
fn element(r: &mut Reader<'_>, alloc: Global, parts: &mut TableParts) -> Result<(), ReadError>
    ensures { TakesSome (λ _. parts_view parts.new) (spec.element (parts_view parts.old)) r.old result r.new }
{
    match r.item() {
        Some(Item::Keyword(Keyword::Primary)) => key_element(r, alloc, parts),
        Some(Item::Keyword(Keyword::Check)) => Err(unsupported_clause(r)),
        Some(Item::Keyword(Keyword::Unique)) => Err(unsupported_clause(r)),
        Some(Item::Keyword(Keyword::Foreign)) => Err(unsupported_clause(r)),
        Some(Item::Keyword(Keyword::Constraint)) => Err(unsupported_clause(r)),
        _ => column_element(r, alloc, parts),
    }
}

/// Reads the elements of CREATE TABLE, separated by commas: columns, with their types and constraints, and the primary
/// key. There are at most 100 columns, and those of the key are NOT NULL.
///
/// # Errors
///
/// The first fault of the elements, with its place, or `OutOfMemory`.
#[tactic(auto, using(crate::proofs::RepetitionLemmas::chains), unfolding(crate::specs::Columns::elements))]
pub fn read_elements(r: &mut Reader<'_>, alloc: Global) -> Result<TableParts, ReadError>
    ensures { TakesSome (λ parts. parts_view parts) spec.elements r.old result r.new }
{
    let mut parts = TableParts {
        columns: Vec::new(alloc),
        key: Vec::new(alloc),
    };
    element(r, alloc, &mut parts)?;
    while r.next_is(Item::Comma)? {
        r.advance();
        element(r, alloc, &mut parts)?;
    }
    Ok(parts)
}
