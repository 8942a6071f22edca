//! CREATE UNIQUE INDEX.

ghost use Rattle.std.specs.Prelude.{◌<◌, IfOk, length};
ghost use Rattle.pub_reader.specs.DraftView.{draft_view};
ghost use Rattle.pub_reader.specs.Indexes as spec;
ghost use Rattle.sql_reader.specs.ParsingContracts.{Takes, TakesSome, to_read, Reads, Answers};

use crate::draft::Draft;
use crate::table_name::table_number;
use filter_tree::{Column, Items, TableNumber, UniqueIndex};
use sql_reader::{
    ErrorKind, FoundColumn, Item, Keyword, Omitted, PlacedName, ReadError, Reader, known_column,
    read_name,
};
use std::alloc::Global;

/// Refuses any method other than B-tree.
#[tactic(auto, unfolding(crate::specs::Indexes::known_method))]
fn known_method(name: &PlacedName) -> Result<(), ReadError>
    ensures { Answers (λ u. u) (spec.known_method name.now) result }
{
    if name.text.as_str() == "btree" {
        return Ok(());
    }
    Err(ReadError {
        place: name.place,
        kind: ErrorKind::LeftOut(Omitted::Clause),
    })
}

/// Reads USING and the name of the method.
#[tactic(auto, unfolding(crate::specs::Indexes::named_method))]
fn named_method(r: &mut Reader<'_>, alloc: Global) -> Result<(), ReadError>
    ensures { TakesSome (λ u. u) spec.named_method r.old result r.new }
{
    r.expect(Item::Keyword(Keyword::Using), "USING")?;
    let name = read_name(r, alloc, "btree")?;
    known_method(&name)?;
    Ok(())
}

/// Reads USING and the name of the method, if they are ahead.
#[tactic(auto, unfolding(crate::specs::Indexes::method))]
fn method(r: &mut Reader<'_>, alloc: Global) -> Result<(), ReadError>
    ensures { Takes (λ u. u) spec.method r.old result r.new }
{
    match r.item() {
        Some(Item::Keyword(Keyword::Using)) => named_method(r, alloc),
        _ => Ok(()),
    }
}

/// Refuses a column that is in the index already.
#[tactic(auto, unfolding(crate::specs::Indexes::once_in_index))]
fn once_in_index(numbers: &[usize], name: &PlacedName, column: FoundColumn) -> Result<(), ReadError>
    ensures { Answers (λ u. u) (spec.once_in_index numbers.now name.now column) result }
{
    if numbers.contains(&column.number) {
        return Err(ReadError {
            place: name.place,
            kind: ErrorKind::NameTwice,
        });
    }
    Ok(())
}

/// Reads the name of a column of the index.
#[tactic(auto, unfolding(crate::specs::Indexes::index_column))]
fn index_column(
    r: &mut Reader<'_>,
    alloc: Global,
    columns: &[Column],
    numbers: &mut Vec<usize>,
) -> Result<(), ReadError>
    ensures { TakesSome (λ _. numbers.new.items) (spec.index_column columns.now numbers.old.items) r.old result r.new }
{
    let name = read_name(r, alloc, "a column of the index")?;
    let column = known_column(columns, &name)?;
    once_in_index(numbers.as_slice(), &name, column)?;
    numbers.push(column.number)?;
    Ok(())
}

/// Reads the names of the columns of the index, separated by commas.
#[tactic(auto, using(sql_reader::proofs::RepetitionLemmas::chains), unfolding(crate::specs::Indexes::indexed_columns))]
fn index_columns(
    r: &mut Reader<'_>,
    alloc: Global,
    columns: &[Column],
) -> Result<Vec<usize>, ReadError>
    ensures { TakesSome (λ numbers. numbers.items) (spec.indexed_columns columns.now) r.old result r.new }
{
    let mut numbers = Vec::new(alloc);
    index_column(r, alloc, columns, &mut numbers)?;
    while r.next_is(Item::Comma)? {
        r.advance();
        index_column(r, alloc, columns, &mut numbers)?;
    }
    Ok(numbers)
}

/// Refuses words after the columns that begin a clause that is not supported.
#[tactic(auto, unfolding(crate::specs::Indexes::index_tail))]
fn index_tail(r: &Reader<'_>) -> Result<(), ReadError>
    ensures { Reads (λ u. u) (spec.index_tail (to_read r.now)) result (to_read r.now) }
{
    match r.item() {
        Some(Item::Keyword(_)) => Err(r.refused(ErrorKind::LeftOut(Omitted::Clause))),
        Some(Item::Word) => Err(r.refused(ErrorKind::LeftOut(Omitted::Clause))),
        _ => Ok(()),
    }
}

/// Reads what follows the name of the table, and returns the numbers of the index's columns.
#[tactic(auto, unfolding(crate::specs::Indexes::index_body))]
fn index_body(
    r: &mut Reader<'_>,
    alloc: Global,
    columns: &[Column],
) -> Result<Vec<usize>, ReadError>
    ensures { TakesSome (λ numbers. numbers.items) (spec.index_body columns.now) r.old result r.new }
{
    method(r, alloc)?;
    r.expect(Item::Open, "`(`")?;
    let numbers = index_columns(r, alloc, columns)?;
    r.expect(Item::Close, "`,` or `)`")?;
    index_tail(r)?;
    Ok(numbers)
}

/// Reads ON and the name of the table of a new index, and returns the table's number.
#[tactic(auto, unfolding(crate::specs::Indexes::indexed_table))]
fn indexed_table(
    r: &mut Reader<'_>,
    alloc: Global,
    draft: &Draft,
    name: &PlacedName,
) -> Result<TableNumber, ReadError>
    ensures takes { TakesSome (λ number. number) (spec.indexed_table (draft_view draft.now) name.now)
        r.old result r.new }
    ensures within { IfOk result (λ number. number < length (draft_view draft.now).tables) }
{
    r.expect(Item::Keyword(Keyword::On), "ON")?;
    r.eat(Item::Keyword(Keyword::Only));
    let number = table_number(r, alloc, draft)?;
    draft.check_new_index(number, name)?;
    Ok(number)
}

/// Reads what follows CREATE UNIQUE, and creates the index.
#[tactic(auto, unfolding(crate::specs::Indexes::create_index))]
pub fn create_index(r: &mut Reader<'_>, alloc: Global, draft: &mut Draft) -> Result<(), ReadError>
    ensures { TakesSome (λ _. draft_view draft.new) (spec.create_index (draft_view draft.old)) r.old result r.new }
{
    r.expect(Item::Keyword(Keyword::Index), "INDEX")?;
    let name = read_name(r, alloc, "the name of an index")?;
    let number = indexed_table(r, alloc, draft, &name)?;
    let numbers = index_body(r, alloc, draft.columns(number))?;
    draft.add_index(
        number,
        UniqueIndex {
            name: name.text,
            columns: Items::from_vec(numbers),
        },
    )?;
    Ok(())
}
