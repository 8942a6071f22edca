//! `eval`: a line for each row of a table.

ghost use Rattle.std.specs.Prelude.{◌≡◌, [], IfOk, OnOk};
ghost use Rattle.std.specs.String.{string_bytes};
ghost use Rattle.filter_tree.specs.Valid.{IsValid};
ghost use Rattle.commands.specs.Eval.BadRows.{is_answered};
ghost use Rattle.commands.specs.Eval.Evaluation.{EndsEvaluation};
ghost use Rattle.commands.specs.Eval.Memos.{IsLineMemo};
ghost use Rattle.commands.specs.Eval.Printing.{IsLineIn, WritesRowsIn, carriers_in, row_said_in};
ghost use Rattle.commands.specs.Output.{EndsByFault};
ghost use Rattle.commands.specs.Parts.{lines_of};

pub mod answers;
pub mod bad_row;
pub mod carriers;
pub mod hexadecimal;
pub mod inserts;
pub mod memory;
pub mod row_output;
pub mod tables;

use crate::eval::bad_row::table_row;
use crate::eval::carriers::carriers_of;
use crate::eval::inserts::push_insert;
use crate::eval::memory::RowMemory;
use crate::eval::row_output::RowOutput;
use crate::eval::tables::{CatalogTable, find_table};
use crate::failure::{Failure, InputFault, Status};
use crate::output::write_line;
use crate::parts::{Lines, two_parts};
use crate::writer::Writer;
use filter_tree::Row;
use pub_reader::read_catalog;
use std::alloc::{AllocError, Global};
use std::mem;

/// Writes what is wanted of a row on an empty line.
fn push_wanted(
    line: &mut String,
    memory: &mut RowMemory,
    carried: CatalogTable<'_>,
    wanted: RowOutput,
    row: &Row,
) -> Result<(), AllocError>
    requires empty { string_bytes line.old ≡ [] }
    requires fits { IsValid carried.table.now.columns row.now }
    requires memo { IsLineMemo wanted (carriers_in carried) memory.old.memo }
    ensures line { OnOk result (string_bytes line.new ≡ row_said_in wanted carried.entry row.now) }
    ensures memo { OnOk result (IsLineMemo wanted (carriers_in carried.entry) memory.new.memo) }
{
    memory.push_kept(line, wanted, carried.carriers, row)?;
    match wanted {
        RowOutput::Answers => Ok(()),
        RowOutput::Insert => push_insert(line, &mut memory.spelling, carried, row),
    }
}

/// Writes the line of a row on an empty line, and tells whether the row has an answer. The row is read in the memory of
/// the one before it.
#[tactic(auto, using(crate::proofs::BadLines::bad_row_line))]
fn push_line(
    alloc: Global,
    before: &mut Row,
    line: &mut String,
    memory: &mut RowMemory,
    carried: CatalogTable<'_>,
    wanted: RowOutput,
    text: &str,
) -> Result<bool, AllocError>
    requires empty { string_bytes line.old ≡ [] }
    requires memo { IsLineMemo wanted (carriers_in carried) memory.old.memo }
    ensures answered { IfOk result (λ answered. answered ≡ is_answered carried.entry.table.now.columns text.now) }
    ensures line { OnOk result (IsLineIn wanted carried.entry text.now (string_bytes line.new)) }
    ensures memo { OnOk result (IsLineMemo wanted (carriers_in carried.entry) memory.new.memo) }
{
    let used = mem::replace(before, Row::from_values(Vec::new(alloc)));
    match table_row(alloc, used, carried.table, text) {
        Ok(row) => {
            push_wanted(line, memory, carried, wanted, &row)?;
            *before = row;
            Ok(true)
        }
        Err(bad) => {
            if bad.is_out_of_memory() {
                return Err(AllocError);
            }
            write!(line, "{bad}")?;
            Ok(false)
        }
    }
}

/// Writes a line for each row: what is wanted of it, or why it is not read or does not fit.
pub fn write_rows<'a, W: Writer>(
    alloc: Global,
    carried: CatalogTable<'_>,
    wanted: RowOutput,
    rows: &str,
    writer: &mut W,
) -> Result<Status, Failure<'a>>
    ensures written { WritesRowsIn wanted carried.entry (lines_of rows.now) (W.contents writer.old)
        (W.contents writer.new) result }
    ensures failed { EndsByFault (W.has_failed writer.old) (W.has_failed writer.new) result }
{
    let mut status = Status::Done;
    let mut line = String::new(alloc);
    let mut memory = RowMemory::new(alloc);
    let mut before = Row::from_values(Vec::new(alloc));
    for row in Lines::new(rows) {
        line.clear();
        if !push_line(
            alloc,
            &mut before,
            &mut line,
            &mut memory,
            carried,
            wanted,
            row,
        )? {
            status = Status::Refused;
        }
        write_line(&mut line, writer)?;
    }
    Ok(status)
}

/// Answers an input: a catalog, a line `%%`, and rows of the table that a word names, one a line.
pub fn evaluate<'a, W: Writer>(
    alloc: Global,
    word: &'a str,
    wanted: RowOutput,
    input: &str,
    writer: &mut W,
) -> Result<Status, Failure<'a>>
    ensures ends { EndsEvaluation wanted input.now word.entry.now (W.contents writer.old) (W.contents writer.new)
        result }
    ensures failed { EndsByFault (W.has_failed writer.old) (W.has_failed writer.new) result }
{
    let (catalog, rows) = two_parts(input).ok_or(InputFault::Parts)?;
    let catalog = read_catalog(alloc, catalog)?;
    let Some(number) = find_table(catalog.tables.as_slice(), word) else {
        return Err(Failure::Input(InputFault::Table(word)));
    };
    let carriers = carriers_of(alloc, catalog.publications.as_slice(), number)?;
    let carried = CatalogTable {
        number,
        table: &catalog.tables[number],
        carriers: carriers.as_slice(),
    };
    write_rows(alloc, carried, wanted, rows, writer)
}
