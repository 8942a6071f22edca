//! Rows that are read for a table, and why a row has no answer.

ghost use Rattle.std.specs.Prelude.{IfOk};
ghost use Rattle.filter_tree.specs.Valid.{IsValid};
ghost use Rattle.commands.specs.Eval.BadRows as spec;

use filter_tree::{Row, RowFault, Table, valid};
use pub_reader::{ErrorKind, ReadError};
use sql_reader::read_row_in;
use std::alloc::Global;
use std::fmt;

/// Why a row has no answer. Its text is the line that is printed.
#[derive(Debug, Drop)]
pub enum BadRow {
    /// It is not read.
    Unreadable(ReadError),
    /// It does not fit its table.
    Invalid(RowFault),
}

impl BadRow {
    ghost use Rattle.std.specs.Prelude.{◌≡◌};
    ghost use Rattle.commands.specs.Eval.BadRows.{is_out_of_memory};

    /// Whether memory ran out, which says nothing of the row.
    pub fn is_out_of_memory(&self) -> bool
        ensures { result ≡ is_out_of_memory self.now }
    {
        match self {
            BadRow::Unreadable(error) => matches!(error.kind, ErrorKind::OutOfMemory),
            BadRow::Invalid(_) => false,
        }
    }
}

impl fmt::Display for BadRow {
    ghost use Rattle.std.specs.Prelude.{Some};
    ghost use Rattle.commands.specs.Eval.BadRows.{bad_line};

    ghost output = { λ bad. Some (bad_line bad) };

    fn fmt<W: fmt::Write>(&self, f: &mut fmt::Formatter<W>) -> fmt::Result {
        match self {
            BadRow::Unreadable(error) => {
                let place = error.place;
                let name = error.kind.name();
                write!(f, "unreadable {place} {name}")
            }
            BadRow::Invalid(RowFault::Width) => write!(f, "invalid Width"),
            BadRow::Invalid(RowFault::NullInNotNull(column)) => write!(
                f,
                "invalid NullInNotNull {column}"
            ),
            BadRow::Invalid(RowFault::WrongType(column)) => write!(f, "invalid WrongType {column}"),
            BadRow::Invalid(RowFault::OutOfRange(column)) => write!(
                f,
                "invalid OutOfRange {column}"
            ),
            BadRow::Invalid(RowFault::NulInText(column)) => write!(f, "invalid NulInText {column}"),
            BadRow::Invalid(RowFault::TextTooLong(column)) => write!(
                f,
                "invalid TextTooLong {column}"
            ),
        }
    }
}

/// Reads a row, in the memory of one that is done with, and holds it against its table.
pub fn table_row(alloc: Global, used: Row, table: &Table, text: &str) -> Result<Row, BadRow>
    ensures reading { spec.IsReading table.now.columns text.now result }
    ensures fits { IfOk result (λ row. IsValid table.now.columns row) }
{
    let row = read_row_in(alloc, used, text).map_err(BadRow::Unreadable)?;
    valid(table, &row).map_err(BadRow::Invalid)?;
    Ok(row)
}
