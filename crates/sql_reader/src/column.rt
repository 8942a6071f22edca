//! Columns by their names.

ghost use Rattle.std.specs.Prelude.{◌≡◌, IfErr, IsSome};
ghost use Rattle.sql_reader.specs.Expressions as spec;
ghost use Rattle.sql_reader.specs.Reading.{read_fault, Answers};

use crate::error::{ErrorKind, ReadError};
use crate::name::PlacedName;
use filter_tree::{ColType, Column};

/// A column that was found: its number from 0, and its type.
#[derive(Clone, Copy)]
pub struct FoundColumn {
    pub number: usize,
    pub kind: ColType,
}

/// The first column with a name.
#[tactic(auto, unfolding(crate::specs::Expressions::find_column))]
pub fn find_column(columns: &[Column], name: &str) -> Option<FoundColumn>
    ensures { result ≡ spec.find_column name.now columns.now }
{
    for (number, column) in columns.iter().enumerate() {
        if name == column.name.as_str() {
            return Some(FoundColumn {
                number,
                kind: column.kind,
            });
        }
    }
    None
}

/// The first column with a name, which must exist.
///
/// # Errors
///
/// `UnknownName` at the name, if there is no such column.
#[tactic(auto, unfolding(crate::specs::Expressions::known_column))]
pub fn known_column(columns: &[Column], name: &PlacedName) -> Result<FoundColumn, ReadError>
    ensures answers { Answers (λ column. column) (spec.known_column columns.now name.now) result }
    ensures err { IfErr result (λ error. IsSome (read_fault error)) }
{
    match find_column(columns, name.text.as_str()) {
        Some(column) => Ok(column),
        None => Err(ReadError {
            place: name.place,
            kind: ErrorKind::UnknownName,
        }),
    }
}
