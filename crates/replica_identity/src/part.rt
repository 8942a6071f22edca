//! What is recorded of an old row.

ghost use Rattle.std.specs.Prelude.{◌≡◌, IfOk, Some, if◌then◌else◌};
ghost use Rattle.std.specs.Option.{option_map};
ghost use Rattle.filter_tree.specs.Datum.{Missing};
ghost use Rattle.filter_tree.specs.Values.{datum_view};
ghost use Rattle.table_changes.specs.Columns.{blanked_from};
ghost use Rattle.table_changes.specs.Records.{Key};
ghost use Rattle.replica_identity.specs.ChangeView.{part_view};
ghost use Rattle.replica_identity.specs.Parts as spec;

use crate::change::OldPart;
use crate::identity::index_columns;
use crate::shared_row::SharedRow;
use filter_tree::{Identity, Row, Table, Value, copy_value};
use std::alloc::{AllocError, Global};

/// Whether both rows have the same value in the column; past a row's end it has null.
fn agree_at(one: &Row, other: &Row, column: usize) -> bool
    ensures { result ≡ spec.agree_at one.now other.now column }
{
    match (one.get(column), other.get(column)) {
        (Some(value), Some(other_value)) => value == other_value,
        (Some(value), None) => matches!(value, Value::Null),
        (None, Some(other_value)) => matches!(other_value, Value::Null),
        (None, None) => true,
    }
}

/// Whether both rows have the same values in these columns.
fn agree(one: &Row, other: &Row, columns: &[usize]) -> bool
    ensures { result ≡ spec.agree_in one.now other.now columns.now }
{
    for column in columns {
        if !agree_at(one, other, *column) {
            return false;
        }
    }
    true
}

/// A copy of the value, or null.
fn recorded(alloc: Global, is_recorded: bool, value: &Value) -> Result<Value, AllocError>
    ensures { IfOk result (λ copy. datum_view copy ≡ (if is_recorded then datum_view value.now else Missing)) }
{
    if is_recorded {
        Ok(copy_value(&alloc, value)?)
    } else {
        Ok(Value::Null)
    }
}

/// The row with nulls outside these columns.
fn blanked(alloc: Global, columns: &[usize], row: &Row) -> Result<Row, AllocError>
    ensures { IfOk result (λ blanked. blanked ≡ blanked_from columns.now 0 row.now) }
{
    let values = row.values();
    let mut kept = Vec::with_capacity(alloc, values.len())?;
    for (column, value) in values.iter().enumerate() {
        kept.push(recorded(alloc, columns.contains(&column), value)?)?;
    }
    Ok(Row::from_values(kept))
}

/// The row with nulls outside these columns, as a part.
fn blanked_part(alloc: Global, columns: &[usize], old: &Row) -> Result<OldPart, AllocError>
    ensures { IfOk result (λ part. part_view part ≡ Some (Key (blanked_from columns.now 0 old.now))) }
{
    let blanked = blanked(alloc, columns, old)?;
    Ok(OldPart::Key(SharedRow::new(alloc, blanked)?))
}

/// What is recorded of the old row, if these columns identify rows.
#[tactic(auto, using(crate::proofs::PartLemmas::none_of_kept, crate::proofs::PartLemmas::key_of_changed))]
fn key_part(
    alloc: Global,
    columns: &[usize],
    old: &Row,
    new: Option<&Row>,
) -> Result<OldPart, AllocError>
    ensures { IfOk result
        (λ part. part_view part ≡ spec.key_part columns.now old.now (option_map (λ row. row.now) new.entry)) }
{
    match new {
        None => Ok(blanked_part(alloc, columns, old)?),
        Some(new) => {
            if agree(old, new, columns) {
                Ok(OldPart::None)
            } else {
                Ok(blanked_part(alloc, columns, old)?)
            }
        }
    }
}

/// What is recorded of an old row that goes, or that a new one replaces. For `Full` it is the whole row, for `Nothing`
/// nothing. For the primary key or a unique index it is the row with nulls outside its columns, if there is no new row
/// or one of these columns changes; otherwise nothing. The whole row is shared, and not copied. The only errors are out
/// of memory, and that the row is shared too often.
///
/// PostgreSQL 15, SQL Commands, ALTER TABLE (REPLICA IDENTITY).
#[tactic(auto, using(crate::proofs::Rules::parts_by_identity))]
pub fn old_part(
    alloc: Global,
    table: &Table,
    old: &SharedRow,
    new: Option<&Row>,
) -> Result<OldPart, AllocError>
    ensures { IfOk result
        (λ part. part_view part ≡ spec.part_in table.now old.now (option_map (λ row. row.now) new.entry)) }
{
    match table.identity {
        Identity::Default => key_part(alloc, table.key.as_slice(), old.row(), new),
        Identity::Index(number) => key_part(alloc, index_columns(table, number), old.row(), new),
        Identity::Full => Ok(OldPart::Full(old.share()?)),
        Identity::Nothing => Ok(OldPart::None),
    }
}
