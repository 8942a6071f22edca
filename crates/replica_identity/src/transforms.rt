//! What a subscriber gets of a change.

ghost use Rattle.std.specs.Prelude.{◌≡◌};
ghost use Rattle.std.specs.List.{list_any};
ghost use Rattle.std.specs.Option.{option_map};
ghost use Rattle.table_changes.specs.Outs as spec;
ghost use Rattle.replica_identity.specs.ChangeView.{part_view, change_view, out_view};
ghost use Rattle.replica_identity.specs.Plans.{plan_view};
ghost use Rattle.replica_identity.specs.Transforms.{takes_any, out_for};

use crate::change::{Change, OldPart};
use crate::share::Share;
use crate::shares::Plan;
use filter_tree::{Row, TableNumber};
use pub_catalog::SubscriberNumber;

/// What a subscriber gets of a change, with the change's own rows and tables. The table is the change's. `Truncate` has
/// all tables of the change, including those from which the subscriber gets nothing.
///
/// PostgreSQL 15, "Logical Replication", 31.3.3 UPDATE Transformations.
#[derive(Clone, Copy, Debug, PartialEq, Eq)]
pub enum Out<'a> {
    Insert(&'a Row),
    Update(&'a OldPart, &'a Row),
    Delete(&'a OldPart),
    Truncate(&'a [TableNumber]),
}

/// Whether a subscriber gets anything from a table, by their numbers from 0 in the catalog. It gets nothing for tables
/// and subscribers that the catalog does not have.
///
/// PostgreSQL 15, "Logical Replication", 31.2 Subscription.
pub fn carries(plan: &Plan, subscriber: SubscriberNumber, table: TableNumber) -> bool
    ensures { result ≡ takes_any (plan_view plan.now) subscriber table }
{
    !matches!(plan.share(subscriber, table), Share::Nothing)
}

/// Whether it gets anything from one of these tables.
fn carries_any(plan: &Plan, subscriber: SubscriberNumber, tables: &[TableNumber]) -> bool
    ensures { result ≡ list_any (takes_any (plan_view plan.now) subscriber) tables.now }
{
    for table in tables {
        if carries(plan, subscriber, *table) {
            return true;
        }
    }
    false
}

/// The old row counts as passing if this row passes: its recorded part, or the new row if nothing is recorded.
fn asked<'a>(old: &'a OldPart, new: &'a Row) -> &'a Row
    ensures { result.now ≡ spec.asked (part_view old.now) new.now }
{
    match old {
        OldPart::None => new,
        OldPart::Key(part) => part.row(),
        OldPart::Full(row) => row.row(),
    }
}

/// What a subscriber gets of a change, by its share of the change's table: an INSERT if the new row passes, a DELETE if
/// the recorded part of the old row does. Of an UPDATE it gets an UPDATE if both rows pass, an INSERT if only the new
/// row passes, a DELETE if only the old row does, and nothing if neither does; if nothing is recorded of the old row,
/// it counts as passing if the new row does. The subscriber gets a TRUNCATE, whatever the filters, if it gets anything
/// from one of the tables. Nothing is copied.
///
/// PostgreSQL 15, "Logical Replication", 31.3.1 Row Filter Rules and 31.3.3 UPDATE Transformations.
pub fn transform<'a>(
    plan: &Plan,
    subscriber: SubscriberNumber,
    change: &'a Change,
) -> Option<Out<'a>>
    ensures { option_map out_view result ≡ out_for (plan_view plan.now) subscriber (change_view change.now) }
{
    match change {
        Change::Insert { table, new } => {
            let new = new.row();
            let passes = plan.share(subscriber, *table).takes(new);
            if passes { Some(Out::Insert(new)) } else { None }
        }
        Change::Update { table, old, new } => {
            let new = new.row();
            let share = plan.share(subscriber, *table);
            match (share.takes(asked(old, new)), share.takes(new)) {
                (false, false) => None,
                (false, true) => Some(Out::Insert(new)),
                (true, false) => Some(Out::Delete(old)),
                (true, true) => Some(Out::Update(old, new)),
            }
        }
        Change::Delete { table, old } => match old {
            OldPart::None => None,
            OldPart::Key(row) | OldPart::Full(row) => {
                let passes = plan.share(subscriber, *table).takes(row.row());
                if passes { Some(Out::Delete(old)) } else { None }
            }
        },
        Change::Truncate { tables } => {
            let is_carried = carries_any(plan, subscriber, tables.as_slice());
            if is_carried {
                Some(Out::Truncate(tables.as_slice()))
            } else {
                None
            }
        }
    }
}
