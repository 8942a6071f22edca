//! Who takes a row of a sharding that was accepted.

ghost use Rattle.std.specs.Prelude.{◌≡◌, true, false, IsTrue};
ghost use Rattle.table_changes.specs.Setting.{fits};
ghost use Rattle.shard_checker.specs.CheckedView.{checked_view, setting_in};

use filter_tree::Row;
use shard_checker::Checked;

/// Whether a subscriber takes only one of two rows, as it never does for two rows of a table with the same replica
/// identity.
pub fn takes_one_alone(
    checked: &Checked,
    subscriber: usize,
    table: usize,
    one: &Row,
    other: &Row,
) -> bool
    ensures { (setting_in (checked_view checked.now)).identity table one.now
        ≡ (setting_in (checked_view checked.now)).identity table other.now
        → result ≡ false }
{
    let _catalog = checked.catalog();
    let share = checked.plan().share(subscriber, table);
    share.takes(one) != share.takes(other)
}

/// Whether two subscribers take the row. For a row that fits its table they are the same subscriber.
pub fn both_take(checked: &Checked, table: usize, row: &Row, one: usize, other: usize) -> bool
    ensures { fits (setting_in (checked_view checked.now)) table row.now ≡ true → IsTrue result → one ≡ other }
{
    let _catalog = checked.catalog();
    let plan = checked.plan();
    plan.share(one, table).takes(row) && plan.share(other, table).takes(row)
}
