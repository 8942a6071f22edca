//! What is done to the copies of all tables, one after another.

ghost use Rattle.std.specs.Prelude.{ℕ};
ghost use Rattle.test_subscriber.specs.Copies.{OfEach, SettlesCopy, ForgetsCopy};
ghost use Rattle.test_subscriber.specs.Views.{copy_of};

use crate::table_copy::TableCopy;

/// Keeps what is staged.
pub(crate) fn settle(copies: &mut [TableCopy])
    ensures { (oid : ℕ) → OfEach SettlesCopy (copy_of copies.old oid) (copy_of copies.new oid) }
{
    for copy in copies.iter_mut() {
        copy.settle();
    }
}

/// Discards what is staged, and forgets which Relations came.
pub(crate) fn forget(copies: &mut [TableCopy])
    ensures { (oid : ℕ) → OfEach ForgetsCopy (copy_of copies.old oid) (copy_of copies.new oid) }
{
    for copy in copies.iter_mut() {
        copy.forget();
    }
}
