//! How contracts name a publisher.

ghost use Rattle.std.specs.Prelude.{ℕ};
ghost use Rattle.shard_checker.specs.CheckedView.{CheckedOf};
ghost use Rattle.publisher_desk.specs.Nothing.{nothing_checked};

use std::marker::Brand;
use std::sync::ledger::Ledger;

/// Names a publisher in contracts: the ledger that counts its commits, the checked catalog that it was made from, how
/// many commits its log takes, the history that ties receipts and readings to the log, and that of its slots.
pub trait Publishing: Ledger {
    ghost use Rattle.atomic_table.specs.Seated.{TableId};

    ghost checked: { CheckedOf };

    ghost limit: { ℕ };

    ghost history: { TableId };

    ghost slots: { TableId };
}

impl Publishing for Brand {
    ghost use Rattle.publisher_desk.specs.Sights.{no_table};

    ghost checked = { nothing_checked };

    ghost limit = { 0 };

    ghost history = { no_table };

    ghost slots = { no_table };
}
