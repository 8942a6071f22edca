//! Rows that tables, changes and old parts share.

ghost use Rattle.std.specs.Prelude.{◌≡◌, refl, IfOk};
ghost use Rattle.std.specs.Cmp.Rules.{comparing};
ghost use Rattle.std.specs.Ordering.{eq_by_cmp};
ghost use Rattle.std.proofs.Common.{rules};
ghost use Rattle.filter_tree.specs.Order.{row_cmp};

use filter_tree::Row;
use std::alloc::{AllocError, Global};
use std::marker::Model;
use std::sync::Arc;

/// A row with several owners, in any threads: its table, and the changes that created it and removed it. Contracts see
/// the list of its values.
#[derive(Debug, Drop)]
pub struct SharedRow {
    row: Arc<Row, Global>,
}

impl Model for SharedRow {
    ghost use Rattle.std.specs.Prelude.{List};
    ghost use Rattle.std.specs.Arc.{arc_value};
    ghost use Rattle.filter_tree.specs.Datum.{Datum};

    ghost Value = { List Datum };

    ghost view = { λ shared. arc_value shared.row };
}

impl SharedRow {
    /// The row, to be shared. The only error is out of memory.
    pub fn new(alloc: Global, row: Row) -> Result<SharedRow, AllocError>
        ensures { IfOk result (λ shared. shared ≡ row) }
    {
        let row = Arc::new(alloc, row)?;
        Ok(SharedRow { row })
    }

    /// The same row again, without a copy. The only error is that it is shared too often.
    pub fn share(&self) -> Result<SharedRow, AllocError>
        ensures { IfOk result (λ shared. shared ≡ self.now) }
    {
        let row = Arc::try_clone(&self.row)?;
        Ok(SharedRow { row })
    }

    /// The row itself.
    pub fn row(&self) -> &Row
        ensures { result.now ≡ self.now }
    {
        &*self.row
    }
}

impl PartialEq for SharedRow {
    ghost eq = { eq_by_cmp row_cmp };

    ghost laws = { Prim.search (comparing, rules) depth 9 };

    fn eq(&self, other: &SharedRow) -> bool {
        self.row().cmp(other.row()).is_eq()
    }
}

impl Eq for SharedRow {
    ghost laws = { Prim.search (comparing, rules) depth 9 };
}
