//! Rows that can be sent.

ghost use Rattle.std.specs.Prelude.{◌≡◌, IfOk};
ghost use Rattle.tables_log.specs.Sendable.{IsSendableRow};

use filter_tree::Row;
use replica_identity::SharedRow;
use std::alloc::AllocError;
use std::marker::Model;

/// A row of a table, which can be sent, and which the table's maps and the log share. Contracts see the list of its
/// values.
#[derive(Drop)]
pub(crate) struct TableRow {
    shared: SharedRow,
}

impl Model for TableRow {
    ghost use Rattle.std.specs.Prelude.{List};
    ghost use Rattle.filter_tree.specs.Datum.{Datum};
    ghost use Rattle.tables_log.specs.Sendable.{IsSendableRow};

    ghost Value = { List Datum };

    ghost view = { λ row. row.shared };

    ghost invariant = { λ row. IsSendableRow row.shared };
}

impl TableRow {
    /// The row that is shared.
    pub(crate) fn new(shared: SharedRow) -> TableRow
        requires { IsSendableRow shared }
        ensures { result ≡ shared }
    {
        TableRow { shared }
    }

    /// Another reference to the row. The only error is that it is shared too often.
    pub(crate) fn share(&self) -> Result<TableRow, AllocError>
        ensures { IfOk result (λ row. row ≡ self.now) }
    {
        let shared = self.shared.share()?;
        Ok(TableRow { shared })
    }

    /// The row as the log has it.
    pub(crate) fn shared(&self) -> &SharedRow
        ensures shows { result.now ≡ self.now }
        ensures sendable { IsSendableRow self.now }
    {
        &self.shared
    }

    /// The row for the log, which shares it with the maps.
    pub(crate) fn into_shared(self) -> SharedRow
        ensures { result ≡ self }
    {
        let TableRow { shared } = self;
        shared
    }

    /// The row itself.
    pub(crate) fn row(&self) -> &Row
        ensures shows { result.now ≡ self.now }
        ensures sendable { IsSendableRow self.now }
    {
        self.shared.row()
    }
}
