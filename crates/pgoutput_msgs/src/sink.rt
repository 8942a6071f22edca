//! What takes the messages that report changes to a subscriber.

use filter_tree::{Row, Table, TableNumber};
use replica_identity::OldPart;
use std::alloc::AllocError;

/// What takes the messages that report changes to a subscriber, one after the other. It gets the rows themselves, so
/// that it may spell a message without a copy of them. `takes_one` states what one message leaves.
///
/// PostgreSQL 15, 55.5.3. Logical Replication Protocol Message Flow.
pub trait MessageSink {
    ghost use Rattle.std.specs.Prelude.{Some, OnOk};
    ghost use Rattle.pub_catalog.specs.CatalogLimits.{IsLimitedTable};
    ghost use Rattle.replica_identity.specs.ChangeView.{part_view};
    ghost use Rattle.table_changes.specs.Records as r;
    ghost use Rattle.tables_log.specs.Sendable.{IsSendableChange, IsTableNumber};
    ghost use Rattle.pgoutput_msgs.specs.Sinks.{TakesEach};
    ghost use Rattle.pgoutput_msgs.specs.Telling.{message_of, a_relation};
    ghost use Rattle.pgoutput_msgs.specs.declared.message.Msg.{Msg};

    ghost takes_one: { Self → Self → Msg → Type 0 };

    /// Takes the Relation of the table with this number. The only error is out of memory.
    fn relation(&mut self, number: TableNumber, table: &Table) -> Result<(), AllocError>
        requires number { IsTableNumber number }
        requires limited { IsLimitedTable table.now }
        ensures { OnOk result (TakesEach takes_one self.old self.new (a_relation number (Some table.now))) };

    /// Takes the Insert of a row of the table with this number. The only error is out of memory.
    fn insert(&mut self, table: TableNumber, new: &Row) -> Result<(), AllocError>
        requires { IsSendableChange (r.Insert table new.now) }
        ensures { OnOk result (TakesEach takes_one self.old self.new (message_of (r.Insert table new.now))) };

    /// Takes the Update of a row of the table with this number. The only error is out of memory.
    fn update(&mut self, table: TableNumber, old: &OldPart, new: &Row) -> Result<(), AllocError>
        requires { IsSendableChange (r.Update table (part_view old.now) new.now) }
        ensures { OnOk result
            (TakesEach takes_one self.old self.new (message_of (r.Update table (part_view old.now) new.now))) };

    /// Takes the Delete of a row of the table with this number; none if nothing is recorded of the row. The only error
    /// is out of memory.
    fn delete(&mut self, table: TableNumber, old: &OldPart) -> Result<(), AllocError>
        requires { IsSendableChange (r.Delete table (part_view old.now)) }
        ensures { OnOk result (TakesEach takes_one self.old self.new
            (message_of (r.Delete table (part_view old.now)))) };

    /// Takes the Truncate of the tables with these numbers. The only error is out of memory.
    fn truncate(&mut self, tables: &[TableNumber]) -> Result<(), AllocError>
        requires { IsSendableChange (r.Truncate tables.now) }
        ensures { OnOk result (TakesEach takes_one self.old self.new (message_of (r.Truncate tables.now))) };
}
