//! What a publisher is created from.

ghost use Rattle.std.specs.Prelude.{◌≡◌, IfOk};

use crate::receipt::Receipt;
use crate::sight::{HistoryView, Keeps};
use crate::slot_event::SlotEvent;
use crate::slot_sight::{KeepsSlots, SlotView};
use atomic_table::{Seat, Table};
use std::alloc::{AllocError, Global};
use std::marker::Model;
use std::sync::ledger::Blank;

/// How many seats a publisher has.
pub(crate) const SEATS: u64 = 1_000;

/// The ledger and the histories of a publisher that is not named yet: the ledger counts its commits, one history ties
/// receipts and readings to its log, and the other tells which streams have had its slots, and what they confirmed.
/// Contracts see their names, and the number of the ledger's parts, 1,000.
#[derive(Drop)]
pub struct Opening {
    pub(crate) blank: Blank,
    pub(crate) table: Table<Receipt, HistoryView, (), Keeps, Global>,
    pub(crate) keeper: Seat<Receipt, HistoryView>,
    pub(crate) slot_table: Table<SlotEvent, SlotView, (), KeepsSlots, Global>,
    pub(crate) slot_keeper: Seat<SlotEvent, SlotView>,
}

impl Model for Opening {
    ghost use Rattle.publisher_desk.specs.Naming.{AreUnnamedSlots, IsUnnamed, NamesOf};

    ghost Value = { NamesOf };

    ghost view = { λ o. record {
      name = o.blank.name;
      parts = o.blank.parts;
      history = o.keeper.table_id;
      slots = o.slot_keeper.table_id;
    } };

    ghost invariant = { λ o. IsUnnamed o.blank.parts o.table.shared.table_id o.keeper.table_id o.keeper.me
        × AreUnnamedSlots o.slot_table.shared.table_id o.slot_keeper.table_id o.slot_keeper.me };
}

impl Opening {
    /// A ledger without commits, and histories without receipts and events. The only error is out of memory.
    pub fn new(alloc: Global) -> Result<Opening, AllocError>
        ensures { IfOk result (λ opening. opening.parts ≡ 1000) }
    {
        let (table, keeper) = Table::of_words(alloc, &[0], &())?;
        let (slot_table, slot_keeper) = Table::of_words(alloc, &[0], &())?;
        Ok(Opening {
            blank: Blank::new(SEATS),
            table,
            keeper,
            slot_table,
            slot_keeper,
        })
    }
}
