//! A subscriber's copy of a table.

ghost use Rattle.std.specs.Prelude.{◌≡◌, true, List, length, map, IfOk};
ghost use Rattle.filter_tree.specs.Datum.{Datum};
ghost use Rattle.table_changes.specs.Columns.{values_at};

use crate::fault::SubFault;
use crate::reading::row_of;
use crate::shape::TableShape;
use filter_tree::{Row, copy_row};
use pgoutput_msgs::{OldTuple, Tuple};
use std::alloc::{AllocError, Global};
use table_changes::values_at;
use tables_log::Staged;

/// A subscriber's copy of a table: what its Relation says, whether that came on this connection, and the rows, which
/// are found by their values in the columns of the replica identity. The changes of a transaction are staged in them.
#[derive(Drop)]
pub(crate) struct TableCopy {
    pub(crate) shape: TableShape,
    pub(crate) is_known: bool,
    pub(crate) rows: Staged<Row>,
}

/// Copies of the rows. The only error is out of memory.
fn copies(alloc: Global, rows: &[&Row]) -> Result<Vec<Row>, AllocError>
    ensures { IfOk result (λ copies. copies.items ≡ map (λ row. row.now) rows.now) }
{
    let mut copies = Vec::with_capacity(alloc, rows.len())?;
    for row in rows {
        copies.push(copy_row(alloc, row)?)?;
    }
    Ok(copies)
}

/// Whether these are the numbers of all columns, in their order, of rows of this width.
#[tactic(auto, using(crate::proofs::WholeLemmas::completing))]
fn are_all(columns: &[usize], width: usize) -> bool
    ensures { result ≡ true → (row : List Datum) → length row ≡ width → values_at columns.now row ≡ row }
{
    if columns.len() != width {
        return false;
    }
    for (number, column) in columns.iter().enumerate() {
        if *column != number {
            return false;
        }
    }
    true
}

impl TableCopy {
    ghost use Rattle.std.specs.Prelude.{◌≡◌, List, None, Ok, true, IfOk, OnOk};
    ghost use Rattle.filter_tree.specs.Datum.{Datum};
    ghost use Rattle.filter_tree.specs.Memory.{Answers};
    ghost use Rattle.table_changes.specs.Columns.{values_at};
    ghost use Rattle.tables_log.specs.Listing.{ListsFound};
    ghost use Rattle.tables_log.specs.Places.{IsInOrder};
    ghost use Rattle.tables_log.specs.Staging.{kept, kept_values, seen};
    ghost use Rattle.test_subscriber.specs.Hearing.{without_rows};
    ghost use Rattle.test_subscriber.specs.RowChanges.{put_new_row, inserted, read_in, key_in, gone_of, replaced, updated, deleted};
    ghost use Rattle.test_subscriber.specs.Copies.{sub_fault, ChangesCopy, StaysCopy, SettlesCopy, ForgetsCopy};

    /// The copy of a table without rows, whose Relation came.
    pub(crate) fn new(alloc: Global, shape: TableShape) -> TableCopy
        ensures shape { result.shape ≡ shape }
        ensures known { result.is_known ≡ true }
        ensures kept { (key : List Datum) → kept result.rows key ≡ None }
        ensures seen { (key : List Datum) → seen result.rows key ≡ None }
    {
        TableCopy {
            shape,
            is_known: true,
            rows: Staged::new(alloc),
        }
    }

    /// Copies of the rows that are kept, in the order of rows. The only error is out of memory.
    pub(crate) fn kept_rows(&self, alloc: Global) -> Result<Vec<Row>, AllocError>
        ensures shows { IfOk result (λ rows. IsInOrder (kept_values self.now.rows) rows.items) }
        ensures found { OnOk result (ListsFound (kept self.now.rows) (kept_values self.now.rows)) }
    {
        let kept = self.rows.values()?;
        let mut rows = copies(alloc, &kept)?;
        rows.sort_unstable();
        Ok(rows)
    }

    /// The row of a tuple.
    fn read(&self, alloc: Global, tuple: Tuple) -> Result<Row, SubFault>
        ensures { Answers (λ row. row) sub_fault (read_in self.now.shape tuple) result }
    {
        match row_of(alloc, self.shape.kinds.as_slice(), tuple.into_cells())? {
            None => Err(SubFault::BadValue),
            Some(row) => Ok(row),
        }
    }

    /// The row's values in the columns of the replica identity. The only error is out of memory.
    fn key_of(&self, alloc: Global, row: &Row) -> Result<Row, AllocError>
        ensures { IfOk result (λ key. key ≡ values_at self.now.shape.key row.now) }
    {
        Ok(values_at(alloc, self.shape.key.as_slice(), row)?)
    }

    /// The row's values in the columns of the replica identity, without a copy if these are all columns. The only error
    /// is out of memory.
    fn into_key(&self, alloc: Global, row: Row) -> Result<Row, AllocError>
        ensures { IfOk result (λ key. key ≡ values_at self.now.shape.key row) }
    {
        if are_all(self.shape.key.as_slice(), row.len()) {
            return Ok(row);
        }
        self.key_of(alloc, &row)
    }

    /// Stages a row under its key, if there is none.
    fn place(&mut self, key: Row, row: Row) -> Result<(), SubFault>
        ensures { ChangesCopy (λ shape found. put_new_row found key row) self.old result self.new }
    {
        if self.rows.put(key, row)? {
            return Err(SubFault::DuplicateKey);
        }
        Ok(())
    }

    /// Stages a new row.
    pub(crate) fn insert(&mut self, alloc: Global, new: Tuple) -> Result<(), SubFault>
        ensures { ChangesCopy (λ shape found. inserted shape found new) self.old result self.new }
    {
        let row = self.read(alloc, new)?;
        let key = self.key_of(alloc, &row)?;
        self.place(key, row)?;
        Ok(())
    }

    /// The key of the row that an update or a delete is about, by what is sent of the old row.
    fn key_in(&self, alloc: Global, old: OldTuple) -> Result<Row, SubFault>
        ensures { Answers (λ key. key) sub_fault (key_in self.now.shape old) result }
    {
        let tuple = match old {
            OldTuple::Key(tuple) | OldTuple::Full(tuple) => tuple,
        };
        let part = self.read(alloc, tuple)?;
        Ok(self.into_key(alloc, part)?)
    }

    /// The key of the row that this one replaces: by what is sent of the old row, or by the new row if nothing is sent.
    fn gone_key(&self, alloc: Global, old: Option<OldTuple>, row: &Row) -> Result<Row, SubFault>
        ensures { Answers (λ key. key) sub_fault (gone_of self.now.shape old row.now) result }
    {
        match old {
            None => Ok(self.key_of(alloc, row)?),
            Some(old) => self.key_in(alloc, old),
        }
    }

    /// Stages the row in place of the one of this key, if there is one.
    #[tactic(auto, using(crate::proofs::TakenLemmas::nothing_taken))]
    fn replace(&mut self, gone: Row, key: Row, row: Row) -> Result<(), SubFault>
        ensures { ChangesCopy (λ shape found. replaced found gone key row) self.old result self.new }
    {
        if !self.rows.take(gone)? {
            return Ok(());
        }
        self.place(key, row)?;
        Ok(())
    }

    /// Stages a row in place of an old one, which may be missing.
    pub(crate) fn update(
        &mut self,
        alloc: Global,
        old: Option<OldTuple>,
        new: Tuple,
    ) -> Result<(), SubFault>
        ensures { ChangesCopy (λ shape found. updated shape found old new) self.old result self.new }
    {
        let row = self.read(alloc, new)?;
        let gone = self.gone_key(alloc, old, &row)?;
        let key = self.key_of(alloc, &row)?;
        self.replace(gone, key, row)?;
        Ok(())
    }

    /// Stages that there is no row of this key.
    pub(crate) fn delete(&mut self, alloc: Global, old: OldTuple) -> Result<(), SubFault>
        ensures { ChangesCopy (λ shape found. deleted shape found old) self.old result self.new }
    {
        let key = self.key_in(alloc, old)?;
        let _was = self.rows.take(key)?;
        Ok(())
    }

    /// Stages that there are no rows.
    pub(crate) fn empty(&mut self)
        ensures { ChangesCopy without_rows self.old (Ok tt) self.new }
    {
        self.rows.empty();
    }

    /// Keeps what is staged.
    pub(crate) fn settle(&mut self)
        ensures { SettlesCopy self.old self.new }
    {
        self.rows.settle();
    }

    /// Discards what is staged, and forgets that the Relation came.
    pub(crate) fn forget(&mut self)
        ensures { ForgetsCopy self.old self.new }
    {
        self.rows.discard();
        self.is_known = false;
    }
}
