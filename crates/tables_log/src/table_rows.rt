//! The rows of a table, each of which is found by each of the table's unique keys.

ghost use Rattle.std.specs.Prelude.{◌≡◌, map, IfOk};

use crate::key::Key;
use crate::keys::unique_key;
use crate::staged::Staged;
use crate::table_row::TableRow;
use filter_tree::{Row, Table, copy_row};
use std::alloc::{AllocError, Global};

/// The rows of a table: a map for the primary key, and then one for each unique index, in which changes are staged.
///
/// PostgreSQL 15, 5.4.4 Primary Keys, 11.6 Unique Indexes.
#[derive(Drop)]
pub(crate) struct TableRows {
    maps: Vec<Staged<TableRow>>,
}

/// Copies of the rows. The only error is out of memory.
fn copies(alloc: Global, shared: &[&TableRow]) -> Result<Vec<Row>, AllocError>
    ensures { IfOk result (λ rows. rows.items ≡ map (λ row. row.now) shared.now) }
{
    let mut rows = Vec::with_capacity(alloc, shared.len())?;
    for row in shared {
        rows.push(copy_row(alloc, row.row())?)?;
    }
    Ok(rows)
}

impl TableRows {
    ghost use Rattle.std.specs.Prelude.{◌≡◌, ℕ, ◌+◌, ◌<◌, true, List, Some, None, length, slice_get, is_some, IfOk, OnOk};
    ghost use Rattle.std.specs.Option.{option_map};
    ghost use Rattle.filter_tree.specs.Datum.{Datum};
    ghost use Rattle.replica_identity.specs.Setting.{keys_in};
    ghost use Rattle.table_changes.specs.Keys.{value_in};
    ghost use Rattle.table_changes.specs.Tables.{found_at};
    ghost use Rattle.tables_log.specs.KeyView.{key_view};
    ghost use Rattle.tables_log.specs.Listing.{ListsFound};
    ghost use Rattle.tables_log.specs.Places.{kept_at, seen_at, are_free, values_in, first_values, IsInOrder};
    ghost use Rattle.tables_log.specs.Places.{KeepsRows, PutsOne, PutsRow, EmptiesRows, SettlesRows, DiscardsRows};

    /// No rows of a table with this number of unique indexes. The only error is out of memory.
    pub(crate) fn new(alloc: Global, indexes: usize) -> Result<TableRows, AllocError>
        ensures width { IfOk result (λ rows. length rows.maps.items ≡ indexes + 1) }
        ensures kept { IfOk result (λ rows. (number : ℕ)
            (value : List Datum) → kept_at rows.maps.items number value ≡ None) }
        ensures seen { IfOk result (λ rows. (number : ℕ)
            (value : List Datum) → seen_at rows.maps.items number value ≡ None) }
    {
        let mut maps = Vec::new(alloc);
        maps.push(Staged::new(alloc))?;
        for _ in 0..indexes {
            maps.push(Staged::new(alloc))?;
        }
        Ok(TableRows { maps })
    }

    /// The row that is seen by this value of the unique key with this number.
    pub(crate) fn find(&self, number: usize, value: &Row) -> Option<&TableRow>
        ensures { option_map (λ row. row.now) result ≡ seen_at self.now.maps.items number value.now }
    {
        match self.maps.get(number) {
            None => None,
            Some(map) => map.find(value),
        }
    }

    /// The row that is kept by this value of the unique key with this number.
    pub(crate) fn get(&self, number: usize, value: &Row) -> Option<&TableRow>
        ensures { option_map (λ row. row.now) result ≡ kept_at self.now.maps.items number value.now }
    {
        match self.maps.get(number) {
            None => None,
            Some(map) => map.get(value),
        }
    }

    /// Copies of the rows that are kept, in the order of rows. The only error is out of memory.
    pub(crate) fn rows(&self, alloc: Global) -> Result<Vec<Row>, AllocError>
        ensures shows { IfOk result (λ rows. IsInOrder (first_values self.now.maps.items) rows.items) }
        ensures found { OnOk result (ListsFound (kept_at self.now.maps.items 0) (first_values self.now.maps.items)) }
    {
        let Some(map) = self.maps.first() else {
            return Ok(Vec::new(alloc));
        };
        let shared = map.values()?;
        let mut rows = copies(alloc, &shared)?;
        rows.sort_unstable();
        Ok(rows)
    }

    /// Stages the row in the map with this number under this key, and returns whether a row was seen there. The only
    /// error is out of memory.
    #[tactic(auto, using(crate::proofs::Rules::putting))]
    fn put_at(&mut self, number: usize, key: Key, row: &TableRow) -> Result<bool, AllocError>
        requires { number < length self.old.maps.items }
        ensures keeps { KeepsRows self.old self.new }
        ensures was { IfOk result (λ was. was ≡ is_some (seen_at self.old.maps.items number (key_view key))) }
        ensures puts { OnOk result (PutsOne self.old self.new number (Some (key_view key)) (Some row.now)) }
    {
        let shared = row.share()?;
        let map = &mut self.maps[number];
        let was = map.put_under(key, shared)?;
        Ok(was)
    }

    /// Stages that there is no row in the map with this number under this key. The only error is out of memory.
    #[tactic(auto, using(crate::proofs::PlaceLemmas::puts_there, crate::proofs::PlaceLemmas::keeps_there))]
    fn take_at(&mut self, number: usize, key: Key) -> Result<(), AllocError>
        requires { number < length self.old.maps.items }
        ensures keeps { KeepsRows self.old self.new }
        ensures puts { OnOk result (PutsOne self.old self.new number (Some (key_view key)) None) }
    {
        let map = &mut self.maps[number];
        let _was = map.take_under(key)?;
        Ok(())
    }

    /// Stages the row in the map with this number, if it has a value there, and returns whether a row was seen by that
    /// value. The only error is out of memory.
    #[tactic(auto, using(crate::proofs::Rules::placing))]
    fn place_one(
        &mut self,
        alloc: Global,
        table: &Table,
        number: usize,
        row: &TableRow,
    ) -> Result<bool, AllocError>
        requires { number < length self.old.maps.items }
        ensures keeps { KeepsRows self.old self.new }
        ensures was { IfOk result (λ was. was ≡ is_some (found_at (seen_at self.old.maps.items number)
            (value_in (slice_get (keys_in (Some table.now)) number) row.now))) }
        ensures puts { OnOk result (PutsOne self.old self.new number
            (value_in (slice_get (keys_in (Some table.now)) number) row.now) (Some row.now)) }
    {
        match unique_key(alloc, table, number, row.row())? {
            None => Ok(false),
            Some(key) => {
                let was = self.put_at(number, key, row)?;
                Ok(was)
            }
        }
    }

    /// Stages that the row is not in the map with this number. The only error is out of memory.
    #[tactic(auto, using(crate::proofs::Rules::taking))]
    fn take_one(
        &mut self,
        alloc: Global,
        table: &Table,
        number: usize,
        row: &TableRow,
    ) -> Result<(), AllocError>
        requires { number < length self.old.maps.items }
        ensures keeps { KeepsRows self.old self.new }
        ensures puts { OnOk result (PutsOne self.old self.new number
            (value_in (slice_get (keys_in (Some table.now)) number) row.now) None) }
    {
        match unique_key(alloc, table, number, row.row())? {
            None => Ok(()),
            Some(key) => {
                self.take_at(number, key)?;
                Ok(())
            }
        }
    }

    /// Stages the row in each map where it has a value, up to the first where a row is seen by that value, and returns
    /// whether there is no such map. The only error is out of memory.
    pub(crate) fn place(
        &mut self,
        alloc: Global,
        table: &Table,
        row: &TableRow,
    ) -> Result<bool, AllocError>
        requires { length self.old.maps.items ≡ length (keys_in (Some table.now)) }
        ensures keeps { KeepsRows self.old self.new }
        ensures free { IfOk result (λ free. free ≡ are_free (seen_at self.old.maps.items) 0
            (values_in (keys_in (Some table.now)) row.now)) }
        ensures puts { IfOk result (λ free. free ≡ true
            → PutsRow self.old self.new (values_in (keys_in (Some table.now)) row.now) (Some row.now)) }
    {
        for number in 0..self.maps.len() {
            if self.place_one(alloc, table, number, row)? {
                return Ok(false);
            }
        }
        Ok(true)
    }

    /// Stages that the row is in no map. The only error is out of memory.
    pub(crate) fn remove(
        &mut self,
        alloc: Global,
        table: &Table,
        row: &TableRow,
    ) -> Result<(), AllocError>
        requires { length self.old.maps.items ≡ length (keys_in (Some table.now)) }
        ensures keeps { KeepsRows self.old self.new }
        ensures puts { OnOk result (PutsRow self.old self.new
            (values_in (keys_in (Some table.now)) row.now) None) }
    {
        for number in 0..self.maps.len() {
            self.take_one(alloc, table, number, row)?;
        }
        Ok(())
    }

    /// Stages that there is no row.
    pub(crate) fn empty(&mut self)
        ensures keeps { KeepsRows self.old self.new }
        ensures empties { EmptiesRows self.new }
    {
        for map in self.maps.iter_mut() {
            map.empty();
        }
    }

    /// Keeps what is seen.
    pub(crate) fn settle(&mut self)
        ensures { SettlesRows self.old self.new }
    {
        for map in self.maps.iter_mut() {
            map.settle();
        }
    }

    /// Forgets what is staged.
    pub(crate) fn discard(&mut self)
        ensures { DiscardsRows self.old self.new }
    {
        for map in self.maps.iter_mut() {
            map.discard();
        }
    }
}
