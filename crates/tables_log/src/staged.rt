//! Maps in which changes are staged: what is kept stays until they settle, which needs no memory.

ghost use Rattle.filter_tree.specs.Order.{row_cmp};
ghost use Rattle.tables_log.specs.Layers.{kept_under, shown};
ghost use Rattle.tables_log.specs.NumberKeys.{HasNoNumber};

use crate::key::{Key, only_number};
use crate::layers::Layers;
use filter_tree::{Row, copy_row};
use std::alloc::{AllocError, Global};

/// A map from rows, as keys, in which changes are staged: they are made in place, and what undoes them is noted, so
/// that what was kept stays known. Settling and discarding changes need no memory.
///
/// Keys that are one number have a map of their own, whose nodes have the numbers themselves, so that a look-up
/// accesses no other place in memory for each key that it passes.
#[derive(Drop)]
pub struct Staged<V> {
    alloc: Global,
    numbers: Layers<i64, V>,
    rows: Layers<Row, V>,
    ghost kept_apart: { HasNoNumber (kept_under row_cmp rows.base rows.made.items rows.undo.items) },
    ghost seen_apart: { HasNoNumber (shown row_cmp rows.base rows.fresh rows.emptied) },
}

#[tactic(auto, unfolding(crate::specs::Staging::kept, crate::specs::Staging::seen))]
impl<V: Drop> Staged<V> {
    ghost use Rattle.std.specs.Prelude.{◌≡◌, List, None, Some, map, is_some, IfOk, OnOk};
    ghost use Rattle.std.specs.Option.{option_map};
    ghost use Rattle.filter_tree.specs.Datum.{Datum};
    ghost use Rattle.tables_log.specs.KeyView.{key_view};
    ghost use Rattle.tables_log.specs.Listing.{ListsFound};
    ghost use Rattle.tables_log.specs.Staging.{kept, seen, kept_values, Keeps, Puts, Empties, Settles, Discards};

    /// A map without any key.
    pub fn new(alloc: Global) -> Staged<V>
        ensures kept { (key : List Datum) → kept result key ≡ None }
        ensures seen { (key : List Datum) → seen result key ≡ None }
    {
        Staged {
            alloc,
            numbers: Layers::new(alloc),
            rows: Layers::new(alloc),
        }
    }

    /// What is seen under the key.
    pub fn find(&self, key: &Row) -> Option<&V>
        ensures { option_map (λ value. value.now) result ≡ seen self.now key.now }
    {
        match only_number(key) {
            Some(number) => self.numbers.find(&number),
            None => self.rows.find(key),
        }
    }

    /// What is kept under the key.
    pub fn get(&self, key: &Row) -> Option<&V>
        ensures { option_map (λ value. value.now) result ≡ kept self.now key.now }
    {
        match only_number(key) {
            Some(number) => self.numbers.get(&number),
            None => self.rows.get(key),
        }
    }

    /// All that is kept: in the order of the keys that are one number, and then in that of the others. The only error
    /// is out of memory.
    #[tactic(auto, using(crate::proofs::ListingLemmas::lists_maps), unfolding(crate::specs::Staging::kept))]
    pub fn values(&self) -> Result<Vec<&V>, AllocError>
        ensures shows { IfOk result (λ values. map (λ value. value.now) values.items ≡ kept_values self.now) }
        ensures found { OnOk result (ListsFound (kept self.now) (kept_values self.now)) }
    {
        let listed = self.numbers.list(Vec::new(self.alloc))?;
        Ok(self.rows.list(listed)?)
    }

    /// Puts the value under the key, and returns whether something was seen there. What is kept stays. The only error
    /// is out of memory.
    pub fn put(&mut self, key: Row, value: V) -> Result<bool, AllocError>
        ensures keeps { Keeps self.old self.new }
        ensures was { IfOk result (λ was. was ≡ is_some (seen self.old key)) }
        ensures puts { OnOk result (Puts self.old self.new key (Some value)) }
    {
        match only_number(&key) {
            Some(number) => self.numbers.put(number, number, value),
            None => {
                let copy = copy_row(self.alloc, &key)?;
                self.rows.put(key, copy, value)
            }
        }
    }

    /// Puts the value under the key, as `put` does.
    pub(crate) fn put_under(&mut self, key: Key, value: V) -> Result<bool, AllocError>
        ensures keeps { Keeps self.old self.new }
        ensures was { IfOk result (λ was. was ≡ is_some (seen self.old (key_view key))) }
        ensures puts { OnOk result (Puts self.old self.new (key_view key) (Some value)) }
    {
        match key {
            Key::Number(number) => self.numbers.put(number, number, value),
            Key::Values(values) => self.put(values, value),
        }
    }

    /// Leaves nothing under the key, and returns whether something was seen there. What is kept stays. The only error
    /// is out of memory.
    pub fn take(&mut self, key: Row) -> Result<bool, AllocError>
        ensures keeps { Keeps self.old self.new }
        ensures was { IfOk result (λ was. was ≡ is_some (seen self.old key)) }
        ensures puts { OnOk result (Puts self.old self.new key None) }
    {
        match only_number(&key) {
            Some(number) => self.numbers.take(number),
            None => self.rows.take(key),
        }
    }

    /// Leaves nothing under the key, as `take` does.
    pub(crate) fn take_under(&mut self, key: Key) -> Result<bool, AllocError>
        ensures keeps { Keeps self.old self.new }
        ensures puts { OnOk result (Puts self.old self.new (key_view key) None) }
    {
        match key {
            Key::Number(number) => self.numbers.take(number),
            Key::Values(values) => self.take(values),
        }
    }

    /// Puts the value under the key, or removes the key's value. What is kept stays. The only error is out of memory.
    pub fn stage(&mut self, key: Row, value: Option<V>) -> Result<(), AllocError>
        ensures keeps { Keeps self.old self.new }
        ensures puts { OnOk result (Puts self.old self.new key value) }
    {
        let _was = match value {
            None => self.take(key)?,
            Some(value) => self.put(key, value)?,
        };
        Ok(())
    }

    /// Removes every key. What is kept stays.
    pub fn empty(&mut self)
        ensures keeps { Keeps self.old self.new }
        ensures empties { Empties self.new }
    {
        self.numbers.empty();
        self.rows.empty();
    }

    /// Keeps what is seen.
    pub fn settle(&mut self)
        ensures { Settles self.old self.new }
    {
        self.numbers.settle();
        self.rows.settle();
    }

    /// Discards the changes: what is kept is seen.
    pub fn discard(&mut self)
        ensures { Discards self.old self.new }
    {
        self.numbers.discard();
        self.rows.discard();
    }
}
