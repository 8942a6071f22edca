//! Maps that are changed in place, with what undoes the changes until they settle, which needs no memory.

ghost use Rattle.std.specs.Prelude.{◌≡◌, ◌≤◌, true, false, [], None, Some, length, map, is_some, IfOk, OnOk, OnErr, if◌then◌else◌};
ghost use Rattle.std.specs.BTreeMap.{get};
ghost use Rattle.std.specs.Option.{option_map};
ghost use Rattle.std.specs.Ordering.{eq_by_cmp};
ghost use Rattle.tables_log.specs.Layers.{over, below, has_place, made_by_change, was_in, rewound, kept_under, HasRoom};

use std::alloc::{AllocError, Global};
use std::collections::BTreeMap;
use std::mem;

/// An ordered map that is changed in place. What was kept is restored without memory: the keys whose places were made
/// are removed, and the places of the others, which stay, get back what they had.
#[derive(Drop)]
pub(crate) struct Layers<K: Ord, V> {
    alloc: Global,
    base: BTreeMap<K, Option<V>, Global>,
    /// The keys whose places were made since.
    made: Vec<K>,
    /// The other keys that were changed since, each with what its place had.
    undo: Vec<(K, Option<V>)>,
    /// What is seen instead of the base, once that was emptied.
    fresh: BTreeMap<K, Option<V>, Global>,
    emptied: bool,
    ghost room: { HasRoom K.cmp base undo.items },
}

/// What is under the key.
fn value_in<'a, K: Ord, V>(map: &'a BTreeMap<K, Option<V>, Global>, key: &K) -> Option<&'a V>
    ensures { option_map (λ value. value.now) result ≡ below K.cmp map.now key.now }
{
    match map.get(key) {
        None => None,
        Some(place) => place.as_ref(),
    }
}

/// Whether the key's place was made.
fn was_made<K: Ord>(made: &[K], key: &K) -> bool
    ensures { result ≡ made_by_change K.cmp made.now key.now }
{
    for other in made {
        if key.cmp(other).is_eq() {
            return true;
        }
    }
    false
}

/// What the first change of the key's place found in it.
fn was_found<'a, K: Ord, V>(undo: &'a [(K, Option<V>)], key: &K) -> Option<&'a Option<V>>
    ensures { option_map (λ place. place.now) result ≡ was_in K.cmp undo.now key.now }
{
    for (other, place) in undo {
        if key.cmp(other).is_eq() {
            return Some(place);
        }
    }
    None
}

/// What was kept under the key, if this is found now.
fn before<'a, K: Ord, V>(
    made: &[K],
    undo: &'a [(K, Option<V>)],
    key: &K,
    found: Option<&'a V>,
) -> Option<&'a V>
    ensures { option_map (λ value. value.now) result
        ≡ rewound K.cmp made.now undo.now key.now (option_map (λ value. value.now) found.entry) }
{
    if was_made(made, key) {
        return None;
    }
    match was_found(undo, key) {
        None => found,
        Some(place) => place.as_ref(),
    }
}

/// Puts the value into the key's place, or leaves it empty.
fn write<K: Ord + Drop, V: Drop>(
    base: &mut BTreeMap<K, Option<V>, Global>,
    key: K,
    value: Option<V>,
)
    requires { has_place K.cmp base.old key ≡ true }
    ensures puts { (other : K) → below K.cmp base.new other
        ≡ (if eq_by_cmp K.cmp key other then value else below K.cmp base.old other) }
    ensures stay { (other : K) → has_place K.cmp base.old other ≡ true → has_place K.cmp base.new other ≡ true }
{
    let _ = base.insert(key, value);
}

/// Leaves the key's place empty, if there is one, and returns what it had.
fn clear_place<K: Ord + Drop, V: Drop>(
    base: &mut BTreeMap<K, Option<V>, Global>,
    key: &K,
) -> Option<Option<V>>
    ensures was { result ≡ get K.cmp base.old key.now }
    ensures clears { (other : K) → below K.cmp base.new other
        ≡ (if eq_by_cmp K.cmp key.now other then None else below K.cmp base.old other) }
    ensures stay { (other : K) → has_place K.cmp base.new other ≡ has_place K.cmp base.old other }
{
    match base.get_mut(key) {
        None => None,
        Some(place) => Some(mem::replace(place, None)),
    }
}

/// Removes the key's place, if it is empty.
fn take_empty<K: Ord + Drop, V: Drop>(base: &mut BTreeMap<K, Option<V>, Global>, key: &K)
    ensures { (other : K) → below K.cmp base.new other ≡ below K.cmp base.old other }
{
    if let Some(None) = base.get(key) {
        let _ = base.remove(key);
    }
}

/// Drops the last change, if it was one of this key.
fn pop_same<K: Ord + Drop, V: Drop>(undo: &mut Vec<(K, Option<V>)>, key: &K)
    ensures { length undo.new.items ≤ length undo.old.items }
{
    let is_same = match undo.last() {
        None => false,
        Some((other, _)) => key.cmp(other).is_eq(),
    };
    if is_same {
        let _ = undo.pop();
    }
}

/// Forgets what undoes the changes, and removes the places that they left empty. A place that was made has a value,
/// unless a later change found it there. A place that a change left empty, and that the next one filled, as for a row
/// that is replaced, is not looked up.
fn settle_in<K: Ord + Drop, V: Drop>(
    base: &mut BTreeMap<K, Option<V>, Global>,
    made: &mut Vec<K>,
    undo: &mut Vec<(K, Option<V>)>,
)
    ensures same { (key : K) → below K.cmp base.new key ≡ below K.cmp base.old key }
    ensures made { made.new.items ≡ [] }
    ensures undo { undo.new.items ≡ [] }
{
    made.clear();
    while let Some((key, place)) = undo.pop() {
        if place.is_some() {
            take_empty(base, &key);
        } else {
            pop_same(undo, &key);
        }
    }
}

/// Restores what the places that existed before had, the last change first.
fn write_back<K: Ord + Drop, V: Drop>(
    base: &mut BTreeMap<K, Option<V>, Global>,
    undo: &mut Vec<(K, Option<V>)>,
)
    requires { HasRoom K.cmp base.old undo.old.items }
    ensures back { (key : K) → below K.cmp base.new key
        ≡ over (was_in K.cmp undo.old.items key) (below K.cmp base.old key) }
    ensures undo { undo.new.items ≡ [] }
{
    while let Some((key, place)) = undo.pop() {
        write(base, key, place);
    }
}

/// Removes the places that were made.
fn take_made<K: Ord + Drop, V: Drop>(base: &mut BTreeMap<K, Option<V>, Global>, made: &mut Vec<K>)
    ensures gone { (key : K) → below K.cmp base.new key
        ≡ (if made_by_change K.cmp made.old.items key then None else below K.cmp base.old key) }
    ensures made { made.new.items ≡ [] }
{
    while let Some(key) = made.pop() {
        let _ = base.remove(&key);
    }
}

/// Restores the map to what it was.
fn rewind<K: Ord + Drop, V: Drop>(
    base: &mut BTreeMap<K, Option<V>, Global>,
    made: &mut Vec<K>,
    undo: &mut Vec<(K, Option<V>)>,
)
    requires { HasRoom K.cmp base.old undo.old.items }
    ensures back { (key : K) → below K.cmp base.new key ≡ kept_under K.cmp base.old made.old.items undo.old.items key }
    ensures made { made.new.items ≡ [] }
    ensures undo { undo.new.items ≡ [] }
{
    write_back(base, undo);
    take_made(base, made);
}

/// Puts the value under the key, which is given twice, and returns whether something was there. The only error is out
/// of memory; then the map is as it was.
fn put_in<K: Ord + Drop, V: Drop>(
    base: &mut BTreeMap<K, Option<V>, Global>,
    made: &mut Vec<K>,
    undo: &mut Vec<(K, Option<V>)>,
    key: K,
    copy: K,
    value: V,
) -> Result<bool, AllocError>
    requires room { HasRoom K.cmp base.old undo.old.items }
    requires same { copy ≡ key }
    ensures was { IfOk result (λ was. was ≡ is_some (below K.cmp base.old key)) }
    ensures room { HasRoom K.cmp base.new undo.new.items }
    ensures keeps { (other : K) → kept_under K.cmp base.new made.new.items undo.new.items other
        ≡ kept_under K.cmp base.old made.old.items undo.old.items other }
    ensures puts { OnOk result ((other : K) → below K.cmp base.new other
        ≡ (if eq_by_cmp K.cmp key other then Some value else below K.cmp base.old other)) }
    ensures err { OnErr result ((other : K) → below K.cmp base.new other ≡ below K.cmp base.old other) }
{
    made.reserve(1)?;
    undo.reserve(1)?;
    match base.insert(key, Some(value))? {
        None => {
            made.push_reserved(copy);
            Ok(false)
        }
        Some(was) => {
            let had_value = was.is_some();
            undo.push_reserved((copy, was));
            Ok(had_value)
        }
    }
}

/// Leaves nothing under the key, and returns whether something was there. The only error is out of memory; then the map
/// is as it was.
fn take_in<K: Ord + Drop, V: Drop>(
    base: &mut BTreeMap<K, Option<V>, Global>,
    made: &[K],
    undo: &mut Vec<(K, Option<V>)>,
    key: K,
) -> Result<bool, AllocError>
    requires { HasRoom K.cmp base.old undo.old.items }
    ensures was { IfOk result (λ was. was ≡ is_some (below K.cmp base.old key)) }
    ensures room { HasRoom K.cmp base.new undo.new.items }
    ensures keeps { (other : K) → kept_under K.cmp base.new made.now undo.new.items other
        ≡ kept_under K.cmp base.old made.now undo.old.items other }
    ensures puts { OnOk result ((other : K) → below K.cmp base.new other
        ≡ (if eq_by_cmp K.cmp key other then None else below K.cmp base.old other)) }
    ensures err { OnErr result ((other : K) → below K.cmp base.new other ≡ below K.cmp base.old other) }
{
    undo.reserve(1)?;
    match clear_place(base, &key) {
        None => Ok(false),
        Some(was) => {
            let had_value = was.is_some();
            undo.push_reserved((key, was));
            Ok(had_value)
        }
    }
}

/// Puts the value under the key of a map that has nothing to undo, and returns whether something was there. The only
/// error is out of memory; then the map is as it was.
#[tactic(auto, using(crate::proofs::LayerLemmas::below_after, crate::proofs::LayerLemmas::below_unchanged))]
fn put_alone<K: Ord + Drop, V: Drop>(
    fresh: &mut BTreeMap<K, Option<V>, Global>,
    key: K,
    value: V,
) -> Result<bool, AllocError>
    ensures was { IfOk result (λ was. was ≡ is_some (below K.cmp fresh.old key)) }
    ensures puts { OnOk result ((other : K) → below K.cmp fresh.new other
        ≡ (if eq_by_cmp K.cmp key other then Some value else below K.cmp fresh.old other)) }
    ensures err { OnErr result ((other : K) → below K.cmp fresh.new other ≡ below K.cmp fresh.old other) }
{
    match fresh.insert(key, Some(value))? {
        None => Ok(false),
        Some(was) => Ok(was.is_some()),
    }
}

/// Removes the key of a map that has nothing to undo, and returns whether something was there.
#[tactic(auto, using(crate::proofs::LayerLemmas::below_after))]
fn take_alone<K: Ord + Drop, V: Drop>(fresh: &mut BTreeMap<K, Option<V>, Global>, key: &K) -> bool
    ensures was { result ≡ is_some (below K.cmp fresh.old key.now) }
    ensures takes { (other : K) → below K.cmp fresh.new other
        ≡ (if eq_by_cmp K.cmp key.now other then None else below K.cmp fresh.old other) }
{
    match fresh.remove(key) {
        None => false,
        Some(was) => was.is_some(),
    }
}

impl<K: Ord + Drop, V: Drop> Layers<K, V> {
    ghost use Rattle.std.specs.Prelude.{◌≡◌, None, Some, map, ◌++◌, IfOk};
    ghost use Rattle.std.specs.BTreeMap.{IsOrdered};
    ghost use Rattle.std.specs.Option.{option_map};
    ghost use Rattle.tables_log.specs.Layers.{kept_under, kept_places, shown, filled, HasRoom, PutsUnder};

    /// A map without any key.
    pub(crate) fn new(alloc: Global) -> Layers<K, V>
        ensures kept { (key : K) → kept_under K.cmp result.base result.made.items result.undo.items key ≡ None }
        ensures seen { (key : K) → shown K.cmp result.base result.fresh result.emptied key ≡ None }
    {
        Layers {
            alloc,
            base: BTreeMap::new(alloc),
            made: Vec::new(alloc),
            undo: Vec::new(alloc),
            fresh: BTreeMap::new(alloc),
            emptied: false,
        }
    }

    /// What is seen under the key.
    pub(crate) fn find(&self, key: &K) -> Option<&V>
        ensures { option_map (λ value. value.now) result
            ≡ shown K.cmp self.now.base self.now.fresh self.now.emptied key.now }
    {
        if self.emptied {
            value_in(&self.fresh, key)
        } else {
            value_in(&self.base, key)
        }
    }

    /// What is kept under the key.
    pub(crate) fn get(&self, key: &K) -> Option<&V>
        ensures { option_map (λ value. value.now) result
            ≡ kept_under K.cmp self.now.base self.now.made.items self.now.undo.items key.now }
    {
        before(&self.made, &self.undo, key, value_in(&self.base, key))
    }

    /// What is listed, and then all that is kept, in the order of the keys. The only error is out of memory.
    pub(crate) fn list<'a>(&'a self, listed: Vec<&'a V>) -> Result<Vec<&'a V>, AllocError>
        ensures shows { IfOk result (λ all. map (λ value. value.now) all.items
            ≡ map (λ value. value.now) listed.entry.items
            ++ filled (kept_places K.cmp self.now.base self.now.made.items self.now.undo.items)) }
        ensures ordered { IsOrdered K.cmp self.now.base }
        ensures room { HasRoom K.cmp self.now.base self.now.undo.items }
    {
        let mut listed = listed;
        for (key, place) in self.base.iter() {
            if let Some(value) = before(&self.made, &self.undo, key, place.as_ref()) {
                listed.push(value)?;
            }
        }
        Ok(listed)
    }

    /// Puts the value under the key, which is given twice, and returns whether something was seen there. What is kept
    /// stays. The only error is out of memory; then what is seen stays too.
    pub(crate) fn put(&mut self, key: K, copy: K, value: V) -> Result<bool, AllocError>
        requires { copy ≡ key }
        ensures { PutsUnder K.cmp key (Some value)
            (kept_under K.cmp self.old.base self.old.made.items self.old.undo.items)
            (shown K.cmp self.old.base self.old.fresh self.old.emptied) result
            (kept_under K.cmp self.new.base self.new.made.items self.new.undo.items)
            (shown K.cmp self.new.base self.new.fresh self.new.emptied) }
    {
        if self.emptied {
            put_alone(&mut self.fresh, key, value)
        } else {
            put_in(
                &mut self.base,
                &mut self.made,
                &mut self.undo,
                key,
                copy,
                value,
            )
        }
    }

    /// Leaves nothing under the key, and returns whether something was seen there. What is kept stays. The only error
    /// is out of memory; then what is seen stays too.
    pub(crate) fn take(&mut self, key: K) -> Result<bool, AllocError>
        ensures { PutsUnder K.cmp key None
            (kept_under K.cmp self.old.base self.old.made.items self.old.undo.items)
            (shown K.cmp self.old.base self.old.fresh self.old.emptied) result
            (kept_under K.cmp self.new.base self.new.made.items self.new.undo.items)
            (shown K.cmp self.new.base self.new.fresh self.new.emptied) }
    {
        if self.emptied {
            Ok(take_alone(&mut self.fresh, &key))
        } else {
            take_in(&mut self.base, &self.made, &mut self.undo, key)
        }
    }

    /// Removes every key. What is kept stays.
    pub(crate) fn empty(&mut self)
        ensures keeps { (key : K) → kept_under K.cmp self.new.base self.new.made.items self.new.undo.items key
            ≡ kept_under K.cmp self.old.base self.old.made.items self.old.undo.items key }
        ensures empties { (key : K) → shown K.cmp self.new.base self.new.fresh self.new.emptied key ≡ None }
    {
        rewind(&mut self.base, &mut self.made, &mut self.undo);
        self.fresh.clear();
        self.emptied = true;
    }

    /// Keeps what is seen.
    pub(crate) fn settle(&mut self)
        ensures keeps { (key : K) → kept_under K.cmp self.new.base self.new.made.items self.new.undo.items key
            ≡ shown K.cmp self.old.base self.old.fresh self.old.emptied key }
        ensures sees { (key : K) → shown K.cmp self.new.base self.new.fresh self.new.emptied key
            ≡ shown K.cmp self.old.base self.old.fresh self.old.emptied key }
    {
        settle_in(&mut self.base, &mut self.made, &mut self.undo);
        if self.emptied {
            self.base = mem::replace(&mut self.fresh, BTreeMap::new(self.alloc));
            self.emptied = false;
        }
    }

    /// Discards the changes: what is kept is seen.
    pub(crate) fn discard(&mut self)
        ensures keeps { (key : K) → kept_under K.cmp self.new.base self.new.made.items self.new.undo.items key
            ≡ kept_under K.cmp self.old.base self.old.made.items self.old.undo.items key }
        ensures sees { (key : K) → shown K.cmp self.new.base self.new.fresh self.new.emptied key
            ≡ kept_under K.cmp self.old.base self.old.made.items self.old.undo.items key }
    {
        rewind(&mut self.base, &mut self.made, &mut self.undo);
        self.fresh.clear();
        self.emptied = false;
    }
}
