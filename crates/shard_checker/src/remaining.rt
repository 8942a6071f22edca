//! The candidates that remain at the end of a path.

ghost use Rattle.std.specs.Prelude.{IfOk, OnOk};
ghost use Rattle.shard_checker.specs.Remaining as spec;

use crate::bit_sets::BitSet;
use crate::candidate_sets::AtomSets;
use filter_tree::Tri;
use std::alloc::{AllocError, Global};
use std::mem;

/// The places of the candidates that each entry of a path leaves, and for each entry those that were left before it.
#[derive(Drop)]
pub struct Remaining {
    alloc: Global,
    pub places: BitSet,
    pub undos: Vec<BitSet>,
}

impl Remaining {
    /// The first `count` candidates, before any atom is tested.
    pub fn new(alloc: Global, count: usize) -> Result<Remaining, AllocError>
        ensures { IfOk result (λ remaining. spec.IsAll count remaining) }
    {
        Ok(Remaining {
            alloc,
            places: BitSet::below(alloc, count)?,
            undos: Vec::new(alloc),
        })
    }

    /// Keeps what is left by an atom that was found to have the value.
    pub fn keep(&mut self, sets: &AtomSets, value: Tri) -> Result<(), AllocError>
        ensures { OnOk result (spec.Keeps self.old self.new sets.now value) }
    {
        let places = self.places.both(self.alloc, sets.at(value))?;
        let before = mem::replace(&mut self.places, places);
        self.undos.push(before)?;
        Ok(())
    }

    /// Restores what remained before the last entry.
    pub fn restore(&mut self)
        ensures { spec.Restores self.old self.new }
    {
        if let Some(before) = self.undos.pop() {
            self.places = before;
        }
    }
}
