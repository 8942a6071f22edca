//! What a path says about the atoms of a table.

ghost use Rattle.std.specs.Prelude.{◌≡◌, [], IfOk, OnOk, MatchOption};
ghost use Rattle.filter_tree.specs.Shape.{atom_view, atoms_view};
ghost use Rattle.shard_checker.specs.KnownAtoms as spec;

use crate::masks::{mask_at, put};
use filter_tree::{Atom, Mask, Tri};
use std::alloc::{AllocError, Allocator, Global};

/// The number of an atom, and what it might be before the atom was found to have a value.
#[derive(Clone, Copy, Debug, PartialEq, Eq)]
pub struct Undo {
    pub number: u32,
    pub mask: Mask,
}

/// What each atom may be at the end of a path, by its number, and for each entry of the path what it changed.
#[derive(Drop)]
pub struct Known {
    pub atoms: Vec<Mask>,
    pub undos: Vec<Undo>,
}

/// What an atom may be while nothing is known about it.
fn open_mask<A: Allocator>(atom: &Atom<A>) -> Mask
    ensures { result ≡ spec.atom_mask [] (atom_view atom.now) }
{
    let null = match atom {
        Atom::Cmp(..) | Atom::In(..) | Atom::Between(..) => true,
        Atom::IsNull(_) | Atom::Distinct(..) => false,
    };
    Mask {
        truth: true,
        falsity: true,
        null,
    }
}

/// What an atom may be after it was found to have the value: only this value, unless one was found for it before.
fn met(mask: Mask, value: Tri) -> Mask
    ensures { result ≡ spec.met mask value }
{
    if mask.truth && mask.falsity {
        Mask::single(value)
    } else {
        mask
    }
}

impl Known {
    /// What is known before any atom is tested.
    pub fn new<A: Allocator>(alloc: Global, atoms: &[&Atom<A>]) -> Result<Known, AllocError>
        ensures { IfOk result (λ known. spec.IsKnown (atoms_view atoms.now) known []) }
    {
        let mut masks = Vec::new(alloc);
        for atom in atoms {
            masks.push(open_mask(*atom))?;
        }
        Ok(Known {
            atoms: masks,
            undos: Vec::new(alloc),
        })
    }

    /// Records that the atom with this number was found to have the value.
    pub fn learn(&mut self, number: u32, value: Tri) -> Result<(), AllocError>
        ensures { OnOk result (spec.Learns self.old self.new number value) }
    {
        let mask = mask_at(&self.atoms, number as usize);
        self.undos.push(Undo { number, mask })?;
        put(&mut self.atoms, number as usize, met(mask, value));
        Ok(())
    }

    /// Undoes what was found last.
    pub fn take_back(&mut self) -> Option<Undo>
        ensures { MatchOption result (self.old.undos.items ≡ []) (λ before. spec.TakesBack self.old self.new before) }
    {
        let before = self.undos.pop()?;
        put(&mut self.atoms, before.number as usize, before.mask);
        Some(before)
    }
}
