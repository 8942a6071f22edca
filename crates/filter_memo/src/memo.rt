//! The cache.

ghost use Rattle.std.specs.Prelude.{◌≡◌, ℕ, List, Option, Some, slice_get, IfOk, IfSome, OnOk};
ghost use Rattle.filter_tree.specs.Datum.{Datum};
ghost use Rattle.filter_tree.specs.Expr.{Expr, meaning};
ghost use Rattle.filter_memo.specs.Memos as spec;
ghost use Rattle.filter_memo.specs.Plans.{filters_view};

use crate::atoms::Atoms;
use crate::said::Said;
use filter_tree::{Filter, Row, Tri};
use std::alloc::{AllocError, Global};

/// The maximum number of texts that are kept.
const TEXTS: usize = 1_024;

/// A text, and the values of the atoms for the rows that have it.
#[derive(Drop)]
pub struct Kept {
    pub said: Said,
    pub text: String,
}

/// A cache of texts of rows that depend only on the values of filters. It keeps up to 1,024 texts.
#[derive(Drop)]
pub struct Memo {
    pub alloc: Global,
    pub atoms: Atoms,
    pub slots: Vec<Option<Kept>>,
}

/// The slot for these values of the atoms.
fn slot_of(said: Said) -> usize {
    let mixed = said.truths.wrapping_mul(0x9e37_79b9_7f4a_7c15)
        ^ said.nulls.wrapping_mul(0xc2b2_ae3d_27d4_eb4f);
    ((mixed >> 32) as usize) % TEXTS
}

/// The given number of empty slots.
fn empty_slots(alloc: Global, count: usize) -> Result<Vec<Option<Kept>>, AllocError>
    ensures { IfOk result (λ slots. spec.AreEmpty slots.items) }
{
    let mut slots = Vec::with_capacity(alloc, count)?;
    for _ in 0..count {
        slots.push(None)?;
    }
    Ok(slots)
}

/// The entry in the slot.
fn kept_at(slots: &[Option<Kept>], slot: usize) -> Option<&Kept>
    ensures { IfSome result (λ kept. slice_get slots.now slot ≡ Some (Some kept.now)) }
{
    match slots.get(slot) {
        Some(Some(kept)) => Some(kept),
        _ => None,
    }
}

impl Memo {
    /// An empty memo of texts that depend only on the values of these filters. The only error is out of memory.
    pub fn new(alloc: Global, filters: &[Option<&Filter>]) -> Result<Memo, AllocError>
        ensures { IfOk result (λ memo. (text_of : List Datum → List ℕ)
            → spec.Follows (filters_view filters.now) text_of
            → spec.IsMemoOf (filters_view filters.now) text_of memo) }
    {
        let atoms = Atoms::new(alloc, filters)?;
        let count = if atoms.are_used() { TEXTS } else { 0 };
        Ok(Memo {
            alloc,
            atoms,
            slots: empty_slots(alloc, count)?,
        })
    }

    /// Evaluates the atoms of the filters for a row. It allocates no memory.
    pub fn locate(&mut self, row: &Row) -> Said
        ensures memo { (filters : List (Option Expr)) (text_of : List Datum → List ℕ)
            → spec.IsMemoOf filters text_of self.old → spec.IsMemoOf filters text_of self.new }
        ensures located { (filters : List (Option Expr)) (text_of : List Datum → List ℕ)
            → spec.IsMemoOf filters text_of self.old → spec.IsLocated self.new row.now result }
    {
        self.atoms.locate(row)
    }

    /// The value of a filter, given by its number, for the rows whose atoms have these values. If it is `None`, the
    /// caller has to evaluate the filter.
    pub fn answer(&self, said: Said, number: usize) -> Option<Tri>
        ensures { IfSome result (λ answer. (filters : List (Option Expr)) (text_of : List Datum → List ℕ)
            (row : List Datum) (filter : Expr) → spec.IsMemoOf filters text_of self.now
            → spec.IsLocated self.now row said → slice_get filters number ≡ Some (Some filter)
            → answer ≡ meaning filter row) }
    {
        self.atoms.answer(said, number)
    }

    /// The text of the rows whose atoms have these values, if the memo has it.
    pub fn text(&self, said: Said) -> Option<&str>
        ensures { IfSome result (λ text. (filters : List (Option Expr)) (text_of : List Datum → List ℕ)
            (row : List Datum) → spec.IsMemoOf filters text_of self.now → spec.IsLocated self.now row said
            → text.now ≡ text_of row) }
    {
        if !self.atoms.are_used() {
            return None;
        }
        let kept = kept_at(&self.slots, slot_of(said))?;
        if kept.said != said {
            return None;
        }
        Some(kept.text.as_str())
    }

    /// Keeps the text of the rows whose atoms have these values. The only error is out of memory.
    pub fn keep(&mut self, said: Said, text: &str) -> Result<(), AllocError>
        ensures { OnOk result ((filters : List (Option Expr)) (text_of : List Datum → List ℕ) (row : List Datum)
            → spec.IsMemoOf filters text_of self.old → spec.IsLocated self.old row said
            → text.now ≡ text_of row → spec.IsMemoOf filters text_of self.new) }
    {
        if !self.atoms.are_used() {
            return Ok(());
        }
        let kept = Kept {
            said,
            text: String::from_str(self.alloc, text)?,
        };
        let slot = slot_of(said);
        if slot < self.slots.len() {
            self.slots[slot] = Some(kept);
        }
        Ok(())
    }
}
