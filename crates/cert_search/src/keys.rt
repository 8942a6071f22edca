//! Keys that show that nodes of the tree have the same parts below them.

use crate::conditions::{Condition, Outcome, is_at, outcome_at};
use crate::masks::{put, value_at};
use crate::problem::Problem;
use crate::state::SearchState;
use filter_tree::Tri;
use std::alloc::{AllocError, Global};

fn set_bit(words: &mut [u64], place: usize) {
    if let Some(word) = words.get_mut(place / 64) {
        *word |= 1u64 << (place % 64);
    }
}

fn code_of(value: Tri) -> usize {
    match value {
        Tri::True => 0,
        Tri::False => 1,
        Tri::Null => 2,
    }
}

impl SearchState {
    /// The columns that live conditions are on.
    fn live_columns(&self, alloc: Global, problem: &Problem<'_>) -> Result<Vec<bool>, AllocError> {
        let mut columns = vec![in alloc; false; problem.columns.len()]?;
        for (place, condition) in problem.conditions.iter().enumerate() {
            if let (true, Condition::Value(atom, _)) = (is_at(&self.live, place), condition) {
                if let Some(plain) = problem.atom(*atom) {
                    put(&mut columns, plain.column, true);
                }
            }
        }
        Ok(columns)
    }

    /// Sets the bits of the live conditions.
    fn add_live_bits(&self, words: &mut [u64]) {
        for (place, is_live) in self.live.iter().enumerate() {
            if *is_live {
                set_bit(words, place);
            }
        }
    }

    /// Sets the bits of the shares that take all rows, from this place on.
    fn add_share_bits(&self, problem: &Problem<'_>, words: &mut [u64], start: usize) {
        for (number, share) in problem.shares.iter().enumerate() {
            if outcome_at(&self.implied, share.root()) == Outcome::Met {
                set_bit(words, start.saturating_add(number));
            }
        }
    }

    /// Sets the bits of the values that the atoms of these columns have on the path, from this place on.
    fn add_value_bits(
        &self,
        problem: &Problem<'_>,
        columns: &[bool],
        words: &mut [u64],
        start: usize,
    ) {
        for (atom, plain) in problem.atoms.iter().enumerate() {
            if let (true, Some(value)) = (
                is_at(columns, plain.column),
                value_at(&self.known, atom),
            ) {
                let place = atom.saturating_mul(3).saturating_add(code_of(value));
                set_bit(words, start.saturating_add(place));
            }
        }
    }

    /// A key of what is left to decide here: nodes with equal keys may have equal trees. It has a bit for each live
    /// condition, for each share that takes all rows, and for each value of an atom whose column is still needed.
    pub fn key(&self, alloc: Global, problem: &Problem<'_>) -> Result<Vec<u64>, AllocError> {
        let shares = problem.conditions.len();
        let values = shares.saturating_add(problem.shares.len());
        let end = values.saturating_add(problem.atoms.len().saturating_mul(3));
        let mut words = vec![in alloc; 0u64; end / 64 + 1]?;
        let columns = self.live_columns(alloc, problem)?;
        self.add_live_bits(&mut words);
        self.add_share_bits(problem, &mut words, shares);
        self.add_value_bits(problem, &columns, &mut words, values);
        Ok(words)
    }
}
