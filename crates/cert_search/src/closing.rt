//! The atoms by which the path would establish what the facts already imply.

use crate::conditions::{Condition, Outcome, is_at, outcome_at};
use crate::masks::put;
use crate::problem::{Problem, ShareFormula};
use crate::state::{SearchState, Standing};
use std::alloc::{AllocError, Global};

/// Atoms by which the path would establish the wanted outcome of a condition, as sets with a bit for each of the first
/// 64. Each atom of `alone` is enough by itself, since the facts leave it one value. Those of `few` are enough
/// together; all bits are set if no such set is known.
#[derive(Clone, Copy)]
struct Deciders {
    alone: u64,
    few: u64,
}

/// The path establishes it already.
const DECIDED: Deciders = Deciders {
    alone: u64::MAX,
    few: 0,
};

/// No atoms are enough.
const NEVER: Deciders = Deciders {
    alone: 0,
    few: u64::MAX,
};

impl Deciders {
    /// The atoms if one of two parts is enough.
    fn or(self, other: Deciders) -> Deciders {
        Deciders {
            alone: self.alone | other.alone,
            few: if other.few.count_ones() < self.few.count_ones() {
                other.few
            } else {
                self.few
            },
        }
    }

    /// The atoms if two parts are needed.
    fn and(self, other: Deciders) -> Deciders {
        Deciders {
            alone: self.alone & other.alone,
            few: self.few | other.few,
        }
    }
}

fn bit_of(atom: usize) -> u64 {
    if atom < 64 { 1u64 << atom } else { 0 }
}

fn deciders_at(deciders: &[Deciders], place: usize) -> Deciders {
    deciders.get(place).copied().unwrap_or(NEVER)
}

impl SearchState {
    /// The atoms for an atom's value.
    fn of_value(&self, atom: usize) -> Deciders {
        let bit = bit_of(atom);
        Deciders {
            alone: if self.is_forced(atom) { bit } else { 0 },
            few: if bit == 0 { u64::MAX } else { bit },
        }
    }

    /// The atoms for which the condition at this place has this outcome, after the atoms for its parts were found.
    fn deciders_of(
        &self,
        condition: Condition,
        place: usize,
        wanted: Outcome,
        found: &[Deciders],
    ) -> Deciders {
        if !is_at(&self.live, place) {
            let is_implied = outcome_at(&self.implied, place) == wanted;
            return if is_implied { DECIDED } else { NEVER };
        }
        match (condition, wanted) {
            (Condition::Const(_), _) => NEVER,
            (Condition::Value(atom, _), _) => {
                if outcome_at(&self.expected, place) == wanted {
                    self.of_value(atom)
                } else {
                    NEVER
                }
            }
            (Condition::Both(left, right), Outcome::Missed)
            | (Condition::Either(left, right), Outcome::Met) => {
                deciders_at(found, left).or(deciders_at(found, right))
            }
            (Condition::Both(left, right) | Condition::Either(left, right), _) => {
                deciders_at(found, left).and(deciders_at(found, right))
            }
        }
    }

    /// The atoms for which the share has this outcome.
    fn deciders(
        &self,
        problem: &Problem<'_>,
        share: ShareFormula,
        wanted: Outcome,
        found: &mut [Deciders],
    ) -> Deciders {
        for place in share.start..share.end {
            if let Some(condition) = problem.conditions.get(place) {
                let deciders = self.deciders_of(*condition, place, wanted, found);
                put(found, place, deciders);
            }
        }
        deciders_at(found, share.root())
    }

    /// Votes for each atom of the set.
    fn vote_for(&mut self, problem: &Problem<'_>, atoms: u64) {
        for (atom, _) in problem.atoms.iter().enumerate() {
            if atoms & bit_of(atom) != 0 {
                self.vote(atom);
            }
        }
    }

    /// An atom of the set; one with only one value left, if there is one.
    fn one_of(&self, problem: &Problem<'_>, atoms: u64) -> Option<usize> {
        let mut found = None;
        for (atom, _) in problem.atoms.iter().enumerate() {
            if atoms & bit_of(atom) != 0 {
                if self.is_forced(atom) {
                    return Some(atom);
                }
                found = found.or(Some(atom));
            }
        }
        found
    }

    /// An atom of the share that is not known, for an outcome that depends on an atom without a bit.
    fn any_of(&self, problem: &Problem<'_>, share: ShareFormula) -> Option<usize> {
        for place in share.start..share.end {
            if let (true, Some(Condition::Value(atom, _))) = (
                is_at(&self.live, place),
                problem.conditions.get(place),
            ) {
                return Some(*atom);
            }
        }
        None
    }

    /// An atom by which the path would establish that shares take nothing, if the facts already imply it, or would at
    /// least say more about the first of these shares.
    pub fn closing(
        &mut self,
        alloc: Global,
        problem: &Problem<'_>,
    ) -> Result<Option<usize>, AllocError> {
        self.charge_steps(problem.condition_count());
        let mut found = vec![in alloc; NEVER; problem.conditions.len()]?;
        self.votes.fill(0);
        let mut first = None;
        for (number, share) in problem.shares.iter().enumerate() {
            if self.standing_of(number) == Standing::Excluded {
                let deciders = self.deciders(problem, *share, Outcome::Missed, &mut found);
                self.vote_for(problem, deciders.alone);
                first = first.or(Some((*share, deciders.few)));
            }
        }
        if let Some(atom) = self.most_voted() {
            return Ok(Some(atom));
        }
        match first {
            None => Ok(None),
            Some((share, few)) => Ok(self.needed(problem, share, few)),
        }
    }

    /// One of a few atoms that are enough for a share.
    fn needed(&self, problem: &Problem<'_>, share: ShareFormula, few: u64) -> Option<usize> {
        if few == u64::MAX {
            return self.any_of(problem, share);
        }
        self.one_of(problem, few)
    }

    /// An atom by which the path would establish that the share takes all rows, if the facts already imply it.
    pub fn settling(
        &mut self,
        alloc: Global,
        problem: &Problem<'_>,
        share: ShareFormula,
    ) -> Result<Option<usize>, AllocError> {
        self.charge_steps(problem.condition_count());
        let mut found = vec![in alloc; NEVER; problem.conditions.len()]?;
        let deciders = self.deciders(problem, share, Outcome::Met, &mut found);
        if deciders.alone != 0 {
            return Ok(self.one_of(problem, deciders.alone));
        }
        Ok(self.needed(problem, share, deciders.few))
    }
}
