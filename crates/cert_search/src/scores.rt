//! By which atom the rows at a node are split.

use crate::conditions::{Condition, Outcome, is_at, outcome_at, outcome_of};
use crate::masks::{is_settled, mask_at, put};
use crate::problem::{Problem, ShareFormula};
use crate::state::{SearchState, Standing};
use filter_tree::{Mask, Tri};
use std::alloc::{AllocError, Global};

/// How much is left to decide in the branches of a split: in the worst one, and in all.
#[derive(Clone, Copy, PartialEq, Eq, PartialOrd, Ord)]
struct Score {
    worst: u64,
    sum: u64,
}

/// A score that is worse than any other.
const WORST: Score = Score {
    worst: u64::MAX,
    sum: u64::MAX,
};

/// The live conditions of undecided shares, and how many atoms make a difference to each.
#[derive(Drop)]
struct Pending {
    places: Vec<usize>,
    /// By the places of all conditions.
    weights: Vec<u32>,
}

fn weight_at(weights: &[u32], place: usize) -> u32 {
    weights.get(place).copied().unwrap_or(0)
}

/// How many atoms make a difference to a condition about which this is known.
fn weight_of(condition: Condition, outcome: Outcome, weights: &[u32]) -> u32 {
    if outcome != Outcome::Open {
        return 0;
    }
    match condition {
        Condition::Const(_) => 0,
        Condition::Value(..) => 1,
        Condition::Both(left, right) | Condition::Either(left, right) => {
            weight_at(weights, left).saturating_add(weight_at(weights, right))
        }
    }
}

impl SearchState {
    /// The conditions to weigh, if the path leaves these shares undecided.
    fn pending(&self, alloc: Global, problem: &Problem<'_>) -> Result<Pending, AllocError> {
        let mut places = Vec::new(alloc);
        for (number, share) in problem.shares.iter().enumerate() {
            if self.standing_of(number) == Standing::Undecided {
                self.add_live(&mut places, *share)?;
            }
        }
        Ok(Pending {
            places,
            weights: vec![in alloc; 0; problem.conditions.len()]?,
        })
    }

    fn add_live(&self, places: &mut Vec<usize>, share: ShareFormula) -> Result<(), AllocError> {
        for place in share.start..share.end {
            if is_at(&self.live, place) {
                places.push(place)?;
            }
        }
        Ok(())
    }

    /// Gives each atom one vote for each open condition on it.
    fn vote_for_open(&mut self, problem: &Problem<'_>, places: &[usize]) {
        self.votes.fill(0);
        for place in places {
            if outcome_at(&self.expected, *place) == Outcome::Open {
                if let Some(Condition::Value(atom, _)) = problem.conditions.get(*place) {
                    self.vote(*atom);
                }
            }
        }
    }

    /// Gives the atom one more vote.
    pub fn vote(&mut self, atom: usize) {
        let votes = self.votes.get(atom).copied().unwrap_or(0);
        put(&mut self.votes, atom, votes.saturating_add(1));
    }

    /// The atom with the most votes, if there is a vote.
    pub fn most_voted(&self) -> Option<usize> {
        let mut most = 0;
        let mut found = None;
        for (atom, votes) in self.votes.iter().enumerate() {
            if *votes > most {
                most = *votes;
                found = Some(atom);
            }
        }
        found
    }

    /// How much is left to decide, by the values that the facts allow.
    fn weight(&mut self, problem: &Problem<'_>, pending: &mut Pending) -> u64 {
        for place in &pending.places {
            if let Some(condition) = problem.conditions.get(*place) {
                let outcome = outcome_of(*condition, &self.likely, &self.expected);
                put(&mut self.expected, *place, outcome);
                let weight = weight_of(*condition, outcome, &pending.weights);
                put(&mut pending.weights, *place, weight);
            }
        }
        self.total(problem, &pending.weights)
    }

    fn total(&self, problem: &Problem<'_>, weights: &[u32]) -> u64 {
        let mut total = 0u64;
        for (number, share) in problem.shares.iter().enumerate() {
            if self.standing_of(number) == Standing::Undecided {
                total = total.saturating_add(u64::from(weight_at(weights, share.root())));
            }
        }
        total
    }

    /// The score of a split by this atom, for which the facts allow these values, or a score worse than the best.
    fn score(
        &mut self,
        problem: &Problem<'_>,
        pending: &mut Pending,
        atom: usize,
        left: Mask,
        best: Score,
    ) -> Score {
        let mut score = Score { worst: 0, sum: 0 };
        for value in [Tri::True, Tri::False, Tri::Null] {
            if left.has(value) && score.worst <= best.worst {
                self.decide(problem, atom, value, false);
                self.refresh(problem);
                let weight = self.weight(problem, pending);
                score = Score {
                    worst: score.worst.max(weight),
                    sum: score.sum.saturating_add(weight),
                };
            }
        }
        self.forget(problem, atom, false);
        score
    }

    /// The atom whose split has the best score, among those with a vote.
    fn best_voted(&mut self, problem: &Problem<'_>, pending: &mut Pending) -> Option<usize> {
        let breadth = u64::try_from(pending.places.len()).unwrap_or(u64::MAX);
        let mut best = WORST;
        let mut found = None;
        for (atom, _) in problem.atoms.iter().enumerate() {
            let left = mask_at(&self.likely, atom);
            if self.votes.get(atom).copied().unwrap_or(0) > 0 && !is_settled(left) {
                self.charge_steps(breadth.saturating_mul(3));
                let score = self.score(problem, pending, atom, left, best);
                if score < best {
                    best = score;
                    found = Some(atom);
                }
            }
        }
        found
    }

    /// The atom whose split leaves the least to decide, or, without care, an atom with the most open conditions on it;
    /// none if no condition is open. With care, `expected` does not hold afterwards.
    pub fn halving(
        &mut self,
        alloc: Global,
        problem: &Problem<'_>,
        with_care: bool,
    ) -> Result<Option<usize>, AllocError> {
        let mut pending = self.pending(alloc, problem)?;
        self.vote_for_open(problem, &pending.places);
        if !with_care {
            return Ok(self.most_voted());
        }
        let found = self.best_voted(problem, &mut pending);
        self.refresh(problem);
        Ok(found)
    }
}
