//! What is known at a node of the tree that is looked for.

use crate::conditions::{Condition, Outcome, evaluate, is_at, mark_live, outcome_at, outcome_of};
use crate::facts::{Facts, open};
use crate::masks::{is_settled, mask_at, put};
use crate::problem::{Problem, ShareFormula};
use filter_tree::{Mask, Tri};
use std::alloc::{AllocError, Global};

/// What is known about a share for the rows at a node.
#[derive(Clone, Copy, PartialEq, Eq)]
pub enum Standing {
    /// According to the atoms on the path it takes none of them.
    Closed,
    /// According to the facts it takes none of them.
    Excluded,
    /// According to the facts it takes them all.
    Sure,
    Undecided,
}

/// What is known at a node. `known` and `implied` are what the path says about atoms and conditions; `likely` and
/// `expected` are what the facts say, which may be more.
#[derive(Drop)]
pub struct SearchState {
    /// The values that each atom may have by the path.
    pub known: Vec<Mask>,
    /// The values of each atom that the facts allow.
    pub likely: Vec<Mask>,
    pub facts: Facts,
    /// The columns whose facts must be found again.
    stale: Vec<bool>,
    /// What the path says about each condition.
    pub implied: Vec<Outcome>,
    /// After how many splits on the path each share was closed.
    closed_after: Vec<usize>,
    /// The conditions that the path leaves open, and that may make a difference to a share.
    pub live: Vec<bool>,
    /// What the facts say about each condition.
    pub expected: Vec<Outcome>,
    pub standings: Vec<Standing>,
    pub votes: Vec<u64>,
    /// How many conditions, atoms and classes of numbers were looked at.
    pub steps: u64,
}

fn open_masks(alloc: Global, problem: &Problem<'_>) -> Result<Vec<Mask>, AllocError> {
    let mut masks = Vec::new(alloc);
    for plain in &problem.atoms {
        masks.push(open(&plain.kind))?;
    }
    Ok(masks)
}

impl SearchState {
    /// Nothing is known about any atom, and no facts are found yet.
    pub fn new(alloc: Global, problem: &Problem<'_>) -> Result<SearchState, AllocError> {
        let conditions = problem.conditions.len();
        Ok(SearchState {
            known: open_masks(alloc, problem)?,
            likely: open_masks(alloc, problem)?,
            facts: Facts::new(alloc, problem)?,
            stale: vec![in alloc; true; problem.columns.len()]?,
            implied: vec![in alloc; Outcome::Open; conditions]?,
            closed_after: vec![in alloc; usize::MAX; problem.shares.len()]?,
            live: vec![in alloc; false; conditions]?,
            expected: vec![in alloc; Outcome::Open; conditions]?,
            standings: vec![in alloc; Standing::Undecided; problem.shares.len()]?,
            votes: vec![in alloc; 0; problem.atoms.len()]?,
            steps: 0,
        })
    }

    /// Finds the facts that must be found again.
    pub fn refresh(&mut self, problem: &Problem<'_>) {
        for (column, _) in problem.columns.iter().enumerate() {
            if is_at(&self.stale, column) {
                self.infer(problem, column);
                put(&mut self.stale, column, false);
            }
        }
    }

    /// Finds the facts of a column, and which values they allow for each of its atoms.
    fn infer(&mut self, problem: &Problem<'_>, column: usize) {
        self.charge_steps(problem.breadth_of(column));
        self.facts.find(problem, &self.known, column);
        for atom in problem.atoms_of(column) {
            if let Some(plain) = problem.atom(*atom) {
                let mask = self.facts.expected(&self.known, *atom, plain);
                put(&mut self.likely, *atom, mask);
            }
        }
    }

    /// Sets the atom's values to these. The facts stay valid if they already allowed only this value.
    fn take(&mut self, problem: &Problem<'_>, atom: usize, mask: Mask, is_forced: bool) {
        put(&mut self.known, atom, mask);
        if let (false, Some(plain)) = (is_forced, problem.atom(atom)) {
            put(&mut self.stale, plain.column, true);
        }
    }

    /// Sets the atom's value to this one, which may be the only value that the facts allow.
    pub fn decide(&mut self, problem: &Problem<'_>, atom: usize, value: Tri, is_forced: bool) {
        self.take(problem, atom, Mask::single(value), is_forced);
    }

    /// Forgets the atom's value.
    pub fn forget(&mut self, problem: &Problem<'_>, atom: usize, is_forced: bool) {
        if let Some(plain) = problem.atom(atom) {
            self.take(problem, atom, open(&plain.kind), is_forced);
        }
    }

    /// Takes this many steps from what the search may take.
    pub fn charge_steps(&mut self, steps: u64) {
        self.steps = self.steps.saturating_add(steps);
    }

    /// Whether the share was closed before the last of this number of splits.
    fn was_closed(&self, share: usize, splits: usize) -> bool {
        match self.closed_after.get(share) {
            None => true,
            Some(closed) => *closed < splits,
        }
    }

    /// Finds what the path with this number of splits says about each condition, and which ones are live.
    pub fn follow(&mut self, problem: &Problem<'_>, splits: usize) {
        self.live.fill(false);
        for (number, share) in problem.shares.iter().enumerate() {
            if !self.was_closed(number, splits) {
                self.follow_share(problem, *share);
                let is_closed = outcome_at(&self.implied, share.root()) == Outcome::Missed;
                let closed = if is_closed { splits } else { usize::MAX };
                put(&mut self.closed_after, number, closed);
            }
        }
    }

    fn follow_share(&mut self, problem: &Problem<'_>, share: ShareFormula) {
        self.charge_steps(share.size().saturating_mul(2));
        evaluate(&problem.conditions, share, &self.known, &mut self.implied);
        put(&mut self.live, share.root(), true);
        mark_live(&problem.conditions, share, &self.implied, &mut self.live);
    }

    /// Finds what is known about each share, from what was found about the path.
    pub fn classify(&mut self, problem: &Problem<'_>) {
        for (number, share) in problem.shares.iter().enumerate() {
            if outcome_at(&self.implied, share.root()) != Outcome::Missed {
                self.expect(problem, *share);
            }
            let standing = self.standing(*share);
            put(&mut self.standings, number, standing);
        }
    }

    /// Finds what the facts say about each condition of the share.
    fn expect(&mut self, problem: &Problem<'_>, share: ShareFormula) {
        self.charge_steps(share.size());
        for place in share.start..share.end {
            if let Some(condition) = problem.conditions.get(place) {
                let outcome = self.expected_at(*condition, place);
                put(&mut self.expected, place, outcome);
            }
        }
    }

    fn expected_at(&self, condition: Condition, place: usize) -> Outcome {
        if is_at(&self.live, place) {
            outcome_of(condition, &self.likely, &self.expected)
        } else {
            outcome_at(&self.implied, place)
        }
    }

    fn standing(&self, share: ShareFormula) -> Standing {
        let implied = outcome_at(&self.implied, share.root());
        match (implied, outcome_at(&self.expected, share.root())) {
            (Outcome::Missed, _) => Standing::Closed,
            (_, Outcome::Missed) => Standing::Excluded,
            (_, Outcome::Met) => Standing::Sure,
            (_, Outcome::Open) => Standing::Undecided,
        }
    }

    /// The standing of the share with this number.
    pub fn standing_of(&self, share: usize) -> Standing {
        self.standings
            .get(share)
            .copied()
            .unwrap_or(Standing::Closed)
    }

    /// How many shares have this standing.
    pub fn how_many(&self, standing: Standing) -> usize {
        let mut found = 0usize;
        for held in &self.standings {
            if *held == standing {
                found = found.saturating_add(1);
            }
        }
        found
    }

    /// The number of the first share that has this standing, if there is one.
    pub fn first(&self, standing: Standing) -> Option<usize> {
        for (share, held) in self.standings.iter().enumerate() {
            if *held == standing {
                return Some(share);
            }
        }
        None
    }

    /// Whether the atom has one value on the path.
    pub fn is_known(&self, atom: usize) -> bool {
        is_settled(mask_at(&self.known, atom))
    }

    /// Whether the facts allow the atom only one value, which it does not have on the path.
    pub fn is_forced(&self, atom: usize) -> bool {
        !self.is_known(atom) && is_settled(mask_at(&self.likely, atom))
    }
}
