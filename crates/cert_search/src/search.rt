//! The search for a certificate, from the root, and for a row if there is no certificate.

use crate::choices::choices;
use crate::conditions::{Outcome, outcome_at};
use crate::masks::{is_settled, mask_at};
use crate::parts::{Parts, Shape};
use crate::problem::Problem;
use crate::rows::{counter_of, simple_counter};
use crate::state::{SearchState, Standing};
use crate::stop::Stop;
use bumpalo::Bump;
use filter_tree::{Mask, Row, Table, Tri};
use replica_identity::Share;
use shard_checker::{numbered_atoms, numbered_terms};
use split_cert::{Cert, MAX_SPLITS};
use std::alloc::{AllocError, Global};

/// The most steps of a search. A step is a look at a condition of a share's filter, or at an atom, a term, a column or
/// a class of numbers that the atoms of a term do not distinguish.
pub const MAX_STEPS: u64 = 200_000_000;

/// The least cost of a node, in steps.
const NODE_STEPS: u64 = 100;

/// A split by an atom, and the values that the facts allow for it. If it has another value, no number is left for the
/// term.
#[derive(Clone, Copy)]
struct Fork {
    atom: usize,
    left: Mask,
    is_never_null: bool,
    term: usize,
}

/// What to do at a node.
#[derive(Clone, Copy)]
enum SearchMove {
    Owner(usize),
    Split(Fork),
    /// The facts leave rows that no share takes, or that several take.
    Fault,
}

/// A search for a certificate of a table.
#[derive(Drop)]
struct Search<'a, 'q> {
    alloc: Global,
    table: &'a Table,
    shares: &'a [&'a Share],
    problem: &'q Problem<'a>,
    /// After this number of steps the search visits no further node. Splits are chosen with care in the first half.
    most_steps: u64,
    state: SearchState,
    parts: Parts,
    /// A row that no share takes, or that several take.
    counter: Option<Row>,
}

impl<'a, 'q> Search<'a, 'q> {
    /// A search that has not begun.
    fn new(
        alloc: Global,
        table: &'a Table,
        shares: &'a [&'a Share],
        problem: &'q Problem<'a>,
        most_steps: u64,
    ) -> Result<Search<'a, 'q>, AllocError> {
        Ok(Search {
            alloc,
            table,
            shares,
            problem,
            most_steps,
            state: SearchState::new(alloc, problem)?,
            parts: Parts::new(alloc),
            counter: None,
        })
    }

    /// A certificate whose nodes are in the arena, if the search ends with one.
    fn find<'b>(&mut self, arena: &'b Bump) -> Result<Cert<&'b Bump>, Stop> {
        let root = self.grow(MAX_SPLITS)?;
        if self.parts.is_broken(root) {
            return Err(Stop::TooLong);
        }
        self.parts.certificate(arena, root)
    }

    /// A tree for the rows at the end of the path, to which at most `may_split` splits may still be added.
    #[cycle(tree)]
    fn grow(&mut self, may_split: usize) -> Result<usize, Stop> {
        if self.state.steps > self.most_steps {
            return Err(Stop::TooLong);
        }
        self.state.charge_steps(NODE_STEPS);
        self.state.refresh(self.problem);
        let splits = MAX_SPLITS.saturating_sub(may_split);
        self.state.follow(self.problem, splits);
        if !self.problem.has_several_columns {
            // Each path says something different about the column, so no key would be found again.
            return self.made(may_split);
        }
        let key = self.state.key(self.alloc, self.problem)?;
        if let Some(part) = self.parts.with_key(&key) {
            return Ok(part);
        }
        let part = self.made(may_split)?;
        self.parts.keep(key, part)?;
        Ok(part)
    }

    /// A new tree for the rows at the end of the path, after what is known there was found.
    #[cycle(tree)]
    fn made(&mut self, may_split: usize) -> Result<usize, Stop> {
        match self.next_move()? {
            SearchMove::Owner(share) => Ok(self.parts.add(Shape::Owner(share))?),
            SearchMove::Split(fork) => {
                if may_split == 0 {
                    return Err(Stop::TooLarge);
                }
                self.split(may_split - 1, fork)
            }
            SearchMove::Fault => self.fault(),
        }
    }

    #[cycle(tree)]
    fn split(&mut self, may_split: usize, fork: Fork) -> Result<usize, Stop> {
        // Rows with a null are overlooked most often, and this branch is the smallest.
        let if_null = self.branch(may_split, fork, Tri::Null)?;
        let if_true = self.branch(may_split, fork, Tri::True)?;
        let if_false = self.branch(may_split, fork, Tri::False)?;
        self.state
            .forget(self.problem, fork.atom, is_settled(fork.left));
        let split = Shape::Split(fork.atom, if_true, if_false, if_null);
        Ok(self.parts.add(split)?)
    }

    /// The tree of the branch in which the atom has this value; a leaf without rows if the facts do not allow it.
    #[cycle(tree)]
    fn branch(&mut self, may_split: usize, fork: Fork, value: Tri) -> Result<usize, Stop> {
        if !fork.left.has(value) {
            return Ok(self.parts.add(impossible(fork, value))?);
        }
        self.state
            .decide(self.problem, fork.atom, value, is_settled(fork.left));
        self.grow(may_split)
    }

    /// What to do at the end of the path.
    fn next_move(&mut self) -> Result<SearchMove, Stop> {
        self.state.classify(self.problem);
        let sure = self.state.how_many(Standing::Sure);
        let undecided = self.state.how_many(Standing::Undecided);
        if sure > 1 || (sure == 0 && undecided == 0) {
            return Ok(SearchMove::Fault);
        }
        if self.state.how_many(Standing::Excluded) > 0 {
            let atom = self.state.closing(self.alloc, self.problem)?;
            return self.split_by(atom);
        }
        if undecided > 0 {
            return self.halve();
        }
        self.settle()
    }

    /// A split by the atom, with the values that the facts allow for it. If there is no atom, the search ends.
    fn split_by(&self, atom: Option<usize>) -> Result<SearchMove, Stop> {
        let atom = atom.ok_or(Stop::TooLong)?;
        let plain = self.problem.atom(atom).ok_or(Stop::TooLong)?;
        Ok(SearchMove::Split(Fork {
            atom,
            left: mask_at(&self.state.likely, atom),
            is_never_null: plain.kind.is_never_null() || self.problem.is_declared(plain.column),
            term: self.state.facts.empty_term(plain),
        }))
    }

    /// A split by the atom that leaves the least to decide, or, after half of the steps, by one with the most open
    /// conditions.
    fn halve(&mut self) -> Result<SearchMove, Stop> {
        let with_care = self.state.steps <= self.most_steps / 2;
        let atom = self.state.halving(self.alloc, self.problem, with_care)?;
        self.split_by(atom)
    }

    /// What to do if the facts say that one share takes all rows, and the path that no other takes any: a leaf if the
    /// path says the former too; otherwise a split that helps to show it.
    fn settle(&mut self) -> Result<SearchMove, Stop> {
        let number = self.state.first(Standing::Sure).ok_or(Stop::TooLong)?;
        let share = self
            .problem
            .shares
            .get(number)
            .copied()
            .ok_or(Stop::TooLong)?;
        if outcome_at(&self.state.implied, share.root()) == Outcome::Met {
            return Ok(SearchMove::Owner(number));
        }
        let atom = self.state.settling(self.alloc, self.problem, share)?;
        self.split_by(atom)
    }

    /// Looks for a row here that no share takes, or that several take.
    fn fault(&mut self) -> Result<usize, Stop> {
        self.state.charge_steps(self.problem.breadth);
        if let Some(chosen) = choices(self.alloc, self.problem, &mut self.state)? {
            self.counter = counter_of(self.alloc, self.problem, self.table, self.shares, &chosen)?;
            if self.counter.is_some() {
                return Err(Stop::Counter);
            }
        }
        Ok(self.parts.add(Shape::Broken)?)
    }
}

/// A leaf without rows, since the facts do not allow this value for the atom.
fn impossible(fork: Fork, value: Tri) -> Shape {
    if value == Tri::Null && fork.is_never_null {
        Shape::NeverNull(fork.atom)
    } else {
        Shape::Empty(fork.term)
    }
}

/// The result of a search.
#[derive(Drop)]
pub enum Found<'b> {
    Cert(Cert<&'b Bump>),
    Row(Row),
    Unknown,
    TooLarge,
}

/// A row instead of a certificate: a simple one, or else the one that the search found.
fn row_instead<'b>(search: Search<'_, '_>, otherwise: Found<'b>) -> Result<Found<'b>, AllocError> {
    let simple = simple_counter(search.alloc, search.problem, search.table, search.shares)?;
    match (simple, search.counter) {
        (Some(row), _) | (None, Some(row)) => Ok(Found::Row(row)),
        (None, None) => Ok(otherwise),
    }
}

fn ended<'b>(mut search: Search<'_, '_>, arena: &'b Bump) -> Result<Found<'b>, AllocError> {
    match search.find(arena) {
        Ok(cert) => Ok(Found::Cert(cert)),
        Err(Stop::Counter | Stop::TooLong) => row_instead(search, Found::Unknown),
        Err(Stop::TooLarge) => row_instead(search, Found::TooLarge),
        Err(Stop::OutOfMemory) => Err(AllocError),
    }
}

/// Looks for a certificate of the table with these shares, and for a row that shows that there is none, in at most
/// about `most_steps` steps.
pub fn find_cert<'a, 'b>(
    alloc: Global,
    arena: &'b Bump,
    table: &'a Table,
    shares: &'a [&'a Share],
    most_steps: u64,
) -> Result<Found<'b>, AllocError> {
    let atoms = numbered_atoms(alloc, shares)?;
    let terms = numbered_terms(alloc, shares)?;
    let problem = Problem::new(alloc, table.columns.as_slice(), shares, &atoms, &terms)?;
    ended(
        Search::new(alloc, table, shares, &problem, most_steps)?,
        arena,
    )
}
