//! Filters as one list of steps, in which each part of a filter is a step.

ghost use Rattle.std.specs.Prelude.{◌≡◌, [], IfOk, IfSome, IsTrue, true, slice_get};
ghost use Rattle.std.specs.List.{list_any};
ghost use Rattle.filter_tree.specs.Same.{same_atom};
ghost use Rattle.filter_tree.specs.Shape.{atom_view, atoms_view, expr_view};
ghost use Rattle.shard_checker.specs.Steps as spec;

use filter_tree::{Atom, Filter, Test, same_atom};
use std::alloc::{AllocError, Allocator, Global};

/// A filter whose parts are identified by the numbers of their steps, and whose atom is identified by its own number.
#[derive(Clone, Copy, Debug, PartialEq, Eq)]
pub enum FormulaNode {
    Const(bool),
    Atom(usize),
    Not(usize),
    And(usize, usize),
    Or(usize, usize),
    Is(Test, usize),
}

/// The number of the atom, which is one of these.
fn number_of<A: Allocator>(atoms: &[&Atom<A>], atom: &Atom<A>) -> usize
    requires { list_any (same_atom (atom_view atom.now)) (atoms_view atoms.now) ≡ true }
    ensures { slice_get (atoms_view atoms.now) result ≡ Some (atom_view atom.now) }
{
    for (number, found) in atoms.iter().enumerate() {
        if same_atom(atom, *found) {
            return number;
        }
    }
    unreachable!()
}

/// Steps, each of them once, and an index by which they are found again.
#[derive(Drop)]
pub struct Steps {
    pub list: Vec<FormulaNode>,
    /// For each key, the last step with that key.
    latest: Vec<usize>,
    /// For each step, the last step before it with the same key.
    earlier: Vec<usize>,
}

/// The number that means that there is no step.
const NO_STEP: usize = usize::MAX;

/// The number at a place, or `NO_STEP`.
fn number_at(numbers: &[usize], place: usize) -> usize {
    numbers.get(place).copied().unwrap_or(NO_STEP)
}

/// Whether the step has this number.
fn is_at(list: &[FormulaNode], number: usize, step: FormulaNode) -> bool
    ensures { IsTrue result → slice_get list.now number ≡ Some step }
{
    match list.get(number) {
        None => false,
        Some(held) => *held == step,
    }
}

/// A number that equal steps share, and few others: the number of the atom, or of the last part.
fn key_of(step: FormulaNode) -> usize {
    match step {
        FormulaNode::Const(_) => 0,
        FormulaNode::Atom(part) | FormulaNode::Not(part) | FormulaNode::Is(_, part) => part,
        FormulaNode::And(left, right) | FormulaNode::Or(left, right) => left.max(right),
    }
}

impl Steps {
    /// No steps, for filters that have this number of atoms.
    pub fn new(alloc: Global, atoms: usize) -> Result<Steps, AllocError>
        ensures { IfOk result (λ steps. steps.list.items ≡ []) }
    {
        Ok(Steps {
            list: Vec::new(alloc),
            latest: vec![in alloc; NO_STEP; atoms]?,
            earlier: Vec::new(alloc),
        })
    }

    /// The number of the step, if it exists.
    fn find(&self, step: FormulaNode) -> Option<usize>
        ensures { IfSome result (λ number. slice_get self.now.list.items number ≡ Some step) }
    {
        let mut number = number_at(&self.latest, key_of(step));
        while number < self.list.len() {
            if is_at(&self.list, number, step) {
                return Some(number);
            }
            let earlier = number_at(&self.earlier, number);
            if earlier >= number {
                return None;
            }
            number = earlier;
        }
        None
    }

    /// Adds the step at the end.
    #[tactic(auto, using(crate::proofs::StepLemmas::adding))]
    fn push(&mut self, step: FormulaNode) -> Result<usize, AllocError>
        ensures { IfOk result (λ number. spec.Adds self.old.list.items self.new.list.items number step) }
    {
        let number = self.list.len();
        let key = key_of(step);
        self.list.push(step)?;
        self.latest.push(NO_STEP)?;
        self.earlier.push(number_at(&self.latest, key))?;
        if let Some(latest) = self.latest.get_mut(key) {
            *latest = number;
        }
        Ok(number)
    }

    /// Adds the step to the others, unless it exists, and returns its number.
    #[tactic(auto, using(crate::proofs::StepLemmas::adding))]
    pub fn add(&mut self, step: FormulaNode) -> Result<usize, AllocError>
        ensures { IfOk result (λ number. spec.Adds self.old.list.items self.new.list.items number step) }
    {
        match self.find(step) {
            Some(number) => Ok(number),
            None => self.push(step),
        }
    }
}

/// Adds the parts of the filter to the steps, and returns the number of the filter's own step.
#[tactic(auto, using(crate::proofs::StepLemmas::compiling))]
pub fn compile<A: Allocator>(
    atoms: &[&Atom<A>],
    steps: &mut Steps,
    filter: &Filter<A>,
) -> Result<usize, AllocError>
    requires { spec.names_only (atoms_view atoms.now) (expr_view filter.now) ≡ true }
    ensures { IfOk result (λ number. spec.Compiles (atoms_view atoms.now) steps.old.list.items steps.new.list.items
        number (expr_view filter.now)) }
{
    match filter {
        Filter::Const(known) => steps.add(FormulaNode::Const(*known)),
        Filter::Atom(atom) => steps.add(FormulaNode::Atom(number_of(atoms, atom))),
        Filter::Not(part) => {
            let part = compile(atoms, steps, part)?;
            steps.add(FormulaNode::Not(part))
        }
        Filter::And(left, right) => {
            let left = compile(atoms, steps, left)?;
            let right = compile(atoms, steps, right)?;
            steps.add(FormulaNode::And(left, right))
        }
        Filter::Or(left, right) => {
            let left = compile(atoms, steps, left)?;
            let right = compile(atoms, steps, right)?;
            steps.add(FormulaNode::Or(left, right))
        }
        Filter::Is(test, part) => {
            let test = *test;
            let part = compile(atoms, steps, part)?;
            steps.add(FormulaNode::Is(test, part))
        }
    }
}
