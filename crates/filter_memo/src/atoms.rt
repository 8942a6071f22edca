//! The atoms of filters, and what is known of their values.

ghost use Rattle.std.specs.Prelude.{◌≡◌, List, Option, Some, slice_get, IfOk, IfSome};
ghost use Rattle.filter_tree.specs.Datum.{Datum};
ghost use Rattle.filter_tree.specs.Expr.{Expr, meaning};
ghost use Rattle.filter_memo.specs.Atoms as spec;
ghost use Rattle.filter_memo.specs.Plans.{filters_view};

use crate::all_breakpoints::{all_breakpoints_of, are_evaluated, cell_counts};
use crate::branches::run;
use crate::breakpoints::Breakpoints;
use crate::parts::parts_of;
use crate::plan::{Plan, plan_of};
use crate::said::Said;
use crate::telling::{Cells, locate_all};
use filter_tree::{Filter, Row, Tri};
use std::alloc::{AllocError, Global};

/// The atoms of filters, up to 64. Their values for a row determine the value of each filter.
#[derive(Drop)]
pub struct Atoms {
    pub parts: Vec<Filter>,
    pub plan: Plan,
    pub all_breakpoints: Vec<Breakpoints>,
    pub cells: Cells,
    pub is_used: bool,
}

fn start_at(starts: &[usize], number: usize) -> Option<usize>
    ensures { IfSome result (λ start. slice_get starts.now number ≡ Some start) }
{
    starts.get(number).copied()
}

impl Atoms {
    /// Atoms that are not used, and answer nothing.
    #[tactic(auto, using(crate::proofs::AtomLemmas::unused))]
    fn unused(alloc: Global) -> Atoms
        ensures { (filters : List (Option Expr)) → spec.IsAtomsOf filters result }
    {
        Atoms {
            parts: Vec::new(alloc),
            plan: Plan {
                branches: Vec::new(alloc),
                starts: Vec::new(alloc),
            },
            all_breakpoints: Vec::new(alloc),
            cells: Cells {
                buckets: Vec::new(alloc),
                intervals: Vec::new(alloc),
            },
            is_used: false,
        }
    }

    /// The atoms of these filters. They are not used if there are more than 64. The only error is out of memory.
    pub fn new(alloc: Global, filters: &[Option<&Filter>]) -> Result<Atoms, AllocError>
        ensures { IfOk result (spec.IsAtomsOf (filters_view filters.now)) }
    {
        let parts = parts_of(alloc, filters)?;
        let Some(plan) = plan_of(alloc, &parts, filters)? else {
            return Ok(Atoms::unused(alloc));
        };
        let all_breakpoints = all_breakpoints_of(alloc, &parts)?;
        if !are_evaluated(&all_breakpoints, parts.len()) {
            return Ok(Atoms::unused(alloc));
        }
        let counts = cell_counts(&all_breakpoints);
        let cells = Cells::new(alloc, counts.buckets, counts.intervals)?;
        Ok(Atoms {
            parts,
            plan,
            all_breakpoints,
            cells,
            is_used: true,
        })
    }

    /// Whether the atoms are used. If not, `locate` says nothing of a row.
    pub fn are_used(&self) -> bool
        ensures { result ≡ self.now.is_used }
    {
        self.is_used
    }

    /// Evaluates the atoms for a row. It allocates no memory. The values of other rows stay as they were.
    pub fn locate(&mut self, row: &Row) -> Said
        ensures atoms { (filters : List (Option Expr))
            → spec.IsAtomsOf filters self.old → spec.IsAtomsOf filters self.new }
        ensures located { (filters : List (Option Expr))
            → spec.IsAtomsOf filters self.old → spec.Locates self.new row.now result }
        ensures same { spec.LocateAlike self.old self.new }
    {
        locate_all(&mut self.cells, &self.parts, &self.all_breakpoints, row)
    }

    /// The value of a filter, given by its number, for the rows whose atoms have these values. If it is `None`, the
    /// caller has to evaluate the filter.
    pub fn answer(&self, said: Said, number: usize) -> Option<Tri>
        ensures { IfSome result (λ answer. (filters : List (Option Expr)) (row : List Datum) (filter : Expr)
            → spec.IsAtomsOf filters self.now → spec.Locates self.now row said
            → slice_get filters number ≡ Some (Some filter) → answer ≡ meaning filter row) }
    {
        if !self.is_used {
            return None;
        }
        let start = start_at(&self.plan.starts, number)?;
        run(&self.plan.branches, start, said)
    }
}
