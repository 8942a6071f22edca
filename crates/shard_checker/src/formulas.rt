//! The filters of a table's shares as steps.

ghost use Rattle.std.specs.Prelude.{◌≡◌, ◌++◌, ◌∷◌, [], true, List, slice_get, IfOk, OnOk};
ghost use Rattle.filter_tree.specs.Shape.{atoms_view};
ghost use Rattle.replica_identity.specs.Shares.{ShareOf, share_view};
ghost use Rattle.shard_checker.specs.Owners.{shares_view};
ghost use Rattle.shard_checker.specs.Steps as spec;

use crate::steps::{FormulaNode, Steps, compile};
use filter_tree::Atom;
use replica_identity::Share;
use std::alloc::{AllocError, Allocator, Global};

/// The filters of the shares of a table as steps, and for each share the number of its filter's own step.
#[derive(Drop)]
pub struct Formulas {
    pub steps: Steps,
    pub roots: Vec<usize>,
}

/// Puts the filter of the share among the steps; nothing passes FALSE, and every row passes TRUE.
#[tactic(auto, using(crate::proofs::StepLemmas::compiling))]
fn compile_share<A: Allocator>(
    atoms: &[&Atom<A>],
    steps: &mut Steps,
    share: &Share<A>,
) -> Result<usize, AllocError>
    requires { spec.names_only (atoms_view atoms.now) (spec.filter_of (share_view share.now)) ≡ true }
    ensures { IfOk result (λ number. spec.Compiles (atoms_view atoms.now) steps.old.list.items steps.new.list.items
        number (spec.filter_of (share_view share.now))) }
{
    match share {
        Share::Nothing => steps.add(FormulaNode::Const(false)),
        Share::Everything => steps.add(FormulaNode::Const(true)),
        Share::Where(filter) => compile(atoms, steps, filter),
    }
}

/// Adds one more share after the existing ones.
#[tactic(auto, using(crate::proofs::StepLemmas::filters_more))]
fn add_share<A: Allocator>(
    atoms: &[&Atom<A>],
    formulas: &mut Formulas,
    share: &Share<A>,
) -> Result<(), AllocError>
    requires { spec.names_only (atoms_view atoms.now) (spec.filter_of (share_view share.now)) ≡ true }
    ensures { OnOk result ((shares : List ShareOf) → spec.IsCompiled (atoms_view atoms.now) shares formulas.old
        → spec.IsCompiled (atoms_view atoms.now) (shares ++ share_view share.now ∷ []) formulas.new) }
{
    let root = compile_share(atoms, &mut formulas.steps, share)?;
    formulas.roots.push(root)?;
    Ok(())
}

/// The number of the step of this share's filter.
pub fn root_at(roots: &[usize], number: u32) -> Option<usize>
    ensures { result ≡ slice_get roots.now number }
{
    roots.get(number as usize).copied()
}

/// The filters of the shares as steps. The only error is out of memory.
#[tactic(auto, using(crate::proofs::StepLemmas::sharing))]
pub fn formulas_of<A: Allocator>(
    alloc: Global,
    atoms: &[&Atom<A>],
    shares: &[&Share<A>],
) -> Result<Formulas, AllocError>
    requires { spec.all_name_only (atoms_view atoms.now) (shares_view shares.now) ≡ true }
    ensures { IfOk result (λ formulas. spec.IsCompiled (atoms_view atoms.now) (shares_view shares.now) formulas) }
{
    let mut formulas = Formulas {
        steps: Steps::new(alloc, atoms.len())?,
        roots: Vec::new(alloc),
    };
    for share in shares {
        add_share(atoms, &mut formulas, *share)?;
    }
    Ok(formulas)
}
