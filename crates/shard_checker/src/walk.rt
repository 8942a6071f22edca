//! The walk over the nodes of a certificate, in the order in which it is written.

ghost use Rattle.std.specs.Prelude.{◌≡◌, ◌<◌, ◌++◌, ◌∷◌, [], None, false, length, slice_get, OnOk, IfOk, MatchOption};
ghost use Rattle.std.specs.Option.{option_map};
ghost use Rattle.filter_tree.specs.Paths.{path_view};
ghost use Rattle.split_cert.specs.Nodes.{nodes_in, preorder};
ghost use Rattle.split_cert.specs.Where.{tree_view};
ghost use Rattle.shard_checker.specs.Checks.{Checks, Defers, error_of};
ghost use Rattle.shard_checker.specs.WalkInvariants.{GoesBack, Prepared, WalkAgrees};
ghost use Rattle.shard_checker.specs.Refusal as refusal;
ghost use Rattle.shard_checker.specs.Refusal.{earliest, subject_view};
ghost use Rattle.shard_checker.specs.Candidates.{is_empty};
ghost use Rattle.shard_checker.specs.Walking as spec;

use crate::claims::{Claims, check_claims};
use crate::error::CheckError;
use crate::known::Known;
use crate::masks::mask_at;
use crate::nodes::{check_empty, check_never_null, check_split};
use crate::remaining::Remaining;
use crate::subject::{Subject, atom_at};
use filter_tree::{Atom, Tri};
use split_cert::{Cert, Node, NodeReader};
use std::alloc::{AllocError, Allocator, Global};

/// The state of the walk before the next node of a certificate. `path` has the atoms of the splits on the way to it,
/// each with its value there. `node` is its number, which stops at `usize::MAX`.
#[derive(Drop)]
pub struct Walk<'a, A: Allocator> {
    pub path: Vec<(&'a Atom<A>, Tri)>,
    /// What the path says about the atoms.
    pub known: Known,
    /// The owners' nodes that are still to be checked.
    pub claims: Claims,
    /// What is left for the terms.
    pub remaining: Remaining,
    pub node: usize,
    /// Whether no node is expected.
    pub is_over: bool,
}

/// A walk before the first node.
pub fn begin<'a, A: Allocator>(
    alloc: Global,
    subject: &Subject<'a, A>,
) -> Result<Walk<'a, A>, AllocError>
    requires { Prepared subject.now }
    ensures place { IfOk result (λ walk. spec.place_of subject.now walk ≡ spec.beginning) }
    ensures ready { IfOk result (λ walk. WalkAgrees subject.now walk) }
{
    let known = Known::new(alloc, subject.atoms)?;
    let claims = Claims::new(alloc, &known.atoms)?;
    Ok(Walk {
        path: Vec::new(alloc),
        known,
        claims,
        remaining: Remaining::new(alloc, subject.candidates.count)?,
        node: 0,
        is_over: false,
    })
}

/// The number of the node after this one; numbers stop at the greatest number.
fn next(node: usize) -> usize
    ensures { result ≡ refusal.later node 1 }
{
    node.saturating_add(1)
}

/// Adds the atom with its value at the end of the path.
fn extend<'a, A: Allocator>(
    path: &mut Vec<(&'a Atom<A>, Tri)>,
    atom: &'a Atom<A>,
    value: Tri,
) -> Result<(), AllocError>
    ensures { OnOk result (path.new.items ≡ path.old.items ++ (atom.entry, value) ∷ []) }
{
    path.push((atom, value))?;
    Ok(())
}

/// Enters the branch of a split by the atom with this number in which the atom has the value.
#[tactic(auto, using(crate::proofs::WalkInvariantLemmas::entering))]
fn enter<'a, A: Allocator>(
    subject: &Subject<'a, A>,
    walk: &mut Walk<'a, A>,
    number: u32,
    value: Tri,
) -> Result<(), AllocError>
    requires due { walk.old.is_over ≡ false }
    requires ready { WalkAgrees subject.now walk.old }
    ensures path { OnOk result (spec.path_of walk.new ≡ option_map
        (λ atom. path_view walk.old.path.items ++ (atom, value) ∷ [])
        (slice_get (subject_view subject.now).atoms number)) }
    ensures node { walk.new.node ≡ walk.old.node }
    ensures same { OnOk result (spec.due_of subject.now walk.new ≡ spec.due_of subject.now walk.old) }
    ensures ready { OnOk result (WalkAgrees subject.now walk.new) }
{
    match atom_at(subject.atoms, number) {
        None => walk.is_over = true,
        Some(atom) => {
            walk.known.learn(number, value)?;
            let mask = mask_at(&walk.known.atoms, number as usize);
            walk.claims.record(number as usize, mask);
            walk.remaining
                .keep(&subject.candidates.of_atoms[number as usize], value)?;
            extend(&mut walk.path, atom, value)?;
        }
    }
    Ok(())
}

/// Removes the last entry from the path, and returns its atom's number and its value.
#[tactic(auto, using(crate::proofs::WalkInvariantLemmas::returning))]
fn go_back<'a, A: Allocator>(subject: &Subject<'a, A>, walk: &mut Walk<'a, A>) -> Option<(u32, Tri)>
    requires { WalkAgrees subject.now walk.old }
    ensures ready { WalkAgrees subject.now walk.new }
    ensures path { MatchOption result (path_view walk.old.path.items ≡ [])
        (λ last. GoesBack (subject_view subject.now).atoms (path_view walk.old.path.items)
        (path_view walk.new.path.items) last.0 last.1) }
    ensures node { walk.new.node ≡ walk.old.node }
    ensures due { walk.new.is_over ≡ walk.old.is_over }
    ensures same { spec.due_of subject.now walk.new ≡ spec.due_of subject.now walk.old }
{
    let (_, value) = walk.path.pop()?;
    let before = walk.known.take_back()?;
    walk.claims.record(before.number as usize, before.mask);
    walk.remaining.restore();
    Some((before.number, value))
}

/// Leaves a node that is not a split: goes to the next branch of the last split that has one, or ends if none has.
#[tactic(auto, using(crate::proofs::WalkInvariantLemmas::leaving))]
fn leave<'a, A: Allocator>(
    subject: &Subject<'a, A>,
    walk: &mut Walk<'a, A>,
) -> Result<(), AllocError>
    requires due { walk.old.is_over ≡ false }
    requires ready { WalkAgrees subject.now walk.old }
    ensures path { OnOk result (spec.path_of walk.new ≡ spec.onward (path_view walk.old.path.items)) }
    ensures node { walk.new.node ≡ walk.old.node }
    ensures same { OnOk result (spec.due_of subject.now walk.new ≡ spec.due_of subject.now walk.old) }
    ensures ready { OnOk result (WalkAgrees subject.now walk.new) }
{
    while let Some((number, value)) = go_back(subject, walk) {
        match value {
            Tri::True => return enter(subject, walk, number, Tri::False),
            Tri::False => return enter(subject, walk, number, Tri::Null),
            Tri::Null => {}
        }
    }
    walk.is_over = true;
    Ok(())
}

/// Moves the walk to the node after this one.
fn step<'a, A: Allocator>(
    subject: &Subject<'a, A>,
    walk: &mut Walk<'a, A>,
    node: Node,
) -> Result<(), AllocError>
    requires due { walk.old.is_over ≡ false }
    requires ready { WalkAgrees subject.now walk.old }
    ensures path { OnOk result (spec.path_of walk.new
        ≡ spec.path_after (subject_view subject.now) node (path_view walk.old.path.items)) }
    ensures node { walk.new.node ≡ walk.old.node }
    ensures same { OnOk result (spec.due_of subject.now walk.new ≡ spec.due_of subject.now walk.old) }
    ensures ready { OnOk result (WalkAgrees subject.now walk.new) }
{
    match node {
        Node::Split(number) => enter(subject, walk, number, Tri::True),
        Node::Owner(_) | Node::Empty(_) | Node::NeverNull(_) => leave(subject, walk),
    }
}

/// Checks the owners' nodes that wait to be checked.
pub fn check_waiting<A: Allocator>(
    subject: &Subject<'_, A>,
    walk: &mut Walk<'_, A>,
) -> Result<(), CheckError>
    requires { WalkAgrees subject.now walk.old }
    ensures refusal { Checks (spec.due_of subject.now walk.old) result }
    ensures none { OnOk result (spec.due_of subject.now walk.new ≡ None) }
    ensures room { OnOk result (walk.new.claims.list.items ≡ []) }
    ensures ready { OnOk result (WalkAgrees subject.now walk.new) }
    ensures path { walk.new.path.items ≡ walk.old.path.items }
    ensures node { walk.new.node ≡ walk.old.node }
    ensures over { walk.new.is_over ≡ walk.old.is_over }
{
    check_claims(subject, &mut walk.claims)?;
    walk.claims.restart(&walk.known.atoms)?;
    Ok(())
}

/// Adds an owner's node to those that wait, for which there is room.
#[tactic(auto, using(crate::proofs::WalkInvariantLemmas::claiming))]
fn wait<A: Allocator>(
    subject: &Subject<'_, A>,
    walk: &mut Walk<'_, A>,
    number: u32,
) -> Result<(), AllocError>
    requires ready { WalkAgrees subject.now walk.old }
    requires room { length walk.old.claims.list.items < 64 }
    ensures due { OnOk result (spec.due_of subject.now walk.new ≡ earliest (spec.due_of subject.now walk.old)
        (spec.node_refusal is_empty (subject_view subject.now) (Node.Owner number) (path_view walk.old.path.items)
        walk.old.node)) }
    ensures ready { OnOk result (WalkAgrees subject.now walk.new) }
    ensures path { walk.new.path.items ≡ walk.old.path.items }
    ensures node { walk.new.node ≡ walk.old.node }
    ensures over { walk.new.is_over ≡ walk.old.is_over }
{
    walk.claims.add(walk.node, number)?;
    Ok(())
}

/// Adds an owner's node to those that wait, after these were checked if there is no room.
fn check_later<A: Allocator>(
    subject: &Subject<'_, A>,
    walk: &mut Walk<'_, A>,
    number: u32,
) -> Result<(), CheckError>
    requires { WalkAgrees subject.now walk.old }
    ensures refusal { Defers (earliest (spec.due_of subject.now walk.old) (spec.node_refusal is_empty
        (subject_view subject.now) (Node.Owner number) (path_view walk.old.path.items) walk.old.node))
        (spec.due_of subject.now walk.new) result }
    ensures ready { OnOk result (WalkAgrees subject.now walk.new) }
    ensures path { walk.new.path.items ≡ walk.old.path.items }
    ensures node { walk.new.node ≡ walk.old.node }
    ensures over { walk.new.is_over ≡ walk.old.is_over }
{
    if walk.claims.is_full() {
        check_waiting(subject, walk)?;
    }
    wait(subject, walk, number)?;
    Ok(())
}

/// The result of the check of a node; if it is an error, the owners' nodes before it are checked first.
fn after_waiting<A: Allocator>(
    subject: &Subject<'_, A>,
    walk: &mut Walk<'_, A>,
    found: Result<(), CheckError>,
) -> Result<(), CheckError>
    requires { WalkAgrees subject.now walk.old }
    ensures refusal { Defers (earliest (spec.due_of subject.now walk.old) (error_of found))
        (spec.due_of subject.now walk.new) result }
    ensures ready { OnOk result (WalkAgrees subject.now walk.new) }
    ensures path { walk.new.path.items ≡ walk.old.path.items }
    ensures node { walk.new.node ≡ walk.old.node }
    ensures over { walk.new.is_over ≡ walk.old.is_over }
{
    if let Err(error) = found {
        check_waiting(subject, walk)?;
        return Err(error);
    }
    Ok(())
}

/// Checks a node at the end of a path, without a split's branches.
fn check_node<A: Allocator>(
    subject: &Subject<'_, A>,
    walk: &mut Walk<'_, A>,
    node: Node,
) -> Result<(), CheckError>
    requires { WalkAgrees subject.now walk.old }
    ensures refusal { Defers (earliest (spec.due_of subject.now walk.old) (spec.node_refusal is_empty
        (subject_view subject.now) node (path_view walk.old.path.items) walk.old.node))
        (spec.due_of subject.now walk.new) result }
    ensures ready { OnOk result (WalkAgrees subject.now walk.new) }
    ensures path { walk.new.path.items ≡ walk.old.path.items }
    ensures node { walk.new.node ≡ walk.old.node }
    ensures over { walk.new.is_over ≡ walk.old.is_over }
{
    let found = match node {
        Node::Owner(number) => return check_later(subject, walk, number),
        Node::Split(number) => check_split(subject, walk.node, number),
        Node::Empty(number) => check_empty(subject, walk, number),
        Node::NeverNull(number) => check_never_null(subject, walk, number),
    };
    after_waiting(subject, walk, found)
}

/// Checks the node that is expected, and moves the walk to the one after it.
#[tactic(auto, using(crate::proofs::WalkLemmas::steps))]
fn visit<'a, A: Allocator>(
    subject: &Subject<'a, A>,
    walk: &mut Walk<'a, A>,
    node: Node,
) -> Result<(), CheckError>
    requires { WalkAgrees subject.now walk.old }
    ensures walks { spec.Walks is_empty (subject_view subject.now) (node ∷ []) (spec.place_of subject.now walk.old)
        (spec.place_of subject.now walk.new) result }
    ensures ready { OnOk result (WalkAgrees subject.now walk.new) }
{
    if walk.is_over {
        return Ok(());
    }
    check_node(subject, walk, node)?;
    walk.node = next(walk.node);
    step(subject, walk, node)?;
    Ok(())
}

/// Walks over the branches of a split.
#[cycle(tree)]
#[tactic(auto, using(crate::proofs::WalkLemmas::trees))]
fn visit_branches<'a, A: Allocator, B: Allocator>(
    subject: &Subject<'a, A>,
    walk: &mut Walk<'a, A>,
    if_true: &Cert<B>,
    if_false: &Cert<B>,
    if_null: &Cert<B>,
) -> Result<(), CheckError>
    requires { WalkAgrees subject.now walk.old }
    ensures walks { spec.Walks is_empty (subject_view subject.now)
        (preorder (tree_view if_true.now) ++ preorder (tree_view if_false.now) ++ preorder (tree_view if_null.now))
        (spec.place_of subject.now walk.old)
        (spec.place_of subject.now walk.new) result }
    ensures ready { OnOk result (WalkAgrees subject.now walk.new) }
{
    visit_tree(subject, walk, if_true)?;
    visit_tree(subject, walk, if_false)?;
    visit_tree(subject, walk, if_null)?;
    Ok(())
}

/// Walks over the nodes of a tree.
#[cycle(tree)]
#[tactic(auto, using(crate::proofs::WalkLemmas::trees))]
pub fn visit_tree<'a, A: Allocator, B: Allocator>(
    subject: &Subject<'a, A>,
    walk: &mut Walk<'a, A>,
    tree: &Cert<B>,
) -> Result<(), CheckError>
    requires { WalkAgrees subject.now walk.old }
    ensures walks { spec.Walks is_empty (subject_view subject.now) (preorder (tree_view tree.now))
        (spec.place_of subject.now walk.old)
        (spec.place_of subject.now walk.new) result }
    ensures ready { OnOk result (WalkAgrees subject.now walk.new) }
{
    match tree {
        Cert::Split(atom, if_true, if_false, if_null) => {
            visit(subject, walk, Node::Split(*atom))?;
            visit_branches(subject, walk, if_true, if_false, if_null)?;
            Ok(())
        }
        Cert::Owner(subscriber) => visit(subject, walk, Node::Owner(*subscriber)),
        Cert::Empty(term) => visit(subject, walk, Node::Empty(*term)),
        Cert::NeverNull(atom) => visit(subject, walk, Node::NeverNull(*atom)),
    }
}

/// The next node of a text; `None` if no node follows.
fn next_node(reader: &mut NodeReader<'_>) -> Option<Node>
    ensures { MatchOption result (reader.old.nodes ≡ [])
        (λ node. reader.old.nodes ≡ node ∷ reader.new.nodes) }
{
    match reader.next() {
        Ok(node) => node,
        Err(_) => None,
    }
}

/// Walks over the nodes of a text, as far as it has them before its end or its first fault.
#[tactic(auto, using(crate::proofs::WalkLemmas::texts))]
pub fn visit_text<'a, A: Allocator>(
    subject: &Subject<'a, A>,
    walk: &mut Walk<'a, A>,
    text: &str,
) -> Result<(), CheckError>
    requires { WalkAgrees subject.now walk.old }
    ensures walks { spec.Walks is_empty (subject_view subject.now) (nodes_in text.now).nodes
        (spec.place_of subject.now walk.old) (spec.place_of subject.now walk.new) result }
    ensures ready { OnOk result (WalkAgrees subject.now walk.new) }
{
    let mut reader = NodeReader::new(text);
    loop {
        match next_node(&mut reader) {
            None => return Ok(()),
            Some(node) => visit(subject, walk, node)?,
        }
    }
}
