//! The limits on certificates that are read.

ghost use Rattle.std.specs.Prelude.{◌≡◌, ◌<◌, ◌≤◌, ◌+◌, ◌⊎◌, ◌↔◌, IfSome, IsNone, IsTrue};
ghost use Rattle.split_cert.specs.Tree.{nodes, splits_deep, HasNumbers, IsWithinLimits};
ghost use Rattle.split_cert.specs.Where.{tree_view};

use crate::cert::{Cert, MAX_NODES, MAX_SPLITS};
use std::alloc::Allocator;

/// How many nodes are still allowed after those of a tree, if `room` nodes are allowed before it and `may_open` splits
/// may open on a path; `None` if the tree has too many of either.
#[tactic(auto, using(crate::proofs::TreeLemmas::some_nodes))]
fn room_after<A: Allocator>(cert: &Cert<A>, may_open: usize, room: usize) -> Option<usize>
    ensures few { IfSome result (λ left. left + nodes (tree_view cert.now) ≡ room) }
    ensures shallow { IfSome result (λ _. splits_deep (tree_view cert.now) ≤ may_open) }
    ensures numbers { IfSome result (λ _. HasNumbers (tree_view cert.now)) }
    ensures past { IsNone result → (room < nodes (tree_view cert.now)) ⊎ (may_open < splits_deep (tree_view cert.now)) }
{
    let left = room.checked_sub(1)?;
    match cert {
        Cert::Split(atom, if_true, if_false, if_null) => {
            let _of_32_bits = *atom;
            let below = may_open.checked_sub(1)?;
            let left = room_after(if_true, below, left)?;
            let left = room_after(if_false, below, left)?;
            room_after(if_null, below, left)
        }
        Cert::Owner(number) | Cert::Empty(number) | Cert::NeverNull(number) => {
            let _of_32_bits = *number;
            Some(left)
        }
    }
}

/// Whether a certificate has at most 1,000,000 nodes and at most 64 splits on a path, so that `read_in` reads what
/// `write` gives for it.
pub fn is_within_limits<A: Allocator>(cert: &Cert<A>) -> bool
    ensures { IsTrue result ↔ IsWithinLimits (tree_view cert.now) }
{
    room_after(cert, MAX_SPLITS, MAX_NODES).is_some()
}
