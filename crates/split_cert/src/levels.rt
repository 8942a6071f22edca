//! The splits that are open while a certificate is read node by node.

ghost use Rattle.std.specs.Prelude.{◌≤◌, ℕ, List, reverse, take};

use crate::cert::MAX_SPLITS;
use crate::head::Kind;
use std::marker::Model;

/// For each open split, the last one first, how many of its branches still follow. A split stays open while its last
/// branch is read. It allocates no memory.
#[derive(Drop)]
pub(crate) struct Levels {
    left: [u8; MAX_SPLITS],
    depth: usize,
}

impl Model for Levels {
    ghost Value = { List ℕ };

    ghost view = { λ levels. reverse (take levels.depth levels.left) };

    ghost invariant = { λ levels. levels.depth ≤ 64 };
}

impl Levels {
    ghost use Rattle.std.specs.Prelude.{◌≡◌, ◌<◌, ◌≤◌, ◌∷◌, [], true, drop, length, slice_get};
    ghost use Rattle.split_cert.specs.declared.head.Kind.TheVariants.{Split};
    ghost use Rattle.split_cert.specs.Nodes as spec;

    /// No open splits.
    pub(crate) fn new() -> Levels
        ensures { result ≡ [] }
    {
        Levels {
            left: [0; MAX_SPLITS],
            depth: 0,
        }
    }

    /// How many splits are open.
    pub(crate) fn len(&self) -> usize
        ensures value { result ≡ length self.now }
        ensures within { result ≤ 64 }
    {
        self.depth
    }

    /// How many branches of the last split still follow.
    fn last(&self) -> Option<u8>
        ensures { result ≡ slice_get self.now 0 }
    {
        if self.depth == 0 {
            return None;
        }
        Some(self.left[self.depth - 1])
    }

    /// Removes the last split, if one is open.
    #[tactic(auto, using(crate::proofs::LevelLemmas::last_goes))]
    fn pop(&mut self)
        ensures popped { self.new ≡ drop 1 self.old }
        ensures room { length self.new < 64 }
    {
        if self.depth > 0 {
            self.depth -= 1;
        }
    }

    /// Adds a split, of which `left` branches still follow.
    fn push(&mut self, left: u8)
        requires { length self.old < 64 }
        ensures { self.new ≡ left ∷ self.old }
    {
        self.left[self.depth] = left;
        self.depth += 1;
    }

    /// Closes the last splits of which no branch follows any more.
    #[tactic(auto, using(crate::proofs::LevelLemmas::level_steps))]
    pub(crate) fn close(&mut self)
        ensures closed { self.new ≡ spec.without_done self.old }
        ensures due { spec.is_due self.new ≡ true }
    {
        while self.last() == Some(0) {
            self.pop();
        }
    }

    /// Begins a branch of the last split, if one is open.
    #[tactic(auto, using(crate::proofs::LevelLemmas::one_begins, crate::proofs::LevelLemmas::none_begins))]
    fn begin(&mut self)
        ensures { self.new ≡ spec.with_begun self.old }
    {
        if let Some(left) = self.last() {
            self.pop();
            self.push(left.saturating_sub(1));
        }
    }

    /// Enters a node of this kind, which is the first one or a branch of the last split.
    #[tactic(auto, using(crate::proofs::LevelLemmas::few_more))]
    pub(crate) fn enter(&mut self, kind: Kind)
        requires { kind ≡ Split → length self.old < 64 }
        ensures { self.new ≡ spec.entered kind self.old }
    {
        self.begin();
        if kind == Kind::Split {
            self.push(3);
        }
    }
}
