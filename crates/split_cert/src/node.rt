//! The nodes of a certificate.

ghost use Rattle.std.specs.Prelude.{◌≡◌};
ghost use Rattle.split_cert.specs.Nodes as spec;

use crate::head::{Head, Kind};

/// A node of a certificate as its text has it, without its branches.
#[derive(Clone, Copy, Debug, PartialEq, Eq)]
pub enum Node {
    /// `s`: a split by an atom. The branches for the atom being true, false and null follow.
    Split(u32),
    /// `o`: a subscriber that owns the rows.
    Owner(u32),
    /// `e`: a term that has no value.
    Empty(u32),
    /// `n`: an atom that is never null.
    NeverNull(u32),
}

impl Node {
    /// The node that two words spell.
    pub(crate) fn new(head: Head) -> Node
        ensures { result ≡ spec.node_of head.kind head.number }
    {
        match head.kind {
            Kind::Split => Node::Split(head.number),
            Kind::Owner => Node::Owner(head.number),
            Kind::Empty => Node::Empty(head.number),
            Kind::NeverNull => Node::NeverNull(head.number),
        }
    }
}
