//! Certificates as they are given, as trees or as texts.

ghost use Rattle.std.specs.Prelude.{List};
ghost use Rattle.split_cert.specs.declared.node.Node.{Node};

use crate::error::CheckError;
use crate::subject::Subject;
use crate::walk::{Walk, visit_text, visit_tree};
use split_cert::Cert;
use std::alloc::Allocator;

/// A certificate, which gives its nodes in the order in which it is written.
pub trait Source {
    ghost use Rattle.shard_checker.specs.WalkInvariants.{WalkAgrees};
    ghost use Rattle.shard_checker.specs.Refusal.{subject_view};
    ghost use Rattle.shard_checker.specs.Candidates.{is_empty};
    ghost use Rattle.std.specs.Prelude.{OnOk};
    ghost use Rattle.shard_checker.specs.Walking.{Walks, place_of};

    ghost nodes: { Self → List Node };

    /// Walks over the nodes.
    fn visit<'a, A: Allocator>(
        &self,
        subject: &Subject<'a, A>,
        walk: &mut Walk<'a, A>,
    ) -> Result<(), CheckError>
        requires { WalkAgrees subject.now walk.old }
        ensures walks { Walks is_empty (subject_view subject.now) (nodes self.now) (place_of subject.now walk.old)
            (place_of subject.now walk.new) result }
        ensures ready { OnOk result (WalkAgrees subject.now walk.new) };
}

impl<B: Allocator> Source for Cert<B> {
    ghost use Rattle.split_cert.specs.Nodes.{preorder};
    ghost use Rattle.split_cert.specs.Where.{tree_view};

    ghost nodes = { λ cert. preorder (tree_view cert) };

    fn visit<'a, A: Allocator>(
        &self,
        subject: &Subject<'a, A>,
        walk: &mut Walk<'a, A>,
    ) -> Result<(), CheckError> {
        visit_tree(subject, walk, self)
    }
}

impl<'t> Source for &'t str {
    ghost use Rattle.split_cert.specs.Nodes.{nodes_in};

    ghost nodes = { λ text. (nodes_in text.now).nodes };

    fn visit<'a, A: Allocator>(
        &self,
        subject: &Subject<'a, A>,
        walk: &mut Walk<'a, A>,
    ) -> Result<(), CheckError> {
        visit_text(subject, walk, *self)
    }
}
