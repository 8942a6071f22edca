//! Certificates as they are read.

ghost use Rattle.std.specs.Prelude.{◌≡◌, ◌++◌, ◌∷◌, ℕ, List, length, IfOk, Ok, Err};
ghost use Rattle.filter_tree.specs.Memory.{Answers, NeedsMemoryOnlyIf};
ghost use Rattle.split_cert.specs.declared.error.CertError.TheVariants.{Trailing};
ghost use Rattle.split_cert.specs.PreorderTrees.{ReadsTree, BeginsBySplit};
ghost use Rattle.split_cert.specs.Nodes.{led};
ghost use Rattle.split_cert.specs.Reading.{cert_fault};
ghost use Rattle.split_cert.specs.Text as spec;
ghost use Rattle.split_cert.specs.Tree.{Tree, IsWithinLimits};
ghost use Rattle.split_cert.specs.Where.{tree_view};

use crate::cert::Cert;
use crate::error::CertError;
use crate::node::Node;
use crate::node_reader::NodeReader;
use std::alloc::Allocator;

/// Reads the nodes of a tree.
#[cycle(tree)]
#[tactic(auto, using(crate::proofs::PreorderTreeLemmas::grows, crate::proofs::PreorderTreeMemory::wants))]
fn tree<A: Allocator + Clone>(alloc: &A, reader: &mut NodeReader<'_>) -> Result<Cert<A>, CertError>
    ensures tree { ReadsTree tree_view reader.old reader.new result }
    ensures memory { NeedsMemoryOnlyIf CertError.OutOfMemory (BeginsBySplit reader.old) result }
{
    match reader.next()? {
        None => Err(CertError::Ended),
        Some(node) => rooted(alloc, node, reader),
    }
}

/// Reads the nodes of a tree after its first node.
#[cycle(tree)]
#[tactic(auto, using(crate::proofs::PreorderTreeLemmas::grows, crate::proofs::PreorderTreeMemory::wants))]
fn rooted<A: Allocator + Clone>(
    alloc: &A,
    node: Node,
    reader: &mut NodeReader<'_>,
) -> Result<Cert<A>, CertError>
    ensures tree { ReadsTree tree_view (led node reader.old) reader.new result }
    ensures memory { NeedsMemoryOnlyIf CertError.OutOfMemory (BeginsBySplit (led node reader.old)) result }
{
    match node {
        Node::Split(atom) => split(alloc, atom, reader),
        Node::Owner(subscriber) => Ok(Cert::Owner(subscriber)),
        Node::Empty(term) => Ok(Cert::Empty(term)),
        Node::NeverNull(atom) => Ok(Cert::NeverNull(atom)),
    }
}

/// Reads the branches of a split.
#[cycle(tree)]
#[tactic(auto, using(crate::proofs::PreorderTreeLemmas::grows, crate::proofs::PreorderTreeMemory::wants))]
fn split<A: Allocator + Clone>(
    alloc: &A,
    atom: u32,
    reader: &mut NodeReader<'_>,
) -> Result<Cert<A>, CertError>
    ensures { ReadsTree tree_view (led (Node.Split atom) reader.old) reader.new result }
{
    let if_true = branch(alloc, reader)?;
    let if_false = branch(alloc, reader)?;
    let if_null = branch(alloc, reader)?;
    Ok(Cert::Split(atom, if_true, if_false, if_null))
}

/// Reads the nodes of a branch.
#[cycle(tree)]
fn branch<A: Allocator + Clone>(
    alloc: &A,
    reader: &mut NodeReader<'_>,
) -> Result<Box<Cert<A>, A>, CertError>
    ensures { ReadsTree (λ branch. tree_view branch.value) reader.old reader.new result }
{
    let branch = tree(alloc, reader)?;
    Ok(Box::new(alloc.clone()?, branch)?)
}

/// The certificate of a whole text.
#[tactic(auto, using(crate::proofs::PreorderTreeMemory::texts))]
fn certificate<A: Allocator + Clone>(alloc: &A, text: &str) -> Result<Cert<A>, CertError>
    ensures exact { Answers tree_view cert_fault (spec.certificate_of text.now) result }
    ensures memory { NeedsMemoryOnlyIf CertError.OutOfMemory (spec.BeginsWithSplit text.now) result }
{
    let mut reader = NodeReader::new(text);
    let cert = tree(alloc, &mut reader)?;
    reader.finish()?;
    Ok(cert)
}

/// The certificate of a text, with its nodes in `alloc`. It takes time proportional to the length of the text, and
/// stack for at most 65 nodes, one below the other.
///
/// The text has the nodes in preorder: `s` and an atom, and then the branches where that atom is true, false and null;
/// `o` and a subscriber; `e` and a term; `n` and an atom. One space separates two words. Numbers are decimal, at most
/// 4294967295, without leading zeros. There are at most 1,000,000 nodes, and at most 64 splits on a path.
///
/// # Errors
///
/// The first fault of the text, or `OutOfMemory` if an allocation failed: only a split allocates memory.
#[tactic(auto, using(crate::proofs::RoundTrip::is_found))]
pub fn read_in<A: Allocator + Clone>(alloc: A, text: &str) -> Result<Cert<A>, CertError>
    // The result is the certificate of the text, or its first fault.
    ensures exact { Answers tree_view cert_fault (spec.certificate_of text.now) result }
    // `OutOfMemory` is returned only for a text that begins with a split.
    ensures memory { NeedsMemoryOnlyIf CertError.OutOfMemory (spec.BeginsWithSplit text.now) result }
    // What is read is within the limits, and the text is what `write` gives for it.
    ensures found { IfOk result (λ cert. spec.IsCertificateOf (tree_view cert) text.now) }
    // What `write` gives for a certificate within the limits is read as that certificate.
    ensures only { (tree : Tree) → spec.IsCertificateOf tree text.now → Answers tree_view cert_fault (Ok tree) result }
    // With a space and anything else after it, it is refused there.
    ensures trailing { (tree : Tree) (more : List ℕ) → IsWithinLimits tree
        → text.now ≡ spec.cert_text tree ++ 32 ∷ more
        → Answers tree_view cert_fault (Err (Trailing (length (spec.cert_text tree)))) result }
{
    certificate(&alloc, text)
}
