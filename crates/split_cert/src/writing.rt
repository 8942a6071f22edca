//! Certificates as they are written.

ghost use Rattle.std.specs.Prelude.{◌≡◌, ◌≤◌, ◌++◌, IfOk, OnOk, Ok};
ghost use Rattle.std.specs.String.{string_bytes};
ghost use Rattle.split_cert.specs.Text.{certificate_of, cert_text, words_of};
ghost use Rattle.split_cert.specs.Tree.{nodes, splits_deep, HasNumbers, max_nodes, max_splits};
ghost use Rattle.split_cert.specs.Where.{tree_view};

use crate::cert::Cert;
use crate::head::Kind;
use std::alloc::{AllocError, Allocator, Global};

/// The text of a certificate, which is the text that `read_in` reads. It walks down the tree by recursion: its stack
/// grows with the splits on a path. The only error is out of memory.
#[tactic(auto, using(crate::proofs::RoundTrip::is_read_again))]
pub fn write<A: Allocator>(alloc: Global, cert: &Cert<A>) -> Result<String, AllocError>
    ensures spelled { IfOk result (λ text. string_bytes text ≡ cert_text (tree_view cert.now)) }
    // Within the limits it is read as that certificate.
    ensures again { IfOk result (λ text. nodes (tree_view cert.now) ≤ max_nodes
        → splits_deep (tree_view cert.now) ≤ max_splits
        → certificate_of (string_bytes text) ≡ Ok (tree_view cert.now)) }
{
    let mut text = String::new(alloc);
    write_tree(cert, &mut text)?;
    Ok(text)
}

fn write_tree<A: Allocator>(cert: &Cert<A>, text: &mut String) -> Result<(), AllocError>
    ensures numbers { OnOk result (HasNumbers (tree_view cert.now)) }
    ensures spelled { OnOk result (string_bytes text.new ≡ string_bytes text.old ++ cert_text (tree_view cert.now)) }
{
    match cert {
        Cert::Split(atom, if_true, if_false, if_null) => {
            write_words(Kind::Split, *atom, text)?;
            text.push(' ')?;
            write_tree(if_true, text)?;
            text.push(' ')?;
            write_tree(if_false, text)?;
            text.push(' ')?;
            write_tree(if_null, text)
        }
        Cert::Owner(subscriber) => write_words(Kind::Owner, *subscriber, text),
        Cert::Empty(term) => write_words(Kind::Empty, *term, text),
        Cert::NeverNull(atom) => write_words(Kind::NeverNull, *atom, text),
    }
}

/// Writes the letter and the number of a node.
fn write_words(kind: Kind, number: u32, text: &mut String) -> Result<(), AllocError>
    ensures { OnOk result (string_bytes text.new ≡ string_bytes text.old ++ words_of kind number) }
{
    match kind {
        Kind::Split => write!(text, "s {number}"),
        Kind::Owner => write!(text, "o {number}"),
        Kind::Empty => write!(text, "e {number}"),
        Kind::NeverNull => write!(text, "n {number}"),
    }
}
