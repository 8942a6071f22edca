//! A law about the nodes of texts.

ghost use Rattle.split_cert.specs.Nodes.{NodesOfTexts};

/// A law about what `NodeReader` gives for a text: a function without an effect whose contract states it. `NodeReader`
/// gives the nodes of the certificate that `read_in` reads, each split before its branches, and then the end; or it
/// gives nodes and then the fault that `read_in` returns.
#[tactic(auto, using(crate::proofs::PreorderLemmas::nodes_of_texts))]
pub fn nodes_are_those_of_the_certificate()
    ensures { NodesOfTexts }
{}
