//! What a node of a certificate begins with.

ghost use Rattle.std.specs.Prelude.{◌≡◌};
ghost use Rattle.split_cert.specs.Reading as spec;

/// The kinds of nodes.
#[derive(Clone, Copy, Debug, PartialEq, Eq)]
pub(crate) enum Kind {
    /// `s`, with the number of an atom.
    Split,
    /// `o`, with the number of a subscriber.
    Owner,
    /// `e`, with the number of a term.
    Empty,
    /// `n`, with the number of an atom.
    NeverNull,
}

/// The two words of a node: its letter, and its number.
#[derive(Clone, Copy, Debug, PartialEq, Eq)]
pub(crate) struct Head {
    pub(crate) kind: Kind,
    pub(crate) number: u32,
}

/// The kind of node that a word names.
pub(crate) fn kind_of(word: &[u8]) -> Option<Kind>
    ensures { result ≡ spec.kind_of word.now }
{
    match word {
        [b's'] => Some(Kind::Split),
        [b'o'] => Some(Kind::Owner),
        [b'e'] => Some(Kind::Empty),
        [b'n'] => Some(Kind::NeverNull),
        _ => None,
    }
}
