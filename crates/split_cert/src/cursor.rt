//! A cursor over the text of a certificate.

ghost use Rattle.std.specs.Prelude.{◌≡◌, ◌<◌, ◌≤◌, ◌+◌, ◌^◌, length};
ghost use Rattle.split_cert.specs.Reading as spec;

use crate::cert::MAX_NODES;
use crate::error::CertError;
use crate::head::{Head, Kind, kind_of};
use crate::number::number_of;

/// Where a reader is in the text of a certificate. It allocates no memory.
#[derive(Clone, Copy)]
pub(crate) struct Cursor<'a> {
    rest: &'a [u8],
    place: usize,
    nodes: usize,
    ghost in_range: { place + length rest.now < 2 ^ 63 },
}

impl<'a> Cursor<'a> {
    ghost use Rattle.std.specs.Prelude.{◌==◌, IfOk};
    ghost use Rattle.split_cert.specs.declared.head.Kind.TheVariants.{Split};
    ghost use Rattle.split_cert.specs.Where.{here_view, Finds};

    /// A cursor before the first node.
    pub(crate) fn new(text: &'a str) -> Cursor<'a>
        ensures { here_view result ≡ spec.start text.now }
    {
        Cursor {
            rest: text.as_bytes(),
            place: 0,
            nodes: 0,
        }
    }

    /// Whether nothing is left.
    pub(crate) fn is_at_end(&self) -> bool
        ensures { result ≡ (length (here_view self.now).rest == 0) }
    {
        self.rest.is_empty()
    }

    /// The place of the next byte, in bytes from the start of the text.
    pub(crate) fn place(&self) -> usize
        ensures { result ≡ (here_view self.now).place }
    {
        self.place
    }

    /// Reads the next word, which ends at a space or at the end.
    #[tactic(auto, unfolding(crate::specs::Reading::word))]
    fn word(&mut self) -> Result<&'a [u8], CertError>
        ensures { Finds (λ word. word.now) spec.word self.old self.new result }
    {
        if self.rest.is_empty() {
            return Err(CertError::Ended);
        }
        let (word, rest) = self.rest.split_at(word_len(self.rest));
        self.place += word.len();
        self.rest = rest;
        Ok(word)
    }

    /// Reads a space.
    #[tactic(auto, unfolding(crate::specs::Reading::space))]
    pub(crate) fn space(&mut self) -> Result<(), CertError>
        ensures { Finds (λ _. tt) spec.space self.old self.new result }
    {
        match self.rest {
            [] => Err(CertError::Ended),
            [b' ', rest @ ..] => {
                self.rest = rest;
                self.place += 1;
                Ok(())
            }
            [_, ..] => Err(CertError::BadToken(self.place)),
        }
    }

    /// Reads the letter of a node.
    #[tactic(auto, unfolding(crate::specs::Reading::letter))]
    fn letter(&mut self) -> Result<Kind, CertError>
        ensures { Finds (λ kind. kind) spec.letter self.old self.new result }
    {
        let place = self.place;
        let word = self.word()?;
        kind_of(word).ok_or(CertError::BadToken(place))
    }

    /// Reads the number of a node.
    #[tactic(auto, unfolding(crate::specs::Reading::numeral))]
    fn number(&mut self) -> Result<u32, CertError>
        ensures { Finds (λ number. number) spec.numeral self.old self.new result }
    {
        let place = self.place;
        let word = self.word()?;
        number_of(word).ok_or(CertError::BadToken(place))
    }

    /// Counts a node whose letter was read. At most `may_open` more splits may open on its path.
    #[tactic(auto, unfolding(crate::specs::Reading::count))]
    fn count(&mut self, may_open: usize, kind: Kind) -> Result<(), CertError>
        ensures counted { Finds (λ _. tt) (spec.count may_open kind) self.old self.new result }
        ensures opens { IfOk result (λ _. kind ≡ Split → 0 < may_open) }
    {
        if MAX_NODES <= self.nodes {
            return Err(CertError::TooLarge);
        }
        if kind == Kind::Split && may_open == 0 {
            return Err(CertError::TooDeep);
        }
        self.nodes += 1;
        Ok(())
    }

    /// Reads the letter and the number of the next node. At most `may_open` more splits may open on its path.
    #[tactic(auto, unfolding(crate::specs::Reading::head))]
    pub(crate) fn head(&mut self, may_open: usize) -> Result<Head, CertError>
        ensures head { Finds (λ head. head) (spec.head may_open) self.old self.new result }
        ensures opens { IfOk result (λ head. head.kind ≡ Split → 0 < may_open) }
    {
        let kind = self.letter()?;
        self.count(may_open, kind)?;
        self.space()?;
        let number = self.number()?;
        Ok(Head { kind, number })
    }
}

/// How many bytes the word at the front of some bytes has.
fn word_len(bytes: &[u8]) -> usize
    ensures value { result ≡ spec.word_len bytes.now }
    ensures within { result ≤ length bytes.now }
{
    let mut length = 0;
    while length < bytes.len() && bytes[length] != b' ' {
        length += 1;
    }
    length
}
