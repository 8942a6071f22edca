//! Atoms joined by OR, as bits.

ghost use Rattle.std.specs.Prelude.{◌≡◌, ◌<◌, ◌^◌};
ghost use Rattle.filter_memo.specs.Bits.{Inverts, IsSplit, is_set};
ghost use Rattle.filter_memo.specs.Clauses as spec;

use crate::said::Said;
use filter_tree::Tri;

/// The truth values of numbered atoms, as three words: each atom's bit is set in exactly one of them.
#[derive(Clone, Copy, Debug, PartialEq, Eq)]
pub struct Values {
    pub truths: u64,
    pub falses: u64,
    pub nulls: u64,
}

/// Numbered atoms joined by OR. Those with a bit in `falses` are negated.
#[derive(Clone, Copy, Debug, PartialEq, Eq)]
pub struct Clause {
    pub truths: u64,
    pub falses: u64,
}

/// The other bits of a word.
#[tactic(auto, using(crate::proofs::ClauseLemmas::bits_inverted))]
fn inverted(word: u64) -> u64
    ensures { Inverts word result }
{
    !word
}

/// The bits of a number below 64.
#[tactic(auto, using(crate::proofs::ClauseLemmas::one_bit))]
fn bit_of(number: usize) -> u64
    requires { number < 64 }
    ensures { result ≡ 2 ^ number }
{
    1u64 << number
}

impl Values {
    /// The values as three words.
    #[tactic(auto, using(crate::proofs::ClauseLemmas::values_split))]
    pub fn of(said: Said) -> Values
        ensures { IsSplit said result }
    {
        let decided = inverted(said.truths);
        Values {
            truths: said.truths,
            falses: inverted(said.truths | said.nulls),
            nulls: said.nulls & decided,
        }
    }
}

/// Whether some bit is set in both words.
fn meet(word: u64, mask: u64) -> bool
    ensures { result ≡ spec.meet word mask }
{
    word & mask != 0
}

impl Clause {
    ghost use Rattle.std.specs.Prelude.{◌≡◌, ◌<◌};
    ghost use Rattle.filter_memo.specs.Clauses as spec;

    /// The atom with this number, or its negation.
    #[tactic(auto, using(crate::proofs::ClauseLemmas::true_literal, crate::proofs::ClauseLemmas::false_literal))]
    pub fn literal(number: usize, is_negated: bool) -> Clause
        requires { number < 64 }
        ensures { spec.IsLiteral result number is_negated }
    {
        let bit = bit_of(number);
        if is_negated {
            Clause {
                truths: 0,
                falses: bit,
            }
        } else {
            Clause {
                truths: bit,
                falses: 0,
            }
        }
    }

    /// Both clauses, joined by OR.
    #[tactic(auto, using(crate::proofs::ClauseLemmas::clauses_joined))]
    pub fn or(self, other: Clause) -> Clause
        ensures { spec.IsEither self other result }
    {
        Clause {
            truths: self.truths | other.truths,
            falses: self.falses | other.falses,
        }
    }

    /// The clause's truth value.
    pub fn tell(self, values: Values) -> Tri
        ensures { result ≡ spec.clause_says self values }
    {
        let is_true = meet(values.truths, self.truths) || meet(values.falses, self.falses);
        let is_open = meet(values.nulls, self.truths) || meet(values.nulls, self.falses);
        match (is_true, is_open) {
            (true, _) => Tri::True,
            (false, true) => Tri::Null,
            (false, false) => Tri::False,
        }
    }
}
