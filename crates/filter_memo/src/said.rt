//! Truth values of numbered atoms, as bits.

use filter_tree::Tri;

/// The number of bits in a word.
const WORD: usize = 64;

/// The truth values of the atoms with the numbers 0 to 63. An atom is true if its bit is set in `truths`; otherwise it
/// is null if its bit is set in `nulls`.
#[derive(Clone, Copy, Debug, PartialEq, Eq)]
pub struct Said {
    pub truths: u64,
    pub nulls: u64,
}

impl Said {
    ghost use Rattle.std.specs.Prelude.{◌≡◌, ◌<◌};
    ghost use Rattle.filter_memo.specs.Bits.{Adds, HasBoth, IsNothing, Joins, SetsBit, is_set, said_within};

    /// The word with one more bit set.
    #[tactic(auto, using(crate::proofs::BitLemmas::bit_set))]
    fn with_bit(word: u64, number: usize) -> u64
        requires { number < 64 }
        ensures { SetsBit word result number }
    {
        word | (1u64 << number)
    }

    /// Whether a bit is set.
    #[tactic(auto, using(crate::proofs::BitLemmas::bit_tested))]
    fn has_bit(word: u64, number: usize) -> bool
        requires { number < 64 }
        ensures { result ≡ is_set word number }
    {
        (word >> number) & 1 == 1
    }

    /// The bits that are set in either word.
    #[tactic(auto, using(crate::proofs::BitLemmas::bits_joined))]
    fn both_bits(one: u64, other: u64) -> u64
        ensures { HasBoth one other result }
    {
        one | other
    }

    /// All atoms are false.
    #[tactic(auto, using(crate::proofs::BitLemmas::nothing_said))]
    pub fn nothing() -> Said
        ensures { IsNothing result }
    {
        Said {
            truths: 0,
            nulls: 0,
        }
    }

    /// Joins one more value with the value of its number by OR. Numbers from 64 on are ignored.
    #[tactic(auto, using(crate::proofs::Rules::adding_what_is_said))]
    pub fn with(self, number: usize, tri: Tri) -> Said
        ensures { Adds self result number tri }
    {
        if number >= WORD {
            return self;
        }
        match tri {
            Tri::True => Said {
                truths: Said::with_bit(self.truths, number),
                nulls: self.nulls,
            },
            Tri::Null => Said {
                truths: self.truths,
                nulls: Said::with_bit(self.nulls, number),
            },
            Tri::False => self,
        }
    }

    /// The values of both, joined number by number by OR.
    #[tactic(auto, using(crate::proofs::BitLemmas::values_joined))]
    pub fn join(self, other: Said) -> Said
        ensures { Joins self other result }
    {
        Said {
            truths: Said::both_bits(self.truths, other.truths),
            nulls: Said::both_bits(self.nulls, other.nulls),
        }
    }

    /// The value of the number, which is false from 64 on.
    #[tactic(auto, using(crate::proofs::BitLemmas::said_by_bits, crate::proofs::BitLemmas::nothing_past))]
    pub fn at(self, number: usize) -> Tri
        ensures { result ≡ said_within self number }
    {
        if number >= WORD {
            return Tri::False;
        }
        match (
            Said::has_bit(self.truths, number),
            Said::has_bit(self.nulls, number),
        ) {
            (true, _) => Tri::True,
            (false, true) => Tri::Null,
            (false, false) => Tri::False,
        }
    }
}
