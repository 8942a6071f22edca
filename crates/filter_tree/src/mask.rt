ghost use Rattle.std.specs.Prelude.{◌≡◌, ◌||◌};
ghost use Rattle.filter_tree.specs.Logic.{and_of, or_of, not_of, is_of};
ghost use Rattle.filter_tree.specs.Mask.{member, single_of, lift_one, lift_two};

use crate::filter::Test;
use crate::tri::Tri;

/// A set of truth values, such as those that a filter may have: whether true, false and null are in it.
#[derive(Clone, Copy, Debug, PartialEq, Eq)]
pub struct Mask {
    pub truth: bool,
    pub falsity: bool,
    pub null: bool,
}

impl Mask {
    /// The set of one truth value.
    pub fn single(value: Tri) -> Mask
        ensures { result ≡ single_of value }
    {
        Mask {
            truth: value == Tri::True,
            falsity: value == Tri::False,
            null: value == Tri::Null,
        }
    }

    /// Whether the set has the truth value.
    pub fn has(self, value: Tri) -> bool
        ensures { result ≡ member self value }
    {
        match value {
            Tri::True => self.truth,
            Tri::False => self.falsity,
            Tri::Null => self.null,
        }
    }

    /// What `AND` may give for a member of `self` and a member of `other`.
    pub fn and(self, other: Mask) -> Mask
        ensures { result ≡ lift_two and_of self other }
    {
        Mask {
            truth: self.truth && other.truth,
            falsity: (self.falsity && other.has_any()) || (self.has_any() && other.falsity),
            null: (self.null && (other.truth || other.null)) || (self.truth && other.null),
        }
    }

    /// What `OR` may give for a member of `self` and a member of `other`.
    pub fn or(self, other: Mask) -> Mask
        ensures { result ≡ lift_two or_of self other }
    {
        Mask {
            truth: (self.truth && other.has_any()) || (self.has_any() && other.truth),
            falsity: self.falsity && other.falsity,
            null: (self.null && (other.falsity || other.null)) || (self.falsity && other.null),
        }
    }

    /// What `NOT` may give for a member.
    pub fn not(self) -> Mask
        ensures { result ≡ lift_one not_of self }
    {
        Mask {
            truth: self.falsity,
            falsity: self.truth,
            null: self.null,
        }
    }

    /// What `IS TRUE`, `IS FALSE` or `IS UNKNOWN` may give for a member.
    pub fn is(self, test: Test) -> Mask
        ensures { result ≡ lift_one (is_of test) self }
    {
        let (asked, others) = match test {
            Test::True => (self.truth, self.falsity || self.null),
            Test::False => (self.falsity, self.truth || self.null),
            Test::Unknown => (self.null, self.truth || self.falsity),
        };
        Mask {
            truth: asked,
            falsity: others,
            null: false,
        }
    }

    fn has_any(self) -> bool
        ensures { result ≡ (self.truth || (self.falsity || self.null)) }
    {
        self.truth || self.falsity || self.null
    }
}
