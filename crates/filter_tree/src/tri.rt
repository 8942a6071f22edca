ghost use Rattle.std.specs.Prelude.{◌≡◌};
ghost use Rattle.filter_tree.specs.Logic.{and_of, or_of, not_of, is_of};

use crate::filter::Test;

/// A truth value of SQL. `Null` is what SQL calls "unknown".
///
/// PostgreSQL 15, 9.1 Logical Operators.
#[derive(Clone, Copy, Debug, PartialEq, Eq)]
pub enum Tri {
    True,
    False,
    Null,
}

impl Tri {
    /// SQL's `self AND other`.
    pub fn and(self, other: Tri) -> Tri
        ensures { result ≡ and_of self other }
    {
        match (self, other) {
            (Tri::False, _) | (_, Tri::False) => Tri::False,
            (Tri::Null, _) | (_, Tri::Null) => Tri::Null,
            (Tri::True, Tri::True) => Tri::True,
        }
    }

    /// SQL's `self OR other`.
    pub fn or(self, other: Tri) -> Tri
        ensures { result ≡ or_of self other }
    {
        match (self, other) {
            (Tri::True, _) | (_, Tri::True) => Tri::True,
            (Tri::Null, _) | (_, Tri::Null) => Tri::Null,
            (Tri::False, Tri::False) => Tri::False,
        }
    }

    /// SQL's `NOT self`.
    pub fn not(self) -> Tri
        ensures { result ≡ not_of self }
    {
        match self {
            Tri::True => Tri::False,
            Tri::False => Tri::True,
            Tri::Null => Tri::Null,
        }
    }

    /// SQL's `self IS TRUE`, `IS FALSE` or `IS UNKNOWN`: whether it is the value that the test tests for. The result is
    /// never null.
    ///
    /// PostgreSQL 15, 9.2 Comparison Functions and Operators.
    pub fn is(self, test: Test) -> Tri
        ensures { result ≡ is_of test self }
    {
        match (test, self) {
            (Test::True, Tri::True) | (Test::False, Tri::False) | (Test::Unknown, Tri::Null) =>
                Tri::True,
            (Test::True | Test::False | Test::Unknown, _) => Tri::False,
        }
    }
}

impl From<bool> for Tri {
    ghost use Rattle.std.specs.Prelude.{◌≡◌};
    ghost use Rattle.filter_tree.specs.Logic.{tri_of};

    ghost from_gives = { λ b t. t ≡ tri_of b };

    fn from(known: bool) -> Tri {
        if known { Tri::True } else { Tri::False }
    }
}
