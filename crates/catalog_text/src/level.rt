//! How tightly the parts of a filter bind.

ghost use Rattle.std.specs.Prelude.{◌≡◌};
ghost use Rattle.catalog_text.specs.FilterText as spec;

/// The kinds of parts of a filter, from the one that binds least tightly to the one that binds most tightly.
/// Definitions and laws about the text of a filter name them.
///
/// PostgreSQL 15, "SQL Syntax", 4.1.6 Operator Precedence.
#[derive(Clone, Copy)]
pub enum Level {
    Or,
    And,
    Not,
    /// `IS NULL` and the other tests that begin with IS.
    Test,
    /// A comparison, IN, BETWEEN or a constant.
    Operand,
}

impl Level {
    fn rank(self) -> u8
        ensures { result ≡ spec.level_rank self }
    {
        match self {
            Level::Or => 0,
            Level::And => 1,
            Level::Not => 2,
            Level::Test => 3,
            Level::Operand => 4,
        }
    }

    /// Whether a part of this level binds less tightly than one of another level, and so gets parentheses where the
    /// other level is required.
    pub(crate) fn is_below(self, wanted: Level) -> bool
        ensures { result ≡ spec.is_below self wanted }
    {
        self.rank() < wanted.rank()
    }
}
