//! Where a part of a filter is, and which parentheses it gets there.

ghost use Rattle.std.specs.Prelude.{◌≡◌, ◌++◌, false, true, OnOk};
ghost use Rattle.std.specs.String.{string_bytes};
ghost use Rattle.catalog_text.specs.Waiting as spec;

use crate::level::Level;
use crate::words::text_if;
use std::alloc::AllocError;

/// Where a part of a filter is. A part that binds less tightly than `wanted` gets parentheses, and if it is `negated`,
/// NOT of the part is written.
#[derive(Clone, Copy)]
pub(crate) struct Context {
    pub(crate) wanted: Level,
    pub(crate) negated: bool,
}

impl Context {
    pub(crate) fn plain(wanted: Level) -> Context
        ensures wanted { result.wanted ≡ wanted }
        ensures negated { result.negated ≡ false }
    {
        Context {
            wanted,
            negated: false,
        }
    }

    pub(crate) fn negation(wanted: Level) -> Context
        ensures wanted { result.wanted ≡ wanted }
        ensures negated { result.negated ≡ true }
    {
        Context {
            wanted,
            negated: true,
        }
    }

    /// Writes what comes before a part of this level.
    pub(crate) fn write_head(self, own: Level, text: &mut String) -> Result<(), AllocError>
        ensures { OnOk result (string_bytes text.new ≡ string_bytes text.old
            ++ spec.head self.wanted self.negated own) }
    {
        if !self.negated {
            return text.push_str(text_if(own.is_below(self.wanted), "("));
        }
        text.push_str(text_if(Level::Not.is_below(self.wanted), "("))?;
        text.push_str("NOT ")?;
        text.push_str(text_if(own.is_below(Level::Not), "("))
    }

    /// Writes what comes after a part of this level.
    pub(crate) fn write_tail(self, own: Level, text: &mut String) -> Result<(), AllocError>
        ensures { OnOk result (string_bytes text.new ≡ string_bytes text.old
            ++ spec.tail self.wanted self.negated own) }
    {
        if !self.negated {
            return text.push_str(text_if(own.is_below(self.wanted), ")"));
        }
        text.push_str(text_if(own.is_below(Level::Not), ")"))?;
        text.push_str(text_if(Level::Not.is_below(self.wanted), ")"))
    }
}
