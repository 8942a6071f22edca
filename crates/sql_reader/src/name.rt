//! Names and strings, with their meaning.

ghost use Rattle.std.specs.Prelude.{◌≡◌, IfOk, IsSome, IsTrue};
ghost use Rattle.sql_reader.specs.Names as spec;
ghost use Rattle.sql_reader.specs.ParsingContracts.{TakesSome, to_read, item_ahead, written_ahead};

use crate::error::ReadError;
use crate::item::Item;
use crate::quoted::undoubled;
use crate::reader::Reader;
use filter_tree::Text;
use std::alloc::{AllocError, Global};

/// A name as it is meant, and its place in bytes from the start of the text.
#[derive(Drop)]
pub struct PlacedName {
    pub place: usize,
    pub text: Text,
}

/// The string ahead, without its quotes.
pub fn string_text(r: &Reader<'_>, alloc: Global) -> Result<Text, AllocError>
    requires { IsSome (item_ahead (to_read r.now)) }
    ensures { IfOk result (λ text. text ≡ spec.string_meant (written_ahead (to_read r.now))) }
{
    Ok(Text::new(undoubled(alloc, '\'', r.written())?))
}

/// Whether a name is ahead: a word that is not reserved, or a quoted name.
#[tactic(auto, unfolding(crate::specs::Names::name_ahead))]
pub fn is_name_ahead(r: &Reader<'_>) -> bool
    ensures value { result ≡ spec.name_ahead (to_read r.now) }
    ensures some { IsTrue result → IsSome (item_ahead (to_read r.now)) }
{
    match r.item() {
        Some(item) => item.is_name(),
        None => false,
    }
}

/// The text of the name ahead.
fn name_text(r: &Reader<'_>, alloc: Global) -> Result<Text, AllocError>
    requires { IsSome (item_ahead (to_read r.now)) }
    ensures { IfOk result
        (λ text. text ≡ spec.name_meant (item_ahead (to_read r.now)) (written_ahead (to_read r.now))) }
{
    let written = r.written();
    match r.item() {
        Some(Item::QuotedName) => Ok(Text::new(undoubled(alloc, '"', written)?)),
        _ => Ok(Text::new(written.to_ascii_lowercase(alloc)?)),
    }
}

/// Reads a name, in lower case unless it is quoted (PostgreSQL 15, "4.1.1 Identifiers and Key Words").
///
/// # Errors
///
/// The fault of the token ahead, or `Expected` if it is not a name; `OutOfMemory`.
#[tactic(auto, using(crate::proofs::Ahead::rest_of_name_is_fewer), unfolding(crate::specs::Names::name))]
pub fn read_name(
    r: &mut Reader<'_>,
    alloc: Global,
    what: &'static str,
) -> Result<PlacedName, ReadError>
    ensures { TakesSome (λ name. name) spec.name r.old result r.new }
{
    if !is_name_ahead(r) {
        return Err(r.refusal(what));
    }
    let place = r.place();
    let text = name_text(r, alloc)?;
    r.advance();
    Ok(PlacedName { place, text })
}
