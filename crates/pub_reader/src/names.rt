//! Names with their positions.

ghost use Rattle.std.specs.Prelude.{◌≡◌, [], position, length, None, Some, IfOk, IfSome, OnOk, OnErr, ◌<◌};
ghost use Rattle.std.specs.Str.{bytes_eq};
ghost use Rattle.std.specs.String.{string_bytes};
ghost use Rattle.sql_reader.specs.Reading.{Answers};
ghost use Rattle.pub_reader.specs.Drafts.{with_name};
ghost use Rattle.pub_reader.specs.Schemas.{fresh, known_position};

use indexmap::IndexSet;
use sql_reader::{ErrorKind, Limit, PlacedName, ReadError};
use std::alloc::{AllocError, Global};
use std::marker::Model;

/// Different names in the order in which they were added, each with its position.
#[derive(Drop)]
pub struct Names {
    names: IndexSet<String>,
}

impl Model for Names {
    ghost use Rattle.std.specs.Prelude.{ℕ, List, map};
    ghost use Rattle.std.specs.String.{string_bytes};

    ghost Value = { List (List ℕ) };

    ghost view = { λ n. map string_bytes n.names.keys };
}

impl Names {
    /// No names.
    pub fn new(alloc: Global) -> Names
        ensures { result ≡ [] }
    {
        Names {
            names: IndexSet::new(alloc),
        }
    }

    /// The position of a name.
    pub fn find(&self, name: &str) -> Option<usize>
        ensures value { result ≡ position (bytes_eq name.now) self.now }
        ensures within { IfSome result (λ n. n < length self.now) }
    {
        self.names.get_index_of(name)
    }

    /// Adds a name at the end, if it is new.
    pub fn add(&mut self, name: String) -> Result<(), AllocError>
        ensures ok { OnOk result (self.new ≡ with_name self.old (string_bytes name)) }
        ensures err { OnErr result (self.new ≡ self.old) }
    {
        self.names.insert(name)?;
        Ok(())
    }
}

/// The number that was found for a name, which must exist.
pub fn known_number(name: &PlacedName, found: Option<usize>) -> Result<usize, ReadError>
    ensures answer { Answers (λ n. n) (known_position name.now found) result }
    ensures found { IfOk result (λ n. found ≡ Some n) }
{
    match found {
        Some(number) => Ok(number),
        None => Err(ReadError {
            place: name.place,
            kind: ErrorKind::UnknownName,
        }),
    }
}

/// Refuses a name that is taken, or that is one too many.
pub fn check_new(
    name: &PlacedName,
    found: Option<usize>,
    is_full: bool,
    limit: Limit,
) -> Result<(), ReadError>
    ensures answer { Answers (λ u. u) (fresh name.now found is_full limit) result }
    ensures free { OnOk result (found ≡ None) }
{
    if found.is_some() {
        return Err(ReadError {
            place: name.place,
            kind: ErrorKind::NameTwice,
        });
    }
    if is_full {
        return Err(ReadError {
            place: name.place,
            kind: ErrorKind::TooMany(limit),
        });
    }
    Ok(())
}
