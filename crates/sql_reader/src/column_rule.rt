//! The type and the constraints of a column.

ghost use Rattle.std.specs.Prelude.{◌≡◌, IsSome};
ghost use Rattle.sql_reader.specs.Columns as spec;
ghost use Rattle.sql_reader.specs.Columns.{unsupported_at};
ghost use Rattle.sql_reader.specs.ParsingContracts.{Takes, TakesSome, to_read, Answers, ReportsFault, item_ahead, written_ahead};

use crate::error::{ErrorKind, Omitted, ReadError};
use crate::item::Item;
use crate::name::is_name_ahead;
use crate::reader::Reader;
use crate::word::{Keyword, same_word};
use filter_tree::ColType;

/// The constraints that a column was given.
#[derive(Clone, Copy)]
pub struct Constraints {
    pub not_null: bool,
    pub key: bool,
}

/// The type that a word names.
fn type_named(word: &str) -> Option<ColType>
    ensures { result ≡ spec.type_named word.now }
{
    if same_word(word, "smallint") || same_word(word, "int2") {
        Some(ColType::SmallInt)
    } else if same_word(word, "integer") || same_word(word, "int") || same_word(word, "int4") {
        Some(ColType::Integer)
    } else if same_word(word, "bigint") || same_word(word, "int8") {
        Some(ColType::BigInt)
    } else if same_word(word, "boolean") || same_word(word, "bool") {
        Some(ColType::Boolean)
    } else if same_word(word, "text") {
        Some(ColType::Text)
    } else {
        None
    }
}

/// The type that the name ahead names.
fn type_ahead(r: &Reader<'_>) -> Option<ColType>
    requires { IsSome (item_ahead (to_read r.now)) }
    ensures { result ≡ spec.type_by (item_ahead (to_read r.now)) (written_ahead (to_read r.now)) }
{
    match r.item() {
        Some(Item::QuotedName) => None,
        _ => type_named(r.written()),
    }
}

/// Reads the name of a type.
#[tactic(auto, using(crate::proofs::Ahead::rest_is_no_more), unfolding(crate::specs::Columns::column_type))]
pub fn column_type(r: &mut Reader<'_>) -> Result<ColType, ReadError>
    ensures { Takes (λ kind. kind) spec.column_type r.old result r.new }
{
    if !is_name_ahead(r) {
        return Err(r.refusal("a data type"));
    }
    match type_ahead(r) {
        Some(kind) => {
            r.advance();
            Ok(kind)
        }
        None => Err(r.refused(ErrorKind::LeftOut(Omitted::DataType))),
    }
}

/// Whether a constraint of a column begins with this token.
fn is_constraint(item: Option<Item>) -> bool
    ensures { result ≡ spec.is_constraint item }
{
    match item {
        Some(Item::Keyword(Keyword::Not)) => true,
        Some(Item::Keyword(Keyword::Primary)) => true,
        Some(Item::Keyword(Keyword::Null)) => true,
        Some(Item::Keyword(Keyword::Default)) => true,
        Some(Item::Keyword(Keyword::Check)) => true,
        Some(Item::Keyword(Keyword::Unique)) => true,
        Some(Item::Keyword(Keyword::References)) => true,
        Some(Item::Keyword(Keyword::Constraint)) => true,
        _ => false,
    }
}

/// Whether a constraint of a column is ahead. A faulty token is refused.
#[tactic(auto, unfolding(crate::specs::Columns::constraint_ahead, crate::specs::Reading::look))]
fn constraint_ahead(r: &Reader<'_>) -> Result<bool, ReadError>
    ensures { Answers (λ b. b) (spec.constraint_ahead (to_read r.now)) result }
{
    r.look()?;
    Ok(is_constraint(r.item()))
}

/// Reads a word and this keyword after it, which give the column these constraints.
#[tactic(auto, using(crate::proofs::Ahead::rest_is_no_more), unfolding(crate::specs::Columns::given_by))]
fn given_by(
    r: &mut Reader<'_>,
    second: Keyword,
    what: &'static str,
    given: Constraints,
) -> Result<Constraints, ReadError>
    ensures { TakesSome (λ given. given) (spec.given_by second given) r.old result r.new }
{
    r.advance();
    r.expect(Item::Keyword(second), what)?;
    Ok(given)
}

/// Reads a constraint of a column of a table that already has a key or not.
#[tactic(auto, unfolding(crate::specs::Columns::constraint))]
fn constraint(
    r: &mut Reader<'_>,
    has_key: bool,
    given: Constraints,
) -> Result<Constraints, ReadError>
    ensures { TakesSome (λ given. given) (spec.constraint has_key given) r.old result r.new }
{
    match r.item() {
        Some(Item::Keyword(Keyword::Not)) => {
            if given.not_null {
                Err(r.refusal("no second NOT NULL"))
            } else {
                let given = Constraints {
                    not_null: true,
                    key: given.key,
                };
                given_by(r, Keyword::Null, "NULL", given)
            }
        }
        Some(Item::Keyword(Keyword::Primary)) => {
            if has_key || given.key {
                Err(r.refusal("no second PRIMARY KEY"))
            } else {
                let given = Constraints {
                    not_null: given.not_null,
                    key: true,
                };
                given_by(r, Keyword::Key, "KEY", given)
            }
        }
        _ => Err(unsupported_clause(r)),
    }
}

/// Reads the constraints of a column.
#[tactic(auto, using(crate::proofs::RepetitionLemmas::turns), unfolding(crate::specs::Columns::constraints))]
pub fn column_constraints(r: &mut Reader<'_>, has_key: bool) -> Result<Constraints, ReadError>
    ensures { Takes (λ given. given) (spec.constraints has_key) r.old result r.new }
{
    let mut given = Constraints {
        not_null: false,
        key: false,
    };
    while constraint_ahead(r)? {
        given = constraint(r, has_key, given)?;
    }
    Ok(given)
}

/// The error for a token ahead that begins a clause of CREATE TABLE that is not supported.
pub fn unsupported_clause(r: &Reader<'_>) -> ReadError
    ensures { ReportsFault result (unsupported_at (to_read r.now)) }
{
    r.refused(ErrorKind::LeftOut(Omitted::Constraint))
}
