//! Why a text is refused, and where.

use std::alloc::{AllocError, AllocFailed};
use thiserror::Error;

/// Why a text is refused.
#[derive(Clone, Copy, Debug, Error)]
#[error("{kind}, at byte {place}")]
pub struct ReadError {
    /// Where, in bytes from the start of the text. It has no meaning if memory ran out.
    pub place: usize,
    pub kind: ErrorKind,
}

/// What is wrong with a text.
#[derive(Clone, Copy, Debug, Error)]
pub enum ErrorKind {
    #[error("invalid token")]
    BadToken,
    #[error("expected {0}")]
    Expected(&'static str),
    #[error("a name has more than 63 bytes")]
    NameTooLong,
    #[error("this name does not exist")]
    UnknownName,
    #[error("this name already exists, or is repeated in a list")]
    NameTwice,
    #[error("column lists of publications are not supported")]
    ColumnList,
    #[error("{0} is not supported here")]
    LeftOut(Omitted),
    #[error("the types of the operands do not match")]
    TypeClash,
    #[error("a number is greater than 9223372036854775807")]
    NumberTooLarge,
    #[error("the divisor is 0")]
    ZeroDivisor,
    #[error("parentheses and NOT are nested more than 64 levels deep")]
    TooDeep,
    #[error("there are too many {0}")]
    TooMany(Limit),
    #[error("this table has no primary key")]
    NoKey,
    #[error("this table is in the publication twice, once with a filter")]
    TableTwice,
    #[error("out of memory")]
    OutOfMemory,
    #[error("this index cannot be used as replica identity, because a column of it may be null")]
    NullableIndex,
}

/// Forms of PostgreSQL that are not supported.
#[derive(Clone, Copy, Debug, PartialEq, Eq, Error)]
pub enum Omitted {
    #[error("this operator")]
    Operator,
    #[error("a call of a function, or CASE,")]
    Function,
    #[error("a number with a fraction")]
    Number,
    #[error("this form of string")]
    StringForm,
    #[error("a cast")]
    Cast,
    #[error("a quoted literal beside a number or a Boolean value")]
    Literal,
    #[error("an ordering of texts or Boolean values")]
    Order,
    #[error("a condition on constants alone")]
    Constant,
    #[error("a comparison of two columns")]
    TwoColumns,
    #[error("a qualified column name")]
    Qualified,
    #[error("this clause of CREATE TABLE")]
    Constraint,
    #[error("this clause")]
    Clause,
    #[error("this data type")]
    DataType,
}

/// Things of which a catalog or a script may have only a limited number.
#[derive(Clone, Copy, Debug, PartialEq, Eq, Error)]
pub enum Limit {
    #[error("tables (at most 64)")]
    Tables,
    #[error("columns of a table (at most 100)")]
    Columns,
    #[error("publications (at most 64)")]
    Publications,
    #[error("subscriptions (at most 32)")]
    Subscriptions,
    #[error("different atoms in the filters of a table (at most 64)")]
    Atoms,
    #[error("parts in the filters of a table (at most 1,000)")]
    Nodes,
    #[error("bytes in a string (at most 65,535)")]
    LiteralBytes,
    #[error("steps (at most 100,000)")]
    Steps,
    #[error("unique indexes of a table (at most 8)")]
    Indexes,
    #[error("entries of an IN list (at most 100)")]
    InList,
}

impl ErrorKind {
    ghost use Rattle.std.specs.Prelude.{◌≡◌};
    ghost use Rattle.sql_reader.specs.KindNames.{kind_name};

    /// The name of the kind, without what it carries.
    pub fn name(&self) -> &'static str
        ensures { result.now ≡ kind_name self.now }
    {
        match self {
            ErrorKind::BadToken => "BadToken",
            ErrorKind::Expected(_) => "Expected",
            ErrorKind::NameTooLong => "NameTooLong",
            ErrorKind::UnknownName => "UnknownName",
            ErrorKind::NameTwice => "NameTwice",
            ErrorKind::ColumnList => "ColumnList",
            ErrorKind::LeftOut(_) => "LeftOut",
            ErrorKind::TypeClash => "TypeClash",
            ErrorKind::NumberTooLarge => "NumberTooLarge",
            ErrorKind::ZeroDivisor => "ZeroDivisor",
            ErrorKind::TooDeep => "TooDeep",
            ErrorKind::TooMany(_) => "TooMany",
            ErrorKind::NoKey => "NoKey",
            ErrorKind::TableTwice => "TableTwice",
            ErrorKind::OutOfMemory => "OutOfMemory",
            ErrorKind::NullableIndex => "NullableIndex",
        }
    }
}

impl From<AllocError> for ReadError {
    ghost use Rattle.std.specs.Prelude.{◌≡◌};
    ghost use Rattle.sql_reader.specs.declared.error.ErrorKind.TheVariants.{OutOfMemory};

    ghost from_gives = { λ _ e. e.kind ≡ OutOfMemory };

    fn from(_: AllocError) -> ReadError {
        ReadError {
            place: 0,
            kind: ErrorKind::OutOfMemory,
        }
    }
}

impl<T: Drop> From<AllocFailed<T>> for ReadError {
    ghost use Rattle.std.specs.Prelude.{◌≡◌};
    ghost use Rattle.sql_reader.specs.declared.error.ErrorKind.TheVariants.{OutOfMemory};

    ghost from_gives = { λ _ e. e.kind ≡ OutOfMemory };

    fn from(_: AllocFailed<T>) -> ReadError {
        ReadError {
            place: 0,
            kind: ErrorKind::OutOfMemory,
        }
    }
}
