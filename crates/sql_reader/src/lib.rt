//! Reads pieces of SQL as PostgreSQL 15 does ("SQL Syntax", chapter 4): names, the filters of WHERE clauses, the
//! columns of CREATE TABLE, and rows of values. A `Reader` goes through the tokens of a text and looks at one token
//! before it consumes it. Each function that consumes tokens returns what its rule of the grammar reads, or the first
//! fault with its place.
#![tactic(auto)]

mod column;
mod column_rule;
mod comparison;
mod element;
mod error;
mod expression;
mod item;
mod limits;
mod list;
mod membership;
mod name;
mod number;
mod operand;
mod operator;
mod plain_row;
mod quoted;
mod reader;
mod row;
mod simple;
mod subject;
mod token;
mod truth_test;
mod word;
mod written_row;

pub use column::{FoundColumn, known_column};
pub use column_rule::unsupported_clause;
pub use element::{TableParts, read_elements};
pub use error::{ErrorKind, Limit, Omitted, ReadError};
pub use expression::read_filter;
pub use item::Item;
pub use limits::exceeded_limit;
pub use list::lists_ascend;
pub use name::{PlacedName, is_name_ahead, read_name};
pub use reader::Reader;
pub use row::{read_row, read_row_in, read_values};
pub use word::{Keyword, same_word};
pub use written_row::write_row;
