//! Rows, columns and row filters of PostgreSQL tables: values, SQL's three-valued logic, filter trees, which rows fit a
//! table, and what a filter says about a row.
#![tactic(auto)]

mod comparison;
mod copies;
mod distinct;
mod evaluation;
mod filter;
mod items;
mod lists;
mod mask;
mod order;
mod possibility;
mod same;
mod table;
mod text;
mod tri;
mod validity;
mod value;

pub use comparison::{compare, compare_literals};
pub use copies::{copy_in, copy_row, copy_value};
pub use distinct::{Distinct, add_distinct};
pub use evaluation::eval;
pub use filter::{Atom, Filter, Op, Term, Test};
pub use items::Items;
pub use lists::{add_atom, add_atoms, atoms_of, columns_of, parts_come_once, terms_of};
pub use mask::Mask;
pub use order::rows_are_ordered;
pub use possibility::possible;
pub use same::{same_atom, same_row, same_term};
pub use table::{ColType, Column, Identity, Table, TableNumber, UniqueIndex};
pub use text::Text;
pub use tri::Tri;
pub use validity::{MAX_TEXT_BYTES, RowFault, valid};
pub use value::{Literal, Row, Value};
