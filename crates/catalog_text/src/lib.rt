//! A catalog as SQL, in one canonical way: each table with its columns, key, indexes and replica identity, each
//! publication with the tables that it carries and their filters, and each subscription.
#![tactic(auto)]

mod atom;
mod catalog;
mod context;
mod filter;
mod level;
mod objects;
mod tables;
mod words;

pub use catalog::write_catalog;
pub use level::Level;
