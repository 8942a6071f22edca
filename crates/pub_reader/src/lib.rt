//! Reads the catalog of a publisher, its schemas, tables, replica identities, publications with their row filters and
//! subscriptions, from the SQL of PostgreSQL 15 in which it is written. Rows of its tables are read by `read_row`, and
//! scripts of commands and of what happens to subscribers by `read_script`. Each statement of a catalog consumes its
//! tokens, and changes the draft of the catalog that is being read.
#![tactic(auto)]

mod coverage;
mod draft;
mod filter_clause;
mod filters;
mod identity;
mod index;
mod laws;
mod names;
mod object;
mod parameter;
mod publication;
mod publish;
mod resolution;
mod schema;
mod script;
mod script_command;
mod script_table;
mod statement;
mod step;
mod step_word;
mod subscription;
mod table;
mod table_name;

pub use laws::catalogs_are_well_formed;
pub use pub_catalog::{Catalog, Entry, Operations, Publication, Subscription};
pub use script::{Line, read_script};
pub use sql_reader::{ErrorKind, Limit, Omitted, ReadError, read_row, write_row};
pub use statement::read_catalog;
pub use step::Step;
pub use table_changes::Command;
