//! The command line of `pgshard`, over any reader and writer: its subcommands, how arguments are parsed, and what is
//! written for each exit status. Two subcommands are here: `serve` and `publish` serve the subscribers of a sharding
//! over sockets, while a session commits the transactions of a script, or commands as they arrive.
#![tactic(auto)]

mod arguments;
mod closing;
mod commits;
mod connections;
mod listening;
mod program;
mod publish;
mod requests;
mod running;
mod script;
mod serve;
mod unserved;
mod values;

pub use program::{run, run_serving};
