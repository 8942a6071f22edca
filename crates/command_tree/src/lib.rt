//! The subcommands of `pgshard` and their arguments, as they are described to clap, which parses command lines by them.
#![tactic(auto)]

mod tree;

pub use tree::command;
