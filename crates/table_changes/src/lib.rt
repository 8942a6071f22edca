//! What commands do to tables: which of them are refused, which rows exist afterwards, and what stays true.
#![tactic(auto)]

mod command;
mod key;
mod laws;

pub use command::Command;
pub use key::{key_of, values_at};
pub use laws::{
    commands_change_rows, commands_come_one_by_one, faults_of_commands_stay,
    records_show_what_is_seen, rows_come_and_go,
};
