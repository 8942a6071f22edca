//! The answers of the subcommands `eval`, `show`, `check`, `make` and `simulate` of `pgshard`, over any writer. Also
//! what these share with `serve` and `publish`: the input and its parts, the verdict on a sharding, names and lines of
//! output, and failures with their exit statuses.
#![tactic(auto)]

mod check;
mod eval;
mod failure;
mod input;
mod make;
mod names;
mod output;
mod parts;
mod reader;
mod reading;
mod refusals;
mod reporting;
mod show;
mod simulate;
mod verdicts;
mod writer;

pub use check::check_input;
pub use eval::evaluate;
pub use eval::row_output::RowOutput;
pub use failure::{Failure, InputFault, Status};
pub use input::Input;
pub use make::make_input;
pub use names::{publication_name, push_table, push_table_name, push_word, subscriber_name};
pub use output::{write_line, write_text};
pub use parts::{Lines, cut, three_parts, two_parts};
pub use reader::Reader;
pub use reading::read_input;
pub use reporting::report;
pub use show::show_input;
pub use simulate::answers::{answer_text, push_position};
pub use simulate::views::push_tables;
pub use simulate::{read_steps, simulate_input};
pub use verdicts::{lines_of, verdict_of, write_refused};
pub use writer::{Printer, WriteFault, Writer};
