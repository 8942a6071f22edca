//! The lines that answer the steps of a script.

ghost use Rattle.std.specs.Prelude.{◌≡◌, ◌++◌, IfOk, OnOk, ◌∷◌, []};
ghost use Rattle.std.specs.String.{string_bytes};
ghost use Rattle.commands.specs.Names.{fault_words};
ghost use Rattle.commands.specs.Output.{text_of};
ghost use Rattle.commands.specs.Simulate.Answers as spec;

use filter_tree::RowFault;
use shard_world::Answer;
use std::alloc::{AllocError, Global};
use tables_log::{CommandFault, CommitError, Lsn};

/// A position in the log is written as two halves, each below this number.
const HALF: u64 = 0x1_0000_0000;

/// Writes a position in the log as two hexadecimal numbers, its high and its low 32 bits.
///
/// PostgreSQL 15, 8.20. pg_lsn Type.
pub fn push_position(line: &mut String, position: Lsn) -> Result<(), AllocError>
    ensures { OnOk result (string_bytes line.new ≡ string_bytes line.old ++ spec.position_text position) }
{
    let bytes = position.to_u64();
    let high = bytes / HALF;
    let low = bytes % HALF;
    write!(line, "{high:X}/{low:X}")
}

/// Writes why a row does not fit its table, and the number of the column with the fault, from 0.
fn push_row_fault(line: &mut String, fault: RowFault) -> Result<(), AllocError>
    ensures { OnOk result (string_bytes line.new ≡ string_bytes line.old ++ fault_words fault) }
{
    match fault {
        RowFault::Width => line.push_str("Width"),
        RowFault::NullInNotNull(column) => write!(line, "NullInNotNull {column}"),
        RowFault::WrongType(column) => write!(line, "WrongType {column}"),
        RowFault::OutOfRange(column) => write!(line, "OutOfRange {column}"),
        RowFault::NulInText(column) => write!(line, "NulInText {column}"),
        RowFault::TextTooLong(column) => write!(line, "TextTooLong {column}"),
    }
}

/// Writes why a command is refused.
fn push_command_fault(line: &mut String, fault: CommandFault) -> Result<(), AllocError>
    ensures { OnOk result (string_bytes line.new ≡ string_bytes line.old ++ spec.command_fault fault) }
{
    match fault {
        CommandFault::NoTable => line.push_str("NoTable"),
        CommandFault::Row(fault) => {
            line.push_str("Row ")?;
            push_row_fault(line, fault)
        }
        CommandFault::NoSuchRow => line.push_str("NoSuchRow"),
        CommandFault::DuplicateKey => line.push_str("DuplicateKey"),
    }
}

/// Writes why a list of commands is refused.
fn push_commit_error(line: &mut String, error: CommitError) -> Result<(), AllocError>
    ensures { OnOk result (string_bytes line.new ≡ string_bytes line.old ++ spec.commit_error error) }
{
    match error {
        CommitError::EmptyTransaction => line.push_str("EmptyTransaction"),
        CommitError::TooManyCommands => line.push_str("TooManyCommands"),
        CommitError::LogFull => line.push_str("LogFull"),
        CommitError::At(number, fault) => {
            write!(line, "At {number} ")?;
            push_command_fault(line, fault)
        }
        CommitError::OutOfMemory => line.push_str("OutOfMemory"),
    }
}

/// Writes the answer to a step.
fn push_answer(line: &mut String, answer: Answer) -> Result<(), AllocError>
    ensures { OnOk result (string_bytes line.new ≡ string_bytes line.old ++ spec.answer_line answer) }
{
    match answer {
        Answer::Committed(number) => write!(line, "commit {number}"),
        Answer::Refused(error) => {
            line.push_str("refused ")?;
            push_commit_error(line, error)
        }
        Answer::NoSubscriber => line.push_str("no subscriber"),
        Answer::NotOpen => line.push_str("not open"),
        Answer::AlreadyOpen => line.push_str("already open"),
        Answer::Opened => line.push_str("opened"),
        Answer::Heard(count) => write!(line, "heard {count}"),
        Answer::NotStarted => line.push_str("not started"),
        Answer::Idle => line.push_str("idle"),
        Answer::Skipped(number) => write!(line, "skipped {number}"),
        Answer::Sent(number) => write!(line, "sent {number}"),
        Answer::Kept => line.push_str("kept"),
        Answer::Delivered(count) => write!(line, "delivered {count}"),
        Answer::Reported => line.push_str("reported"),
        Answer::Lost => line.push_str("lost"),
        Answer::At(position) => {
            line.push_str("at ")?;
            push_position(line, Lsn::new(position))
        }
        Answer::OutOfMemory => line.push_str("out of memory"),
    }
}

/// The line of the answer to a step.
pub fn answer_text(alloc: Global, answer: Answer) -> Result<String, AllocError>
    ensures { IfOk result (λ text. string_bytes text ≡ text_of (spec.answer_line answer ∷ [])) }
{
    let mut text = String::new(alloc);
    push_answer(&mut text, answer)?;
    text.push('\n')?;
    Ok(text)
}
