//! Calls of `read_script`.

use crate::cells::push_row;
use crate::desk::Desk;
use crate::escapes::unescaped;
use crate::rows::refusal;
use anyhow::{Result, bail};
use pub_catalog::Catalog;
use pub_reader::{Line, ReadError, Step, read_script};
use std::alloc::Global;
use table_changes::Command;

/// The lines of a script for a catalog.
pub fn lines_of(alloc: Global, catalog: &Catalog, text: &str) -> Result<Vec<Line>, ReadError> {
    read_script(alloc, catalog, text)
}

/// The one given step.
pub fn step_of(desk: &Desk, given: &str) -> Result<Step> {
    let text = unescaped(desk.alloc, given)?;
    let mut lines = lines_of(desk.alloc, desk.catalog()?, text.as_str())?;
    match lines.pop() {
        Some(line) if lines.is_empty() => Ok(line.step),
        _ => bail!("one step is expected"),
    }
}

/// The commands of the one given commit.
pub fn commands_of(desk: &Desk, given: &str) -> Result<Vec<Command>> {
    match step_of(desk, given)? {
        Step::Commit(commands) => Ok(commands),
        _ => bail!("a commit is expected"),
    }
}

/// Appends a command as it is written, except for the numbers of its tables.
fn push_command(alloc: Global, command: &Command, answer: &mut String) -> Result<()> {
    match command {
        Command::Insert { table, row } => {
            write!(answer, "INSERT {table} ")?;
            push_row(alloc, row, answer)
        }
        Command::Update { table, key, row } => {
            write!(answer, "UPDATE {table} ")?;
            push_row(alloc, key, answer)?;
            answer.push(' ')?;
            push_row(alloc, row, answer)
        }
        Command::Delete { table, key } => {
            write!(answer, "DELETE {table} ")?;
            push_row(alloc, key, answer)
        }
        Command::Truncate { tables } => {
            write!(answer, "TRUNCATE {:?}", tables.as_slice())?;
            Ok(())
        }
    }
}

fn push_commit(alloc: Global, commands: &[Command], answer: &mut String) -> Result<()> {
    answer.push_str("COMMIT")?;
    for (at, command) in commands.iter().enumerate() {
        answer.push_str(if at == 0 { " " } else { ", " })?;
        push_command(alloc, command, answer)?;
    }
    Ok(())
}

fn in_capitals(truth: bool) -> &'static str {
    if truth { "TRUE" } else { "FALSE" }
}

/// Appends a step that has only numbers and truth values.
fn push_short(step: &Step, answer: &mut String) -> Result<()> {
    match step {
        Step::Commit(_) | Step::View => answer.push_str("VIEW")?,
        Step::Open { subscriber } => write!(answer, "OPEN {subscriber}")?,
        Step::Hear { subscriber, bytes } => write!(answer, "HEAR {subscriber} {bytes}")?,
        Step::Take { subscriber } => write!(answer, "TAKE {subscriber}")?,
        Step::Keep { subscriber, want } => {
            write!(answer, "KEEP {subscriber} {}", in_capitals(*want))?;
        }
        Step::Deliver { subscriber, bytes } => write!(answer, "DELIVER {subscriber} {bytes}")?,
        Step::Report { subscriber, want } => {
            write!(answer, "REPORT {subscriber} {}", in_capitals(*want))?;
        }
        Step::Lose { subscriber } => write!(answer, "LOSE {subscriber}")?,
        Step::Pump { subscriber } => write!(answer, "PUMP {subscriber}")?,
    }
    Ok(())
}

fn push_step(alloc: Global, step: &Step, answer: &mut String) -> Result<()> {
    match step {
        Step::Commit(commands) => push_commit(alloc, commands.as_slice(), answer),
        other => push_short(other, answer),
    }
}

/// The steps, each after its place.
fn shown(alloc: Global, lines: &[Line]) -> Result<String> {
    let mut answer = String::new(alloc);
    for line in lines {
        if !answer.is_empty() {
            answer.push_str("; ")?;
        }
        write!(answer, "{} ", line.place)?;
        push_step(alloc, &line.step, &mut answer)?;
    }
    Ok(answer)
}

/// The steps of the script, or its refusal.
fn read(desk: &Desk, text: &str) -> Result<String> {
    match lines_of(desk.alloc, desk.catalog()?, text) {
        Ok(lines) => shown(desk.alloc, lines.as_slice()),
        Err(error) => refusal(desk.alloc, &error),
    }
}

/// Why the text is not a script, in words.
fn message(desk: &Desk, text: &str) -> Result<String> {
    match lines_of(desk.alloc, desk.catalog()?, text) {
        Ok(_lines) => Ok(String::new(desk.alloc)),
        Err(error) => Ok(format!(in desk.alloc; "{error}")?),
    }
}

/// The answer to the call.
pub fn answer(desk: &mut Desk, call: &str, rest: &str) -> Result<Option<String>> {
    let text = unescaped(desk.alloc, rest)?;
    match call {
        "read" => Ok(Some(read(desk, text.as_str())?)),
        "message" => Ok(Some(message(desk, text.as_str())?)),
        _ => Ok(None),
    }
}
