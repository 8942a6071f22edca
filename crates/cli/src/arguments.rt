//! What the arguments of a command line request.

ghost use Rattle.std.specs.Prelude.{IfErr, IfOk, map};
ghost use Rattle.clap.specs.Words.{kind_of};
ghost use Rattle.cli.specs.CommandLine.{IsAsking, IsHelp, IsHelpKind, IsOfError, IsOfWords};

use crate::requests::{Request, request_of};
use crate::values::wrong_value;
use clap::error::ErrorKind;
use command_tree::command;
use commands::Failure;
use std::alloc::{AllocError, Global};
use std::convert::AsStr;

/// What the arguments of a command line request.
#[derive(Debug, Drop)]
pub enum Invocation<'a> {
    /// The help or the version; this is its text.
    Help(String),
    Answer(Request<'a>),
}

/// The text of an error for the user, without a final newline.
fn rendered(alloc: Global, error: &clap::Error) -> Result<String, AllocError> {
    let text = format!(in alloc; "{error}")?;
    String::from_str(alloc, text.as_str().trim_end())
}

/// What is requested by arguments to which clap returns an error.
fn asked_by<'a>(alloc: Global, error: &clap::Error) -> Result<Invocation<'a>, Failure<'a>>
    ensures help { IfOk result (λ asked. IsHelp asked × IsHelpKind (kind_of error.now)) }
    ensures stopped { IfErr result (IsOfError (kind_of error.now)) }
{
    match error.kind() {
        ErrorKind::OutOfMemory => Err(Failure::OutOfMemory),
        ErrorKind::DisplayHelp | ErrorKind::DisplayVersion => Ok(Invocation::Help(rendered(
            alloc, error,
        )?)),
        _ => Err(Failure::CommandLine(rendered(alloc, error)?)),
    }
}

/// Parses the arguments of a command line, which begin with the program's name.
///
/// # Errors
///
/// `OutOfMemory`; `CommandLine`, with a text for the user, if the arguments request neither the help nor the version
/// and are none of these:
///
/// - `show` or `make` alone
/// - `check`, with at most one `--show`
/// - `eval`, with a table's name and at most one `--insert`
/// - `simulate`, with at most one `--limit` of 1 to 1,000,000,000
/// - `serve`, with one `--port` of 1 to 65,535, and at most one such `--limit` and `--connections` of 1 to 1,000
/// - `publish`, with one `--port` of 0 to 65,535, and at most one each of such a `--commands` and `--limit`, of
///   `--port-file`, of `--start-timeout`, `--write-timeout`, `--keepalive` and `--timeout` of 1 to 86,400, and of
///   `--log`, which is `text` or `json`
pub fn parse<'a, S: AsStr>(alloc: Global, words: &'a [S]) -> Result<Invocation<'a>, Failure<'a>>
    ensures asked { IfOk result (IsAsking (map S.text words.entry.now)) }
    ensures stopped { IfErr result (IsOfWords (map S.text words.entry.now)) }
{
    let mut command = command(alloc)?;
    let matches = match command.try_get_matches_from_mut(words) {
        Ok(matches) => matches,
        Err(error) => return asked_by(alloc, &error),
    };
    match request_of(&matches) {
        Some(request) => Ok(Invocation::Answer(request)),
        None => Err(Failure::CommandLine(wrong_value(alloc, &matches)?)),
    }
}
