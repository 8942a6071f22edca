//! The program `pgshard`: reads a sharding of PostgreSQL tables, written as a catalog of publications with row filters,
//! and answers questions about it.
#![tactic(auto)]

ghost use Rattle.std.specs.Prelude.{◌≡◌, ◌⊎◌, IfErr};
ghost use Rattle.commands.specs.Failures.{status_of_failure};
ghost use Rattle.commands.specs.declared.failure.Status.TheVariants.{CommandLine, OutOfMemory};

use cli::run_serving;
use commands::{Failure, Input, Printer, report};
use std::io::{BufWriter, ErrorKind};
use std::process::ExitCode;
use std::{env, io};

/// The words of the command line, the program's name first.
///
/// # Errors
///
/// `CommandLine` if a word is not UTF-8; `OutOfMemory`.
fn words(rt: &HostRuntime) -> Result<Vec<String>, Failure<'static>>
    ensures { IfErr result
        (λ failure. (status_of_failure failure ≡ CommandLine) ⊎ (status_of_failure failure ≡ OutOfMemory)) }
{
    let arguments = match env::args(rt) {
        Ok(arguments) => arguments,
        Err(error) if error.kind() == ErrorKind::OutOfMemory => return Err(Failure::OutOfMemory),
        Err(_) => {
            let why = "a word of the command line is not UTF-8";
            return Err(Failure::CommandLine(String::from_str(rt.alloc(), why)?));
        }
    };
    let mut words = Vec::new(rt.alloc());
    for word in arguments {
        words.push(word)?;
    }
    Ok(words)
}

/// Prints why the program ends, and returns its exit status.
fn stop(rt: &HostRuntime, failure: Failure<'_>) -> ExitCode {
    let mut printer = Printer::new(io::writer(rt));
    ExitCode::from(report(rt.alloc(), failure, &mut printer) as u8)
}

fn main(rt: HostRuntime) -> ExitCode {
    let words = match words(&rt) {
        Ok(words) => words,
        Err(failure) => return stop(&rt, failure),
    };
    let Ok(writer) = BufWriter::new(rt.alloc(), io::writer(&rt)) else {
        return stop(&rt, Failure::OutOfMemory);
    };
    let input = Input::new(rt.stdin());
    let mut printer = Printer::new(writer);
    ExitCode::from(run_serving(&rt, words.as_slice(), input, &mut printer))
}
