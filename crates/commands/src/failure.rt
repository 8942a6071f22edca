//! Why the program ends, and with which status.

use pub_reader::{ErrorKind, ReadError};
use split_cert::CertError;
use std::alloc::{AllocError, AllocFailed};
use std::error::Error;
use std::fmt;

/// How the program ends. As a number, it is the exit status.
#[derive(Clone, Copy, Debug, PartialEq, Eq)]
pub enum Status {
    /// The request was answered, and the answer is no refusal.
    Done = 0,
    /// The answer is a refusal: a row cannot be read or does not fit its table, the sharding is refused, or no
    /// certificate was found for some table.
    Refused = 1,
    /// A usage error.
    CommandLine = 2,
    /// The input has a fault.
    Input = 3,
    /// The writer failed.
    Output = 4,
    OutOfMemory = 5,
}

/// What is wrong with an input. Displayed, it is the line that is printed.
#[derive(Debug, Drop)]
pub enum InputFault<'a> {
    /// The reader failed, or what it gave is too long or not UTF-8.
    Unread,
    /// The input does not have the number of parts that the subcommand takes.
    Parts,
    /// The catalog has this fault.
    Catalog(ReadError),
    /// There is no table of this name, which is printed as it was given.
    Table(&'a str),
    /// The line of certificates with this number, from 1, is not a certificate, for this reason.
    Certificate { line: usize, error: CertError },
    /// The script has this fault.
    Script(ReadError),
}

impl fmt::Display for InputFault<'_> {
    ghost use Rattle.std.specs.Prelude.{Some};
    ghost use Rattle.commands.specs.Failures.{fault_line};

    ghost output = { λ fault. Some (fault_line fault) };

    fn fmt<W: fmt::Write>(&self, f: &mut fmt::Formatter<W>) -> fmt::Result {
        match self {
            InputFault::Unread | InputFault::Parts => write!(f, "input"),
            InputFault::Catalog(error) => {
                let place = error.place;
                let name = error.kind.name();
                write!(f, "catalog {place} {name}")
            }
            InputFault::Table(word) => write!(f, "table {word}"),
            InputFault::Certificate { line, error } => {
                let name = error.name();
                write!(f, "certificate {line} {name}")
            }
            InputFault::Script(error) => {
                let place = error.place;
                let name = error.kind.name();
                write!(f, "script {place} {name}")
            }
        }
    }
}

impl Error for InputFault<'_> {}

/// Why the program ends without an answer.
#[derive(Debug, Drop)]
pub enum Failure<'a> {
    /// A usage error; the text says which.
    CommandLine(String),
    Input(InputFault<'a>),
    /// The writer failed.
    Output,
    OutOfMemory,
}

impl Failure<'_> {
    ghost use Rattle.std.specs.Prelude.{◌≡◌};
    ghost use Rattle.commands.specs.Failures.{status_of_failure};

    /// The status with which the program ends.
    pub fn status(&self) -> Status
        ensures { result ≡ status_of_failure self.now }
    {
        match self {
            Failure::CommandLine(_) => Status::CommandLine,
            Failure::Input(_) => Status::Input,
            Failure::Output => Status::Output,
            Failure::OutOfMemory => Status::OutOfMemory,
        }
    }
}

impl From<AllocError> for Failure<'_> {
    ghost use Rattle.std.specs.Prelude.{◌≡◌};
    ghost use Rattle.commands.specs.declared.failure.Failure.TheVariants.{OutOfMemory};

    ghost from_gives = { λ _ failure. failure ≡ OutOfMemory };

    fn from(_: AllocError) -> Self {
        Failure::OutOfMemory
    }
}

impl<T: Drop> From<AllocFailed<T>> for Failure<'_> {
    ghost use Rattle.std.specs.Prelude.{◌≡◌};
    ghost use Rattle.commands.specs.declared.failure.Failure.TheVariants.{OutOfMemory};

    ghost from_gives = { λ _ failure. failure ≡ OutOfMemory };

    fn from(_: AllocFailed<T>) -> Self {
        Failure::OutOfMemory
    }
}

impl<'a> From<InputFault<'a>> for Failure<'a> {
    ghost use Rattle.std.specs.Prelude.{◌≡◌};
    ghost use Rattle.commands.specs.declared.failure.Failure.TheVariants.{Input};

    ghost from_gives = { λ fault failure. failure ≡ Input fault };

    fn from(fault: InputFault<'a>) -> Self {
        Failure::Input(fault)
    }
}

impl From<ReadError> for Failure<'_> {
    ghost use Rattle.std.specs.Prelude.{◌≡◌};
    ghost use Rattle.commands.specs.Failures.{failure_of_read};

    ghost from_gives = { λ error failure. failure ≡ failure_of_read error };

    fn from(error: ReadError) -> Self {
        match error.kind {
            ErrorKind::OutOfMemory => Failure::OutOfMemory,
            _ => Failure::Input(InputFault::Catalog(error)),
        }
    }
}
