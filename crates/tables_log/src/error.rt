//! Why commits, starts and confirmations are refused.

use filter_tree::RowFault;
use std::alloc::{AllocError, AllocFailed};
use thiserror::Error;

/// Why a command is refused.
///
/// PostgreSQL 15, 5.4.3 Unique Constraints, 5.4.4 Primary Keys, 11.6 Unique Indexes.
#[derive(Clone, Copy, Debug, PartialEq, Eq, Error)]
pub enum CommandFault {
    /// There is no table with this number, or TRUNCATE names none.
    #[error("there is no such table")]
    NoTable,
    /// The row does not fit its table.
    #[error("the row does not fit its table: {0}")]
    Row(RowFault),
    /// No row of the table has this primary key.
    #[error("no row of the table has this key")]
    NoSuchRow,
    /// Another row of the table has the row's value in its primary key or in a unique index.
    #[error("another row has the same value in the primary key or in a unique index")]
    DuplicateKey,
}

/// Why a list of commands is refused.
#[derive(Clone, Copy, Debug, PartialEq, Eq, Error)]
pub enum CommitError {
    /// The list has no command.
    #[error("a transaction has at least one command")]
    EmptyTransaction,
    /// The list has more than 1,000 commands.
    #[error("a transaction has at most 1,000 commands")]
    TooManyCommands,
    /// The log has as many commits as it may have.
    #[error("the log is full")]
    LogFull,
    /// The number, from 1, of the first command that is refused on what the earlier ones leave, and why.
    #[error("command {0}: {1}")]
    At(usize, CommandFault),
    /// An allocation was refused.
    #[error("out of memory")]
    OutOfMemory,
}

impl From<AllocError> for CommitError {
    ghost use Rattle.std.specs.Prelude.{◌≡◌};
    ghost use Rattle.tables_log.specs.declared.error.CommitError.TheVariants.{OutOfMemory};

    ghost from_gives = { λ _ error. error ≡ OutOfMemory };

    fn from(_: AllocError) -> CommitError {
        CommitError::OutOfMemory
    }
}

impl<T: Drop> From<AllocFailed<T>> for CommitError {
    ghost use Rattle.std.specs.Prelude.{◌≡◌};
    ghost use Rattle.tables_log.specs.declared.error.CommitError.TheVariants.{OutOfMemory};

    ghost from_gives = { λ _ error. error ≡ OutOfMemory };

    fn from(_: AllocFailed<T>) -> CommitError {
        CommitError::OutOfMemory
    }
}

/// Why a stream cannot start.
#[derive(Clone, Copy, Debug, PartialEq, Eq, Error)]
pub enum StartError {
    /// There is no slot with this number.
    #[error("there is no such slot")]
    NoSlot,
    /// The position is after the end of the log.
    #[error("the position is after the end of the log")]
    Ahead,
    /// The slot is in use by a stream.
    #[error("the slot is in use")]
    InUse,
}

/// The position to be confirmed is after what was sent.
#[derive(Clone, Copy, Debug, PartialEq, Eq, Error)]
#[error("the position is after what was sent")]
pub struct StatusAhead;

/// Why a command is not staged: its fault, or memory ran out.
pub(crate) enum Refused {
    Fault(CommandFault),
    OutOfMemory,
}

impl From<AllocError> for Refused {
    ghost use Rattle.std.specs.Prelude.{◌≡◌};
    ghost use Rattle.tables_log.specs.declared.error.Refused.TheVariants.{OutOfMemory};

    ghost from_gives = { λ _ refused. refused ≡ OutOfMemory };

    fn from(_: AllocError) -> Refused {
        Refused::OutOfMemory
    }
}

impl From<CommandFault> for Refused {
    ghost use Rattle.std.specs.Prelude.{◌≡◌};
    ghost use Rattle.tables_log.specs.declared.error.Refused.TheVariants.{Fault};

    ghost from_gives = { λ fault refused. refused ≡ Fault fault };

    fn from(fault: CommandFault) -> Refused {
        Refused::Fault(fault)
    }
}
