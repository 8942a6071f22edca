//! Receipts of commits.

ghost use Rattle.std.specs.Prelude.{◌≡◌, map};
ghost use Rattle.table_changes.specs.Commands.{command_view};
ghost use Rattle.publisher_desk.specs.Receipts.{receipt_of};

use std::marker::Model;
use table_changes::Command;
use tables_log::CommitNumber;

/// A receipt of a commit: its number, its commands and its time.
#[derive(Debug, Drop)]
pub struct Receipt {
    number: CommitNumber,
    commands: Vec<Command>,
    time: u64,
}

impl Model for Receipt {
    ghost use Rattle.std.specs.Prelude.{map};
    ghost use Rattle.table_changes.specs.Commands.{command_view};
    ghost use Rattle.publisher_desk.specs.Receipts.{ReceiptOf, receipt_of};

    ghost Value = { ReceiptOf };

    ghost view = { λ r. receipt_of r.number (map command_view r.commands.items) r.time };
}

impl Receipt {
    pub(crate) fn new(number: CommitNumber, commands: Vec<Command>, time: u64) -> Receipt
        ensures { result ≡ receipt_of number (map command_view commands.items) time }
    {
        Receipt {
            number,
            commands,
            time,
        }
    }

    /// The number of the commit, from 1.
    pub fn number(&self) -> CommitNumber
        ensures { result ≡ self.now.number }
    {
        self.number
    }

    /// The commands of the commit, in their order.
    pub fn commands(&self) -> &[Command]
        ensures { map command_view result.now ≡ self.now.commands }
    {
        self.commands.as_slice()
    }

    /// When it was made, in microseconds since 2000-01-01.
    pub fn time(&self) -> u64
        ensures { result ≡ self.now.time }
    {
        self.time
    }
}
