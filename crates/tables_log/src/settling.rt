//! Tables whose rows settle: those that commands name.

ghost use Rattle.std.specs.Prelude.{◌≡◌};
ghost use Rattle.tables_log.specs.Places.{SettlesTables};
ghost use Rattle.tables_log.specs.Settling.{is_in, names, are_named, IsSettled, IsSettledBut, SettlesOne, SettlesNamed};

use crate::table_rows::TableRows;
use filter_tree::TableNumber;
use table_changes::Command;

/// Keeps what is seen of the table, if it exists.
#[tactic(auto, using(crate::proofs::SettleLemmas::settles_past))]
fn settle_one(tables: &mut [TableRows], number: TableNumber)
    ensures { SettlesOne tables.old tables.new number }
{
    if number >= tables.len() {
        return;
    }
    tables[number].settle();
}

/// Keeps what is seen of these tables.
#[tactic(auto, using(crate::proofs::SettleLemmas::settles_number, crate::proofs::SettleLemmas::settled_numbers))]
fn settle_each(tables: &mut [TableRows], numbers: &[TableNumber])
    ensures { SettlesNamed tables.old tables.new (is_in numbers.now) }
{
    for number in numbers {
        settle_one(tables, *number);
    }
}

/// Keeps what is seen of the tables that the command names.
fn settle_named(tables: &mut [TableRows], command: &Command)
    ensures { SettlesNamed tables.old tables.new (names command.now) }
{
    match command {
        Command::Insert { table, row: _ } => settle_one(tables, *table),
        Command::Update {
            table,
            key: _,
            row: _,
        } => settle_one(tables, *table),
        Command::Delete { table, key: _ } => settle_one(tables, *table),
        Command::Truncate { tables: numbers } => settle_each(tables, numbers.as_slice()),
    }
}

/// Keeps what is seen of the tables that the commands name, if all that is seen of the others is kept.
#[tactic(auto, using(crate::proofs::SettleLemmas::settles_command, crate::proofs::SettleLemmas::settled_commands))]
pub(crate) fn settle(tables: &mut [TableRows], commands: &[Command])
    requires { IsSettledBut (are_named commands.now) tables.old }
    ensures { SettlesTables tables.old tables.new }
{
    for command in commands {
        settle_named(tables, command);
    }
}
