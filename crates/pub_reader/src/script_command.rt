//! The commands of a script.

ghost use Rattle.std.specs.Prelude.{◌≡◌, map};
ghost use Rattle.table_changes.specs.Commands.{command_view};
ghost use Rattle.sql_reader.specs.ParsingContracts.{Takes, TakesSome, to_read};
ghost use Rattle.pub_reader.specs.ScriptCommands as spec;

use crate::script_table::script_table;
use filter_tree::{Table, TableNumber};
use sql_reader::{Item, ReadError, Reader, read_values, same_word};
use std::alloc::Global;
use table_changes::Command;

/// The word that begins a command.
#[derive(Clone, Copy)]
pub enum CommandWord {
    Insert,
    Update,
    Delete,
    Truncate,
}

/// The word of a command that a word spells, in upper or lower case.
#[tactic(auto, unfolding(crate::specs::ScriptCommands::command_word))]
fn command_word(word: &str) -> Option<CommandWord>
    ensures { result ≡ spec.command_word word.now }
{
    if same_word(word, "insert") {
        Some(CommandWord::Insert)
    } else if same_word(word, "update") {
        Some(CommandWord::Update)
    } else if same_word(word, "delete") {
        Some(CommandWord::Delete)
    } else if same_word(word, "truncate") {
        Some(CommandWord::Truncate)
    } else {
        None
    }
}

/// The word of a command, if it is ahead.
#[tactic(auto, unfolding(crate::specs::ScriptCommands::command_ahead))]
fn command_ahead(r: &Reader<'_>) -> Option<CommandWord>
    ensures { result ≡ spec.command_ahead (to_read r.now) }
{
    match r.item() {
        Some(Item::Word) => command_word(r.written()),
        _ => None,
    }
}

#[tactic(auto, unfolding(crate::specs::ScriptCommands::insert_body))]
fn insert_body(r: &mut Reader<'_>, alloc: Global, tables: &[Table]) -> Result<Command, ReadError>
    ensures { TakesSome command_view (spec.insert_body tables.now) r.old result r.new }
{
    let table = script_table(r, alloc, tables)?;
    let row = read_values(r, alloc)?;
    Ok(Command::Insert { table, row })
}

#[tactic(auto, unfolding(crate::specs::ScriptCommands::update_body))]
fn update_body(r: &mut Reader<'_>, alloc: Global, tables: &[Table]) -> Result<Command, ReadError>
    ensures { TakesSome command_view (spec.update_body tables.now) r.old result r.new }
{
    let table = script_table(r, alloc, tables)?;
    let key = read_values(r, alloc)?;
    let row = read_values(r, alloc)?;
    Ok(Command::Update { table, key, row })
}

#[tactic(auto, unfolding(crate::specs::ScriptCommands::delete_body))]
fn delete_body(r: &mut Reader<'_>, alloc: Global, tables: &[Table]) -> Result<Command, ReadError>
    ensures { TakesSome command_view (spec.delete_body tables.now) r.old result r.new }
{
    let table = script_table(r, alloc, tables)?;
    let key = read_values(r, alloc)?;
    Ok(Command::Delete { table, key })
}

/// Reads one more table.
#[tactic(auto, unfolding(crate::specs::ScriptCommands::one_table))]
fn one_table(
    r: &mut Reader<'_>,
    alloc: Global,
    tables: &[Table],
    numbers: &mut Vec<TableNumber>,
) -> Result<(), ReadError>
    ensures { TakesSome (λ _. numbers.new.items) (spec.one_table tables.now numbers.old.items) r.old result r.new }
{
    let number = script_table(r, alloc, tables)?;
    numbers.push(number)?;
    Ok(())
}

/// Reads the names of tables, separated by commas, and returns their numbers.
#[tactic(auto, using(crate::proofs::Rules::chaining), unfolding(crate::specs::ScriptCommands::table_list))]
fn table_list(
    r: &mut Reader<'_>,
    alloc: Global,
    tables: &[Table],
) -> Result<Vec<TableNumber>, ReadError>
    ensures { TakesSome (λ numbers. numbers.items) (spec.table_list tables.now) r.old result r.new }
{
    let mut numbers = Vec::new(alloc);
    one_table(r, alloc, tables, &mut numbers)?;
    while r.next_is(Item::Comma)? {
        r.advance();
        one_table(r, alloc, tables, &mut numbers)?;
    }
    Ok(numbers)
}

#[tactic(auto, unfolding(crate::specs::ScriptCommands::truncate_body))]
fn truncate_body(r: &mut Reader<'_>, alloc: Global, tables: &[Table]) -> Result<Command, ReadError>
    ensures { TakesSome command_view (spec.truncate_body tables.now) r.old result r.new }
{
    r.expect(Item::Open, "`(`")?;
    let tables = table_list(r, alloc, tables)?;
    r.expect(Item::Close, "`,` or `)`")?;
    Ok(Command::Truncate { tables })
}

/// Reads a command.
#[tactic(auto, using(sql_reader::proofs::Ahead::rest_is_no_more), unfolding(crate::specs::ScriptCommands::command))]
fn command(r: &mut Reader<'_>, alloc: Global, tables: &[Table]) -> Result<Command, ReadError>
    ensures { TakesSome command_view (spec.command tables.now) r.old result r.new }
{
    match command_ahead(r) {
        Some(CommandWord::Insert) => {
            r.advance();
            insert_body(r, alloc, tables)
        }
        Some(CommandWord::Update) => {
            r.advance();
            update_body(r, alloc, tables)
        }
        Some(CommandWord::Delete) => {
            r.advance();
            delete_body(r, alloc, tables)
        }
        Some(CommandWord::Truncate) => {
            r.advance();
            truncate_body(r, alloc, tables)
        }
        None => Err(r.refusal("INSERT, UPDATE, DELETE, TRUNCATE or `;`")),
    }
}

/// Reads one more command.
#[tactic(auto, unfolding(crate::specs::ScriptCommands::one_command))]
fn one_command(
    r: &mut Reader<'_>,
    alloc: Global,
    tables: &[Table],
    commands: &mut Vec<Command>,
) -> Result<(), ReadError>
    ensures { TakesSome (λ _. map command_view commands.new.items)
        (spec.one_command tables.now (map command_view commands.old.items)) r.old result r.new }
{
    let command = command(r, alloc, tables)?;
    commands.push(command)?;
    Ok(())
}

/// Reads commands, separated by commas.
#[tactic(auto, using(crate::proofs::Rules::chaining), unfolding(crate::specs::ScriptCommands::command_list))]
fn command_list(
    r: &mut Reader<'_>,
    alloc: Global,
    tables: &[Table],
) -> Result<Vec<Command>, ReadError>
    ensures { TakesSome (λ commands. map command_view commands.items) (spec.command_list tables.now)
        r.old result r.new }
{
    let mut commands = Vec::new(alloc);
    one_command(r, alloc, tables, &mut commands)?;
    while r.next_is(Item::Comma)? {
        r.advance();
        one_command(r, alloc, tables, &mut commands)?;
    }
    Ok(commands)
}

/// Reads commands, or none if the step ends.
#[tactic(auto, unfolding(crate::specs::ScriptCommands::commands_or_none))]
pub fn commands_or_none(
    r: &mut Reader<'_>,
    alloc: Global,
    tables: &[Table],
) -> Result<Vec<Command>, ReadError>
    ensures { Takes (λ commands. map command_view commands.items) (spec.commands_or_none tables.now)
        r.old result r.new }
{
    if r.next_is(Item::Semicolon)? {
        return Ok(Vec::new(alloc));
    }
    Ok(command_list(r, alloc, tables)?)
}
