//! The commands of the commits.

use anyhow::Result;
use filter_tree::Row;
use pub_reader::read_row;
use std::alloc::Global;
use table_changes::Command;

/// The number of the first row that the commit's last commands insert into each table.
pub const FIRST: u16 = 10;

/// The number of the last row.
pub const LAST: u16 = 26;

/// The row of this text.
pub fn row(alloc: Global, text: &str) -> Result<Row> {
    Ok(read_row(alloc, text)?)
}

/// A command, by the number of its table and the texts of its rows and keys, or by the numbers of its tables.
enum Order {
    Insert(usize, &'static str),
    Update(usize, &'static str, &'static str),
    Delete(usize, &'static str),
    Truncate(&'static [usize]),
}

/// The orders of the commits that make the first rows. The log has memory for four commits at first, so the fifth one
/// makes an allocation for the log too.
const FIRST_ORDERS: [&[Order]; 4] = [
    &[
        Order::Insert(0, "(1, 'one', NULL)"),
        Order::Insert(2, "('a', 1, NULL)"),
    ],
    &[
        Order::Insert(0, "(2, 'two', 'second')"),
        Order::Insert(2, "('a', 2, 'other')"),
    ],
    &[Order::Insert(1, "(7, 'eu')")],
    &[
        Order::Insert(1, "(200, NULL)"),
        Order::Insert(2, "('', 1, NULL)"),
    ],
];

/// Commands of all four kinds, on each table.
const ORDERS: &[Order] = &[
    Order::Insert(0, "(3, 'three', 'third')"),
    Order::Update(0, "(1)", "(4, 'four', 'was one')"),
    Order::Delete(0, "(2)"),
    Order::Insert(0, "(5, 'two', NULL)"),
    Order::Insert(2, "('b', 2, 'new')"),
    Order::Delete(2, "(2, 'a')"),
    Order::Update(2, "(1, 'a')", "('b', 1, 'other')"),
    Order::Update(1, "(7)", "(107, 'us')"),
    Order::Delete(1, "(200)"),
    Order::Truncate(&[2, 1]),
    Order::Insert(1, "(8, 'as')"),
    Order::Insert(2, "('a', 2, 'other')"),
];

fn truncate(alloc: Global, tables: &[usize]) -> Result<Command> {
    Ok(Command::Truncate {
        tables: Vec::from_slice(alloc, tables)?,
    })
}

fn command(alloc: Global, order: &Order) -> Result<Command> {
    Ok(match order {
        Order::Insert(table, new) => Command::Insert {
            table: *table,
            row: row(alloc, new)?,
        },
        Order::Update(table, key, new) => Command::Update {
            table: *table,
            key: row(alloc, key)?,
            row: row(alloc, new)?,
        },
        Order::Delete(table, key) => Command::Delete {
            table: *table,
            key: row(alloc, key)?,
        },
        Order::Truncate(tables) => truncate(alloc, tables)?,
    })
}

fn commands_of(alloc: Global, orders: &[Order]) -> Result<Vec<Command>> {
    let mut commands = Vec::new(alloc);
    for order in orders {
        commands.push(command(alloc, order)?)?;
    }
    Ok(commands)
}

/// The commands of the commits that make the first rows.
pub fn first_commits(alloc: Global) -> Result<Vec<Vec<Command>>> {
    let mut commits = Vec::new(alloc);
    for orders in FIRST_ORDERS {
        commits.push(commands_of(alloc, orders)?)?;
    }
    Ok(commits)
}

/// The row of `codes` with this number, as the commit's last commands have it.
pub fn numbered_code(alloc: Global, number: u16) -> Result<Row> {
    let text = format!(in alloc; "({number}, 'code {number}', NULL)")?;
    row(alloc, text.as_str())
}

/// The row of `orders` with this number, as the commit's last commands have it.
pub fn numbered_order(alloc: Global, number: u16) -> Result<Row> {
    let text = format!(in alloc; "({number}, 'eu')")?;
    row(alloc, text.as_str())
}

/// The row of `places` with this number, as the commit's last commands have it.
pub fn numbered_place(alloc: Global, number: u16) -> Result<Row> {
    let text = format!(in alloc; "('place {number}', 2, 'place {number}')")?;
    row(alloc, text.as_str())
}

/// The commands of the commit whose allocations are refused, of all four kinds and on each table. The last ones insert
/// more rows than a node of a map has room for.
pub fn commands(alloc: Global) -> Result<Vec<Command>> {
    let mut commands = commands_of(alloc, ORDERS)?;
    for number in FIRST..=LAST {
        let row = numbered_code(alloc, number)?;
        commands.push(Command::Insert { table: 0, row })?;
        let row = numbered_order(alloc, number)?;
        commands.push(Command::Insert { table: 1, row })?;
        let row = numbered_place(alloc, number)?;
        commands.push(Command::Insert { table: 2, row })?;
    }
    Ok(commands)
}
