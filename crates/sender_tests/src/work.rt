//! What the sessions of a test write, and which rows each subscriber has then.

use filter_tree::{Row, Text, Value};
use std::alloc::{AllocError, Global};
use table_changes::Command;

/// What sessions write: two of them 50 commits each, in each of which two subscribers have a row; or four of them 2,496
/// commits of a row each, in 32 shards, and then one of them 16 commits in each of which all 32 subscribers have a row.
#[derive(Clone, Copy, Debug, PartialEq, Eq)]
pub(crate) enum Work {
    Pairs,
    Spread,
}

/// Who is held, until others are done.
#[derive(Clone, Copy, Debug, PartialEq, Eq)]
pub(crate) enum Hold {
    /// Nobody.
    Nobody,
    /// The sender of the first slot at its gate, until a later commit has returned and was got by the second slot.
    Gate,
    /// The same, in its first write after the start.
    Writer,
    /// The client of the first slot after its first read, until the second slot has got all.
    Slow,
}

impl Work {
    /// How many subscribers there are.
    pub(crate) fn slots(self) -> usize {
        match self {
            Work::Pairs => 2,
            Work::Spread => 32,
        }
    }

    /// How many sessions there are.
    pub(crate) fn sessions(self) -> usize {
        match self {
            Work::Pairs => 2,
            Work::Spread => 4,
        }
    }

    /// How many commits each session makes.
    pub(crate) fn turns(self) -> usize {
        match self {
            Work::Pairs => 50,
            Work::Spread => 2_496,
        }
    }

    /// How many commits one session makes after that.
    pub(crate) fn last_turns(self) -> usize {
        match self {
            Work::Pairs => 0,
            Work::Spread => 16,
        }
    }

    /// How many commits there are in the end.
    pub(crate) fn commits(self) -> usize {
        match self {
            Work::Pairs => 100,
            Work::Spread => 10_000,
        }
    }

    /// How many of them each subscriber is sent. Each gives it one row.
    pub(crate) fn sent(self) -> usize {
        match self {
            Work::Pairs => 100,
            Work::Spread => 328,
        }
    }

    /// How much each subscriber has got in the end: 1 more than the number of the last commit, which each is sent.
    pub(crate) fn in_all(self) -> u64 {
        match self {
            Work::Pairs => 101,
            Work::Spread => 10_001,
        }
    }

    /// Whether the sessions begin when all streams have started.
    pub(crate) fn begins_later(self) -> bool {
        match self {
            Work::Pairs => false,
            Work::Spread => true,
        }
    }

    /// How far the first keys of two shards next to each other are apart.
    pub(crate) fn width(self) -> usize {
        match self {
            Work::Pairs => 100,
            Work::Spread => 1_000,
        }
    }

    /// The first of the keys that a session's commit inserts.
    pub(crate) fn key(self, session: usize, turn: usize) -> usize {
        match self {
            Work::Pairs => session.saturating_mul(50).saturating_add(turn),
            Work::Spread => {
                let place = turn.saturating_mul(4).saturating_add(session);
                (place % 32) * 1_000 + place / 32 % 1_000
            }
        }
    }

    /// The second one, if there is one.
    pub(crate) fn second_key(self, session: usize, turn: usize) -> Option<usize> {
        match self {
            Work::Pairs => Some(self.key(session, turn).saturating_add(100)),
            Work::Spread => None,
        }
    }

    /// The inserts of a session's commit.
    pub(crate) fn commands(
        self,
        alloc: Global,
        session: usize,
        turn: usize,
    ) -> Result<Vec<Command>, AllocError> {
        let mut list = Vec::new(alloc);
        list.push(insert(alloc, self.key(session, turn))?)?;
        if let Some(key) = self.second_key(session, turn) {
            list.push(insert(alloc, key)?)?;
        }
        Ok(list)
    }

    /// The inserts of a commit after all sessions, one for each subscriber.
    pub(crate) fn last_commands(
        self,
        alloc: Global,
        turn: usize,
    ) -> Result<Vec<Command>, AllocError> {
        let mut list = Vec::new(alloc);
        for slot in 0..self.slots() {
            let first = slot.saturating_mul(self.width());
            let key = first.saturating_add(312).saturating_add(turn);
            list.push(insert(alloc, key)?)?;
        }
        Ok(list)
    }
}

/// A key.
pub(crate) fn key_of(alloc: Global, key: usize) -> Result<Row, AllocError> {
    let number = i64::try_from(key).unwrap_or(0);
    Ok(Row::from_values(vec![in alloc; Value::Int(number)]?))
}

/// The row that has this key, with the key's digits as its text.
pub(crate) fn row_of(alloc: Global, key: usize) -> Result<Row, AllocError> {
    let number = i64::try_from(key).unwrap_or(0);
    let text = Value::Text(Text::new(format!(in alloc; "{key}")?));
    Ok(Row::from_values(vec![in alloc; Value::Int(number), text]?))
}

/// The row of this key and this region.
pub(crate) fn regional_row(alloc: Global, key: i64, region: &str) -> Result<Row, AllocError> {
    let text = Value::Text(Text::from_str(alloc, region)?);
    Ok(Row::from_values(vec![in alloc; Value::Int(key), text]?))
}

fn insert(alloc: Global, key: usize) -> Result<Command, AllocError> {
    Ok(Command::Insert {
        table: 0,
        row: row_of(alloc, key)?,
    })
}

/// Whether these are the rows of the keys from this one on, so many of them.
pub(crate) fn are_rows(
    alloc: Global,
    rows: &[Row],
    first: usize,
    count: usize,
) -> Result<bool, AllocError> {
    if rows.len() != count {
        return Ok(false);
    }
    let mut key = first;
    for row in rows {
        if *row != row_of(alloc, key)? {
            return Ok(false);
        }
        key = key.saturating_add(1);
    }
    Ok(true)
}
