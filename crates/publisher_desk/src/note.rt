//! What a session keeps of its calls.

ghost use Rattle.std.specs.Prelude.{◌≡◌, IfOk};
ghost use Rattle.std.specs.Option.{option_map};

use crate::receipt::Receipt;
use filter_tree::{Row, TableNumber, copy_row};
use std::alloc::{AllocError, Global};
use tables_log::CommitNumber;

/// What a session read: the row that had this key in this table after this many commits, if there was one.
#[derive(Debug, Drop)]
pub struct Reading {
    pub number: CommitNumber,
    pub table: TableNumber,
    pub key: Row,
    pub answer: Option<Row>,
}

/// A commit or a reading of a session.
#[derive(Debug, Drop)]
pub enum Note {
    Committed(Receipt),
    Looked(Reading),
}

/// A copy of the row, if there is one. The only error is out of memory.
pub(crate) fn copy_found(alloc: Global, found: Option<&Row>) -> Result<Option<Row>, AllocError>
    ensures { IfOk result (λ copy. copy ≡ option_map (λ row. row.now) found.entry) }
{
    match found {
        None => Ok(None),
        Some(row) => Ok(Some(copy_row(alloc, row)?)),
    }
}

impl Reading {
    /// An equal reading, whose memory is taken from `alloc`. The only error is out of memory.
    pub fn copy(&self, alloc: Global) -> Result<Reading, AllocError>
        ensures { IfOk result (λ copy. copy ≡ self.now) }
    {
        let key = copy_row(alloc, &self.key)?;
        let answer = copy_found(alloc, self.answer.as_ref())?;
        Ok(Reading {
            number: self.number,
            table: self.table,
            key,
            answer,
        })
    }
}
