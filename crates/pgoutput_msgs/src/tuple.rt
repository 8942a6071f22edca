//! The values of a row in a message ("TupleData").

ghost use Rattle.std.specs.Prelude.{◌≡◌, ◌==◌, ◌<◌, ◌^◌, ◌-◌, length, min, All, IsUtf8};
ghost use Rattle.std.specs.List.{flat_map};
ghost use Rattle.pgoutput_msgs.specs.Spelling.{cell_spelling, tuple_spelling, old_spelling, new_spelling};
ghost use Rattle.pgoutput_msgs.specs.Ranges.{IsCellWithinRange, IsTupleWithinRange, IsOldWithinRange};
ghost use Rattle.pgoutput_msgs.specs.Room.{HasRoom, Puts};
ghost use Rattle.pgoutput_msgs.specs.Reading.{Reads, cell_at, many, tuple_at, old_by, new_at};

use crate::error::MsgError;
use crate::reader::Reader;
use crate::room::{put, put_byte, put_int16, put_int32};
use filter_tree::Text;
use std::alloc::Global;
use std::marker::Model;

/// A column's value as a message has it: null, or the text of a value.
///
/// PostgreSQL 15, 55.9. Logical Replication Message Formats (TupleData).
#[derive(Debug, Drop)]
pub enum Cell {
    Null,
    Text(Text),
}

/// The values of a row as a message has them, in the order of the columns. Contracts see the list of the cells.
///
/// PostgreSQL 15, 55.9. Logical Replication Message Formats (TupleData).
#[derive(Debug, Drop)]
pub struct Tuple {
    cells: Vec<Cell>,
}

impl Model for Tuple {
    ghost use Rattle.std.specs.Prelude.{List};
    ghost use Rattle.pgoutput_msgs.specs.declared.tuple.Cell.{Cell};

    ghost Value = { List Cell };

    ghost view = { λ t. t.cells.items };
}

impl Tuple {
    /// The tuple of these cells.
    pub fn from_cells(cells: Vec<Cell>) -> Tuple
        ensures { result ≡ cells.items }
    {
        Tuple { cells }
    }

    /// The cells in the order of the columns.
    pub fn cells(&self) -> &[Cell]
        ensures { result.now ≡ self.now }
    {
        self.cells.as_slice()
    }

    /// The cells in the order of the columns, with their texts and without a copy.
    pub fn into_cells(self) -> Vec<Cell>
        ensures { result.items ≡ self }
    {
        let Tuple { cells } = self;
        cells
    }

    /// The number of columns.
    pub fn len(&self) -> usize
        ensures { result ≡ length self.now }
    {
        self.cells.len()
    }

    /// Whether the tuple has no column.
    pub fn is_empty(&self) -> bool
        ensures { result ≡ (length self.now == 0) }
    {
        self.cells.is_empty()
    }
}

/// What is sent of an old row: `Key` has the values of the columns of the replica identity and null in the others,
/// `Full` has all values.
///
/// PostgreSQL 15, 55.9. Logical Replication Message Formats (Update, Delete).
#[derive(Debug, Drop)]
pub enum OldTuple {
    Key(Tuple),
    Full(Tuple),
}

// ---- writing

fn cell_len(cell: &Cell) -> usize
    ensures { result ≡ min (length (cell_spelling cell.now)) (2 ^ 64 - 1) }
{
    match cell {
        Cell::Null => 1,
        Cell::Text(text) => text.len().saturating_add(5),
    }
}

/// How many bytes spell the cells, up to `usize::MAX`.
#[tactic(auto, using(crate::proofs::Writing::measures_on, crate::proofs::Writing::all_measured))]
fn cells_len(cells: &[Cell]) -> usize
    ensures { result ≡ min (length (flat_map cell_spelling cells.now)) (2 ^ 64 - 1) }
{
    let mut total: usize = 0;
    for cell in cells {
        total = total.saturating_add(cell_len(cell));
    }
    total
}

/// How many bytes spell the tuple, up to `usize::MAX`.
pub(crate) fn tuple_len(tuple: &Tuple) -> usize
    ensures { result ≡ min (length (tuple_spelling tuple.now)) (2 ^ 64 - 1) }
{
    cells_len(tuple.cells()).saturating_add(2)
}

pub(crate) fn old_len(old: &OldTuple) -> usize
    ensures { result ≡ min (length (old_spelling old.now)) (2 ^ 64 - 1) }
{
    match old {
        OldTuple::Key(tuple) | OldTuple::Full(tuple) => tuple_len(tuple).saturating_add(1),
    }
}

fn put_cell(cell: &Cell, out: &mut Vec<u8>)
    requires fits { IsCellWithinRange cell.now }
    requires room { HasRoom out.old (cell_spelling cell.now) }
    ensures { Puts out.old out.new (cell_spelling cell.now) }
{
    match cell {
        Cell::Null => put_byte(b'n', out),
        Cell::Text(text) => put_text(text.as_str(), out),
    }
}

/// Writes `t`, the length of a text, and the text.
pub(crate) fn put_text(text: &str, out: &mut Vec<u8>)
    requires fits { length text.now < 2 ^ 31 }
    requires room { HasRoom out.old (cell_spelling (Cell.Text text.now)) }
    ensures puts { Puts out.old out.new (cell_spelling (Cell.Text text.now)) }
    ensures text { IsUtf8 text.now }
{
    put_byte(b't', out);
    put_int32(text.len() as u32, out);
    put(text.as_bytes(), out);
}

#[tactic(auto, using(crate::proofs::Writing::writing_turns))]
fn put_cells(cells: &[Cell], out: &mut Vec<u8>)
    requires fits { All IsCellWithinRange cells.now }
    requires room { HasRoom out.old (flat_map cell_spelling cells.now) }
    ensures { Puts out.old out.new (flat_map cell_spelling cells.now) }
{
    for cell in cells {
        put_cell(cell, out);
    }
}

pub(crate) fn put_tuple(tuple: &Tuple, out: &mut Vec<u8>)
    requires fits { IsTupleWithinRange tuple.now }
    requires room { HasRoom out.old (tuple_spelling tuple.now) }
    ensures { Puts out.old out.new (tuple_spelling tuple.now) }
{
    put_int16(tuple.len() as u16, out);
    put_cells(tuple.cells(), out);
}

/// Writes `K` or `O`, and the values.
pub(crate) fn put_old(old: &OldTuple, out: &mut Vec<u8>)
    requires fits { IsOldWithinRange old.now }
    requires room { HasRoom out.old (old_spelling old.now) }
    ensures { Puts out.old out.new (old_spelling old.now) }
{
    match old {
        OldTuple::Key(tuple) => {
            put_byte(b'K', out);
            put_tuple(tuple, out);
        }
        OldTuple::Full(tuple) => {
            put_byte(b'O', out);
            put_tuple(tuple, out);
        }
    }
}

/// Writes `N`, and the values.
pub(crate) fn put_new(tuple: &Tuple, out: &mut Vec<u8>)
    requires fits { IsTupleWithinRange tuple.now }
    requires room { HasRoom out.old (new_spelling tuple.now) }
    ensures { Puts out.old out.new (new_spelling tuple.now) }
{
    put_byte(b'N', out);
    put_tuple(tuple, out);
}

// ---- reading

#[tactic(auto, unfolding(crate::specs::Reading::cell_at))]
fn read_cell(r: &mut Reader, alloc: Global) -> Result<Cell, MsgError>
    ensures { Reads (λ x. x) (cell_at r.old) result r.new }
{
    match r.byte()? {
        b'n' => Ok(Cell::Null),
        b'u' => Err(MsgError::Toast),
        b't' => Ok(Cell::Text(r.text(alloc)?)),
        other => Err(MsgError::Unknown(other)),
    }
}

#[tactic(auto, using(crate::proofs::Counting::counting_turns))]
fn read_cells(r: &mut Reader, alloc: Global, count: u16) -> Result<Vec<Cell>, MsgError>
    ensures { Reads (λ cells. cells.items) (many cell_at count r.old) result r.new }
{
    let mut cells = Vec::new(alloc);
    for _ in 0..count {
        cells.push(read_cell(r, alloc)?)?;
    }
    Ok(cells)
}

#[tactic(auto, unfolding(crate::specs::Reading::tuple_at))]
pub(crate) fn read_tuple(r: &mut Reader, alloc: Global) -> Result<Tuple, MsgError>
    ensures { Reads (λ x. x) (tuple_at r.old) result r.new }
{
    let count = r.count16()?;
    let cells = read_cells(r, alloc, count)?;
    Ok(Tuple::from_cells(cells))
}

/// What is sent of an old row, by its letter.
#[tactic(auto, unfolding(crate::specs::Reading::old_by))]
pub(crate) fn read_old(r: &mut Reader, alloc: Global, kind: u8) -> Result<OldTuple, MsgError>
    ensures { Reads (λ x. x) (old_by kind r.old) result r.new }
{
    match kind {
        b'K' => Ok(OldTuple::Key(read_tuple(r, alloc)?)),
        b'O' => Ok(OldTuple::Full(read_tuple(r, alloc)?)),
        other => Err(MsgError::Unknown(other)),
    }
}

/// A new row, after its letter.
#[tactic(auto, unfolding(crate::specs::Reading::new_at))]
pub(crate) fn read_new(r: &mut Reader, alloc: Global) -> Result<Tuple, MsgError>
    ensures { Reads (λ x. x) (new_at r.old) result r.new }
{
    match r.byte()? {
        b'N' => read_tuple(r, alloc),
        other => Err(MsgError::Unknown(other)),
    }
}
