//! Scripts.

ghost use Rattle.std.specs.Prelude.{◌<◌, OnOk, map};
ghost use Rattle.sql_reader.specs.Items.{size};
ghost use Rattle.sql_reader.specs.ParsingContracts.{TakesSome, to_read, Reads, Answers};
ghost use Rattle.pub_reader.specs.Scripts as spec;
ghost use Rattle.pub_reader.specs.ScriptView.{line_view};

use crate::step::{Step, step_body};
use crate::step_word::counted_word;
use filter_tree::Table;
use pub_catalog::Catalog;
use sql_reader::{Item, ReadError, Reader};
use std::alloc::Global;

/// A step of a script, and the place of its first word, in bytes from the start of the text.
#[derive(Drop)]
pub struct Line {
    pub place: usize,
    pub step: Step,
}

/// Reads a step and its semicolon, before which there are `count` steps.
#[tactic(auto, unfolding(crate::specs::Scripts::next_line))]
fn next_line(
    r: &mut Reader<'_>,
    alloc: Global,
    tables: &[Table],
    count: usize,
) -> Result<Line, ReadError>
    ensures { TakesSome line_view (spec.next_line tables.now count) r.old result r.new }
{
    let place = r.place();
    let word = counted_word(r, count)?;
    let step = step_body(r, alloc, word, tables)?;
    r.expect(Item::Semicolon, "`;`")?;
    Ok(Line { place, step })
}

/// Reads one more step and its semicolon.
#[tactic(auto, unfolding(crate::specs::Scripts::one_line))]
fn one_line(
    r: &mut Reader<'_>,
    alloc: Global,
    tables: &[Table],
    lines: &mut Vec<Line>,
) -> Result<(), ReadError>
    ensures reads { Reads (λ _. map line_view lines.new.items)
        (spec.one_line tables.now (map line_view lines.old.items) (to_read r.old)) result (to_read r.new) }
    ensures fewer { OnOk result (size (to_read r.new) < size (to_read r.old)) }
{
    let line = next_line(r, alloc, tables, lines.len())?;
    lines.push(line)?;
    Ok(())
}

/// Reads steps to the end of a text.
#[tactic(auto, using(sql_reader::proofs::RepetitionLemmas::turns), unfolding(crate::specs::Scripts::lines))]
fn lines(r: &mut Reader<'_>, alloc: Global, tables: &[Table]) -> Result<Vec<Line>, ReadError>
    ensures { Reads (λ lines. map line_view lines.items) (spec.lines tables.now (to_read r.old))
        result (to_read r.new) }
{
    let mut lines = Vec::new(alloc);
    while r.more_ahead()? {
        one_line(r, alloc, tables, &mut lines)?;
    }
    Ok(lines)
}

/// Reads a script: steps, each ended by `;`. There are at most 100,000 steps, and none is empty. The tables of its
/// commands are those of the catalog. Rows, keys and the numbers of subscribers are not checked against the catalog.
///
/// | Step | |
/// |---|---|
/// | `COMMIT [command, ..]` | `INSERT table row`, `UPDATE table key row`, `DELETE table key`, `TRUNCATE (table, ..)` |
/// | `OPEN i`, `TAKE i`, `LOSE i`, `PUMP i` | on the connection of subscriber i |
/// | `HEAR i k`, `DELIVER i k` | at most k of the next bytes |
/// | `KEEP i TRUE`, `KEEP i FALSE`, `REPORT i [TRUE or FALSE]` | whether a reply is requested |
/// | `VIEW` | |
///
/// # Errors
///
/// The first fault of the text, or `OutOfMemory` if an allocation failed.
#[tactic(auto, unfolding(crate::specs::Scripts::script_by))]
pub fn read_script(alloc: Global, catalog: &Catalog, text: &str) -> Result<Vec<Line>, ReadError>
    ensures { Answers (λ lines. map line_view lines.items) (spec.script_by catalog.now.tables.items text.now) result }
{
    lines(&mut Reader::new(text), alloc, catalog.tables.as_slice())
}
