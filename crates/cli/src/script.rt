//! Scripts that only commit.

ghost use Rattle.std.specs.Prelude.{◌≡◌, ◌≤◌, IfErr, IfOk, length, map};
ghost use Rattle.pub_catalog.specs.CatalogView.{catalog_view};
ghost use Rattle.pub_reader.specs.ScriptView.{line_view};
ghost use Rattle.pub_reader.specs.StepView.{step_view};
ghost use Rattle.cli.specs.Scripts as spec;
ghost use Rattle.cli.specs.Scripts.{OnlyCommits, IsOfScript, list_view};

use commands::{Failure, InputFault, read_steps};
use pub_catalog::Catalog;
use pub_reader::{Command, ErrorKind, Line, ReadError, Step};
use std::alloc::{AllocError, Global};

/// Whether the step is COMMIT.
fn is_commit(step: &Step) -> bool
    ensures { result ≡ spec.is_commit (step_view step.now) }
{
    matches!(step, Step::Commit(_))
}

/// The place of the first step that is not COMMIT.
fn first_other(lines: &[Line]) -> Option<usize>
    ensures { result ≡ spec.first_other (map line_view lines.now) }
{
    for line in lines {
        if !is_commit(&line.step) {
            return Some(line.place);
        }
    }
    None
}

/// The lists of commands that are committed, in their order.
fn lists_of(alloc: Global, lines: Vec<Line>) -> Result<Vec<Vec<Command>>, AllocError>
    ensures lists { IfOk result (λ lists. map list_view lists.items ≡ spec.lists_of (map line_view lines.items)) }
    ensures few { IfOk result (λ lists. length lists.items ≤ length lines.items) }
{
    let mut lists = Vec::new(alloc);
    for line in lines {
        if let Step::Commit(commands) = line.step {
            lists.push(commands)?;
        }
    }
    Ok(lists)
}

/// The lists of commands that a script commits, in order; at most 100,000. Each step has to be COMMIT.
///
/// # Errors
///
/// The fault of the script; if it has none, `Expected` at the first word of the first step that is not COMMIT;
/// `OutOfMemory`.
pub fn read_lists<'a>(
    alloc: Global,
    catalog: &Catalog,
    script: &str,
) -> Result<Vec<Vec<Command>>, Failure<'a>>
    ensures ok { IfOk result (λ lists. OnlyCommits (catalog_view catalog.now).tables script.now
        (map list_view lists.items)) }
    ensures few { IfOk result (λ lists. length lists.items ≤ 100000) }
    ensures err { IfErr result (IsOfScript (catalog_view catalog.now).tables script.now) }
{
    let lines = read_steps(alloc, catalog, script)?;
    if let Some(place) = first_other(lines.as_slice()) {
        let kind = ErrorKind::Expected("COMMIT");
        return Err(Failure::Input(InputFault::Script(ReadError { place, kind })));
    }
    Ok(lists_of(alloc, lines)?)
}
