//! Filters. A chain of ANDs or ORs may be as long as the text from which it was read. So what is still to be written
//! waits in a list, and no function here is recursive.

ghost use Rattle.std.specs.Prelude.{◌≡◌, ◌++◌, ◌+◌, ◌<◌, ◌≤◌, List, false, true, OnOk};
ghost use Rattle.std.specs.String.{string_bytes};
ghost use Rattle.filter_tree.specs.Shape.{expr_view};
ghost use Rattle.filter_tree.specs.Expr.{Is, Not};
ghost use Rattle.filter_tree.specs.declared.table.Column.{Column as ColumnType};
ghost use Rattle.catalog_text.specs.FilterText as spec;
ghost use Rattle.catalog_text.specs.declared.level.Level.TheVariants as level;
ghost use Rattle.catalog_text.specs.Waiting.{expr_steps, piece_steps, piece_text, waiting_steps, waiting_text};

use crate::atom::write_atom;
use crate::context::Context;
use crate::level::Level;
use crate::words::{not_text, test_text, truth_text};
use filter_tree::{Column, Filter, Test};
use std::alloc::{AllocError, Global};

/// A piece of a filter's text that is still to be written.
#[derive(Clone, Copy)]
pub(crate) enum Piece<'a> {
    Words(&'static str),
    Part(Context, &'a Filter),
    /// What comes after a part of this level.
    Tail(Context, Level),
}

/// Two parts with a word between them, each of which gets parentheses if it binds less tightly than is required there.
#[derive(Clone, Copy)]
struct Pair<'a> {
    own: Level,
    left: &'a Filter,
    words: &'static str,
    right: &'a Filter,
    wanted: Level,
}

/// Writes the beginning of two parts, and lets the rest wait.
fn write_pair<'a>(
    context: Context,
    pair: Pair<'a>,
    waiting: &mut Vec<Piece<'a>>,
    text: &mut String,
) -> Result<(), AllocError>
    ensures written { OnOk result ((columns : List ColumnType)
        → string_bytes text.new ++ waiting_text columns waiting.new.items
        ≡ string_bytes text.old ++ (spec.signed context.wanted context.negated pair.entry.own
        (spec.expr_text columns pair.entry.own false (expr_view pair.entry.left.now) ++ (pair.entry.words.now
        ++ spec.expr_text columns pair.entry.wanted false (expr_view pair.entry.right.now)))
        ++ waiting_text columns waiting.old.items)) }
    ensures steps { OnOk result (waiting_steps waiting.new.items ≡ waiting_steps waiting.old.items
        + (2 + expr_steps (expr_view pair.entry.left.now) + expr_steps (expr_view pair.entry.right.now))) }
{
    context.write_head(pair.own, text)?;
    waiting.push(Piece::Tail(context, pair.own))?;
    waiting.push(Piece::Part(Context::plain(pair.wanted), pair.right))?;
    waiting.push(Piece::Words(pair.words))?;
    waiting.push(Piece::Part(Context::plain(pair.own), pair.left))?;
    Ok(())
}

/// Writes the beginning of NOT of NOT of a part, and lets the rest wait.
fn write_negation<'a>(
    wanted: Level,
    part: &'a Filter,
    waiting: &mut Vec<Piece<'a>>,
    text: &mut String,
) -> Result<(), AllocError>
    ensures written { OnOk result ((columns : List ColumnType)
        → string_bytes text.new ++ waiting_text columns waiting.new.items
        ≡ string_bytes text.old ++ (spec.expr_text columns wanted true (Not (expr_view part.now))
        ++ waiting_text columns waiting.old.items)) }
    ensures steps { OnOk result (waiting_steps waiting.new.items
        ≡ waiting_steps waiting.old.items + (1 + expr_steps (expr_view part.now))) }
{
    let plain = Context::plain(wanted);
    let inner = Context::negation(Level::Not);
    plain.write_head(Level::Not, text)?;
    text.push_str("NOT ")?;
    waiting.push(Piece::Tail(plain, Level::Not))?;
    waiting.push(Piece::Part(inner, part))?;
    Ok(())
}

/// Lets NOT of a part wait, or writes the beginning of NOT of that, and lets the rest wait.
#[tactic(auto, using(crate::proofs::Pieces::waiting))]
fn write_not<'a>(
    context: Context,
    part: &'a Filter,
    waiting: &mut Vec<Piece<'a>>,
    text: &mut String,
) -> Result<(), AllocError>
    ensures written { OnOk result ((columns : List ColumnType)
        → string_bytes text.new ++ waiting_text columns waiting.new.items
        ≡ string_bytes text.old ++ (spec.expr_text columns context.wanted context.negated (Not (expr_view part.now))
        ++ waiting_text columns waiting.old.items)) }
    ensures steps { OnOk result (waiting_steps waiting.new.items
        ≤ waiting_steps waiting.old.items + (1 + expr_steps (expr_view part.now))) }
{
    if context.negated {
        return write_negation(context.wanted, part, waiting, text);
    }
    let negation = Context {
        wanted: context.wanted,
        negated: true,
    };
    waiting.push(Piece::Part(negation, part))?;
    Ok(())
}

/// Writes the beginning of an IS test of a part, and lets the rest wait.
fn write_test<'a>(
    context: Context,
    test: Test,
    part: &'a Filter,
    waiting: &mut Vec<Piece<'a>>,
    text: &mut String,
) -> Result<(), AllocError>
    ensures written { OnOk result ((columns : List ColumnType)
        → string_bytes text.new ++ waiting_text columns waiting.new.items
        ≡ string_bytes text.old ++ (spec.expr_text columns context.wanted context.negated (Is test (expr_view part.now))
        ++ waiting_text columns waiting.old.items)) }
    ensures steps { OnOk result (waiting_steps waiting.new.items
        ≡ waiting_steps waiting.old.items + (4 + expr_steps (expr_view part.now))) }
{
    let plain = Context::plain(context.wanted);
    plain.write_head(Level::Test, text)?;
    waiting.push(Piece::Tail(plain, Level::Test))?;
    waiting.push(Piece::Words(test_text(test)))?;
    waiting.push(Piece::Words(not_text(context.negated)))?;
    waiting.push(Piece::Words(" IS"))?;
    waiting.push(Piece::Part(Context::plain(Level::Operand), part))?;
    Ok(())
}

fn write_truth(context: Context, known: bool, text: &mut String) -> Result<(), AllocError>
    ensures { OnOk result (string_bytes text.new ≡ string_bytes text.old
        ++ spec.signed context.wanted context.negated level.Operand (spec.truth_text known)) }
{
    context.write_head(Level::Operand, text)?;
    text.push_str(truth_text(known))?;
    context.write_tail(Level::Operand, text)
}

/// Writes the beginning of a part, and lets the rest wait.
#[tactic(auto, using(crate::proofs::Pieces::waiting))]
fn write_part<'a>(
    columns: &[Column],
    context: Context,
    part: &'a Filter,
    waiting: &mut Vec<Piece<'a>>,
    text: &mut String,
) -> Result<(), AllocError>
    ensures written { OnOk result (string_bytes text.new ++ waiting_text columns.now waiting.new.items
        ≡ string_bytes text.old ++ (spec.expr_text columns.now context.wanted context.negated (expr_view part.now)
        ++ waiting_text columns.now waiting.old.items)) }
    ensures steps { OnOk result (waiting_steps waiting.new.items
        < waiting_steps waiting.old.items + expr_steps (expr_view part.now)) }
{
    match part {
        Filter::Const(known) => write_truth(context, *known, text),
        Filter::Atom(atom) => write_atom(columns, context, atom, text),
        Filter::Not(part) => write_not(context, part, waiting, text),
        Filter::And(left, right) => {
            let pair = Pair {
                own: Level::And,
                left,
                words: " AND ",
                right,
                wanted: Level::Not,
            };
            write_pair(context, pair, waiting, text)
        }
        Filter::Or(left, right) => {
            let pair = Pair {
                own: Level::Or,
                left,
                words: " OR ",
                right,
                wanted: Level::And,
            };
            write_pair(context, pair, waiting, text)
        }
        Filter::Is(test, part) => write_test(context, *test, part, waiting, text),
    }
}

/// Writes a piece or its beginning, and lets the rest wait.
#[tactic(auto, using(crate::proofs::Pieces::waiting))]
fn write_piece<'a>(
    columns: &[Column],
    piece: Piece<'a>,
    waiting: &mut Vec<Piece<'a>>,
    text: &mut String,
) -> Result<(), AllocError>
    ensures written { OnOk result (string_bytes text.new ++ waiting_text columns.now waiting.new.items
        ≡ string_bytes text.old ++ (piece_text columns.now piece.entry ++ waiting_text columns.now waiting.old.items)) }
    ensures steps { OnOk result (waiting_steps waiting.new.items
        < waiting_steps waiting.old.items + piece_steps piece.entry) }
{
    match piece {
        Piece::Words(words) => text.push_str(words),
        Piece::Part(context, part) => write_part(columns, context, part, waiting, text),
        Piece::Tail(context, own) => context.write_tail(own, text),
    }
}

/// Writes all pieces that wait, the last one first.
#[tactic(auto, using(crate::proofs::Pieces::all_written))]
fn write_waiting(
    columns: &[Column],
    mut waiting: Vec<Piece<'_>>,
    text: &mut String,
) -> Result<(), AllocError>
    ensures { OnOk result (string_bytes text.new
        ≡ string_bytes text.old ++ waiting_text columns.now waiting.entry.items) }
{
    while let Some(piece) = waiting.pop() {
        write_piece(columns, piece, &mut waiting, text)?;
    }
    Ok(())
}

/// Writes a filter on a table with these columns. The only error is out of memory.
pub(crate) fn write_filter(
    alloc: Global,
    columns: &[Column],
    filter: &Filter,
    text: &mut String,
) -> Result<(), AllocError>
    ensures { OnOk result (string_bytes text.new
        ≡ string_bytes text.old ++ spec.expr_text columns.now level.Or false (expr_view filter.now)) }
{
    let mut waiting = Vec::new(alloc);
    waiting.push(Piece::Part(Context::plain(Level::Or), filter))?;
    write_waiting(columns, waiting, text)?;
    Ok(())
}
