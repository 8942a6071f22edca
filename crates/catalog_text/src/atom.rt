//! The atoms of filters.

ghost use Rattle.std.specs.Prelude.{◌≡◌, ◌++◌, OnOk, map, codes};
ghost use Rattle.std.specs.List.{join_by};
ghost use Rattle.std.specs.String.{string_bytes};
ghost use Rattle.filter_tree.specs.Shape.{atom_view};
ghost use Rattle.filter_tree.specs.Values.{constant_view};
ghost use Rattle.catalog_text.specs.FilterText as spec;

use crate::context::Context;
use crate::level::Level;
use crate::words::{not_text, op_text, write_column_name, write_constant, write_term};
use filter_tree::{Atom, Column, Literal, Op, Term};
use std::alloc::AllocError;

/// Writes constants separated by a comma and a space.
fn write_constants(constants: &[Literal], text: &mut String) -> Result<(), AllocError>
    ensures { OnOk result (string_bytes text.new ≡ string_bytes text.old
        ++ join_by spec.constant_text (codes ", ") (map constant_view constants.now)) }
{
    if let [first, others @ ..] = constants {
        write_constant(first, text)?;
        for constant in others {
            text.push_str(", ")?;
            write_constant(constant, text)?;
        }
    }
    Ok(())
}

/// Writes `IS NULL` of a column, with or without the word NOT in it.
fn write_null_test(
    columns: &[Column],
    column: usize,
    negated: bool,
    text: &mut String,
) -> Result<(), AllocError>
    ensures { OnOk result (string_bytes text.new ≡ string_bytes text.old ++ (spec.column_sql columns.now column
        ++ (codes " IS" ++ (spec.not_text negated ++ codes " NULL")))) }
{
    write_column_name(columns, column, text)?;
    text.push_str(" IS")?;
    text.push_str(not_text(negated))?;
    text.push_str(" NULL")
}

/// Writes `IS DISTINCT FROM`, with or without the word NOT in it.
fn write_distinct(
    columns: &[Column],
    term: Term,
    negated: bool,
    constant: &Literal,
    text: &mut String,
) -> Result<(), AllocError>
    ensures { OnOk result (string_bytes text.new ≡ string_bytes text.old ++ (spec.term_text columns.now term
        ++ (codes " IS" ++ (spec.not_text negated
        ++ (codes " DISTINCT FROM " ++ spec.constant_text (constant_view constant.now)))))) }
{
    write_term(columns, term, text)?;
    text.push_str(" IS")?;
    text.push_str(not_text(negated))?;
    text.push_str(" DISTINCT FROM ")?;
    write_constant(constant, text)?;
    Ok(())
}

/// Writes a comparison.
fn write_comparison(
    columns: &[Column],
    term: Term,
    op: Op,
    constant: &Literal,
    text: &mut String,
) -> Result<(), AllocError>
    ensures { OnOk result (string_bytes text.new ≡ string_bytes text.old ++ (spec.term_text columns.now term
        ++ (spec.op_text op ++ spec.constant_text (constant_view constant.now)))) }
{
    write_term(columns, term, text)?;
    text.push_str(op_text(op))?;
    write_constant(constant, text)
}

/// Writes `BETWEEN`, with or without the word NOT before it.
fn write_between(
    columns: &[Column],
    term: Term,
    negated: bool,
    low: i64,
    high: i64,
    text: &mut String,
) -> Result<(), AllocError>
    ensures { OnOk result (string_bytes text.new ≡ string_bytes text.old ++ (spec.term_text columns.now term
        ++ (spec.not_text negated ++ (codes " BETWEEN "
        ++ (spec.number_text low ++ (codes " AND " ++ spec.number_text high)))))) }
{
    let not = not_text(negated);
    write_term(columns, term, text)?;
    write!(text, "{not} BETWEEN {low} AND {high}")
}

/// Writes an atom, or NOT of it.
#[tactic(auto, using(crate::proofs::Pieces::signed_parts))]
pub(crate) fn write_atom(
    columns: &[Column],
    context: Context,
    atom: &Atom,
    text: &mut String,
) -> Result<(), AllocError>
    ensures { OnOk result (string_bytes text.new ≡ string_bytes text.old
        ++ spec.atom_text columns.now context.wanted context.negated (atom_view atom.now)) }
{
    let plain = Context::plain(context.wanted);
    let not = not_text(context.negated);
    match atom {
        Atom::Cmp(term, op, constant) => {
            context.write_head(Level::Operand, text)?;
            write_comparison(columns, *term, *op, constant, text)?;
            context.write_tail(Level::Operand, text)
        }
        Atom::IsNull(column) => {
            plain.write_head(Level::Test, text)?;
            write_null_test(columns, *column, context.negated, text)?;
            plain.write_tail(Level::Test, text)
        }
        Atom::In(term, constants) => {
            write_term(columns, *term, text)?;
            write!(text, "{not} IN (")?;
            write_constants(constants.as_slice(), text)?;
            text.push(')')
        }
        Atom::Between(term, low, high) => {
            write_between(columns, *term, context.negated, *low, *high, text)
        }
        Atom::Distinct(term, constant) => {
            plain.write_head(Level::Test, text)?;
            write_distinct(columns, *term, context.negated, constant, text)?;
            plain.write_tail(Level::Test, text)
        }
    }
}
