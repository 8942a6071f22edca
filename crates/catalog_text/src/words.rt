//! Names, constants and words of SQL.

ghost use Rattle.std.specs.Prelude.{◌≡◌, ◌++◌, ◌<◌, OnOk, slice_get};
ghost use Rattle.std.specs.String.{string_bytes};
ghost use Rattle.filter_tree.specs.Values.{constant_view};
ghost use Rattle.sql_tokens.specs.Doubled.{in_quotes};
ghost use Rattle.catalog_text.specs.FilterText as spec;

use filter_tree::{Column, Literal, Op, Term, Test};
use std::alloc::AllocError;

/// The words, or an empty text.
pub(crate) fn text_if(is: bool, words: &'static str) -> &'static str
    ensures { result.now ≡ spec.text_if is words.now }
{
    if is { words } else { "" }
}

/// Writes a text between quotes, with each quote in it doubled.
#[tactic(auto, using(crate::proofs::Doubling::doubling))]
fn write_quoted(quote: char, inner: &str, text: &mut String) -> Result<(), AllocError>
    requires { quote < 128 }
    ensures { OnOk result (string_bytes text.new ≡ string_bytes text.old ++ in_quotes quote inner.now) }
{
    text.push(quote)?;
    for character in inner.chars() {
        if character == quote {
            text.push(quote)?;
        }
        text.push(character)?;
    }
    text.push(quote)?;
    Ok(())
}

pub(crate) fn write_name(name: &str, text: &mut String) -> Result<(), AllocError>
    ensures { OnOk result (string_bytes text.new ≡ string_bytes text.old ++ spec.name_text name.now) }
{
    write_quoted('"', name, text)
}

/// Writes the name of the column with this number; nothing if there is none.
pub(crate) fn write_column_name(
    columns: &[Column],
    number: usize,
    text: &mut String,
) -> Result<(), AllocError>
    ensures { OnOk result (string_bytes text.new ≡ string_bytes text.old ++ spec.column_sql columns.now number) }
{
    match columns.get(number) {
        Some(column) => write_name(column.name.as_str(), text),
        None => Ok(()),
    }
}

pub(crate) fn truth_text(known: bool) -> &'static str
    ensures { result.now ≡ spec.truth_text known }
{
    if known { "TRUE" } else { "FALSE" }
}

/// Writes a number in decimal.
#[tactic(auto, using(crate::proofs::Numbers::number_written))]
pub(crate) fn write_number(number: i64, text: &mut String) -> Result<(), AllocError>
    ensures { OnOk result (string_bytes text.new ≡ string_bytes text.old ++ spec.number_text number) }
{
    write!(text, "{number}")
}

pub(crate) fn write_constant(constant: &Literal, text: &mut String) -> Result<(), AllocError>
    ensures { OnOk result (string_bytes text.new
        ≡ string_bytes text.old ++ spec.constant_text (constant_view constant.now)) }
{
    match constant {
        Literal::Int(number) => write_number(*number, text),
        Literal::Bool(known) => text.push_str(truth_text(*known)),
        Literal::Text(bytes) => write_quoted('\'', bytes.as_str(), text),
    }
}

pub(crate) fn write_term(
    columns: &[Column],
    term: Term,
    text: &mut String,
) -> Result<(), AllocError>
    ensures { OnOk result (string_bytes text.new ≡ string_bytes text.old ++ spec.term_text columns.now term) }
{
    match term {
        Term::Col(column) => write_column_name(columns, column, text),
        Term::Mod(column, divisor) => {
            write_column_name(columns, column, text)?;
            text.push_str(" % ")?;
            write_number(divisor, text)
        }
    }
}

pub(crate) fn op_text(op: Op) -> &'static str
    ensures { result.now ≡ spec.op_text op }
{
    match op {
        Op::Eq => " = ",
        Op::Ne => " <> ",
        Op::Lt => " < ",
        Op::Le => " <= ",
        Op::Gt => " > ",
        Op::Ge => " >= ",
    }
}

pub(crate) fn not_text(negated: bool) -> &'static str
    ensures { result.now ≡ spec.not_text negated }
{
    text_if(negated, " NOT")
}

pub(crate) fn test_text(test: Test) -> &'static str
    ensures { result.now ≡ spec.test_text test }
{
    match test {
        Test::True => " TRUE",
        Test::False => " FALSE",
        Test::Unknown => " UNKNOWN",
    }
}
