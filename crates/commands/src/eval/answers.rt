//! What the publications of a catalog say of a row.

ghost use Rattle.std.specs.Prelude.{◌≡◌, [], OnOk, Some, map};
ghost use Rattle.std.specs.String.{string_bytes};
ghost use Rattle.filter_tree.specs.Expr.{meaning};
ghost use Rattle.filter_tree.specs.Shape.{expr_view};
ghost use Rattle.commands.specs.Eval.Carriers.{carrier_view};
ghost use Rattle.commands.specs.Eval.Answers as spec;
ghost use Rattle.commands.specs.Eval.Memos.{Knows, KnowsOne};

use crate::eval::carriers::Carrier;
use filter_memo::{Memo, Said};
use filter_tree::{Filter, Row, Tri, eval};
use std::alloc::AllocError;

/// What a publication that carries a table says of a row of it.
#[derive(Clone, Copy, Debug, PartialEq, Eq)]
pub enum PublicationAnswer {
    /// It carries the whole table.
    All,
    /// Its filter's truth value.
    Filtered(Tri),
}

impl PublicationAnswer {
    ghost use Rattle.std.specs.Prelude.{◌≡◌, ◌∷◌};
    ghost use Rattle.commands.specs.Eval.Answers.{word_of};

    /// What is printed after the name of the publication.
    pub fn after_name(self) -> &'static str
        ensures { result.now ≡ 61 ∷ word_of self }
    {
        match self {
            PublicationAnswer::All => "=all",
            PublicationAnswer::Filtered(Tri::True) => "=true",
            PublicationAnswer::Filtered(Tri::False) => "=false",
            PublicationAnswer::Filtered(Tri::Null) => "=null",
        }
    }
}

/// What the filter with this number says, which is evaluated if the memo does not know.
#[tactic(auto, using(crate::proofs::Answering::known_filter))]
fn truth_of(memo: &Memo, said: Said, number: usize, filter: &Filter, row: &Row) -> Tri
    requires { KnowsOne (Some (expr_view filter.now)) number row.now memo.now said }
    ensures { result ≡ meaning (expr_view filter.now) row.now }
{
    match memo.answer(said, number) {
        Some(truth) => truth,
        None => eval(filter, row),
    }
}

/// What the publication with this number says of a row.
pub fn answer_of(
    memo: &Memo,
    said: Said,
    number: usize,
    carrier: Carrier<'_>,
    row: &Row,
) -> PublicationAnswer
    requires { KnowsOne (carrier_view carrier).filter number row.now memo.now said }
    ensures { result ≡ spec.answer_of row.now (carrier_view carrier.entry).filter }
{
    match carrier.filter {
        None => PublicationAnswer::All,
        Some(filter) => PublicationAnswer::Filtered(truth_of(memo, said, number, filter, row)),
    }
}

/// Writes `name=answer` after what is on the line.
fn push_answer(line: &mut String, name: &str, answer: PublicationAnswer) -> Result<(), AllocError>
    ensures { OnOk result (string_bytes line.new ≡ spec.with_said (string_bytes line.old)
        (spec.answer_text name.now answer)) }
{
    if !line.is_empty() {
        line.push(' ')?;
    }
    line.push_str(name)?;
    line.push_str(answer.after_name())
}

/// Writes what the publication with this number says of a row after what is on the line.
fn push_said(
    line: &mut String,
    memo: &Memo,
    said: Said,
    number: usize,
    carrier: Carrier<'_>,
    row: &Row,
) -> Result<(), AllocError>
    requires { KnowsOne (carrier_view carrier).filter number row.now memo.now said }
    ensures { OnOk result (string_bytes line.new ≡ spec.with_said (string_bytes line.old)
        (spec.said_by row.now (carrier_view carrier.entry))) }
{
    push_answer(
        line,
        carrier.name,
        answer_of(memo, said, number, carrier, row),
    )
}

/// Writes `name=answer` for each publication that carries the table, with a space between.
pub fn push_answers(
    line: &mut String,
    memo: &Memo,
    said: Said,
    carriers: &[Carrier<'_>],
    row: &Row,
) -> Result<(), AllocError>
    requires empty { string_bytes line.old ≡ [] }
    requires memo { Knows (map carrier_view carriers.now) row.now memo.now said }
    ensures { OnOk result (string_bytes line.new ≡ spec.line_of row.now (map carrier_view carriers.now)) }
{
    for number in 0..carriers.len() {
        push_said(line, memo, said, number, carriers[number], row)?;
    }
    Ok(())
}
