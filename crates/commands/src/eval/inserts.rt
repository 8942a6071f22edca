//! The Insert message of a row that some publication carries.

ghost use Rattle.std.specs.Prelude.{◌≡◌, ◌++◌, [], map, OnOk};
ghost use Rattle.std.specs.String.{string_bytes};
ghost use Rattle.filter_tree.specs.Valid.{IsValid};
ghost use Rattle.commands.specs.Eval.Carriers.{carrier_view};
ghost use Rattle.commands.specs.Eval.Inserts as spec;
ghost use Rattle.commands.specs.Eval.Memos.{Knows, KnowsOne, kept_of};
ghost use Rattle.commands.specs.Eval.Printing.{carriers_in};
ghost use Rattle.commands.specs.declared.eval.row_output.RowOutput.TheVariants.{Insert};

use crate::eval::answers::{PublicationAnswer, answer_of};
use crate::eval::carriers::Carrier;
use crate::eval::hexadecimal::push_hexadecimal;
use crate::eval::tables::CatalogTable;
use filter_memo::{Memo, Said};
use filter_tree::{Row, Tri};
use pgoutput_msgs::{encode_insert, oid_of};
use std::alloc::{AllocError, Global};

/// The bytes of a message and the pairs of their digits, in memory that is kept from row to row.
#[derive(Drop)]
pub struct Spelling {
    bytes: Vec<u8>,
    pairs: Vec<[u8; 2]>,
}

impl Spelling {
    /// No bytes, and no memory yet.
    pub fn new(alloc: Global) -> Spelling {
        Spelling {
            bytes: Vec::new(alloc),
            pairs: Vec::new(alloc),
        }
    }
}

fn carries(memo: &Memo, said: Said, number: usize, carrier: Carrier<'_>, row: &Row) -> bool
    requires { KnowsOne (carrier_view carrier).filter number row.now memo.now said }
    ensures { result ≡ spec.carrier_has row.now (carrier_view carrier.entry) }
{
    matches!(
        answer_of(memo, said, number, carrier, row),
        PublicationAnswer::All | PublicationAnswer::Filtered(Tri::True)
    )
}

fn is_carried(memo: &Memo, said: Said, carriers: &[Carrier<'_>], row: &Row) -> bool
    requires { Knows (map carrier_view carriers.now) row.now memo.now said }
    ensures { result ≡ spec.is_carried row.now (map carrier_view carriers.now) }
{
    for number in 0..carriers.len() {
        if carries(memo, said, number, carriers[number], row) {
            return true;
        }
    }
    false
}

/// Writes `none` on an empty line where no publication carries the row.
pub fn push_none(
    line: &mut String,
    memo: &Memo,
    said: Said,
    carriers: &[Carrier<'_>],
    row: &Row,
) -> Result<(), AllocError>
    requires empty { string_bytes line.old ≡ [] }
    requires memo { Knows (map carrier_view carriers.now) row.now memo.now said }
    ensures { OnOk result (string_bytes line.new ≡ kept_of Insert (map carrier_view carriers.now) row.now) }
{
    if is_carried(memo, said, carriers, row) {
        return Ok(());
    }
    line.push_str("none")
}

/// Writes the message of a row of the table after what is on the line.
#[tactic(auto, using(pgoutput_msgs::proofs::RowLemmas::valid_row_fits))]
fn push_message(
    line: &mut String,
    spelling: &mut Spelling,
    carried: CatalogTable<'_>,
    row: &Row,
) -> Result<(), AllocError>
    requires fits { IsValid carried.table.now.columns row.now }
    ensures { OnOk result (string_bytes line.new ≡ string_bytes line.old ++ spec.message_text carried.entry.number
        row.now) }
{
    spelling.bytes.clear();
    encode_insert(oid_of(carried.number), row, &mut spelling.bytes)?;
    push_hexadecimal(line, &mut spelling.pairs, spelling.bytes.as_slice())?;
    Ok(())
}

/// Writes the Insert message of a row, unless the line has `none`.
pub fn push_insert(
    line: &mut String,
    spelling: &mut Spelling,
    carried: CatalogTable<'_>,
    row: &Row,
) -> Result<(), AllocError>
    requires none { string_bytes line.old ≡ kept_of Insert (carriers_in carried) row.now }
    requires fits { IsValid carried.table.now.columns row.now }
    ensures { OnOk result (string_bytes line.new ≡ spec.insert_line carried.entry.number row.now
        (carriers_in carried.entry)) }
{
    if !line.is_empty() {
        return Ok(());
    }
    push_message(line, spelling, carried, row)
}
