//! What is kept from row to row.

ghost use Rattle.std.specs.Prelude.{◌≡◌, ◌++◌, [], ◌∷◌, IfOk, OnOk, map};
ghost use Rattle.std.specs.String.{string_bytes};
ghost use Rattle.filter_memo.specs.Plans.{filters_view};
ghost use Rattle.commands.specs.Eval.Carriers.{carrier_view};
ghost use Rattle.commands.specs.Eval.Memos as spec;

use crate::eval::answers::push_answers;
use crate::eval::carriers::Carrier;
use crate::eval::inserts::{Spelling, push_none};
use crate::eval::row_output::RowOutput;
use filter_memo::{Memo, Said};
use filter_tree::{Filter, Row};
use std::alloc::{AllocError, Global};

/// Memory for the message of a row, and a memo of what is said of rows, which is made once there is a row.
#[derive(Drop)]
pub struct RowMemory {
    pub spelling: Spelling,
    pub memo: Option<Memo>,
    alloc: Global,
}

/// The filters of the publications, where they have one.
fn filters_of<'a>(
    alloc: Global,
    carriers: &[Carrier<'a>],
) -> Result<Vec<Option<&'a Filter>>, AllocError>
    ensures { IfOk result (λ filters. filters_view filters.items ≡ spec.filters_of (map carrier_view carriers.now)) }
{
    let mut filters = Vec::with_capacity(alloc, carriers.len())?;
    for carrier in carriers {
        filters.push(carrier.filter)?;
    }
    Ok(filters)
}

/// A memo of what these publications say. The only error is out of memory.
fn line_memo(alloc: Global, wanted: RowOutput, carriers: &[Carrier<'_>]) -> Result<Memo, AllocError>
    ensures { IfOk result (λ memo. spec.IsLineMemo wanted (map carrier_view carriers.now) (Some memo)) }
{
    let filters = filters_of(alloc, carriers)?;
    let memo = Memo::new(alloc, &filters)?;
    Ok(memo)
}

/// Writes on an empty line what is kept of the row.
fn push_anew(
    line: &mut String,
    memo: &Memo,
    said: Said,
    wanted: RowOutput,
    carriers: &[Carrier<'_>],
    row: &Row,
) -> Result<(), AllocError>
    requires empty { string_bytes line.old ≡ [] }
    requires memo { spec.Knows (map carrier_view carriers.now) row.now memo.now said }
    ensures { OnOk result (string_bytes line.new ≡ spec.kept_of wanted (map carrier_view carriers.now) row.now) }
{
    match wanted {
        RowOutput::Answers => push_answers(line, memo, said, carriers, row),
        RowOutput::Insert => push_none(line, memo, said, carriers, row),
    }
}

/// Writes on an empty line what is kept of the row. What rows had before is not made again.
fn push_known(
    memo: &mut Memo,
    line: &mut String,
    wanted: RowOutput,
    carriers: &[Carrier<'_>],
    row: &Row,
) -> Result<(), AllocError>
    requires empty { string_bytes line.old ≡ [] }
    requires memo { spec.IsLineMemo wanted (map carrier_view carriers.now) (Some memo.old) }
    ensures line { OnOk result (string_bytes line.new ≡ spec.kept_of wanted (map carrier_view carriers.now) row.now) }
    ensures memo { OnOk result (spec.IsLineMemo wanted (map carrier_view carriers.now) (Some memo.new)) }
{
    let said = memo.locate(row);
    if let Some(text) = memo.text(said) {
        line.push_str(text)?;
        return Ok(());
    }
    push_anew(line, memo, said, wanted, carriers, row)?;
    memo.keep(said, line.as_str())?;
    Ok(())
}

impl RowMemory {
    /// Nothing kept, and no memory yet.
    pub fn new(alloc: Global) -> RowMemory
        ensures { result.memo ≡ None }
    {
        RowMemory {
            spelling: Spelling::new(alloc),
            memo: None,
            alloc,
        }
    }

    /// Writes on an empty line what is kept of the row, of the same publications each time.
    pub fn push_kept(
        &mut self,
        line: &mut String,
        wanted: RowOutput,
        carriers: &[Carrier<'_>],
        row: &Row,
    ) -> Result<(), AllocError>
        requires empty { string_bytes line.old ≡ [] }
        requires memo { spec.IsLineMemo wanted (map carrier_view carriers.now) self.old.memo }
        ensures line { OnOk result (
            string_bytes line.new ≡ spec.kept_of wanted (map carrier_view carriers.now) row.now) }
        ensures memo { OnOk result (spec.IsLineMemo wanted (map carrier_view carriers.now) self.new.memo) }
    {
        if let Some(memo) = &mut self.memo {
            return push_known(memo, line, wanted, carriers, row);
        }
        let mut memo = line_memo(self.alloc, wanted, carriers)?;
        push_known(&mut memo, line, wanted, carriers, row)?;
        self.memo = Some(memo);
        Ok(())
    }
}
