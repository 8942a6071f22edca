//! The rows of tuples.

ghost use Rattle.std.specs.Prelude.{◌≡◌, IfOk};
ghost use Rattle.filter_tree.specs.Values.{datum_view};
ghost use Rattle.pgoutput_msgs.specs.ValueText.{row_in};

use filter_tree::{ColType, Row};
use pgoutput_msgs::{Cell, value_of};
use std::alloc::{AllocError, Global};

/// The row that a tuple has for columns of these types, if it has one: as many values, each a value of its type. Its
/// texts are those of the cells, without a copy. The only error is out of memory.
#[tactic(auto, using(crate::proofs::GatherLemmas::other_width))]
pub(crate) fn row_of(
    alloc: Global,
    kinds: &[ColType],
    cells: Vec<Cell>,
) -> Result<Option<Row>, AllocError>
    ensures { IfOk result (λ row. row ≡ row_in kinds.now cells.items) }
{
    if kinds.len() != cells.len() {
        return Ok(None);
    }
    let mut values = Vec::with_capacity(alloc, kinds.len())?;
    for cell in cells {
        let Some(value) = value_of(alloc, kinds[values.len()], cell)? else {
            return Ok(None);
        };
        values.push(value)?;
    }
    Ok(Some(Row::from_values(values)))
}
