//! What a Relation message says of the rows of its table.

ghost use Rattle.std.specs.Prelude.{◌≡◌, IfOk};
ghost use Rattle.std.specs.Option.{option_map};
ghost use Rattle.test_subscriber.specs.Shapes.{kind_with, kinds_of, flagged_from, shape_of};

use filter_tree::{ColType, Items};
use pgoutput_msgs::{Relation, RelationColumn};
use std::alloc::{AllocError, Global};

/// A table as its Relation message describes it: the types of its columns, and the columns of its replica identity.
///
/// PostgreSQL 15, 55.9. Logical Replication Message Formats (Relation).
#[derive(Drop)]
pub(crate) struct TableShape {
    pub(crate) relation: Relation,
    pub(crate) kinds: Items<ColType>,
    pub(crate) key: Items<usize>,
}

/// The type with this OID.
fn kind_with(oid: u32) -> Option<ColType>
    ensures { result ≡ kind_with oid }
{
    match oid {
        16 => Some(ColType::Boolean),
        20 => Some(ColType::BigInt),
        21 => Some(ColType::SmallInt),
        23 => Some(ColType::Integer),
        25 => Some(ColType::Text),
        _ => None,
    }
}

/// The types of the columns, if each has one that is known. The only error is out of memory.
#[tactic(auto, using(crate::proofs::GatherLemmas::kind_made))]
fn kinds_of(alloc: Global, columns: &[RelationColumn]) -> Result<Option<Items<ColType>>, AllocError>
    ensures { IfOk result (λ kinds. kinds ≡ kinds_of columns.now) }
{
    let mut kinds = Vec::with_capacity(alloc, columns.len())?;
    for column in columns {
        let Some(kind) = kind_with(column.type_oid) else {
            return Ok(None);
        };
        kinds.push(kind)?;
    }
    Ok(Some(Items::from_vec(kinds)))
}

/// The numbers of the columns that are flagged. The only error is out of memory.
fn flagged(alloc: Global, columns: &[RelationColumn]) -> Result<Items<usize>, AllocError>
    ensures { IfOk result (λ key. key ≡ flagged_from 0 columns.now) }
{
    let mut key = Vec::new(alloc);
    for (number, column) in columns.iter().enumerate() {
        if column.is_key {
            key.push(number)?;
        }
    }
    Ok(Items::from_vec(key))
}

impl TableShape {
    ghost use Rattle.std.specs.Prelude.{◌≡◌, IfOk};
    ghost use Rattle.test_subscriber.specs.Shapes.{shape_of};

    /// What the Relation says of its table, if the types of all columns are known. The only error is out of memory.
    pub(crate) fn of(alloc: Global, relation: Relation) -> Result<Option<TableShape>, AllocError>
        ensures { IfOk result (λ shape. shape ≡ shape_of relation) }
    {
        let Some(kinds) = kinds_of(alloc, relation.columns.as_slice())? else {
            return Ok(None);
        };
        let key = flagged(alloc, relation.columns.as_slice())?;
        Ok(Some(TableShape {
            relation,
            kinds,
            key,
        }))
    }
}
