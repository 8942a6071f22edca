//! Relation messages of a catalog's tables.

ghost use Rattle.std.specs.Prelude.{◌≡◌, ◌<◌, ◌^◌, All, IfOk, IsUtf8};
ghost use Rattle.pgoutput_msgs.specs.Ranges.{HasTextName, HasTextNames};
ghost use Rattle.pgoutput_msgs.specs.Telling as spec;

use crate::relation::{Relation, RelationColumn, ReplicaIdentity};
use filter_tree::{ColType, Column, Identity, Items, Table, TableNumber, Text};
use replica_identity::covered;
use std::alloc::{AllocError, Global};

/// The OID of the first table of a catalog. The others follow in their order.
const FIRST_OID: u32 = 16_384;

/// The OID of the table with this number, which is counted from 0: 16384 and the number. The OIDs are this project's
/// own.
pub fn oid_of(table: TableNumber) -> u32
    requires { table < 2 ^ 31 }
    ensures { result ≡ spec.oid_of table }
{
    FIRST_OID + table as u32
}

/// The OID of a type: of smallint, integer, bigint, boolean and text.
///
/// PostgreSQL 15, 53.64. pg_type.
pub fn type_oid(kind: ColType) -> u32
    ensures { result ≡ spec.type_oid_of kind }
{
    match kind {
        ColType::SmallInt => 21,
        ColType::Integer => 23,
        ColType::BigInt => 20,
        ColType::Boolean => 16,
        ColType::Text => 25,
    }
}

fn identity_of(identity: Identity) -> ReplicaIdentity
    ensures { result ≡ spec.identity_of identity }
{
    match identity {
        Identity::Default => ReplicaIdentity::Default,
        Identity::Index(_) => ReplicaIdentity::Index,
        Identity::Full => ReplicaIdentity::Full,
        Identity::Nothing => ReplicaIdentity::Nothing,
    }
}

#[tactic(auto, using(crate::proofs::TextLemmas::text_of_string))]
fn copy_of(alloc: Global, text: &Text) -> Result<Text, AllocError>
    ensures exact { IfOk result (λ copy. copy ≡ text.now) }
    ensures text { IfOk result (λ copy. IsUtf8 copy) }
{
    let copy = String::from_str(alloc, text.as_str())?;
    Ok(Text::new(copy))
}

/// The column as a Relation has it, with the flag of the replica identity's columns or without it.
fn column_of(alloc: Global, column: &Column, is_key: bool) -> Result<RelationColumn, AllocError>
    ensures exact { IfOk result (λ made. made ≡ spec.flagged is_key column.now) }
    ensures text { IfOk result (λ made. HasTextName made) }
{
    Ok(RelationColumn {
        is_key,
        name: copy_of(alloc, &column.name)?,
        type_oid: type_oid(column.kind),
        type_modifier: -1,
    })
}

/// The Relation message of the table with this number, which is counted from 0: its columns in their order; the flag
/// marks those of the replica identity, under FULL all. Its names are UTF-8 (`texts`). The only error is out of memory.
///
/// PostgreSQL 15, 55.9. Logical Replication Message Formats (Relation).
pub fn relation_of(
    alloc: Global,
    number: TableNumber,
    table: &Table,
) -> Result<Relation, AllocError>
    requires { number < 2 ^ 31 }
    ensures exact { IfOk result (λ relation. relation ≡ spec.relation_of number table.now) }
    ensures texts { IfOk result (λ relation. HasTextNames relation) }
{
    let columns = table.columns.as_slice();
    let mut made = Vec::with_capacity(alloc, columns.len())?;
    for (place, column) in columns.iter().enumerate() {
        made.push(column_of(alloc, column, covered(table, place))?)?;
    }
    Ok(Relation {
        oid: oid_of(number),
        namespace: copy_of(alloc, &table.schema)?,
        name: copy_of(alloc, &table.name)?,
        identity: identity_of(table.identity),
        columns: Items::from_vec(made),
    })
}
