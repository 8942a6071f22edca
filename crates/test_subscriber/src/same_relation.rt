//! Whether two Relation messages are equal.

ghost use Rattle.std.specs.Prelude.{◌≡◌};
ghost use Rattle.test_subscriber.specs.SameRelation as spec;

use pgoutput_msgs::{Relation, RelationColumn, ReplicaIdentity};

fn same_identity(one: ReplicaIdentity, other: ReplicaIdentity) -> bool
    ensures { result ≡ spec.same_identity one other }
{
    one == other
}

fn same_column(one: &RelationColumn, other: &RelationColumn) -> bool
    ensures { result ≡ spec.same_column one.now other.now }
{
    one.is_key == other.is_key
        && one.name.as_str() == other.name.as_str()
        && one.type_oid == other.type_oid
        && one.type_modifier == other.type_modifier
}

#[tactic(auto, using(crate::proofs::GatherLemmas::other_count))]
fn same_columns(one: &[RelationColumn], other: &[RelationColumn]) -> bool
    ensures { result ≡ spec.same_columns one.now other.now }
{
    if one.len() != other.len() {
        return false;
    }
    for (number, column) in one.iter().enumerate() {
        if !same_column(column, &other[number]) {
            return false;
        }
    }
    true
}

/// Whether two Relation messages are equal.
pub(crate) fn same_relation(one: &Relation, other: &Relation) -> bool
    ensures { result ≡ spec.same_relation one.now other.now }
{
    one.oid == other.oid
        && one.namespace.as_str() == other.namespace.as_str()
        && one.name.as_str() == other.name.as_str()
        && same_identity(one.identity, other.identity)
        && same_columns(one.columns.as_slice(), other.columns.as_slice())
}
