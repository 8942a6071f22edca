//! ALTER TABLE .. REPLICA IDENTITY.

ghost use Rattle.pub_reader.specs.DraftView.{draft_view};
ghost use Rattle.pub_reader.specs.Identities as spec;
ghost use Rattle.sql_reader.specs.ParsingContracts.{Takes, TakesSome, Answers};

use crate::draft::{Draft, find_index};
use crate::names::known_number;
use crate::table_name::table_number;
use filter_tree::{Column, Identity, UniqueIndex};
use pub_catalog::identifies;
use sql_reader::{ErrorKind, Item, Keyword, Omitted, PlacedName, ReadError, Reader, read_name};
use std::alloc::Global;

/// Reads the word REPLICA.
#[tactic(auto, using(sql_reader::proofs::Ahead::rest_of_some_is_fewer), unfolding(crate::specs::Identities::action))]
fn action(r: &mut Reader<'_>) -> Result<(), ReadError>
    ensures { TakesSome (λ u. u) spec.action r.old result r.new }
{
    match r.item() {
        Some(Item::Keyword(Keyword::Replica)) => {
            r.advance();
            Ok(())
        }
        Some(Item::Keyword(_)) => Err(r.refused(ErrorKind::LeftOut(Omitted::Clause))),
        Some(Item::Word) => Err(r.refused(ErrorKind::LeftOut(Omitted::Clause))),
        _ => Err(r.refusal("REPLICA IDENTITY")),
    }
}

/// The identity by the index with a name.
#[tactic(auto, unfolding(crate::specs::Identities::index_named))]
fn index_named(
    columns: &[Column],
    indexes: &[UniqueIndex],
    name: &PlacedName,
) -> Result<Identity, ReadError>
    ensures { Answers (λ identity. identity) (spec.index_named columns.now indexes.now name.now) result }
{
    let number = known_number(name, find_index(indexes, name.text.as_str()))?;
    if !identifies(columns, indexes, number) {
        return Err(ReadError {
            place: name.place,
            kind: ErrorKind::NullableIndex,
        });
    }
    Ok(Identity::Index(number))
}

/// Reads USING INDEX and the name of an index.
#[tactic(auto, unfolding(crate::specs::Identities::using_index))]
fn using_index(
    r: &mut Reader<'_>,
    alloc: Global,
    columns: &[Column],
    indexes: &[UniqueIndex],
) -> Result<Identity, ReadError>
    ensures { TakesSome (λ identity. identity) (spec.using_index columns.now indexes.now) r.old result r.new }
{
    r.expect(Item::Keyword(Keyword::Using), "USING INDEX")?;
    r.expect(Item::Keyword(Keyword::Index), "INDEX")?;
    let name = read_name(r, alloc, "the name of an index")?;
    Ok(index_named(columns, indexes, &name)?)
}

/// Reads DEFAULT, FULL, NOTHING or USING INDEX with the name of an index.
#[tactic(auto, using(sql_reader::proofs::Ahead::rest_is_no_more), unfolding(crate::specs::Identities::identity))]
fn identity(
    r: &mut Reader<'_>,
    alloc: Global,
    columns: &[Column],
    indexes: &[UniqueIndex],
) -> Result<Identity, ReadError>
    ensures { Takes (λ identity. identity) (spec.identity columns.now indexes.now) r.old result r.new }
{
    match r.item() {
        Some(Item::Keyword(Keyword::Default)) => {
            r.advance();
            Ok(Identity::Default)
        }
        Some(Item::Keyword(Keyword::Full)) => {
            r.advance();
            Ok(Identity::Full)
        }
        Some(Item::Keyword(Keyword::Nothing)) => {
            r.advance();
            Ok(Identity::Nothing)
        }
        Some(Item::Keyword(Keyword::Using)) => Ok(using_index(r, alloc, columns, indexes)?),
        _ => Err(r.refusal("DEFAULT, FULL, NOTHING or USING INDEX")),
    }
}

/// Reads REPLICA IDENTITY and the identity.
#[tactic(auto, unfolding(crate::specs::Identities::replica_identity))]
fn replica_identity(
    r: &mut Reader<'_>,
    alloc: Global,
    columns: &[Column],
    indexes: &[UniqueIndex],
) -> Result<Identity, ReadError>
    ensures { TakesSome (λ identity. identity) (spec.replica_identity columns.now indexes.now) r.old result r.new }
{
    action(r)?;
    r.expect(Item::Keyword(Keyword::Identity), "IDENTITY")?;
    identity(r, alloc, columns, indexes)
}

/// Reads ALTER TABLE, and sets the replica identity of the table.
#[tactic(auto, unfolding(crate::specs::Identities::alter_table))]
pub fn alter_table(r: &mut Reader<'_>, alloc: Global, draft: &mut Draft) -> Result<(), ReadError>
    ensures { TakesSome (λ _. draft_view draft.new) (spec.alter_table (draft_view draft.old)) r.old result r.new }
{
    r.expect(Item::Keyword(Keyword::Alter), "ALTER")?;
    r.expect(Item::Keyword(Keyword::Table), "TABLE")?;
    r.eat(Item::Keyword(Keyword::Only));
    let number = table_number(r, alloc, draft)?;
    let recorded = replica_identity(r, alloc, draft.columns(number), draft.indexes(number))?;
    draft.identify(number, recorded);
    Ok(())
}
