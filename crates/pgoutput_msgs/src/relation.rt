//! Relation: a table whose changes follow.

ghost use Rattle.std.specs.Prelude.{◌≡◌, ◌<◌, ◌^◌, ◌-◌, length, min};
ghost use Rattle.std.specs.List.{flat_map};
ghost use Rattle.pgoutput_msgs.specs.Spelling.{identity_letter, key_flag, column_spelling, columns_spelling, relation_spelling, spelling_of};
ghost use Rattle.pgoutput_msgs.specs.Room.{HasRoom, Puts};
ghost use Rattle.pgoutput_msgs.specs.Reading.{Reads, key_flag_at, identity_at, column_at, relation_columns_at, relation_at, many};

use crate::error::MsgError;
use crate::message::Msg;
use crate::reader::Reader;
use crate::room::{put_byte, put_int16, put_int32, put_signed_int32, put_string, string_len};
use filter_tree::{Items, Text};
use std::alloc::Global;

/// A table's replica identity, whose letters in a message are `d`, `n`, `f` and `i`.
///
/// PostgreSQL 15, 53.11. pg_class (relreplident).
#[derive(Clone, Copy, Debug, PartialEq, Eq)]
pub enum ReplicaIdentity {
    Default,
    Nothing,
    Full,
    Index,
}

impl ReplicaIdentity {
    fn letter(self) -> u8
        ensures { result ≡ identity_letter self }
    {
        match self {
            ReplicaIdentity::Default => b'd',
            ReplicaIdentity::Nothing => b'n',
            ReplicaIdentity::Full => b'f',
            ReplicaIdentity::Index => b'i',
        }
    }
}

/// A column of a table: whether it belongs to the replica identity, its name, and the OID and the modifier of its type.
/// The modifier is -1 for a type without one.
///
/// PostgreSQL 15, 55.9. Logical Replication Message Formats (Relation).
#[derive(Debug, Drop)]
pub struct RelationColumn {
    pub is_key: bool,
    pub name: Text,
    pub type_oid: u32,
    pub type_modifier: i32,
}

/// A table: its OID, its schema (empty for `pg_catalog`), its name, its replica identity, and its columns.
///
/// PostgreSQL 15, 55.9. Logical Replication Message Formats (Relation).
#[derive(Debug, Drop)]
pub struct Relation {
    pub oid: u32,
    pub namespace: Text,
    pub name: Text,
    pub identity: ReplicaIdentity,
    pub columns: Items<RelationColumn>,
}

// ---- writing

fn column_len(column: &RelationColumn) -> usize
    ensures { result ≡ min (length (column_spelling column.now)) (2 ^ 64 - 1) }
{
    string_len(&column.name).saturating_add(9)
}

#[tactic(auto, using(crate::proofs::Writing::measures_on, crate::proofs::Writing::all_measured))]
fn columns_len(columns: &[RelationColumn]) -> usize
    ensures { result ≡ min (length (flat_map column_spelling columns.now)) (2 ^ 64 - 1) }
{
    let mut total: usize = 0;
    for column in columns {
        total = total.saturating_add(column_len(column));
    }
    total
}

/// How many bytes spell the message, up to `usize::MAX`.
pub(crate) fn relation_len(relation: &Relation) -> usize
    ensures { result ≡ min (length (spelling_of (Msg.Relation relation.now))) (2 ^ 64 - 1) }
{
    let names = string_len(&relation.namespace).saturating_add(string_len(&relation.name));
    let columns = columns_len(relation.columns.as_slice());
    names.saturating_add(columns).saturating_add(8)
}

fn put_column(column: &RelationColumn, out: &mut Vec<u8>)
    requires { HasRoom out.old (column_spelling column.now) }
    ensures { Puts out.old out.new (column_spelling column.now) }
{
    put_byte(u8::from(column.is_key), out);
    put_string(&column.name, out);
    put_int32(column.type_oid, out);
    put_signed_int32(column.type_modifier, out);
}

#[tactic(auto, using(crate::proofs::Writing::writing_turns))]
fn put_columns(columns: &[RelationColumn], out: &mut Vec<u8>)
    requires { HasRoom out.old (flat_map column_spelling columns.now) }
    ensures { Puts out.old out.new (flat_map column_spelling columns.now) }
{
    for column in columns {
        put_column(column, out);
    }
}

pub(crate) fn put_relation(relation: &Relation, out: &mut Vec<u8>)
    requires few { length relation.now.columns < 2 ^ 15 }
    requires room { HasRoom out.old (spelling_of (Msg.Relation relation.now)) }
    ensures { Puts out.old out.new (spelling_of (Msg.Relation relation.now)) }
{
    put_byte(b'R', out);
    put_int32(relation.oid, out);
    put_string(&relation.namespace, out);
    put_string(&relation.name, out);
    put_byte(relation.identity.letter(), out);
    put_int16(relation.columns.len() as u16, out);
    put_columns(relation.columns.as_slice(), out);
}

// ---- reading

#[tactic(auto, unfolding(crate::specs::Reading::key_flag_at))]
fn read_flag(r: &mut Reader) -> Result<bool, MsgError>
    ensures { Reads (λ x. x) (key_flag_at r.old) result r.new }
{
    match r.byte()? {
        0 => Ok(false),
        1 => Ok(true),
        other => Err(MsgError::Unknown(other)),
    }
}

#[tactic(auto, unfolding(crate::specs::Reading::identity_at))]
fn read_identity(r: &mut Reader) -> Result<ReplicaIdentity, MsgError>
    ensures { Reads (λ x. x) (identity_at r.old) result r.new }
{
    match r.byte()? {
        b'd' => Ok(ReplicaIdentity::Default),
        b'n' => Ok(ReplicaIdentity::Nothing),
        b'f' => Ok(ReplicaIdentity::Full),
        b'i' => Ok(ReplicaIdentity::Index),
        other => Err(MsgError::Unknown(other)),
    }
}

#[tactic(auto, unfolding(crate::specs::Reading::column_at))]
fn read_column(r: &mut Reader, alloc: Global) -> Result<RelationColumn, MsgError>
    ensures { Reads (λ x. x) (column_at r.old) result r.new }
{
    let is_key = read_flag(r)?;
    let name = r.string(alloc)?;
    let type_oid = r.int32()?;
    let type_modifier = r.int32()?.cast_signed();
    Ok(RelationColumn {
        is_key,
        name,
        type_oid,
        type_modifier,
    })
}

#[tactic(auto, using(crate::proofs::Counting::counting_turns))]
fn read_counted_columns(
    r: &mut Reader,
    alloc: Global,
    count: u16,
) -> Result<Vec<RelationColumn>, MsgError>
    ensures { Reads (λ columns. columns.items) (many column_at count r.old) result r.new }
{
    let mut columns = Vec::new(alloc);
    for _ in 0..count {
        columns.push(read_column(r, alloc)?)?;
    }
    Ok(columns)
}

#[tactic(auto, unfolding(crate::specs::Reading::relation_columns_at))]
fn read_columns(r: &mut Reader, alloc: Global) -> Result<Items<RelationColumn>, MsgError>
    ensures { Reads (λ x. x) (relation_columns_at r.old) result r.new }
{
    let count = r.count16()?;
    let columns = read_counted_columns(r, alloc, count)?;
    Ok(Items::from_vec(columns))
}

#[tactic(auto, unfolding(crate::specs::Reading::relation_at))]
pub(crate) fn read_relation(r: &mut Reader, alloc: Global) -> Result<Msg, MsgError>
    ensures { Reads (λ x. x) (relation_at r.old) result r.new }
{
    let oid = r.int32()?;
    let namespace = r.string(alloc)?;
    let name = r.string(alloc)?;
    let identity = read_identity(r)?;
    let columns = read_columns(r, alloc)?;
    Ok(Msg::Relation(Relation {
        oid,
        namespace,
        name,
        identity,
        columns,
    }))
}
