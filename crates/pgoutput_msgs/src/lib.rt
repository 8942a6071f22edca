//! The messages of PostgreSQL's logical replication protocol as values, and the bytes that spell them.
#![tactic(auto)]

mod begin;
mod commit;
mod decoding;
mod delete;
mod encoding;
mod error;
mod insert;
mod laws;
mod message;
mod reader;
mod relation;
mod room;
mod row_delete;
mod row_insert;
mod row_old;
mod row_tuple;
mod row_update;
mod row_values;
mod saying;
mod sink;
mod spoken;
mod table_truncate;
mod tables;
mod telling;
mod transaction;
mod truncate;
mod tuple;
mod update;
mod values;

pub use decoding::decode;
pub use encoding::{encode, fits};
pub use error::MsgError;
pub use laws::{
    commits_tell_transactions, messages_are_read_back, messages_tell_what_is_seen,
    no_spelling_begins_another, quiet_commits_are_silent, relations_come_once, rows_are_read_back,
    spellings_are_decoded,
};
pub use message::Msg;
pub use relation::{Relation, RelationColumn, ReplicaIdentity};
pub use room::{put_byte, put_int32, put_int64};
pub use row_delete::encode_delete;
pub use row_insert::encode_insert;
pub use row_update::encode_update;
pub use row_values::value_of;
pub use sink::MessageSink;
pub use table_truncate::encode_truncate;
pub use tables::{oid_of, relation_of, type_oid};
pub use telling::{messages_of, tell_changes};
pub use transaction::{begin_message, commit_message};
pub use tuple::{Cell, OldTuple, Tuple};
pub use values::tuple_of;
