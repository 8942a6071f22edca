//! Messages to be sent, in their order.

ghost use Rattle.std.specs.Prelude.{◌≡◌, All, IfOk, map};
ghost use Rattle.replica_identity.specs.ChangeView.{part_view};
ghost use Rattle.tables_log.specs.Sendable.{IsTableNumber};
ghost use Rattle.pgoutput_msgs.specs.Ranges.{IsMaybeOldText};
ghost use Rattle.pgoutput_msgs.specs.Telling as spec;

use crate::message::Msg;
use crate::sink::MessageSink;
use crate::tables::{oid_of, relation_of};
use crate::tuple::OldTuple;
use crate::values::tuple_of;
use filter_tree::{Items, Row, Table, TableNumber};
use replica_identity::OldPart;
use std::alloc::{AllocError, Global};
use std::marker::Model;

/// Messages, whose names and texts are UTF-8. Contracts see their list.
#[derive(Drop)]
pub(crate) struct Spoken {
    messages: Vec<Msg>,
}

impl Model for Spoken {
    ghost use Rattle.std.specs.Prelude.{List, All};
    ghost use Rattle.pgoutput_msgs.specs.declared.message.Msg.{Msg};
    ghost use Rattle.pgoutput_msgs.specs.Ranges.{HasTexts};

    ghost Value = { List Msg };

    ghost view = { λ s. s.messages.items };

    ghost invariant = { λ s. All HasTexts s.messages.items };
}

impl Spoken {
    ghost use Rattle.std.specs.Prelude.{◌≡◌, [], ◌∷◌, ◌++◌, All, OnOk};
    ghost use Rattle.pgoutput_msgs.specs.Ranges.{HasTexts};

    /// No messages.
    pub(crate) fn new(alloc: Global) -> Spoken
        ensures { result ≡ [] }
    {
        Spoken {
            messages: Vec::new(alloc),
        }
    }

    fn allocator(&self) -> Global {
        *self.messages.allocator()
    }

    /// Adds a message after the others. The only error is out of memory.
    fn push(&mut self, message: Msg) -> Result<(), AllocError>
        requires { HasTexts message }
        ensures { OnOk result (self.new ≡ self.old ++ message ∷ []) }
    {
        self.messages.push(message)?;
        Ok(())
    }

    /// The messages, in the order in which they were added.
    pub(crate) fn into_messages(self) -> Vec<Msg>
        ensures shows { result.items ≡ self }
        ensures texts { All HasTexts result.items }
    {
        let Spoken { messages } = self;
        messages
    }
}

/// What is sent of an old row, if anything is recorded of it.
fn maybe_old_of(alloc: Global, part: &OldPart) -> Result<Option<OldTuple>, AllocError>
    ensures exact { IfOk result (λ old. old ≡ spec.maybe_old_of (part_view part.now)) }
    ensures texts { IfOk result (λ old. IsMaybeOldText old) }
{
    match part {
        OldPart::None => Ok(None),
        OldPart::Key(row) => Ok(Some(OldTuple::Key(tuple_of(alloc, row.row())?))),
        OldPart::Full(row) => Ok(Some(OldTuple::Full(tuple_of(alloc, row.row())?))),
    }
}

fn oids_of(alloc: Global, numbers: &[TableNumber]) -> Result<Items<u32>, AllocError>
    requires { All IsTableNumber numbers.now }
    ensures { IfOk result (λ oids. oids ≡ map spec.oid_of numbers.now) }
{
    let mut oids = Vec::with_capacity(alloc, numbers.len())?;
    for number in numbers {
        oids.push(oid_of(*number))?;
    }
    Ok(Items::from_vec(oids))
}

impl MessageSink for Spoken {
    ghost use Rattle.std.specs.Prelude.{◌≡◌, [], ◌∷◌, ◌++◌};

    ghost takes_one = { λ old new message. new ≡ old ++ message ∷ [] };

    fn relation(&mut self, number: TableNumber, table: &Table) -> Result<(), AllocError> {
        let relation = relation_of(self.allocator(), number, table)?;
        self.push(Msg::Relation(relation))?;
        Ok(())
    }

    fn insert(&mut self, table: TableNumber, new: &Row) -> Result<(), AllocError> {
        let new = tuple_of(self.allocator(), new)?;
        self.push(Msg::Insert {
            relation: oid_of(table),
            new,
        })?;
        Ok(())
    }

    fn update(&mut self, table: TableNumber, old: &OldPart, new: &Row) -> Result<(), AllocError> {
        let old = maybe_old_of(self.allocator(), old)?;
        let new = tuple_of(self.allocator(), new)?;
        self.push(Msg::Update {
            relation: oid_of(table),
            old,
            new,
        })?;
        Ok(())
    }

    fn delete(&mut self, table: TableNumber, old: &OldPart) -> Result<(), AllocError> {
        match maybe_old_of(self.allocator(), old)? {
            None => Ok(()),
            Some(old) => {
                self.push(Msg::Delete {
                    relation: oid_of(table),
                    old,
                })?;
                Ok(())
            }
        }
    }

    fn truncate(&mut self, tables: &[TableNumber]) -> Result<(), AllocError> {
        let relations = oids_of(self.allocator(), tables)?;
        self.push(Msg::Truncate {
            options: 0,
            relations,
        })?;
        Ok(())
    }
}
