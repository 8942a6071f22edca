//! What a subscriber has of tables, and how messages change it.

use crate::fault::SubFault;
use crate::passes::{forget, settle};
use crate::phase::Phase;
use crate::same_relation::same_relation;
use crate::shape::TableShape;
use crate::table_copy::TableCopy;
use filter_tree::Row;
use pgoutput_msgs::{Msg, OldTuple, Relation, Tuple};
use std::alloc::{AllocError, Global};
use tables_log::Lsn;

/// What a subscriber has: its progress, and its copies of tables.
#[derive(Drop)]
pub(crate) struct Replica {
    pub(crate) alloc: Global,
    pub(crate) phase: Phase,
    pub(crate) position: Lsn,
    pub(crate) wants_reply: bool,
    pub(crate) copies: Vec<TableCopy>,
}

impl Replica {
    ghost use Rattle.std.specs.Prelude.{◌≡◌, IfOk, IfErr, OnOk, OnErr, Some, None, false};
    ghost use Rattle.test_subscriber.specs.declared.fault.SubFault.TheVariants.{NoRelation};
    ghost use Rattle.tables_log.specs.Listing.{ListsFound};
    ghost use Rattle.tables_log.specs.Places.{IsInOrder};
    ghost use Rattle.test_subscriber.specs.Views.{machine_view, copy_of, known_in, listed_in, place_of, IsKnownAt};
    ghost use Rattle.test_subscriber.specs.Answers.{Hears, Stages};
    ghost use Rattle.test_subscriber.specs.Machine.{Alike, stopped, lost, opened};
    ghost use Rattle.test_subscriber.specs.Hearing.{committed, hear_commit, hear_idle, hear_busy, hear};
    ghost use Rattle.test_subscriber.specs.Hearing.{hear_relation, hear_insert, hear_update, hear_delete, hear_empty, hear_truncate};

    /// Copies of the rows that are kept of the table with this OID, in the order of rows. The only error is out of
    /// memory.
    pub(crate) fn rows(&self, oid: u32) -> Result<Vec<Row>, AllocError>
        ensures shows { IfOk result (λ rows. IsInOrder (listed_in (copy_of self.now.copies.items oid)) rows.items) }
        ensures found { OnOk result
            (ListsFound ((machine_view self.now).rows oid) (listed_in (copy_of self.now.copies.items oid))) }
    {
        match self.place_of(oid) {
            None => Ok(Vec::new(self.alloc)),
            Some(place) => Ok(self.copies[place].kept_rows(self.alloc)?),
        }
    }

    /// The place of the copy of the table with this OID.
    fn place_of(&self, oid: u32) -> Option<usize>
        ensures { result ≡ place_of self.now.copies.items oid }
    {
        self.copies
            .iter()
            .position(|copy| copy.shape.relation.oid == oid)
    }

    /// The place of the copy of the table with this OID, if its Relation came on this connection.
    #[tactic(auto, using(crate::proofs::CopyLemmas::known_relations))]
    fn known_place(&self, oid: u32) -> Result<usize, SubFault>
        ensures ok { IfOk result (IsKnownAt self.now.copies.items oid) }
        ensures fault { IfErr result (λ e. e ≡ NoRelation oid) }
        ensures none { OnErr result (known_in (copy_of self.now.copies.items oid) ≡ false) }
    {
        let Some(place) = self.place_of(oid) else {
            return Err(SubFault::NoRelation(oid));
        };
        if !self.copies[place].is_known {
            return Err(SubFault::NoRelation(oid));
        }
        Ok(place)
    }

    /// Keeps what a new Relation says.
    fn learn(&mut self, relation: Relation) -> Result<(), SubFault>
        requires { place_of self.old.copies.items relation.oid ≡ None }
        ensures { Hears (hear_relation relation) self.old result self.new }
    {
        let Some(shape) = TableShape::of(self.alloc, relation)? else {
            return Err(SubFault::BadValue);
        };
        self.copies.push(TableCopy::new(self.alloc, shape))?;
        Ok(())
    }

    /// Hears the Relation of a table whose copy has this place.
    fn recognize(&mut self, place: usize, relation: &Relation) -> Result<(), SubFault>
        requires { place_of self.old.copies.items relation.now.oid ≡ Some place }
        ensures { Hears (hear_relation relation.now) self.old result self.new }
    {
        if same_relation(&self.copies[place].shape.relation, relation) {
            self.copies[place].is_known = true;
            Ok(())
        } else {
            Err(SubFault::OutOfPlace)
        }
    }

    fn hear_relation(&mut self, relation: Relation) -> Result<(), SubFault>
        ensures { Hears (hear_relation relation) self.old result self.new }
    {
        match self.place_of(relation.oid) {
            None => self.learn(relation),
            Some(place) => self.recognize(place, &relation),
        }
    }

    /// Stages a new row of the table with this OID.
    fn insert(&mut self, oid: u32, new: Tuple) -> Result<(), SubFault>
        ensures { Stages (hear_insert oid new) self.old result self.new }
    {
        let place = self.known_place(oid)?;
        self.copies[place].insert(self.alloc, new)
    }

    /// Stages a row of the table with this OID in place of an old one.
    fn update(&mut self, oid: u32, old: Option<OldTuple>, new: Tuple) -> Result<(), SubFault>
        ensures { Stages (hear_update oid old new) self.old result self.new }
    {
        let place = self.known_place(oid)?;
        self.copies[place].update(self.alloc, old, new)
    }

    /// Stages that a row of the table with this OID is deleted.
    fn delete(&mut self, oid: u32, old: OldTuple) -> Result<(), SubFault>
        ensures { Stages (hear_delete oid old) self.old result self.new }
    {
        let place = self.known_place(oid)?;
        self.copies[place].delete(self.alloc, old)
    }

    /// Stages that the table with this OID has no rows.
    fn empty(&mut self, oid: u32) -> Result<(), SubFault>
        ensures { Stages (hear_empty oid) self.old result self.new }
    {
        let place = self.known_place(oid)?;
        self.copies[place].empty();
        Ok(())
    }

    /// Stages that the tables with these OIDs have no rows.
    fn truncate(&mut self, oids: &[u32]) -> Result<(), SubFault>
        ensures { Stages (hear_truncate oids.now) self.old result self.new }
    {
        for oid in oids {
            self.empty(*oid)?;
        }
        Ok(())
    }

    /// Shows what the transaction changed.
    fn commit(&mut self, end_lsn: Lsn)
        ensures { Alike (machine_view self.new) (committed end_lsn (machine_view self.old)) }
    {
        settle(&mut self.copies);
        self.phase = Phase::Idle;
        self.position = self.position.max(end_lsn);
    }

    /// Hears a message between transactions.
    fn hear_idle(&mut self, message: Msg) -> Result<(), SubFault>
        ensures { Hears (hear_idle message) self.old result self.new }
    {
        match message {
            Msg::Begin { final_lsn, .. } => {
                self.phase = Phase::Busy(Lsn::new(final_lsn));
                Ok(())
            }
            Msg::Relation(relation) => self.hear_relation(relation),
            Msg::Commit { .. }
            | Msg::Insert { .. }
            | Msg::Update { .. }
            | Msg::Delete { .. }
            | Msg::Truncate { .. } => Err(SubFault::OutOfPlace),
        }
    }

    /// Hears a message in a transaction whose Begin had this LSN.
    fn hear_busy(&mut self, begin: Lsn, message: Msg) -> Result<(), SubFault>
        ensures { Hears (hear_busy begin message) self.old result self.new }
    {
        match message {
            Msg::Begin { .. } => Err(SubFault::OutOfPlace),
            Msg::Commit { lsn, end_lsn, .. } => {
                self.hear_commit(begin, Lsn::new(lsn), Lsn::new(end_lsn))
            }
            Msg::Relation(relation) => self.hear_relation(relation),
            Msg::Insert { relation, new } => self.insert(relation, new),
            Msg::Update { relation, old, new } => self.update(relation, old, new),
            Msg::Delete { relation, old } => self.delete(relation, old),
            Msg::Truncate { relations, .. } => self.truncate(relations.as_slice()),
        }
    }

    /// Hears a Commit in a transaction whose Begin had this LSN.
    fn hear_commit(&mut self, begin: Lsn, lsn: Lsn, end_lsn: Lsn) -> Result<(), SubFault>
        ensures { Hears (hear_commit begin lsn end_lsn) self.old result self.new }
    {
        if lsn != begin {
            return Err(SubFault::OutOfPlace);
        }
        self.commit(end_lsn);
        Ok(())
    }

    /// Hears a message of the stream. An error keeps what stays after a fault.
    pub(crate) fn hear(&mut self, message: Msg) -> Result<(), SubFault>
        ensures { Hears (hear message) self.old result self.new }
    {
        let phase = self.phase;
        match phase {
            Phase::Shut => Err(SubFault::Closed),
            Phase::Waiting => Err(SubFault::OutOfPlace),
            Phase::Idle => self.hear_idle(message),
            Phase::Busy(begin) => self.hear_busy(begin, message),
        }
    }

    /// What a fault leaves.
    pub(crate) fn stop(&mut self)
        ensures { Alike (machine_view self.new) (stopped (machine_view self.old)) }
    {
        forget(&mut self.copies);
        self.phase = Phase::Shut;
    }

    /// What the loss of the connection leaves.
    pub(crate) fn lose(&mut self)
        ensures { Alike (machine_view self.new) (lost (machine_view self.old)) }
    {
        self.stop();
        self.wants_reply = false;
    }

    /// What a new connection begins with.
    pub(crate) fn open(&mut self)
        ensures { Alike (machine_view self.new) (opened (machine_view self.old)) }
    {
        self.lose();
        self.phase = Phase::Waiting;
    }
}
