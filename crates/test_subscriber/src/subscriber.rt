//! The subscriber at the other end of a replication connection.

ghost use Rattle.std.specs.Prelude.{◌≡◌, is_some, false};

use crate::fault::SubFault;
use crate::intake::hear_piece;
use crate::phase::Phase;
use crate::replica::Replica;
use crate::start_query::append_start;
use bytes::BytesMut;
use copy_frames::{Deframer, Status, append_status};
use filter_tree::Row;
use std::alloc::{AllocError, Global};
use tables_log::Lsn;

/// The greatest length of a frame, which counts itself and not the kind.
const LIMIT: u32 = 16_777_216;

/// A subscriber: it requests the stream of its slot, applies what comes in whatever pieces, and reports its progress.
/// Across connections it keeps its position, its rows, and what each Relation said of its table.
///
/// The first fault closes it, and so do out of memory and `lose`. From then on, and before the first `open`, `feed` and
/// `status` return `Closed`, and no output waits.
///
/// PostgreSQL 15, 31.2. Subscription, 55.4. Streaming Replication Protocol, 55.5. Logical Streaming Replication
/// Protocol.
#[derive(Drop)]
pub struct Subscriber {
    alloc: Global,
    slot: String,
    publications: Vec<String>,
    replica: Replica,
    inbox: Deframer,
    output: BytesMut,
    ghost limit: { inbox.limit ≡ 16777216 },
    ghost faultless: { is_some inbox.fault ≡ false },
}

impl Subscriber {
    ghost use Rattle.std.specs.Prelude.{◌≡◌, ◌≢◌, [], IfErr, IfOk, OnOk, OnErr, Err, Ok, map};
    ghost use Rattle.std.specs.String.{string_bytes};
    ghost use Rattle.tables_log.specs.Listing.{ListsFound};
    ghost use Rattle.tables_log.specs.Places.{IsInOrder};
    ghost use Rattle.test_subscriber.specs.Copies.{RefusedBy};
    ghost use Rattle.test_subscriber.specs.Machine.{Alike};
    ghost use Rattle.test_subscriber.specs.StartQuery.{start_query};
    ghost use Rattle.test_subscriber.specs.Subscribers as spec;
    ghost use Rattle.test_subscriber.specs.Subscribers.{sub_machine, sub_held, sub_output, sub_slot, sub_publications, sub_listed};
    ghost use Rattle.test_subscriber.specs.declared.fault.SubFault.TheVariants.{Closed, OutOfMemory};
    ghost use Rattle.test_subscriber.specs.declared.phase.Phase.TheVariants.{Shut};

    /// A subscriber of a slot and these publications, without rows, at the position 0 and without a connection.
    pub fn new(alloc: Global, slot: String, publications: Vec<String>) -> Subscriber
        ensures machine { Alike (sub_machine result) spec.first_machine }
        ensures held { sub_held result ≡ [] }
        ensures output { sub_output result ≡ [] }
        ensures slot { sub_slot result ≡ string_bytes slot }
        ensures publications { sub_publications result ≡ map string_bytes publications.items }
    {
        Subscriber {
            alloc,
            slot,
            publications,
            replica: Replica {
                alloc,
                phase: Phase::Shut,
                position: Lsn::new(0),
                wants_reply: false,
                copies: Vec::new(alloc),
            },
            inbox: Deframer::new(alloc, LIMIT),
            output: BytesMut::new(alloc),
        }
    }

    /// Begins a new connection: drops what was half read and what waits, and requests the stream of the slot at the
    /// subscriber's own position ("55.4. Streaming Replication Protocol", START_REPLICATION SLOT LOGICAL). Position and
    /// rows stay.
    ///
    /// # Errors
    ///
    /// `Frame(FrameTooLong)` if the names are so long that the length of the Query is more than 65,536; `OutOfMemory`.
    /// Each leaves what `lose` leaves.
    pub fn open(&mut self) -> Result<(), SubFault>
        ensures ok { OnOk result (spec.Opens self.old self.new) }
        ensures fault { IfErr result (RefusedBy
            (start_query (sub_slot self.old) (sub_publications self.old) (sub_machine self.old).position)) }
        ensures lost { OnErr result (spec.Loses self.old self.new) }
    {
        self.lose();
        let position = self.replica.position;
        append_start(
            self.alloc,
            &mut self.output,
            self.slot.as_str(),
            self.publications.as_slice(),
            position,
        )?;
        self.replica.open();
        Ok(())
    }

    /// Accepts the next bytes of the connection and applies each frame that is then whole. The changes of a transaction
    /// are shown at its Commit, all at once.
    ///
    /// # Errors
    ///
    /// The first fault of the frames in their order, that of a length after the frames before it; `Closed` if there is
    /// no connection. It leaves the rows of the last applied transaction, and the position that the frames before it
    /// gave. `OutOfMemory` leaves those after the first few of the frames that came.
    pub fn feed(&mut self, piece: &[u8]) -> Result<(), SubFault>
        ensures ok { OnOk result (spec.Feeds self.old piece.now self.new) }
        ensures stops { IfErr result (λ error. spec.FeedStops self.old piece.now error self.new) }
        ensures closed { (sub_machine self.old).phase ≡ Shut → result ≡ Err Closed }
    {
        let fed = hear_piece(&mut self.replica, &mut self.inbox, piece);
        if fed.is_err() {
            self.inbox = Deframer::new(self.alloc, LIMIT);
            self.output.clear();
            self.replica.stop();
        }
        fed
    }

    /// Sends a status, with its position as written, flushed and applied. `now` is its clock, in microseconds since
    /// 2000-01-01; the reply, if `want` asks for one, is a keepalive ("55.4. Streaming Replication Protocol", Standby
    /// status update).
    ///
    /// # Errors
    ///
    /// `Closed` if there is no connection, after which nothing has changed; `OutOfMemory`, which leaves what `lose`
    /// leaves.
    pub fn status(&mut self, now: u64, want: bool) -> Result<(), SubFault>
        ensures ok { OnOk result (spec.Reports self.old now want self.new) }
        ensures fault { IfErr result (RefusedBy (spec.status_answer (sub_machine self.old).phase)) }
        ensures closed { (sub_machine self.old).phase ≡ Shut → result ≡ Err Closed }
        ensures unchanged { (sub_machine self.old).phase ≡ Shut → self.new ≡ self.old }
        ensures lost { (sub_machine self.old).phase ≢ Shut → OnErr result (spec.Loses self.old self.new) }
    {
        if self.replica.phase == Phase::Shut {
            return Err(SubFault::Closed);
        }
        let said = self.say(now, want);
        if said.is_err() {
            self.lose();
        }
        said
    }

    /// Sends a status on the connection. The only error is out of memory.
    fn say(&mut self, now: u64, want: bool) -> Result<(), SubFault>
        ensures ok { OnOk result (spec.Reports self.old now want self.new) }
        ensures fault { IfErr result (λ error. error ≡ OutOfMemory) }
        ensures machine { OnErr result (sub_machine self.new ≡ sub_machine self.old) }
        ensures names { OnErr result (spec.SameNames self.old self.new) }
    {
        let position = self.replica.position.to_u64();
        let status = Status {
            written: position,
            flushed: position,
            applied: position,
            clock: now,
            wants_reply: want,
        };
        append_status(&mut self.output, &status)?;
        self.replica.wants_reply = false;
        Ok(())
    }

    /// Whether a keepalive came that requests a status, since the last `status`, `open` or `lose`.
    pub fn reply_wanted(&self) -> bool
        ensures { result ≡ (sub_machine self.now).wants_reply }
    {
        self.replica.wants_reply
    }

    /// The loss of the connection: drops what was half read and what waits. Position and rows stay.
    pub fn lose(&mut self)
        ensures { spec.Loses self.old self.new }
    {
        self.inbox = Deframer::new(self.alloc, LIMIT);
        self.output.clear();
        self.replica.lose();
    }

    /// What waits to be sent.
    pub fn output(&self) -> &[u8]
        ensures { result.now ≡ sub_output self.now }
    {
        self.output.as_slice()
    }

    /// Drops this number of the first bytes that wait, or all if fewer wait.
    pub fn passed(&mut self, count: usize)
        ensures { spec.Passes self.old count self.new }
    {
        if count < self.output.len() {
            self.output.advance(count);
        } else {
            self.output.clear();
        }
    }

    /// Copies of the rows of the table with this OID, as the last applied transaction left them, in their order: NULL
    /// first, numbers by their size, FALSE before TRUE, texts byte by byte, by the first column in which the rows
    /// differ. There are none if the table's Relation did not come. The only error is out of memory.
    ///
    /// PostgreSQL 15, 7.5 Sorting Rows.
    pub fn rows(&self, oid: u32) -> Result<Vec<Row>, AllocError>
        ensures shows { IfOk result (λ rows. IsInOrder (sub_listed self.now oid) rows.items) }
        ensures found { OnOk result (ListsFound ((sub_machine self.now).rows oid) (sub_listed self.now oid)) }
    {
        self.replica.rows(oid)
    }

    /// The place in the log, in bytes, up to which all is applied: where the last applied transaction ends, or the
    /// place of a later keepalive outside a transaction, if that is greater.
    pub fn position(&self) -> u64
        ensures { result ≡ (sub_machine self.now).position }
    {
        self.replica.position.to_u64()
    }
}
