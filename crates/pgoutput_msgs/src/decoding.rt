//! Messages from bytes.

ghost use Rattle.std.specs.Prelude.{◌≡◌, ℕ, List, ◌∷◌, ◌++◌, IfOk, IfErr, Ok, Err};
ghost use Rattle.filter_tree.specs.Memory.{Answers};
ghost use Rattle.pgoutput_msgs.specs.Faults.{HasFault};
ghost use Rattle.pgoutput_msgs.specs.Spelling.{spelling_of};
ghost use Rattle.pgoutput_msgs.specs.Ranges.{IsMessage};
ghost use Rattle.pgoutput_msgs.specs.Reading.{Reads, message_at, decoded, msg_fault};

use crate::begin::read_begin;
use crate::commit::read_commit;
use crate::delete::read_delete;
use crate::error::MsgError;
use crate::insert::read_insert;
use crate::message::Msg;
use crate::reader::Reader;
use crate::relation::read_relation;
use crate::truncate::read_truncate;
use crate::update::read_update;
use std::alloc::Global;

/// The message that all of the bytes spell. If they spell none, the error is the first fault from the left: a byte that
/// cannot be there (`Unknown`), a value that was left out (`Toast`), a negative count or length (`BadCount`), bytes
/// that are missing (`Short`), a name or text that is not UTF-8 (`BadText`), bytes after the message (`Trailing`). A
/// message may begin with what is before the fault, and no message continues with the bytes there (`fault`). Out of
/// memory may be returned instead of any of these.
///
/// PostgreSQL 15, 55.9. Logical Replication Message Formats.
pub fn decode(alloc: Global, bytes: &[u8]) -> Result<Msg, MsgError>
    ensures exact { Answers (λ message. message) msg_fault (decoded bytes.now) result }
    ensures found { IfOk result (λ message. IsMessage message × (bytes.now ≡ spelling_of message)) }
    ensures only { (message : Msg) → IsMessage message → bytes.now ≡ spelling_of message
        → Answers (λ m. m) msg_fault (Ok message) result }
    ensures trailing { (message : Msg) (next : ℕ) (more : List ℕ) → IsMessage message
        → bytes.now ≡ spelling_of message ++ next ∷ more → Answers (λ m. m) msg_fault (Err MsgError.Trailing) result }
    ensures fault { IfErr result (λ error. HasFault bytes.now error) }
{
    whole(alloc, bytes)
}

#[tactic(auto, unfolding(crate::specs::Reading::decoded))]
fn whole(alloc: Global, bytes: &[u8]) -> Result<Msg, MsgError>
    ensures { Answers (λ message. message) msg_fault (decoded bytes.now) result }
{
    let mut r = Reader::new(bytes);
    let message = read_message(&mut r, alloc)?;
    if r.is_at_end() {
        Ok(message)
    } else {
        Err(MsgError::Trailing)
    }
}

#[tactic(auto, unfolding(crate::specs::Reading::message_at))]
fn read_message(r: &mut Reader, alloc: Global) -> Result<Msg, MsgError>
    ensures { Reads (λ x. x) (message_at r.old) result r.new }
{
    match r.byte()? {
        b'B' => read_begin(r),
        b'C' => read_commit(r),
        b'R' => read_relation(r, alloc),
        b'I' => read_insert(r, alloc),
        b'U' => read_update(r, alloc),
        b'D' => read_delete(r, alloc),
        b'T' => read_truncate(r, alloc),
        other => Err(MsgError::Unknown(other)),
    }
}
