//! What the sender of a slot is given under a publisher's lock.

ghost use Rattle.std.specs.Prelude.{◌≡◌, ◌+◌, ◌<◌, ◌≤◌, ℕ, false, length, max, true, IfOk, IfSome, IfNone, None};
ghost use Rattle.tables_log.specs.BookView.{book_checked, book_log};
ghost use Rattle.tables_log.specs.Logs.{entry_at};
ghost use Rattle.publisher_desk.specs.Lending.{IsNext, IsStepOf, commits_in};
ghost use Rattle.tables_log.specs.Slots.{with_use};
ghost use Rattle.publisher_desk.specs.SlotEvents.{AreSent, HaveEnded, ended_at, sent_at, with_position};

use crate::connection_state::ConnectionState;
use crate::step::SenderStep;
use std::alloc::AllocError;
use tables_log::{Book, CommitNumber, Lsn, SlotNumber};

/// The number of a commit, where some log may have one of this number.
fn commit_number(number: u64) -> Option<CommitNumber>
    ensures is { IfSome result (λ found. found ≡ number) }
    ensures some { IfSome result (λ found. 1 ≤ found) }
{
    if number == 0 {
        return None;
    }
    CommitNumber::try_from(number).ok()
}

/// The next step of the slot's sender, which has sent all commits before this number, and the number of the last commit
/// in it; none at the log's end. It fails only if memory is refused or an entry is shared too often.
fn next_commits(
    book: &Book,
    slot: SlotNumber,
    number: CommitNumber,
) -> Result<Option<(SenderStep, CommitNumber)>, AllocError>
    requires few { slot < 32 }
    requires some { 1 ≤ number }
    ensures entry { IfOk result (λ found. IfSome found (λ next.
        IsStepOf (book_checked book.now).plan slot (book_log book.now) number next.0)) }
    ensures next { IfOk result (λ found. IfSome found (λ next.
        IsNext (book_checked book.now).plan slot number next.0)) }
    ensures last { IfOk result (λ found. IfSome found (λ next. next.1 + 1 ≡ number + commits_in next.0)) }
    ensures within { IfOk result (λ found. IfSome found (λ next. next.1 ≤ length (book_log book.now))) }
    ensures none { IfOk result (λ found. IfNone found (entry_at (book_log book.now) number ≡ None)) }
{
    let passed = book.passed_over(slot, number - 1)?;
    if let Some(last) = passed.last() {
        let last = last.number();
        return Ok(Some((SenderStep::Skip(passed), last)));
    }
    let Some(entry) = book.routed(number)? else {
        return Ok(None);
    };
    Ok(Some((SenderStep::Entry(entry), number)))
}

/// The next step of the slot's sender, which has sent all commits before this number, and the number of the last commit
/// in it, if it has any; none if the sender has to wait.
pub(crate) fn next_for(
    book: &Book,
    connections: &[ConnectionState],
    is_finished: bool,
    slot: SlotNumber,
    number: u64,
) -> Option<(SenderStep, Option<CommitNumber>)>
    requires few { length connections.now ≤ 32 }
    ensures entry { IfSome result (λ next.
        IsStepOf (book_checked book.now).plan slot (book_log book.now) number next.0) }
    ensures next { IfSome result (λ next. IsNext (book_checked book.now).plan slot number next.0) }
    ensures last { IfSome result (λ next. IfSome next.1 (λ last. last + 1 ≡ number + commits_in next.0)) }
    ensures within { IfSome result (λ next. IfSome next.1 (λ last. last ≤ length (book_log book.now))) }
    ensures none { IfSome result (λ next. IfNone next.1 (commits_in next.0 ≡ 0)) }
    ensures goes_on { IfSome result (λ next. IfSome next.1 (λ _. ended_at connections.now slot ≡ false)) }
    ensures exists { IfSome result (λ next. IfSome next.1 (λ _. slot < length connections.now)) }
    ensures waits { IfNone result (entry_at (book_log book.now) number ≡ None) }
{
    let Some(connection) = connections.get(slot).copied() else {
        return Some((SenderStep::Ended, None));
    };
    if connection.wants_reply {
        return Some((SenderStep::Reply, None));
    }
    if connection.has_ended {
        return Some((SenderStep::Ended, None));
    }
    let Some(number) = commit_number(number) else {
        return Some((SenderStep::Ended, None));
    };
    let Ok(found) = next_commits(book, slot, number) else {
        return Some((SenderStep::OutOfMemory, None));
    };
    match found {
        Some((step, last)) => Some((step, Some(last))),
        None if is_finished => Some((SenderStep::Finished, None)),
        None => None,
    }
}

/// The position up to which the slot's client was sent the log; 0 if there is no such slot.
pub(crate) fn sent_up_to(connections: &[ConnectionState], slot: SlotNumber) -> Lsn
    ensures { result ≡ sent_at connections.now slot }
{
    match connections.get(slot) {
        None => Lsn::new(0),
        Some(connection) => connection.sent,
    }
}

/// The end of a step, or the position up to which the slot's client was sent the log, if that is greater.
pub(crate) fn further(connections: &[ConnectionState], slot: SlotNumber, end: Lsn) -> Lsn
    requires { slot < length connections.now }
    ensures { result ≡ max end (sent_at connections.now slot) }
{
    end.max(connections[slot].sent)
}

/// The client of the slot is sent no further reply.
pub(crate) fn settle(connections: &mut [ConnectionState], slot: SlotNumber)
    ensures sent { AreSent (sent_at connections.old) connections.new }
    ensures ended { (slot : ℕ) → ended_at connections.new slot ≡ ended_at connections.old slot }
{
    let Some(connection) = connections.get(slot).copied() else {
        return;
    };
    connections[slot] = ConnectionState {
        sent: connection.sent,
        wants_reply: false,
        has_ended: connection.has_ended,
    };
}

/// The connection of the slot, whose stream is over, has ended.
pub(crate) fn part(connections: &mut [ConnectionState], slot: SlotNumber)
    ensures sent { AreSent (sent_at connections.old) connections.new }
    ensures ended { HaveEnded (with_use slot true (ended_at connections.old)) connections.new }
{
    let Some(connection) = connections.get(slot).copied() else {
        return;
    };
    connections[slot] = ConnectionState {
        sent: connection.sent,
        wants_reply: false,
        has_ended: true,
    };
}

/// The client of the slot is sent the log up to this position.
pub(crate) fn advance(connections: &mut [ConnectionState], slot: SlotNumber, position: Lsn)
    requires { slot < length connections.old }
    ensures sent { AreSent (with_position slot position (sent_at connections.old)) connections.new }
    ensures ended { (slot : ℕ) → ended_at connections.new slot ≡ ended_at connections.old slot }
{
    let connection = connections[slot];
    connections[slot] = ConnectionState {
        sent: position,
        wants_reply: connection.wants_reply,
        has_ended: connection.has_ended,
    };
}
