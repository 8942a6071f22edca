//! Laws about streams.

ghost use Rattle.copy_both.specs.ConfirmedFrames.{ConfirmationsAreHeard};
ghost use Rattle.copy_both.specs.Ears.{HearingChangesSlots, LosingChangesSlots, StartsTakeSlots};
ghost use Rattle.copy_both.specs.HeardFrames.{LateStartsAreRequested, NothingIsHeard, PiecesAreHeard, StatusesConfirm};
ghost use Rattle.copy_both.specs.LinkLaws as links;
ghost use Rattle.copy_both.specs.SeenStreams.{StreamsTellTransactions};
ghost use Rattle.copy_both.specs.StreamLaws.{StreamStarts, StreamTakes, StreamKeeps, StreamPasses, StreamGrows};
ghost use Rattle.copy_both.specs.Streams.{Telling};
ghost use Rattle.copy_both.specs.VoiceLaws as voices;

use crate::voice::Voice;

/// A law about what a connection sends, whatever it reports of a commit: a function without an effect whose contract
/// states it. After CopyBothResponse the stream grows by each commit that is taken and by each keepalive. What was
/// passed on and what waits are together the stream, however much was passed on. A log that grows does not change it.
///
/// PostgreSQL 15, 55.4. Streaming Replication Protocol.
pub fn streams_grow<C>()
    ensures starts { (telling : Telling C) → StreamStarts telling }
    ensures takes { (telling : Telling C) → StreamTakes telling }
    ensures keeps { (telling : Telling C) → StreamKeeps telling }
    ensures passes { (telling : Telling C) → StreamPasses telling }
    ensures grows { (telling : Telling C) → StreamGrows telling }
{}

/// A law about what a link sends while its stream runs. What was passed on and what waits are together the stream of
/// what it started, took and kept alive, whatever it heard. After the client's CopyDone, CopyDone follows the stream;
/// after a call that closed the link nothing does. If memory was refused, it is a first part of that. This stays so
/// while the rest is passed on.
///
/// PostgreSQL 15, 55.4. Streaming Replication Protocol.
pub fn links_say_streams()
    ensures hears { links.LinkHears }
    ensures ends { links.LinkEnds }
    ensures breaks { links.LinkBreaks }
    ensures stops { links.LinkStops }
    ensures takes { links.LinkTakes }
    ensures keeps { links.LinkKeeps }
    ensures passes { links.LinkPassesOn }
    ensures rest { links.LinkRestPassesOn }
    ensures front { links.LinkFrontPassesOn }
    ensures grows { links.LogGrows }
{}

/// A law about the stream of a log: it depends only on the log's transactions and on what the subscriber sees of them.
/// After CopyBothResponse a take adds nothing if nothing is seen of the next transaction; otherwise Begin and Commit
/// with the transaction's number and time, and between them each change, directly after the Relations of those of its
/// tables that no change of the connection named before. A keepalive carries the end of the last transaction that was
/// taken; if none was, the start, which is 64 for a start at 0. It holds if a row's identity determines who gets the
/// row, as in each catalog that was checked, for transactions that were accepted.
///
/// PostgreSQL 15, 55.4. Streaming Replication Protocol, and 55.5.3. Logical Replication Protocol Message Flow.
pub fn streams_tell_transactions()
    ensures { StreamsTellTransactions }
{}

/// A law about what a voice has sent since its start. What was passed on and what waits are together the stream of its
/// moves: of the commits that it took, which follow one another, and of its keepalives, with their clocks. This holds
/// for each log that has these commits from the start on. CopyDone follows the stream, and after a call that closed the
/// voice nothing does.
///
/// PostgreSQL 15, 55.4. Streaming Replication Protocol.
pub fn voices_say_streams()
    ensures starts { voices.VoiceStarts }
    ensures takes { voices.VoiceTakes }
    ensures keeps { voices.VoiceKeeps }
    ensures passes { voices.VoicePassesOn }
    ensures done { voices.VoiceIsDone }
    ensures stops { voices.VoiceStops }
    ensures rest { voices.RestPassesOn }
{}

/// A law about what an ear leaves of a book: whatever it hears, and when it is lost, only slots change. A stream that
/// starts takes a slot that was free, and nothing else that is heard changes which slots are in use (`uses`).
pub fn ears_change_slots()
    ensures hear { HearingChangesSlots }
    ensures lose { LosingChangesSlots }
    ensures uses { StartsTakeSlots }
{}

/// A law about what an ear has heard in all bytes since its first, in whatever pieces they came. The ear holds what
/// comes after the last whole frame. If a stream was started, the first frame is a Query that requests it, and the book
/// with which that frame was heard started it: at the requested position, or at the slot's confirmed position if that
/// is later. So a stream that starts after the confirmed position starts at the requested one (`requested`). A start
/// remains, and is reported once. A slot is confirmed only on the connection of its stream, and only up to the position
/// of a status (`confirmed`). The ear knows the greatest position that statuses confirm, of all frames after the first
/// one up to one that is no status, or is refused (`heard`). A fault is that of a length, of the first frame's start,
/// or of a later frame; and an end is that of a frame of this kind. A start that is refused has the ErrorResponse of
/// its refusal. The law holds for books of the checked catalog that are among those that a publisher has had
/// (`BooksOf`): each is that of a beginning of the log, and its slots were in use as they were at some time.
///
/// PostgreSQL 15, 55.4. Streaming Replication Protocol, and 55.7. Message Formats.
pub fn frames_are_heard()
    ensures first { NothingIsHeard }
    ensures pieces { PiecesAreHeard }
    ensures requested { LateStartsAreRequested }
    ensures confirmed { StatusesConfirm }
    ensures heard { ConfirmationsAreHeard }
{}

/// Accepts what may be sent to another thread.
fn goes_to_another_thread<T: Send>(_value: &T) {}

/// A law about threads: a voice may be sent to another thread.
pub fn voices_go_to_other_threads(voice: &Voice) {
    goes_to_another_thread(voice);
}
