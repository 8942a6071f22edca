//! How a connection is served.

ghost use Rattle.std.specs.Prelude.{◌≡◌, ◌<◌, ℕ, [], length, map, None, Some};
ghost use Rattle.std.specs.Arc.{arc_value};
ghost use Rattle.senders.specs.Causes as spec;
ghost use Rattle.senders.specs.Causes.{chosen, end_by, unopened_by};
ghost use Rattle.publisher_desk.specs.Viewers.{Holds, new_viewer};
ghost use Rattle.senders.specs.Listening.{HasItsSlot};
ghost use Rattle.senders.specs.Refusing as refusing;
ghost use Rattle.senders.specs.Results.{IsWitnessed, commits_of};
ghost use Rattle.senders.specs.Running.{Concludes, IsWithout, ReleasesIf, RunsOn, ServesOut, Streams};
ghost use Rattle.senders.specs.Sending.{TakesLogged};
ghost use Rattle.copy_both.specs.Ears.{ear_started};
ghost use Rattle.senders.specs.Listening.{HasStarted};
ghost use Rattle.senders.specs.Speaking.{IsQuietAt};
ghost use Rattle.senders.specs.Serving.{IsPermitted, IsServed};

use crate::beginning::Beginning;
use crate::end::End;
use crate::gate::Gate;
use crate::listener::Listener;
use crate::listener_end::ListenerEnd;
use crate::listening::begin;
use crate::outcome::Outcome;
use crate::refusing::{answer, cause_of, fault_of};
use crate::running::{Sent, run_out, send, starts_threads};
use crate::sender_end::SenderEnd;
use crate::served::Served;
use crate::sink::Sink;
use crate::source::Source;
use crate::speaking::{open, say_last};
use copy_both::{LinkFault, StreamStart, Voice};
use publisher_desk::{Permit, Publisher, Publishing, Viewer};
use std::alloc::Global;
use std::sync::Wait;
use std::thread::Threads;
use std::time::Clock;
use tables_log::Lsn;

/// Why a connection ended, if its sender ended it.
fn end_of(stop: SenderEnd) -> End
    ensures { result ≡ end_by stop }
{
    match stop {
        SenderEnd::Finished => End::Finished,
        SenderEnd::WriteFault => End::WriteFault,
        // (only a listener ends a sender's connection, and then the listener has a cause)
        SenderEnd::OutOfMemory | SenderEnd::ConnectionEnded => End::Link(LinkFault::OutOfMemory),
    }
}

/// Whether the sender's cause of the end takes precedence over the listener's: it came first, and the listener was not
/// refused memory. A listener that was refused memory goes first, since what its client confirmed may be lost.
fn goes_first(is_first: bool, why: ListenerEnd) -> bool
    ensures { result ≡ spec.goes_first is_first why }
{
    match why {
        ListenerEnd::Fault(LinkFault::OutOfMemory) => false,
        ListenerEnd::SourceFailed
        | ListenerEnd::SourceEnded
        | ListenerEnd::Frame(_)
        | ListenerEnd::Fault(_) => is_first,
    }
}

/// Whether the sender was refused memory.
fn is_refused(stop: SenderEnd) -> bool
    ensures { result ≡ spec.is_refused stop }
{
    match stop {
        SenderEnd::ConnectionEnded | SenderEnd::Finished | SenderEnd::WriteFault => false,
        SenderEnd::OutOfMemory => true,
    }
}

/// The cause of an end that is reported: the sender's if it was refused memory, if its cause goes before the
/// listener's, or if the listener has none; otherwise the listener's.
fn reported_cause(stop: SenderEnd, is_first: bool, why: Option<ListenerEnd>) -> End
    ensures { result ≡ chosen stop is_first why }
{
    match why {
        None => end_of(stop),
        Some(why) => {
            if is_refused(stop) || goes_first(is_first, why) {
                end_of(stop)
            } else {
                cause_of(why)
            }
        }
    }
}

/// What came of a connection on which no stream was started.
fn unstarted(alloc: Global, end: End, fault: Option<LinkFault>) -> Outcome
    ensures slot { result.slot ≡ None }
    ensures start { result.start ≡ None }
    ensures taken { result.taken.items ≡ [] }
    ensures end { result.end ≡ end }
    ensures fault { result.fault ≡ fault }
{
    Outcome {
        slot: None,
        start: None,
        taken: Vec::new(alloc),
        end,
        fault,
    }
}

/// What came of a connection for which no commit was taken.
fn without_commits(
    alloc: Global,
    started: StreamStart,
    end: End,
    fault: Option<LinkFault>,
) -> Outcome
    ensures { IsWithout started.0 started.1 fault end result }
{
    Outcome {
        slot: Some(started.slot),
        start: Some(started.start.to_u64()),
        taken: Vec::new(alloc),
        end,
        fault,
    }
}

/// The fault of what the client sent, if that ended its listener.
fn fault_after(why: Option<ListenerEnd>) -> Option<LinkFault>
    ensures { result ≡ refusing.fault_after why }
{
    fault_of(why?)
}

/// Why a connection ended whose client ended it in the piece that started it, if CopyBothResponse could not be
/// written.
fn unopened_end(stop: SenderEnd, why: ListenerEnd) -> End
    ensures { result ≡ unopened_by stop why }
{
    match stop {
        SenderEnd::WriteFault => cause_of(why),
        SenderEnd::ConnectionEnded | SenderEnd::Finished | SenderEnd::OutOfMemory => end_of(stop),
    }
}

/// What came of a connection whose sender stopped, and whose listener ended for this reason, if it did. If its client
/// sent CopyDone, it is answered.
fn conclude<W: Sink>(
    started: StreamStart,
    voice: &mut Voice,
    sent: Sent,
    why: Option<ListenerEnd>,
    writer: &mut W,
    permit: &Permit,
) -> Outcome
    requires { IsQuietAt sent.stop voice.old }
    ensures concludes { Concludes started.0 started.1 sent why (W.taken writer.old) (W.taken writer.new)
        (W.has_failed writer.old) (W.has_failed writer.new) result }
    ensures refused { W.has_refused writer.new ≡ W.has_refused writer.old }
{
    let stop = say_last(voice, sent.stop, why, writer, permit);
    let end = reported_cause(stop, sent.is_first, why);
    Outcome {
        slot: Some(started.slot),
        start: Some(started.start.to_u64()),
        taken: sent.taken,
        end,
        fault: fault_after(why),
    }
}

/// Serves a connection whose stream was started by the piece that ended it.
fn serve_ended<P: Publishing, W: Sink, G: Gate, R: Wait + Clock>(
    rt: &R,
    publisher: &Publisher<P>,
    started: StreamStart,
    why: ListenerEnd,
    writer: &mut W,
    permit: &Permit,
    gate: &G,
) -> (Outcome, Viewer<P>)
    ensures streams { Streams P.checked started.0 started.1 (W.taken writer.old) (W.taken writer.new)
        (W.has_failed writer.new) (Some why) result.0 }
    ensures logged { TakesLogged P.checked new_viewer result.1 (commits_of result.0) }
    ensures refused { W.has_refused writer.new ≡ W.has_refused writer.old }
{
    let mut voice = match open(publisher, started, writer, permit) {
        Ok(voice) => voice,
        Err(stop) => {
            let end = unopened_end(stop, why);
            let outcome = without_commits(publisher.allocator(), started, end, fault_of(why));
            return (outcome, Viewer::new());
        }
    };
    let (sent, viewer) = send(rt, publisher, started, &mut voice, writer, permit, gate);
    let outcome = conclude(started, &mut voice, sent, Some(why), writer, permit);
    (outcome, viewer)
}

/// Serves a connection whose stream has started.
fn serve_started<
    P: Publishing + Sync,
    S: Source + Send,
    W: Sink + Send,
    G: Gate + Sync,
    R: Threads + Wait + Clock + Sync,
>(
    rt: &R,
    publisher: &Publisher<P>,
    viewer: &mut Viewer<P>,
    started: StreamStart,
    listener: &mut Listener,
    reader: &mut S,
    writer: &mut W,
    permit: &Permit,
    gate: &G,
) -> (Outcome, Viewer<P>)
    requires room { 0 < length listener.old.piece.items }
    requires mine { HasItsSlot viewer.old listener.old }
    requires started { HasStarted listener.old }
    ensures runs { RunsOn P.checked viewer.old viewer.new started.0 started.1 (S.left reader.old)
        (S.left reader.new) (S.has_failed reader.new) (S.has_ended reader.new) (W.taken writer.old)
        (W.taken writer.new) (W.has_failed writer.new) listener.old listener.new result.0 }
    ensures logged { TakesLogged P.checked new_viewer result.1 (commits_of result.0) }
    ensures refused { W.has_refused writer.new ≡ W.has_refused writer.old }
{
    let mut voice = match open(publisher, started, writer, permit) {
        Ok(voice) => voice,
        Err(stop) => {
            let outcome = without_commits(publisher.allocator(), started, end_of(stop), None);
            return (outcome, Viewer::new());
        }
    };
    if !starts_threads(rt) {
        let end = end_of(SenderEnd::OutOfMemory);
        let outcome = without_commits(publisher.allocator(), started, end, None);
        return (outcome, Viewer::new());
    }
    let (sent, sender, why) = run_out(
        rt, publisher, viewer, started, &mut voice, listener, reader, writer, permit, gate,
    );
    let outcome = conclude(started, &mut voice, sent, why, writer, permit);
    (outcome, sender)
}

/// What came of a connection, what its sender has then seen, and the permit of its stream, if one was started.
fn outcome_of<
    P: Publishing + Sync,
    S: Source + Send,
    W: Sink + Send,
    G: Gate + Sync,
    R: Threads + Wait + Clock + Sync,
>(
    rt: &R,
    publisher: &Publisher<P>,
    viewer: &mut Viewer<P>,
    listener: &mut Listener,
    reader: &mut S,
    writer: &mut W,
    gate: &G,
) -> (Outcome, Viewer<P>, Option<Permit>)
    requires room { 0 < length listener.old.piece.items }
    requires mine { HasItsSlot viewer.old listener.old }
    requires fresh { ear_started listener.old.ear ≡ None }
    ensures serves { ServesOut P.checked viewer.old viewer.new (S.left reader.old) (S.left reader.new)
        (S.has_failed reader.new) (S.has_ended reader.new) (W.taken writer.old) (W.taken writer.new)
        (W.has_failed writer.new) listener.old listener.new result.1 result.0 }
    ensures permit { result.2 ≡ result.0.slot }
    ensures refused { (slot : ℕ) → result.0.slot ≡ Some slot → W.has_refused writer.new ≡ W.has_refused writer.old }
{
    match begin(rt, publisher, viewer, listener, reader) {
        Beginning::Refused(why) => {
            answer(listener, why, writer);
            let outcome = unstarted(publisher.allocator(), cause_of(why), fault_of(why));
            (outcome, Viewer::new(), None)
        }
        Beginning::Ended(started, why, permit) => {
            let (outcome, sender) = serve_ended(rt, publisher, started, why, writer, &permit, gate);
            (outcome, sender, Some(permit))
        }
        Beginning::Started(started, permit) => {
            let (outcome, sender) = serve_started(
                rt, publisher, viewer, started, listener, reader, writer, &permit, gate,
            );
            (outcome, sender, Some(permit))
        }
    }
}

/// Releases the slot that the connection has, if it has one, and with it gives its permit back. The connection has then
/// seen what its sender has seen. Returns the position up to which its client was sent the log.
fn release_if<P: Publishing, R: Wait>(
    rt: &R,
    publisher: &Publisher<P>,
    viewer: &mut Viewer<P>,
    sender: &mut Viewer<P>,
    permit: Option<Permit>,
) -> Lsn
    requires { (number : ℕ) → permit ≡ Some number → Holds viewer.old.held number }
    ensures { ReleasesIf permit result viewer.old sender.old viewer.new }
{
    match permit {
        Some(permit) => {
            publisher.compare(rt, viewer, sender);
            publisher.release(rt, viewer, permit)
        }
        None => Lsn::new(0),
    }
}

/// Serves one connection to its end, and returns its result. Its client requests the stream of a slot by a Query.
/// Then one thread sends it each commit from there on, as it is made, and another hears what it confirms. The
/// connection ends if its source or its sink fails, if its client ends it or sends something invalid, or when the
/// publisher is finished and all commits are taken. When this function returns, the slot is released.
///
/// All bytes of the stream are pushed with the permit of its slot: after it is acquired, and before it is released.
///
/// If the sender has taken all commits, the connection is heard until its source has ended, and if the sender failed,
/// until the source has given one more piece. Until then it keeps its slot.
///
/// PostgreSQL 15, 55.4. Streaming Replication Protocol.
pub fn serve<
    P: Publishing + Sync,
    S: Source + Send,
    W: Sink + Send,
    G: Gate + Sync,
    R: Threads + Wait + Clock + Sync,
>(rt: &R, publisher: &Publisher<P>, reader: &mut S, writer: &mut W, gate: &G) -> Served<P>
    ensures served { IsServed P.checked (S.left reader.old) (S.left reader.new) (S.has_failed reader.new)
        (S.has_ended reader.new) (W.taken writer.old) (W.taken writer.new) (W.has_failed writer.new) result }
    ensures witnessed { IsWitnessed P.checked result }
    ensures permitted { IsPermitted (W.has_refused writer.old) (W.has_refused writer.new) result }
{
    let alloc = publisher.allocator();
    let Ok(mut listener) = Listener::new(alloc, publisher.checked()) else {
        let outcome = unstarted(alloc, End::Link(LinkFault::OutOfMemory), None);
        return Served::new(outcome, Lsn::new(0), false, 0, 0, Viewer::new());
    };
    let mut viewer = Viewer::new();
    let (outcome, mut sender, permit) = outcome_of(
        rt,
        publisher,
        &mut viewer,
        &mut listener,
        reader,
        writer,
        gate,
    );
    let sent = release_if(rt, publisher, &mut viewer, &mut sender, permit);
    viewer.is_accepted();
    Served::new(
        outcome,
        sent,
        listener.is_requested(),
        listener.confirmed(),
        listener.number(),
        viewer,
    )
}
