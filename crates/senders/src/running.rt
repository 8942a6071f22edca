//! Connections whose stream has started: one thread sends, and another listens.

ghost use Rattle.std.specs.Prelude.{◌≡◌, ◌<◌, length, map, true};
ghost use Rattle.std.specs.Arc.{arc_value};
ghost use Rattle.copy_frames.specs.Contents.{copy_both_response};
ghost use Rattle.publisher_desk.specs.Viewers.{new_viewer};
ghost use Rattle.senders.specs.Listening.{HasEnded, HasItsSlot, HasStarted, HearsAll};
ghost use Rattle.senders.specs.Sending.{IsQuiet, StopsAs, TakesLogged, started_telling};
ghost use Rattle.senders.specs.declared.sender_end.SenderEnd.TheVariants.{Finished, WriteFault};

use crate::gate::Gate;
use crate::listener::Listener;
use crate::listener_end::ListenerEnd;
use crate::listening::listen;
use crate::sender_end::SenderEnd;
use crate::sending::send_all;
use crate::sink::Sink;
use crate::slot_tasks::end_connection;
use crate::source::Source;
use copy_both::{StreamStart, Voice};
use publisher_desk::{Permit, Publisher, Publishing, Viewer};
use std::alloc::Global;
use std::sync::{Arc, Wait};
use std::thread::{Threads, join_mut};
use std::time::Clock;
use tables_log::{Commit, SlotNumber};

/// The result of a sender: which commits it took, why it stopped, and whether it was the first to end the connection.
#[derive(Drop)]
pub struct Sent {
    pub taken: Vec<Arc<Commit, Global>>,
    pub stop: SenderEnd,
    pub is_first: bool,
}

/// Sends, and ends the connection if sending failed. Returns also what the sender has then seen.
pub(crate) fn send<P: Publishing, W: Sink, G: Gate, R: Wait + Clock>(
    rt: &R,
    publisher: &Publisher<P>,
    started: StreamStart,
    voice: &mut Voice,
    writer: &mut W,
    permit: &Permit,
    gate: &G,
) -> (Sent, Viewer<P>)
    requires { IsQuiet voice.old (started_telling P.checked started.0 started.1 copy_both_response) }
    ensures sent { StopsAs result.0.stop (W.taken writer.old) (W.taken writer.new)
        (map (λ commit. arc_value commit) result.0.taken.items) voice.new
        (started_telling P.checked started.0 started.1 copy_both_response) }
    ensures failed { result.0.stop ≡ WriteFault → W.has_failed writer.new ≡ true }
    ensures refused { W.has_refused writer.new ≡ W.has_refused writer.old }
    ensures logged { TakesLogged P.checked new_viewer result.1
        (map (λ commit. arc_value commit) result.0.taken.items) }
{
    let mut viewer = Viewer::new();
    let (taken, stop) = send_all(
        rt,
        publisher,
        &mut viewer,
        started,
        voice,
        writer,
        permit,
        gate,
    );
    let is_first = match stop {
        SenderEnd::ConnectionEnded => false,
        SenderEnd::Finished => true,
        SenderEnd::WriteFault | SenderEnd::OutOfMemory => end_connection(
            rt,
            publisher,
            started.slot,
        ),
    };
    let sent = Sent {
        taken,
        stop,
        is_first,
    };
    (sent, viewer)
}

/// Listens, and ends the connection if the listener has a cause.
fn hear<P: Publishing, S: Source, R: Wait>(
    rt: &R,
    publisher: &Publisher<P>,
    viewer: &mut Viewer<P>,
    slot: SlotNumber,
    listener: &mut Listener,
    reader: &mut S,
) -> Option<ListenerEnd>
    requires room { 0 < length listener.old.piece.items }
    requires mine { HasItsSlot viewer.old listener.old }
    requires started { HasStarted listener.old }
    ensures { HearsAll P.checked viewer.old viewer.new (S.left reader.old) (S.left reader.new)
        (S.has_failed reader.new) (S.has_ended reader.new) listener.old listener.new result }
{
    let why = listen(rt, publisher, viewer, listener, reader, true);
    if why.is_some() {
        end_connection(rt, publisher, slot);
    }
    why
}

/// Whether a thread can be started.
pub(crate) fn starts_threads<R: Threads>(rt: &R) -> bool {
    match std::thread::spawn(rt, || ()) {
        Ok(child) => {
            child.join(rt);
            true
        }
        Err(_) => false,
    }
}

/// Sends and listens side by side, to the end of the connection. If no other thread can be started, it is heard when
/// its sender has stopped. Returns what was sent, what the sender has then seen, and why the listener ended, if it did.
fn run_both<
    P: Publishing + Sync,
    S: Source + Send,
    W: Sink + Send,
    G: Gate + Sync,
    R: Threads + Wait + Clock + Sync,
>(
    rt: &R,
    publisher: &Publisher<P>,
    viewer: &mut Viewer<P>,
    started: StreamStart,
    voice: &mut Voice,
    listener: &mut Listener,
    reader: &mut S,
    writer: &mut W,
    permit: &Permit,
    gate: &G,
) -> (Sent, Viewer<P>, Option<ListenerEnd>)
    requires quiet { IsQuiet voice.old (started_telling P.checked started.0 started.1 copy_both_response) }
    requires room { 0 < length listener.old.piece.items }
    requires mine { HasItsSlot viewer.old listener.old }
    requires started { HasStarted listener.old }
    ensures sent { StopsAs result.0.stop (W.taken writer.old) (W.taken writer.new)
        (map (λ commit. arc_value commit) result.0.taken.items) voice.new
        (started_telling P.checked started.0 started.1 copy_both_response) }
    ensures failed { result.0.stop ≡ WriteFault → W.has_failed writer.new ≡ true }
    ensures refused { W.has_refused writer.new ≡ W.has_refused writer.old }
    ensures heard { HearsAll P.checked viewer.old viewer.new (S.left reader.old) (S.left reader.new)
        (S.has_failed reader.new) (S.has_ended reader.new) listener.old listener.new result.2 }
    ensures logged { TakesLogged P.checked new_viewer result.1
        (map (λ commit. arc_value commit) result.0.taken.items) }
{
    let StreamStart { slot, start } = started;
    let (why, (sent, sender)) = join_mut(
        rt,
        &mut || -> Option<ListenerEnd>
            requires room { 0 < length listener.now.piece.items }
            requires mine { HasItsSlot viewer.now listener.now }
            requires started { HasStarted listener.now }
            ensures { HearsAll P.checked viewer.entry.now viewer.exit.now (S.left reader.entry.now)
                (S.left reader.exit.now) (S.has_failed reader.exit.now) (S.has_ended reader.exit.now)
                listener.entry.now listener.exit.now result }
        { hear(rt, publisher, viewer, slot, listener, reader) },
        &mut || -> (Sent, Viewer<P>)
            requires { IsQuiet voice.now (started_telling P.checked slot start copy_both_response) }
            ensures sent { StopsAs result.0.stop (W.taken writer.entry.now) (W.taken writer.exit.now)
                (map (λ commit. arc_value commit) result.0.taken.items) voice.exit.now
                (started_telling P.checked slot start copy_both_response) }
            ensures failed { result.0.stop ≡ WriteFault → W.has_failed writer.exit.now ≡ true }
            ensures refused { W.has_refused writer.exit.now ≡ W.has_refused writer.entry.now }
            ensures logged { TakesLogged P.checked new_viewer result.1
                (map (λ commit. arc_value commit) result.0.taken.items) }
        {
            send(
                rt,
                publisher,
                StreamStart { slot, start },
                voice,
                writer,
                permit,
                gate,
            )
        },
    );
    (sent, sender, why)
}

/// Sends and listens side by side, and if all commits were taken, hears the client out. Returns what `run_both` does.
pub(crate) fn run_out<
    P: Publishing + Sync,
    S: Source + Send,
    W: Sink + Send,
    G: Gate + Sync,
    R: Threads + Wait + Clock + Sync,
>(
    rt: &R,
    publisher: &Publisher<P>,
    viewer: &mut Viewer<P>,
    started: StreamStart,
    voice: &mut Voice,
    listener: &mut Listener,
    reader: &mut S,
    writer: &mut W,
    permit: &Permit,
    gate: &G,
) -> (Sent, Viewer<P>, Option<ListenerEnd>)
    requires quiet { IsQuiet voice.old (started_telling P.checked started.0 started.1 copy_both_response) }
    requires room { 0 < length listener.old.piece.items }
    requires mine { HasItsSlot viewer.old listener.old }
    requires started { HasStarted listener.old }
    ensures sent { StopsAs result.0.stop (W.taken writer.old) (W.taken writer.new)
        (map (λ commit. arc_value commit) result.0.taken.items) voice.new
        (started_telling P.checked started.0 started.1 copy_both_response) }
    ensures failed { result.0.stop ≡ WriteFault → W.has_failed writer.new ≡ true }
    ensures refused { W.has_refused writer.new ≡ W.has_refused writer.old }
    ensures heard { HearsAll P.checked viewer.old viewer.new (S.left reader.old) (S.left reader.new)
        (S.has_failed reader.new) (S.has_ended reader.new) listener.old listener.new result.2 }
    ensures out { result.0.stop ≡ Finished → HasEnded result.2 }
    ensures logged { TakesLogged P.checked new_viewer result.1
        (map (λ commit. arc_value commit) result.0.taken.items) }
{
    let (sent, sender, why) = run_both(
        rt, publisher, viewer, started, voice, listener, reader, writer, permit, gate,
    );
    if let Some(why) = why {
        return (sent, sender, Some(why));
    }
    match sent.stop {
        SenderEnd::ConnectionEnded | SenderEnd::WriteFault | SenderEnd::OutOfMemory => {
            (sent, sender, None)
        }
        SenderEnd::Finished => {
            let why = listen(rt, publisher, viewer, listener, reader, false);
            (sent, sender, why)
        }
    }
}
