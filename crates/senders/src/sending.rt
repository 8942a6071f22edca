//! What is sent on a connection.

ghost use Rattle.std.specs.Prelude.{◌≡◌, ◌++◌, [], map, true, IfOk, IfSome, OnOk, OnErr, MatchResult};
ghost use Rattle.std.specs.Arc.{arc_value};
ghost use Rattle.copy_both.specs.Voices.{voice_checked, voice_stage};
ghost use Rattle.copy_frames.specs.Contents.{copy_both_response};
ghost use Rattle.publisher_desk.specs.Lending.{IsNext, IsStepOf};
ghost use Rattle.publisher_desk.specs.Viewers.{SeesMore, log_seen};
ghost use Rattle.senders.specs.Flushing.{Flushes};
ghost use Rattle.senders.specs.Sending.{AreQuietFor, IsQuiet, StopsAs, TakesLogged, TakesUp, TellsAs, started_telling};
ghost use Rattle.senders.specs.declared.sender_end.SenderEnd.TheVariants.{WriteFault};

use crate::clock::clock;
use crate::failed::Failed;
use crate::flushing::flush;
use crate::gate::Gate;
use crate::sender_end::SenderEnd;
use crate::sink::Sink;
use copy_both::{StreamStart, Taken, Voice};
use publisher_desk::{Permit, Publisher, Publishing, SenderStep, Viewer};
use std::alloc::{AllocError, Global};
use std::sync::{Arc, Wait};
use std::time::Clock;
use tables_log::{Commit, SlotNumber};

/// If this number of bytes wait, they are written before a further commit is taken.
const BATCH: usize = 65_536;

/// What the sender of the slot does now, if there is something to do, fewer than `BATCH` bytes wait, and they are not
/// due.
fn step_if<P: Publishing, R: Wait>(
    rt: &R,
    publisher: &Publisher<P>,
    viewer: &mut Viewer<P>,
    slot: SlotNumber,
    number: u64,
    is_due: bool,
    waiting: usize,
) -> Option<SenderStep>
    ensures next { IfSome result (IsNext P.checked.plan slot number) }
    ensures logged { IfSome result (IsStepOf P.checked.plan slot (log_seen P.checked viewer.new.seen) number) }
    ensures sees { SeesMore viewer.old viewer.new }
{
    if is_due || waiting == 0 || BATCH <= waiting {
        return None;
    }
    publisher.step_now(rt, viewer, slot, number)
}

/// What the sender of the slot does next, after it has reported all commits before this number. What waits is written
/// first, unless it is less than `BATCH`, is not due, and there is something to do now.
///
/// # Errors
///
/// `Failed` if the sink fails.
fn await_step<P: Publishing, W: Sink, R: Wait>(
    rt: &R,
    publisher: &Publisher<P>,
    viewer: &mut Viewer<P>,
    slot: SlotNumber,
    number: u64,
    is_due: bool,
    voice: &mut Voice,
    writer: &mut W,
    permit: &Permit,
) -> Result<SenderStep, Failed>
    ensures flushes { Flushes (W.taken writer.old) (W.taken writer.new) voice.old voice.new }
    ensures next { IfOk result (IsNext P.checked.plan slot number) }
    ensures logged { IfOk result (IsStepOf P.checked.plan slot (log_seen P.checked viewer.new.seen) number) }
    ensures sees { SeesMore viewer.old viewer.new }
    ensures failed { MatchResult result (λ step. W.has_failed writer.new ≡ W.has_failed writer.old)
        (λ failed. W.has_failed writer.new ≡ true) }
    ensures refused { W.has_refused writer.new ≡ W.has_refused writer.old }
{
    let waiting = voice.output().len();
    if let Some(step) = step_if(rt, publisher, viewer, slot, number, is_due, waiting) {
        return Ok(step);
    }
    flush(voice, writer, permit)?;
    Ok(publisher.next_step(rt, viewer, slot, number))
}

/// Takes these commits, of which the subscriber gets nothing.
fn skip_all(voice: &mut Voice, commits: &[Arc<Commit, Global>])
    requires { AreQuietFor (voice_checked voice.old) (voice_stage voice.old)
        (map (λ commit. arc_value commit) commits.now) }
    ensures { TakesUp (map (λ commit. arc_value commit) commits.now) voice.old voice.new }
{
    for commit in commits {
        voice.skip(commit);
    }
}

/// Takes these commits, of which the subscriber gets nothing, and keeps them with those that were taken before. The
/// only error is out of memory; then nothing changes.
fn pass_over(
    voice: &mut Voice,
    taken: &mut Vec<Arc<Commit, Global>>,
    mut commits: Vec<Arc<Commit, Global>>,
) -> Result<(), AllocError>
    requires { AreQuietFor (voice_checked voice.old) (voice_stage voice.old)
        (map (λ commit. arc_value commit) commits.items) }
    ensures ok { OnOk result (TakesUp (map (λ commit. arc_value commit) commits.items) voice.old voice.new) }
    ensures taken { OnOk result (taken.new.items ≡ taken.old.items ++ commits.items) }
    ensures err { OnErr result (voice.new ≡ voice.old) }
    ensures kept { OnErr result (taken.new.items ≡ taken.old.items) }
{
    let before = taken.len();
    taken.append(&mut commits)?;
    let (_, passed) = taken.as_slice().split_at(before);
    skip_all(voice, passed);
    Ok(())
}

/// Sends as `send_all` does, except that bytes may wait at the end.
fn tell_all<P: Publishing, W: Sink, G: Gate, R: Wait + Clock>(
    rt: &R,
    publisher: &Publisher<P>,
    viewer: &mut Viewer<P>,
    started: StreamStart,
    voice: &mut Voice,
    writer: &mut W,
    permit: &Permit,
    gate: &G,
) -> (Vec<Arc<Commit, Global>>, SenderEnd)
    requires { IsQuiet voice.old (started_telling P.checked started.0 started.1 copy_both_response) }
    ensures tells { TellsAs result.1 (W.taken writer.old) (W.taken writer.new)
        (map (λ commit. arc_value commit) result.0.items) voice.new
        (started_telling P.checked started.0 started.1 copy_both_response) }
    ensures failed { result.1 ≡ WriteFault → W.has_failed writer.new ≡ true }
    ensures refused { W.has_refused writer.new ≡ W.has_refused writer.old }
    ensures logged { TakesLogged P.checked viewer.old viewer.new
        (map (λ commit. arc_value commit) result.0.items) }
{
    let mut taken = Vec::new(publisher.allocator());
    let mut skips = 0u32;
    for _ in rt.forever() {
        let Some(number) = voice.next() else {
            return (taken, SenderEnd::ConnectionEnded);
        };
        if taken.reserve(1).is_err() {
            return (taken, SenderEnd::OutOfMemory);
        }
        // (commits for other subscribers may come all the time, and must not hold back what waits)
        let is_due = skips > 1;
        let Ok(step) = await_step(
            rt,
            publisher,
            viewer,
            started.slot,
            number,
            is_due,
            voice,
            writer,
            permit,
        ) else {
            return (taken, SenderEnd::WriteFault);
        };
        match step {
            SenderStep::Entry(entry) => {
                let Ok(told) = voice.take_routed(&entry, clock(rt)) else {
                    return (taken, SenderEnd::OutOfMemory);
                };
                taken.push_reserved(entry.into_commit());
                skips = 0;
                if let Taken::Sent(number) = told {
                    gate.pass(started.slot, number);
                }
            }
            SenderStep::Skip(commits) => {
                let Ok(()) = pass_over(voice, &mut taken, commits) else {
                    return (taken, SenderEnd::OutOfMemory);
                };
                skips = skips.saturating_add(1);
            }
            SenderStep::Reply => {
                if voice.keepalive(clock(rt), false).is_err() {
                    return (taken, SenderEnd::OutOfMemory);
                }
            }
            SenderStep::Ended => return (taken, SenderEnd::ConnectionEnded),
            SenderStep::Finished => return (taken, SenderEnd::Finished),
            SenderStep::OutOfMemory => return (taken, SenderEnd::OutOfMemory),
        }
    }
    unreachable!()
}

/// Sends on a connection whose stream has started and whose CopyBothResponse was written: each commit from the start
/// on as it comes, and replies, until the connection ends or all commits of a finished publisher are taken. A commit
/// is taken from the log under the lock, with the subscribers that get something of each of its changes, and is
/// encoded and passes the gate without it. Commits of which the subscriber gets nothing are taken several at a time,
/// and nothing of them is encoded. What several commits appended is written at once: when there is nothing to do now,
/// when 64 KiB or more wait, after two skips in a row, and at the end. Returns which commits were taken, and why it
/// stopped. The viewer has then seen the log with these commits.
///
/// PostgreSQL 15, 55.4. Streaming Replication Protocol.
pub(crate) fn send_all<P: Publishing, W: Sink, G: Gate, R: Wait + Clock>(
    rt: &R,
    publisher: &Publisher<P>,
    viewer: &mut Viewer<P>,
    started: StreamStart,
    voice: &mut Voice,
    writer: &mut W,
    permit: &Permit,
    gate: &G,
) -> (Vec<Arc<Commit, Global>>, SenderEnd)
    requires { IsQuiet voice.old (started_telling P.checked started.0 started.1 copy_both_response) }
    ensures sent { StopsAs result.1 (W.taken writer.old) (W.taken writer.new)
        (map (λ commit. arc_value commit) result.0.items) voice.new
        (started_telling P.checked started.0 started.1 copy_both_response) }
    ensures failed { result.1 ≡ WriteFault → W.has_failed writer.new ≡ true }
    ensures refused { W.has_refused writer.new ≡ W.has_refused writer.old }
    ensures logged { TakesLogged P.checked viewer.old viewer.new
        (map (λ commit. arc_value commit) result.0.items) }
{
    let (taken, stop) = tell_all(rt, publisher, viewer, started, voice, writer, permit, gate);
    match stop {
        SenderEnd::WriteFault => return (taken, stop),
        SenderEnd::ConnectionEnded | SenderEnd::Finished | SenderEnd::OutOfMemory => {}
    }
    if flush(voice, writer, permit).is_err() {
        return (taken, SenderEnd::WriteFault);
    }
    (taken, stop)
}
