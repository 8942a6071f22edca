//! The first and the last frame of a connection.

ghost use Rattle.std.specs.Prelude.{◌≡◌, ◌≢◌, IfOk, IfErr, Some, true, false};
ghost use Rattle.senders.specs.Speaking.{FailsToOpen, IsNewVoice, IsQuietAt, Opens, SaysLast};
ghost use Rattle.senders.specs.declared.listener_end.ListenerEnd.TheVariants.{Frame};

use crate::flushing::flush;
use crate::listener_end::ListenerEnd;
use crate::sender_end::SenderEnd;
use crate::sink::Sink;
use copy_both::{StreamStart, Voice};
use publisher_desk::{Permit, Publisher, Publishing};
use std::alloc::AllocError;
use std::sync::Arc;

/// The kind of CopyDone.
const COPY_DONE: u8 = b'c';

/// A voice that has said nothing. The only error is out of memory.
fn new_voice<P: Publishing>(publisher: &Publisher<P>) -> Result<Voice, AllocError>
    ensures { IfOk result (IsNewVoice P.checked) }
{
    let checked = Arc::try_clone(publisher.checked())?;
    Ok(Voice::new(publisher.allocator(), checked))
}

/// Starts the stream of a slot: writes CopyBothResponse.
///
/// # Errors
///
/// `WriteFault` if the sink fails; `OutOfMemory`, and then nothing is written.
pub(crate) fn open<P: Publishing, W: Sink>(
    publisher: &Publisher<P>,
    started: StreamStart,
    writer: &mut W,
    permit: &Permit,
) -> Result<Voice, SenderEnd>
    ensures ok { IfOk result (Opens P.checked started.0 started.1 (W.taken writer.old) (W.taken writer.new)) }
    ensures err { IfErr result (FailsToOpen (W.taken writer.old) (W.taken writer.new) (W.has_failed writer.new)) }
    ensures refused { W.has_refused writer.new ≡ W.has_refused writer.old }
{
    let Ok(mut voice) = new_voice(publisher) else {
        return Err(SenderEnd::OutOfMemory);
    };
    if voice.start(started.slot, started.start.to_u64()).is_err() {
        return Err(SenderEnd::OutOfMemory);
    }
    if flush(&mut voice, writer, permit).is_err() {
        return Err(SenderEnd::WriteFault);
    }
    Ok(voice)
}

/// Whether the client ended its stream by CopyDone.
fn is_done(why: Option<ListenerEnd>) -> bool
    ensures is { result ≡ true → why ≡ Some (Frame 99) }
    ensures not { result ≡ false → why ≢ Some (Frame 99) }
{
    let Some(why) = why else {
        return false;
    };
    match why {
        ListenerEnd::Frame(kind) => kind == COPY_DONE,
        ListenerEnd::SourceFailed | ListenerEnd::SourceEnded | ListenerEnd::Fault(_) => false,
    }
}

/// Answers a client that ended its stream by CopyDone with CopyDone, if the sender did not fail. Returns why the
/// sender stopped: the same cause, or out of memory if there was none for this answer.
pub(crate) fn say_last<W: Sink>(
    voice: &mut Voice,
    stop: SenderEnd,
    why: Option<ListenerEnd>,
    writer: &mut W,
    permit: &Permit,
) -> SenderEnd
    requires { IsQuietAt stop voice.old }
    ensures says { SaysLast stop result why (W.taken writer.old) (W.taken writer.new) (W.has_failed writer.old)
        (W.has_failed writer.new) }
    ensures refused { W.has_refused writer.new ≡ W.has_refused writer.old }
{
    match stop {
        SenderEnd::WriteFault | SenderEnd::OutOfMemory => return stop,
        SenderEnd::ConnectionEnded | SenderEnd::Finished => {}
    }
    if !is_done(why) {
        return stop;
    }
    if voice.done().is_err() {
        return SenderEnd::OutOfMemory;
    }
    let _ = flush(voice, writer, permit);
    stop
}
