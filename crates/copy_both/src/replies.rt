//! The answers to what was heard.

ghost use Rattle.std.specs.Prelude.{◌≡◌, ◌≢◌, OnOk, OnErr, IfErr};
ghost use Rattle.std.specs.List.{concat};
ghost use Rattle.copy_both.specs.Links as spec;
ghost use Rattle.copy_both.specs.Links.{SendsFirst};
ghost use Rattle.copy_both.specs.Sessions.{heard_view};
ghost use Rattle.copy_both.specs.Voices as voices;
ghost use Rattle.copy_both.specs.Voices.{Sends, Closes, voice_checked, voice_stage};
ghost use Rattle.copy_both.specs.declared.link_fault.LinkFault.TheVariants.{OutOfMemory};

use crate::hearing::Hearing;
use crate::link_fault::LinkFault;
use crate::stream_start::StreamStart;
use crate::voice::Voice;

/// Starts the stream if one was started.
fn open(voice: &mut Voice, started: Option<StreamStart>) -> Result<(), LinkFault>
    requires { voice_stage voice.old ≢ voices.Closed }
    ensures ok { OnOk result (Sends voice.old voice.new (spec.opening (voice_stage voice.old) started)
        (spec.begun_stage (voice_checked voice.old) (voice_stage voice.old) started)) }
    ensures err { OnErr result (Closes voice.old voice.new) }
    ensures memory { IfErr result (λ fault. fault ≡ OutOfMemory) }
{
    match started {
        Some(stream) if voice.sent().is_none() => voice.start(stream.slot, stream.start.to_u64()),
        Some(_) | None => Ok(()),
    }
}

/// Sends this number of keepalives.
fn reply(voice: &mut Voice, count: u64, now: u64) -> Result<(), LinkFault>
    requires { voice_stage voice.old ≢ voices.Closed }
    ensures ok { OnOk result (Sends voice.old voice.new (concat (spec.replies (voice_stage voice.old) count now))
        (voice_stage voice.old)) }
    ensures err { OnErr result (SendsFirst voice.old voice.new (spec.replies (voice_stage voice.old) count now)) }
    ensures memory { IfErr result (λ fault. fault ≡ OutOfMemory) }
{
    for _ in 0..count {
        voice.keepalive(now, false)?;
    }
    Ok(())
}

/// Closes the voice if the client has ended the connection, and answers CopyDone with CopyDone.
fn end(voice: &mut Voice, ended: Option<u8>) -> Result<(), LinkFault>
    requires { voice_stage voice.old ≢ voices.Closed }
    ensures ok { OnOk result (Sends voice.old voice.new (spec.closing (voice_stage voice.old) ended)
        (spec.ended_stage ended (voice_stage voice.old))) }
    ensures err { OnErr result (Closes voice.old voice.new) }
    ensures memory { IfErr result (λ fault. fault ≡ OutOfMemory) }
{
    match ended {
        None => Ok(()),
        Some(b'c') => voice.done(),
        Some(_) => {
            voice.close();
            Ok(())
        }
    }
}

/// Sends the answers to what was heard, if this slot streams from this position on. After an error, the first few
/// frames were sent, and the voice is closed.
pub(crate) fn answer_heard(
    voice: &mut Voice,
    started: Option<StreamStart>,
    heard: &Hearing,
    now: u64,
) -> Result<(), LinkFault>
    requires { voice_stage voice.old ≢ voices.Closed }
    ensures ok { OnOk result (Sends voice.old voice.new (concat (spec.frames_by (voice_checked voice.old)
        (voice_stage voice.old) started (heard_view heard.now) now))
        (spec.stage_by (voice_checked voice.old) (voice_stage voice.old) started (heard_view heard.now))) }
    ensures err { OnErr result (SendsFirst voice.old voice.new (spec.frames_by (voice_checked voice.old)
        (voice_stage voice.old) started (heard_view heard.now) now)) }
    ensures memory { IfErr result (λ fault. fault ≡ OutOfMemory) }
{
    open(voice, started)?;
    reply(voice, heard.replies, now)?;
    end(voice, heard.ended)?;
    Ok(())
}
