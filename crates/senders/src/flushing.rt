//! How the output of a voice is written.

ghost use Rattle.std.specs.Prelude.{◌≡◌, [], MatchResult, OnOk, true};
ghost use Rattle.copy_both.specs.Voices.{voice_output};
ghost use Rattle.senders.specs.Flushing.{Flushes};

use crate::failed::Failed;
use crate::sink::Sink;
use copy_both::Voice;
use publisher_desk::Permit;

/// Writes everything that waits, in as many pushes as the sink needs.
///
/// # Errors
///
/// `Failed` if the sink fails; what it did not take still waits.
pub(crate) fn flush<W: Sink>(
    voice: &mut Voice,
    writer: &mut W,
    permit: &Permit,
) -> Result<(), Failed>
    ensures flushes { Flushes (W.taken writer.old) (W.taken writer.new) voice.old voice.new }
    ensures all { OnOk result (voice_output voice.new ≡ []) }
    ensures failed { MatchResult result (λ done. W.has_failed writer.new ≡ W.has_failed writer.old)
        (λ failed. W.has_failed writer.new ≡ true) }
    ensures refused { W.has_refused writer.new ≡ W.has_refused writer.old }
{
    while !voice.output().is_empty() {
        let count = writer.push(voice.output(), permit)?;
        voice.passed(count);
    }
    Ok(())
}
