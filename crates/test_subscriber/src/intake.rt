//! The frames of bytes that come in pieces.

ghost use Rattle.std.specs.Prelude.{◌≡◌, ◌++◌, IfOk, IfErr, OnOk, None, Err};
ghost use Rattle.copy_frames.specs.Frames.{cut};
ghost use Rattle.test_subscriber.specs.Copies.{sub_fault};
ghost use Rattle.test_subscriber.specs.Feeding.{StopsFor, hear_while};
ghost use Rattle.test_subscriber.specs.Frames.{hear_cut};
ghost use Rattle.test_subscriber.specs.Intake.{HearsHeld, HearsPiece, TakesPiece};
ghost use Rattle.test_subscriber.specs.Machine.{stopped};
ghost use Rattle.test_subscriber.specs.Views.{machine_view};
ghost use Rattle.test_subscriber.specs.declared.fault.SubFault.TheVariants.{Closed, OutOfMemory};
ghost use Rattle.test_subscriber.specs.declared.phase.Phase.TheVariants.{Shut};

use crate::fault::SubFault;
use crate::phase::Phase;
use crate::replica::Replica;
use copy_frames::{Deframer, FrameFault};

/// Accepts a piece. Returns the fault of a length, which comes after the frames before it.
fn take_piece(inbox: &mut Deframer, piece: &[u8]) -> Result<Option<FrameFault>, SubFault>
    requires { inbox.old.fault ≡ None }
    ensures ok { IfOk result (TakesPiece inbox.old piece.now inbox.new) }
    ensures err { IfErr result (λ e. e ≡ OutOfMemory) }
{
    match inbox.feed(piece) {
        Ok(()) => Ok(None),
        Err(FrameFault::BadLength) => Ok(Some(FrameFault::BadLength)),
        Err(FrameFault::FrameTooLong) => Ok(Some(FrameFault::FrameTooLong)),
        Err(FrameFault::OutOfMemory) => Err(SubFault::OutOfMemory),
    }
}

/// Hears each frame that is held whole.
fn hear_held(replica: &mut Replica, inbox: &mut Deframer) -> Result<(), SubFault>
    ensures ok { OnOk result (HearsHeld (cut inbox.old.limit inbox.old.bytes)
        (hear_cut (cut inbox.old.limit inbox.old.bytes) (machine_view replica.old)) inbox.old inbox.new
        (machine_view replica.new)) }
    ensures stops { IfErr result (λ e. StopsFor (sub_fault e)
        (hear_cut (cut inbox.old.limit inbox.old.bytes) (machine_view replica.old))
        (cut inbox.old.limit inbox.old.bytes) (machine_view replica.old) (stopped (machine_view replica.new))) }
{
    while let Some(frame) = inbox.next()? {
        replica.hear_frame(&frame)?;
    }
    Ok(())
}

/// Accepts a piece if there is a connection, and hears each frame that is then whole.
pub(crate) fn hear_piece(
    replica: &mut Replica,
    inbox: &mut Deframer,
    piece: &[u8],
) -> Result<(), SubFault>
    requires { inbox.old.fault ≡ None }
    ensures ok { OnOk result (HearsPiece (cut inbox.old.limit (inbox.old.bytes ++ piece.now))
        (hear_while replica.old.phase (cut inbox.old.limit (inbox.old.bytes ++ piece.now)) (machine_view replica.old))
        inbox.old inbox.new (machine_view replica.new)) }
    ensures stops { IfErr result (λ e. StopsFor (sub_fault e)
        (hear_while replica.old.phase (cut inbox.old.limit (inbox.old.bytes ++ piece.now)) (machine_view replica.old))
        (cut inbox.old.limit (inbox.old.bytes ++ piece.now)) (machine_view replica.old)
        (stopped (machine_view replica.new))) }
    ensures closed { replica.old.phase ≡ Shut → result ≡ Err Closed }
{
    if replica.phase == Phase::Shut {
        return Err(SubFault::Closed);
    }
    let fault = take_piece(inbox, piece)?;
    hear_held(replica, inbox)?;
    match fault {
        None => Ok(()),
        Some(fault) => Err(SubFault::Frame(fault)),
    }
}
