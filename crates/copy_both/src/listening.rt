//! Pieces of what a client sends, heard frame by frame.

ghost use Rattle.std.specs.Prelude.{◌≡◌, ◌+◌, ◌<◌, ◌^◌, length, IfOk, IfErr, OnOk, None};
ghost use Rattle.filter_tree.specs.Memory.{Answers};
ghost use Rattle.copy_both.specs.Ears.{IsAnsweredBy};
ghost use Rattle.copy_both.specs.Hearing.{answer_of};
ghost use Rattle.copy_both.specs.Listening.{silence, held_frames, resting, fed, piece_heard, FramesHeard, PieceLeaves};
ghost use Rattle.copy_both.specs.Sessions.{served_by, heard_view, hearing_view, reported_result, KeepsRest};
ghost use Rattle.copy_both.specs.Voices.{reported_fault};

use crate::hearing::Hearing;
use crate::link_fault::LinkFault;
use crate::session::Session;
use copy_frames::{Deframer, FrameFault};
use tables_log::{Book, Lsn};

/// Hears the frames that are held, up to a fault or an end.
fn hear_frames(
    frames: &mut Deframer,
    session: &mut Session,
    book: &mut Book,
    hearing: &mut Hearing,
) -> Result<(), LinkFault>
    requires going { hearing.old.ended ≡ None }
    requires counted { hearing.old.replies + length frames.old.bytes < 2 ^ 63 }
    ensures kept { KeepsRest session.old session.new book.old book.new }
    ensures heard { FramesHeard (served_by session.old book.old) (hearing_view session.old hearing.old book.old)
        (hearing_view session.new hearing.new book.new) (held_frames frames.old) result }
    ensures rest { OnOk result (hearing.new.ended ≡ None → frames.new ≡ resting frames.old) }
{
    while hearing.ended.is_none() {
        let Some(frame) = frames.next()? else {
            return Ok(());
        };
        session.hear(&frame, book, hearing)?;
    }
    Ok(())
}

/// Hears a piece, after what is held.
pub(crate) fn hear_piece(
    frames: &mut Deframer,
    session: &mut Session,
    piece: &[u8],
    book: &mut Book,
    sent: Lsn,
) -> Result<Hearing, LinkFault>
    requires { frames.old.fault ≡ None }
    ensures answer { Answers (λ heard. heard) reported_fault
        (answer_of (piece_heard session.old book.old frames.old piece.now sent)) (reported_result result) }
    ensures exact { IfOk result (λ hearing.
        heard_view hearing ≡ (piece_heard session.old book.old frames.old piece.now sent).heard) }
    ensures left { PieceLeaves (reported_result result) frames.old piece.now sent
        session.old session.new book.old book.new }
    ensures refused { IfErr result (λ fault.
        IsAnsweredBy fault session.old.response.items session.new.response.items) }
    ensures quiet { OnOk result (session.new.response.items ≡ session.old.response.items) }
    ensures rest { IfOk result (λ hearing.
        hearing.ended ≡ None → frames.new ≡ resting (fed frames.old piece.now)) }
{
    let fed = frames.feed(piece);
    if let Err(FrameFault::OutOfMemory) = fed {
        return Err(LinkFault::OutOfMemory);
    }
    let mut hearing = Hearing {
        started: None,
        replies: 0,
        ended: None,
        sent,
    };
    hear_frames(frames, session, book, &mut hearing)?;
    if hearing.ended.is_none() {
        fed?;
    }
    Ok(hearing)
}
