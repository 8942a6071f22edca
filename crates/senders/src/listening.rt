//! How connections are read and heard.

ghost use Rattle.std.specs.Prelude.{◌≡◌, ◌<◌, None, Some, false, length};
ghost use Rattle.copy_both.specs.Ears.{ear_started};
ghost use Rattle.senders.specs.Hearing.{HearsPiece};
ghost use Rattle.senders.specs.Listening.{BeginsAs, HasEnded, HasItsSlot, HasPermit, HasStarted, HearsAll, HearsNext, PermitsStart, SaysOfPiece, next_after, piece_of};

use crate::beginning::Beginning;
use crate::listener::{Listened, Listener};
use crate::listener_end::ListenerEnd;
use crate::next::Next;
use crate::source::Source;
use copy_both::{LinkFault, StreamStart};
use publisher_desk::{Permit, Publisher, Publishing, Viewer};
use std::sync::Wait;

/// Hears the piece under the lock. The connection has the slot of a stream that starts, and its permit is returned.
fn hear_piece<P: Publishing, R: Wait>(
    rt: &R,
    publisher: &Publisher<P>,
    viewer: &mut Viewer<P>,
    listener: &mut Listener,
) -> (Listened, Option<Permit>)
    requires { HasItsSlot viewer.old listener.old }
    ensures hears { HearsPiece P.checked viewer.old viewer.new (piece_of listener.old) listener.old.ear
        listener.new.ear result.0.heard }
    ensures says { SaysOfPiece P.checked viewer.old viewer.new (piece_of listener.old) listener.old listener.new
        result.0.heard }
    ensures room { length listener.new.piece.items ≡ length listener.old.piece.items }
    ensures permit { PermitsStart (ear_started listener.old.ear) (ear_started listener.new.ear) result.1 }
{
    match publisher.with_stream(rt, viewer, listener) {
        Some(listened) => listened,
        // (no more streams can be counted)
        None => {
            let listened = Listened {
                heard: Err(LinkFault::OutOfMemory),
                was_over: false,
            };
            (listened, None)
        }
    }
}

/// What follows from a piece.
fn next_of(listened: &Listened) -> Next
    ensures { result ≡ next_after listened.now }
{
    match listened.heard {
        Err(fault) => Next::Ends(ListenerEnd::Fault(fault)),
        Ok(heard) => match heard.ended {
            Some(kind) => Next::Ends(ListenerEnd::Frame(kind)),
            None => Next::GoesOn(listened.was_over),
        },
    }
}

/// Reads the next bytes of a connection and hears them. Returns the permit of a stream that starts.
fn hear_next<P: Publishing, S: Source, R: Wait>(
    rt: &R,
    publisher: &Publisher<P>,
    viewer: &mut Viewer<P>,
    listener: &mut Listener,
    reader: &mut S,
) -> (Next, Option<Permit>)
    requires room { 0 < length listener.old.piece.items }
    requires mine { HasItsSlot viewer.old listener.old }
    ensures hears { HearsNext P.checked viewer.old viewer.new (S.left reader.old) (S.left reader.new)
        (S.has_failed reader.new) (S.has_ended reader.new) listener.old listener.new result.0 }
    ensures permit { PermitsStart (ear_started listener.old.ear) (ear_started listener.new.ear) result.1 }
{
    match listener.pull(reader) {
        Err(_) => return (Next::Ends(ListenerEnd::SourceFailed), None),
        Ok(false) => return (Next::Ends(ListenerEnd::SourceEnded), None),
        Ok(true) => {}
    }
    let (listened, permit) = hear_piece(rt, publisher, viewer, listener);
    (next_of(&listened), permit)
}

/// The stream that was started.
fn stream_of(listener: &Listener) -> StreamStart
    requires { HasStarted listener.now }
    ensures { ear_started listener.now.ear ≡ Some result }
{
    let Some(started) = listener.started() else {
        unreachable!()
    };
    started
}

/// Hears a connection until its stream starts, or it ends.
pub(crate) fn begin<P: Publishing, S: Source, R: Wait>(
    rt: &R,
    publisher: &Publisher<P>,
    viewer: &mut Viewer<P>,
    listener: &mut Listener,
    reader: &mut S,
) -> Beginning
    requires room { 0 < length listener.old.piece.items }
    requires mine { HasItsSlot viewer.old listener.old }
    requires fresh { ear_started listener.old.ear ≡ None }
    ensures begins { BeginsAs P.checked viewer.old viewer.new (S.left reader.old) (S.left reader.new)
        (S.has_failed reader.new) (S.has_ended reader.new) listener.old listener.new result }
    ensures permit { HasPermit result }
{
    for _ in rt.forever() {
        let (next, permit) = hear_next(rt, publisher, viewer, listener, reader);
        match (permit, next) {
            (Some(permit), Next::GoesOn(_)) => {
                return Beginning::Started(stream_of(listener), permit);
            }
            (Some(permit), Next::Ends(why)) => {
                return Beginning::Ended(stream_of(listener), why, permit);
            }
            (None, Next::Ends(why)) => return Beginning::Refused(why),
            (None, Next::GoesOn(_)) => {}
        }
    }
    unreachable!()
}

/// Hears a connection whose stream has started to its end, and returns why it ended. If `stops`, it stops when it finds
/// that its sender had ended the connection, and returns `None`.
pub(crate) fn listen<P: Publishing, S: Source, R: Wait>(
    rt: &R,
    publisher: &Publisher<P>,
    viewer: &mut Viewer<P>,
    listener: &mut Listener,
    reader: &mut S,
    stops: bool,
) -> Option<ListenerEnd>
    requires room { 0 < length listener.old.piece.items }
    requires mine { HasItsSlot viewer.old listener.old }
    requires started { HasStarted listener.old }
    ensures hears { HearsAll P.checked viewer.old viewer.new (S.left reader.old) (S.left reader.new)
        (S.has_failed reader.new) (S.has_ended reader.new) listener.old listener.new result }
    ensures ends { stops ≡ false → HasEnded result }
{
    for _ in rt.forever() {
        let (next, permit) = hear_next(rt, publisher, viewer, listener, reader);
        match permit {
            None => {}
            Some(_permit) => unreachable!(),
        }
        match next {
            Next::Ends(why) => return Some(why),
            Next::GoesOn(was_over) => {
                if was_over && stops {
                    return None;
                }
            }
        }
    }
    unreachable!()
}
