//! How `serve` ends.

ghost use Rattle.std.specs.Prelude.{◌≡◌, All, map, IfErr, IfOk};
ghost use Rattle.std.specs.Option.{option_map};
ghost use Rattle.std.specs.String.{string_bytes};
ghost use Rattle.commands.specs.declared.failure.Status.TheVariants.{Done};
ghost use Rattle.cli.specs.Connections.{HadMemory};
ghost use Rattle.cli.specs.Telling as spec;
ghost use Rattle.cli.specs.Telling.{Closes, IsFor, IsLast, IsLastOf, IsOver, IsStop, WritesLine, ServiceOf, closed_line};
ghost use Rattle.cli.specs.declared.connections.ConnectionPlace.TheVariants.{Ended};

use crate::connections::ConnectionPlace;
use crate::unserved::tell_unserved;
use commands::{Failure, Status, Writer, write_line};
use copy_both::LinkFault;
use senders::{CloseError, End, Publisher, Publishing, Seat, Seats, Served, close};
use std::alloc::Global;
use std::sync::Arc;

/// The results of the connections.
///
/// # Errors
///
/// `Output` if the listening socket failed before all connections were accepted; `OutOfMemory`, also if a connection
/// was refused memory or a thread.
pub fn served_in<'a, P: Publishing>(
    alloc: Global,
    places: Vec<ConnectionPlace<P>>,
) -> Result<Vec<Served<P>>, Failure<'a>>
    ensures all { IfOk result (λ served. map Ended served.items ≡ places.items) }
    ensures memory { IfOk result (λ served. All HadMemory served.items) }
    ensures stopped { IfErr result IsStop }
{
    let mut all = Vec::with_capacity(alloc, places.len())?;
    for place in places {
        let ConnectionPlace::Ended(served) = place else {
            return Err(Failure::Output);
        };
        if served.end() == End::Link(LinkFault::OutOfMemory) {
            return Err(Failure::OutOfMemory);
        }
        all.push(served)?;
    }
    Ok(all)
}

/// The name of an error; none if it is out of memory.
pub(crate) fn name_of(error: CloseError) -> Option<&'static str>
    ensures { option_map (λ name. name.now) result ≡ spec.name_of error }
{
    match error {
        CloseError::CountDiffers => Some("CountDiffers"),
        CloseError::ReceiptMissing => Some("ReceiptMissing"),
        CloseError::ReadingWrong => Some("ReadingWrong"),
        CloseError::TakenDiffers => Some("TakenDiffers"),
        CloseError::ConnectionMissing => Some("ConnectionMissing"),
        CloseError::StartLate => Some("StartLate"),
        CloseError::SlotDiffers => Some("SlotDiffers"),
        CloseError::OutOfMemory => None,
    }
}

/// Writes a line, and returns this status.
pub(crate) fn say<'a, W: Writer>(
    mut line: String,
    status: Status,
    writer: &mut W,
) -> Result<Status, Failure<'a>>
    ensures { WritesLine (string_bytes line) status (W.contents writer.old) (W.contents writer.new) result }
{
    match write_line(&mut line, writer) {
        Ok(()) => Ok(status),
        Err(failure) => Err(failure),
    }
}

/// Writes the numbers of commits and connections.
fn say_closed<'a, W: Writer>(
    alloc: Global,
    commits: u32,
    connections: usize,
    writer: &mut W,
) -> Result<Status, Failure<'a>>
    ensures { (service : ServiceOf) → IsLast service (closed_line commits connections) Done
        → Closes service (W.contents writer.old) (W.contents writer.new) result }
{
    let line = format!(in alloc; "closed {commits} {connections}")?;
    say(line, Status::Done, writer)
}

/// Writes why a publisher cannot be closed.
fn say_error<'a, W: Writer>(
    alloc: Global,
    error: CloseError,
    writer: &mut W,
) -> Result<Status, Failure<'a>>
    ensures { (service : ServiceOf) → IsLastOf service error
        → Closes service (W.contents writer.old) (W.contents writer.new) result }
{
    let name = name_of(error).ok_or(Failure::OutOfMemory)?;
    let line = format!(in alloc; "close {name}")?;
    say(line, Status::Refused, writer)
}

/// Closes a publisher of which only this seat was handed out, and writes a line with the numbers of commits and
/// connections, or why it cannot be closed. Before that, standard error reports the subscriptions that were not served
/// to the end of the log.
pub fn close_and_tell<'a, P: Publishing, W: Writer, R: Eprint>(
    rt: &R,
    alloc: Global,
    publisher: Publisher<P>,
    mut rest: Seats<P>,
    seat: Seat<P>,
    served: Vec<Served<P>>,
    writer: &mut W,
) -> Result<Status, Failure<'a>>
    requires parts { P.parts ≡ 1000 }
    requires rest { rest ≡ 999 }
    ensures { (service : ServiceOf) → IsFor service P.checked P.limit → IsOver service seat served.items
        → Closes service (W.contents writer.old) (W.contents writer.new) result }
{
    let seats = vec![in alloc; seat]?;
    let checked = Arc::try_clone(publisher.checked())?;
    let mut closing = publisher.into_closing();
    match close(&mut closing, &mut rest, seats, served) {
        Ok(closed) => {
            tell_unserved(rt, alloc, checked.catalog(), &closed);
            say_closed(alloc, closed.book.log_len(), closed.served.len(), writer)
        }
        Err(error) => say_error(alloc, error, writer),
    }
}
