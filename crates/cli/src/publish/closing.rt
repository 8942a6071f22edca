//! How `publish` ends.

ghost use Rattle.std.specs.Prelude.{ℕ, All, List, ◌≡◌};
ghost use Rattle.commands.specs.declared.failure.Status.TheVariants.{Done};
ghost use Rattle.publisher_desk.specs.Seats.{SeatOf};
ghost use Rattle.shard_checker.specs.CheckedView.{CheckedOf};
ghost use Rattle.cli.specs.Connections.{WasServed};
ghost use Rattle.cli.specs.Published.{Closes, IsLastLine, IsLastLineOf};
ghost use Rattle.cli.specs.Telling.{closed_line};

use crate::closing::{name_of, say};
use commands::{Failure, Status, Writer};
use senders::{CloseError, Publisher, Publishing, Seat, Seats, Served, close};
use std::alloc::Global;

/// Writes the numbers of commits and connections.
fn tell_closed<'a, W: Writer>(
    alloc: Global,
    commits: u32,
    connections: usize,
    writer: &mut W,
) -> Result<Status, Failure<'a>>
    ensures { (checked : CheckedOf) (limit : ℕ) (seat : SeatOf)
        → IsLastLine checked limit seat (closed_line commits connections) Done
        → Closes checked limit seat (W.contents writer.old) (W.contents writer.new) result }
{
    let line = format!(in alloc; "closed {commits} {connections}")?;
    say(line, Status::Done, writer)
}

/// Writes why a publisher cannot be closed.
fn tell_error<'a, W: Writer>(
    alloc: Global,
    error: CloseError,
    writer: &mut W,
) -> Result<Status, Failure<'a>>
    ensures { (checked : CheckedOf) (limit : ℕ) (seat : SeatOf) → IsLastLineOf checked limit seat error
        → Closes checked limit seat (W.contents writer.old) (W.contents writer.new) result }
{
    let name = name_of(error).ok_or(Failure::OutOfMemory)?;
    let line = format!(in alloc; "close {name}")?;
    say(line, Status::Refused, writer)
}

/// Closes a publisher of which only this seat was handed out, and writes a line with the numbers of commits and
/// connections, or why it cannot be closed.
pub(crate) fn close_session<'a, P: Publishing, W: Writer>(
    alloc: Global,
    publisher: Publisher<P>,
    mut rest: Seats<P>,
    seat: Seat<P>,
    served: Vec<Served<P>>,
    writer: &mut W,
) -> Result<Status, Failure<'a>>
    requires parts { P.parts ≡ 1000 }
    requires rest { rest ≡ 999 }
    requires served { All (WasServed P.checked) served.items }
    ensures { Closes P.checked P.limit seat (W.contents writer.old) (W.contents writer.new) result }
{
    let seats = vec![in alloc; seat]?;
    let mut closing = publisher.into_closing();
    match close(&mut closing, &mut rest, seats, served) {
        Ok(closed) => tell_closed(alloc, closed.book.log_len(), closed.served.len(), writer),
        Err(error) => tell_error(alloc, error, writer),
    }
}
