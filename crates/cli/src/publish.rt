//! `publish`: commands are read and committed as they arrive, while the subscribers of a sharding are served over
//! sockets. A `Door` is a listening socket: one is for clients, which receive streams, and another may be for callers,
//! which send commands. A `Berth` is a place for clients, whose thread serves one client after another. The `Hall` is
//! what all places share: how many of them wait for a client, whether clients are still let in, and the timeouts.

ghost use Rattle.std.specs.Prelude.{◌≡◌, ◌⊎◌, None, IfErr, OnOk};
ghost use Rattle.std.specs.Arc.{arc_value};
ghost use Rattle.commands.specs.Output.{EndsByFault};
ghost use Rattle.commands.specs.Simulate.Limits.{IsLogLimit};
ghost use Rattle.shard_checker.specs.CheckedView.{checked_view};
ghost use Rattle.cli.specs.Connections.{StayServed, served_at};
ghost use Rattle.cli.specs.Incoming.{coming};
ghost use Rattle.cli.specs.Published.{Serves, callers_at};
ghost use Rattle.cli.specs.Requests.{AcceptsInput, AnswersReader};
ghost use Rattle.cli.specs.Talks.{HasAnswered, IsCutOff};
ghost use Rattle.cli.specs.declared.requests.Request.TheVariants.{Publish};

mod callers;
mod closing;
mod door;
mod hall;
mod incoming;
mod keepalives;
pub(crate) mod notices;
mod objects;
mod parting;
mod parts;
mod places;
mod sent;
mod session;
mod streams;
mod telling;
mod view;

use crate::publish::callers::answer_callers;
use crate::publish::closing::close_session;
use crate::publish::door::{Door, Doors, open_doors};
use crate::publish::hall::Hall;
use crate::publish::incoming::LineReader;
use crate::publish::parting::see_off;
use crate::publish::parts::read_part;
use crate::publish::places::{Berth, attend_all, free_berths, served_at};
use crate::publish::session::answer_lines;
use crate::requests::Feed;
use commands::{Failure, Reader, Status, Writer, lines_of, verdict_of, write_refused};
use pub_reader::read_catalog;
use senders::{Opening, Publisher, Publishing, Seat};
use shard_checker::Checked;
use std::alloc::Global;
use std::marker::Brand;
use std::net::{Net, TcpListener, TcpStream};
use std::rt::Files;
use std::sync::{Arc, Wait};
use std::thread::{Threads, join_mut};
use std::time::Clock;

/// Answers the lines of the reader.
fn answer_input<'a, P: Publishing, I: Reader, W: Writer, R: Wait + Clock>(
    rt: &R,
    publisher: &Publisher<P>,
    seat: &mut Seat<P>,
    lines: &mut LineReader<I>,
    writer: &mut W,
) -> Result<(), Failure<'a>>
    ensures ok { OnOk result (HasAnswered P.checked P.limit None I.may_fail (coming I.remaining lines.old)
        (coming I.remaining lines.new) (W.contents writer.old) (W.contents writer.new) seat.old seat.new) }
    ensures err { IfErr result (IsCutOff P.checked P.limit None (coming I.remaining lines.old)
        (coming I.remaining lines.new) (W.contents writer.old) (W.contents writer.new) seat.old seat.new) }
{
    match answer_lines(rt, publisher.allocator(), publisher, seat, lines, writer) {
        Ok(_) => Ok(()),
        Err(failure) => Err(failure),
    }
}

/// Answers the lines of callers if commands come from callers, and otherwise those of the reader, once a place waits
/// for clients.
///
/// # Errors
///
/// `OutOfMemory` also if none does, since no other thread can be started.
#[tactic(auto, using(crate::proofs::Talking::unbegun))]
fn answer_attended<'a, P: Publishing, I: Reader, W: Writer, R: Wait + Clock + Eprint>(
    rt: &R,
    publisher: &Publisher<P>,
    hall: &Hall,
    callers: &Option<Door>,
    seat: &mut Seat<P>,
    lines: &mut LineReader<I>,
    writer: &mut W,
) -> Result<(), Failure<'a>>
    ensures ok { OnOk result (HasAnswered P.checked P.limit (callers_at callers.now) I.may_fail
        (coming I.remaining lines.old) (coming I.remaining lines.new) (W.contents writer.old) (W.contents writer.new)
        seat.old seat.new) }
    ensures err { IfErr result (IsCutOff P.checked P.limit (callers_at callers.now) (coming I.remaining lines.old)
        (coming I.remaining lines.new) (W.contents writer.old) (W.contents writer.new) seat.old seat.new) }
{
    if !hall.is_attended(rt) {
        return Err(Failure::OutOfMemory);
    }
    match callers {
        Some(door) => answer_callers(rt, publisher, hall, seat, &door.listener),
        None => answer_input(rt, publisher, seat, lines, writer),
    }
}

/// Answers the lines of the session, and disconnects the clients when there are no more.
fn conduct<
    'a,
    P: Publishing,
    I: Reader,
    W: Writer,
    R: Wait + Clock + Eprint + Net<Listener = TcpListener, Stream = TcpStream>,
>(
    rt: &R,
    publisher: &Publisher<P>,
    hall: &Hall,
    doors: &Doors,
    seat: &mut Seat<P>,
    lines: &mut LineReader<I>,
    writer: &mut W,
) -> Result<(), Failure<'a>>
    ensures ok { OnOk result (HasAnswered P.checked P.limit (callers_at doors.now.callers) I.may_fail
        (coming I.remaining lines.old) (coming I.remaining lines.new) (W.contents writer.old) (W.contents writer.new)
        seat.old seat.new) }
    ensures err { IfErr result (IsCutOff P.checked P.limit (callers_at doors.now.callers)
        (coming I.remaining lines.old) (coming I.remaining lines.new) (W.contents writer.old) (W.contents writer.new)
        seat.old seat.new) }
{
    let answered = answer_attended(rt, publisher, hall, &doors.callers, seat, lines, writer);
    publisher.finish(rt);
    hall.close(rt, doors.clients.port);
    see_off(rt, publisher, hall);
    answered
}

/// Answers the lines of the session in this thread, while clients are served in others.
fn run_both<
    'a,
    'b,
    P: Publishing + Sync,
    I: Reader,
    W: Writer,
    R: Threads + Wait + Clock + Eprint + Net<Listener = TcpListener, Stream = TcpStream> + Sync,
>(
    rt: &'a R,
    publisher: &'a Publisher<P>,
    feed: Feed<'_>,
    doors: &'a Doors,
    berths: &'a mut [Berth<P>],
    seat: &'a mut Seat<P>,
    lines: &'a mut LineReader<I>,
    writer: &'a mut W,
) -> Result<(), Failure<'b>>
    ensures ok { OnOk result (HasAnswered P.checked P.limit (callers_at doors.now.callers) I.may_fail
        (coming I.remaining lines.old) (coming I.remaining lines.new) (W.contents writer.old) (W.contents writer.new)
        seat.old seat.new) }
    ensures err { IfErr result (IsCutOff P.checked P.limit (callers_at doors.now.callers)
        (coming I.remaining lines.old) (coming I.remaining lines.new) (W.contents writer.old) (W.contents writer.new)
        seat.old seat.new) }
    ensures served { StayServed P.checked (served_at berths.old) (served_at berths.new) }
{
    let hall = Hall::new(feed);
    let shared = &hall;
    let listener = &doors.clients.listener;
    let ((), answered) = join_mut(
        rt,
        &mut ||
            ensures { StayServed P.checked (served_at berths.entry.now) (served_at berths.exit.now) }
        { attend_all(rt, publisher, shared, listener, berths) },
        &mut || -> Result<(), Failure<'_>>
            ensures ok { OnOk result (HasAnswered P.checked P.limit (callers_at doors.entry.now.callers) I.may_fail
                (coming I.remaining lines.entry.now) (coming I.remaining lines.exit.now) (W.contents writer.entry.now)
                (W.contents writer.exit.now) seat.entry.now seat.exit.now) }
            ensures err { IfErr result (IsCutOff P.checked P.limit (callers_at doors.entry.now.callers)
                (coming I.remaining lines.entry.now) (coming I.remaining lines.exit.now) (W.contents writer.entry.now)
                (W.contents writer.exit.now) seat.entry.now seat.exit.now) }
        { conduct(rt, publisher, shared, doors, seat, lines, writer) },
    );
    answered
}

/// Serves the clients of a publisher while a session makes commits, and closes the publisher when all have ended.
fn publish<
    'a,
    P: Publishing + Sync,
    I: Reader,
    W: Writer,
    R: Threads
        + Wait
        + Clock
        + Eprint
        + Files
        + Net<Listener = TcpListener, Stream = TcpStream>
        + Sync,
>(
    rt: &R,
    alloc: Global,
    opening: Opening,
    checked: Arc<Checked, Global>,
    feed: Feed<'_>,
    lines: &mut LineReader<I>,
    writer: &mut W,
) -> Result<Status, Failure<'a>>
    requires name { opening.name ≡ P.name }
    requires parts { opening.parts ≡ P.parts }
    requires seats { opening.parts ≡ 1000 }
    requires history { opening.history ≡ P.history }
    requires slots { opening.slots ≡ P.slots }
    requires checked { checked_view (arc_value checked) ≡ P.checked }
    requires limit { feed.limit ≡ P.limit }
    requires within { IsLogLimit feed.limit }
    ensures { Serves feed.entry P.checked (coming I.remaining lines.old) (coming I.remaining lines.new) I.may_fail
        (W.contents writer.old) (W.contents writer.new) result }
{
    let mut berths = free_berths(alloc, checked.catalog().subscriptions.len())?;
    let (publisher, mut seats) = Publisher::<P>::new(alloc, opening, checked, feed.limit)?;
    let Some(mut seat) = seats.seat() else {
        unreachable!()
    };
    let doors = open_doors(rt, alloc, feed, writer)?;
    let answered = run_both(
        rt,
        &publisher,
        feed,
        &doors,
        berths.as_mut_slice(),
        &mut seat,
        lines,
        writer,
    );
    answered?;
    let served = served_at(alloc, berths)?;
    close_session(alloc, publisher, seats, seat, served, writer)
}

/// Publishes what a reader gives: a catalog, a line `%%`, the texts of the certificates of its tables, one per line, a
/// line `%%`, and then commands, one step per line, each of which is executed and answered when it has arrived. Sockets
/// are used only if the sharding is accepted.
#[tactic(auto, using(crate::proofs::Causes::quiet))]
pub(crate) fn publish_input<
    'a,
    I: Reader + Drop,
    W: Writer,
    R: Threads
        + Wait
        + Clock
        + Eprint
        + Files
        + Net<Listener = TcpListener, Stream = TcpStream>
        + Sync,
>(rt: &R, alloc: Global, feed: Feed<'_>, input: I, writer: &mut W) -> Result<Status, Failure<'a>>
    requires { IsLogLimit feed.limit }
    ensures ends { AnswersReader (Publish feed.entry) I.may_fail (I.remaining input) (W.contents writer.old)
        (W.contents writer.new) result }
    ensures failed { AcceptsInput (Publish feed.entry) (I.remaining input) ⊎ EndsByFault (W.has_failed writer.old)
        (W.has_failed writer.new) result }
{
    let Ok(mut lines) = LineReader::new(alloc, input) else {
        return Err(Failure::OutOfMemory);
    };
    let text = read_part(rt, alloc, &mut lines)?;
    let certificates = read_part(rt, alloc, &mut lines)?;
    let catalog = read_catalog(alloc, text.as_str())?;
    let texts = lines_of(alloc, certificates.as_str())?;
    match verdict_of(alloc, catalog, texts.as_slice())? {
        Ok(checked) => {
            let shared = Arc::new(alloc, checked)?;
            let opening = Opening::new(alloc)?;
            publish::<Brand, _, _, _>(rt, alloc, opening, shared, feed, &mut lines, writer)
        }
        Err(refusal) => {
            let catalog = read_catalog(alloc, text.as_str())?;
            write_refused(alloc, &catalog, refusal, writer)
        }
    }
}
