//! Places in which clients are served, one after another.

ghost use Rattle.std.specs.Prelude.{◌≡◌, ◌++◌, [], IfOk, OnOk};
ghost use Rattle.cli.specs.Connections.{StayServed, WasServed};
ghost use Rattle.cli.specs.Connections as spec;

use crate::publish::hall::Hall;
use crate::publish::keepalives::keep_alive;
use crate::publish::notices::{tell_busy, tell_end, tell_start};
use crate::publish::streams::{PatientRead, PatientWrite, Writes};
use senders::{FromRead, OpenGate, Publisher, Publishing, Served, ToWrite, serve};
use std::alloc::{AllocError, Global};
use std::io::ErrorKind;
use std::net::{SocketAddr, TcpListener, TcpStream};
use std::sync::Wait;
use std::thread::{Threads, join_mut};
use std::time::{Clock, Duration};
use std::{io, thread};

/// How many places there are besides one for each subscription. While all are taken, a silent connection that has not
/// started a stream is ended, so that clients that request nothing keep nobody out.
const SPARE: usize = 64;

/// How many milliseconds a place waits if no connection can be accepted, such as while all file descriptors are in use.
const PAUSE: u64 = 100;

/// A place for clients, with the results of the connections that were served there.
#[derive(Drop)]
pub(crate) struct Berth<P: Publishing> {
    pub(crate) served: Vec<Served<P>>,
}

/// The places for the clients of this many subscriptions.
#[tactic(auto, using(crate::proofs::Berths::served_more))]
pub(crate) fn free_berths<P: Publishing>(
    alloc: Global,
    subscriptions: usize,
) -> Result<Vec<Berth<P>>, AllocError>
    ensures { IfOk result (λ berths. spec.served_at berths.items ≡ []) }
{
    let count = subscriptions.saturating_add(SPARE);
    let mut berths = Vec::new(alloc);
    for _ in 0..count {
        berths.push(Berth {
            served: Vec::new(alloc),
        })?;
    }
    Ok(berths)
}

/// Adds the results of the connections of a place.
fn add_served<P: Publishing>(all: &mut Vec<Served<P>>, berth: Berth<P>) -> Result<(), AllocError>
    ensures { OnOk result (all.new.items ≡ all.old.items ++ berth.served.items) }
{
    for served in berth.served {
        all.push(served)?;
    }
    Ok(())
}

/// The results of the connections of all places.
pub(crate) fn served_at<P: Publishing>(
    alloc: Global,
    berths: Vec<Berth<P>>,
) -> Result<Vec<Served<P>>, AllocError>
    ensures { IfOk result (λ served. served.items ≡ spec.served_at berths.items) }
{
    let mut all = Vec::new(alloc);
    for berth in berths {
        add_served(&mut all, berth)?;
    }
    Ok(all)
}

/// Serves a connection to its end.
fn serve_stream<P: Publishing + Sync, R: Threads + Wait + Clock + Sync>(
    rt: &R,
    publisher: &Publisher<P>,
    hall: &Hall,
    stream: &TcpStream,
) -> Served<P>
    ensures { WasServed P.checked result }
{
    let writes = Writes::new();
    let _ = stream.set_nodelay(true);
    let mut reader = FromRead::new(PatientRead::new(rt, hall, stream, &writes));
    let mut writer = ToWrite::new(PatientWrite::new(hall, stream, &writes));
    serve(rt, publisher, &mut reader, &mut writer, &OpenGate)
}

/// The connection that was accepted, with its client's address. If none can be accepted now, waits a while, and returns
/// none.
pub(crate) fn accepted_or_waited<R: Clock + Eprint>(
    rt: &R,
    alloc: Global,
    hall: &Hall,
    accepted: io::Result<(TcpStream, SocketAddr)>,
) -> Option<(TcpStream, SocketAddr)> {
    match accepted {
        Ok(accepted) => Some(accepted),
        Err(error) => {
            if error.kind() != ErrorKind::ConnectionAborted {
                tell_busy(rt, alloc, hall, &error);
                thread::sleep(rt, Duration::from_millis(PAUSE));
            }
            None
        }
    }
}

/// Waits for the next connection, and returns it with its client's address; none if the hall is closed, or no
/// connection can be accepted now.
fn next_stream<R: Clock + Eprint>(
    rt: &R,
    alloc: Global,
    hall: &Hall,
    listener: &TcpListener,
) -> Option<(TcpStream, SocketAddr)> {
    hall.enter();
    if hall.is_closed() {
        hall.leave();
        return None;
    }
    let accepted = listener.accept();
    hall.leave();
    accepted_or_waited(rt, alloc, hall, accepted)
}

/// Serves one client after another, until the hall is closed.
#[tactic(auto, using(crate::proofs::Berths::stay_pushed))]
fn attend<P: Publishing + Sync, R: Threads + Wait + Clock + Eprint + Sync>(
    rt: &R,
    publisher: &Publisher<P>,
    hall: &Hall,
    listener: &TcpListener,
    berth: &mut Berth<P>,
)
    ensures { StayServed P.checked berth.old.served.items berth.new.served.items }
{
    for _ in rt.forever() {
        if hall.is_closed() {
            return;
        }
        if berth.served.reserve(1).is_err() {
            thread::sleep(rt, Duration::from_millis(PAUSE));
            continue;
        }
        let alloc = publisher.allocator();
        let Some((stream, client)) = next_stream(rt, alloc, hall, listener) else {
            continue;
        };
        if hall.is_closed() {
            return;
        }
        tell_start(rt, alloc, hall, client);
        let served = serve_stream(rt, publisher, hall, &stream);
        tell_end(rt, publisher, hall, client, &served);
        berth.served.push_reserved(served);
    }
}

/// Serves clients in all places at the same time, until the hall is closed and all connections have ended.
fn attend_berths<P: Publishing + Sync, R: Threads + Wait + Clock + Eprint + Sync>(
    rt: &R,
    publisher: &Publisher<P>,
    hall: &Hall,
    listener: &TcpListener,
    berths: &mut [Berth<P>],
)
    ensures { StayServed P.checked (spec.served_at berths.old) (spec.served_at berths.new) }
{
    if berths.is_empty() {
        return;
    }
    let count = berths.len();
    thread::for_each_mut(
        rt,
        berths,
        count,
        &|_, berth: &mut Berth<P>|
            ensures { StayServed P.checked berth.old.served.items berth.new.served.items }
        { attend(rt, publisher, hall, listener, berth) },
    );
}

/// Serves clients in all places, and sends them keepalives, until the hall is closed and all connections have ended.
pub(crate) fn attend_all<P: Publishing + Sync, R: Threads + Wait + Clock + Eprint + Sync>(
    rt: &R,
    publisher: &Publisher<P>,
    hall: &Hall,
    listener: &TcpListener,
    berths: &mut [Berth<P>],
)
    ensures { StayServed P.checked (spec.served_at berths.old) (spec.served_at berths.new) }
{
    join_mut(
        rt,
        &mut || keep_alive(rt, publisher, hall),
        &mut ||
            ensures { StayServed P.checked (spec.served_at berths.entry.now) (spec.served_at berths.exit.now) }
        { attend_berths(rt, publisher, hall, listener, berths) },
    );
}
