//! The connections that are accepted, each of which is served as soon as it is accepted.

ghost use Rattle.std.specs.Prelude.{◌≡◌, All, length, IfOk};
ghost use Rattle.cli.specs.Connections.{IsFilled, WasServed};

use senders::{FromRead, OpenGate, Publisher, Publishing, Served, ToWrite, serve};
use std::alloc::{AllocError, Global};
use std::io::ErrorKind;
use std::net::{TcpListener, TcpStream};
use std::sync::Wait;
use std::thread;
use std::thread::Threads;
use std::time::Clock;

/// A place for one connection.
#[derive(Drop)]
pub enum ConnectionPlace<P: Publishing> {
    /// No connection has ended here yet.
    Open,
    /// The result of the connection that was served here.
    Ended(Served<P>),
    /// The listening socket failed before a connection came.
    Failed,
}

/// This number of places for connections.
pub fn open_places<P: Publishing>(
    alloc: Global,
    count: usize,
) -> Result<Vec<ConnectionPlace<P>>, AllocError>
    ensures { IfOk result (λ places. length places.items ≡ count) }
{
    let mut places = Vec::with_capacity(alloc, count)?;
    for _ in 0..count {
        places.push(ConnectionPlace::Open)?;
    }
    Ok(places)
}

/// The next connection; none if the listening socket fails. One that its client gave up before it was accepted does not
/// count.
fn next_connection(listener: &TcpListener) -> Option<TcpStream> {
    for _ in 0..u64::MAX {
        match listener.accept() {
            Ok((stream, _)) => return Some(stream),
            Err(error) if error.kind() == ErrorKind::ConnectionAborted => {}
            Err(_) => return None,
        }
    }
    None
}

/// Serves a connection to its end. What is written is sent at once, and does not wait for more.
fn serve_stream<P: Publishing + Sync, R: Threads + Wait + Clock + Sync>(
    rt: &R,
    publisher: &Publisher<P>,
    stream: &TcpStream,
) -> Served<P>
    ensures { WasServed P.checked result }
{
    let _ = stream.set_nodelay(true);
    let mut reader = FromRead::new(stream);
    let mut writer = ToWrite::new(stream);
    serve(rt, publisher, &mut reader, &mut writer, &OpenGate)
}

/// Accepts a connection, serves it to its end, and keeps its result in the place.
fn fill<P: Publishing + Sync, R: Threads + Wait + Clock + Sync>(
    rt: &R,
    publisher: &Publisher<P>,
    listener: &TcpListener,
    place: &mut ConnectionPlace<P>,
)
    ensures { IsFilled P.checked place.new }
{
    *place = match next_connection(listener) {
        Some(stream) => ConnectionPlace::Ended(serve_stream(rt, publisher, &stream)),
        None => ConnectionPlace::Failed,
    };
}

/// Accepts a connection for each place, all at the same time, and serves each as soon as it is accepted. Returns when
/// all have ended.
pub fn fill_all<P: Publishing + Sync, R: Threads + Wait + Clock + Sync>(
    rt: &R,
    publisher: &Publisher<P>,
    listener: &TcpListener,
    places: &mut [ConnectionPlace<P>],
)
    ensures { All (IsFilled P.checked) places.new }
{
    if places.is_empty() {
        return;
    }
    let count = places.len();
    thread::for_each_mut(
        rt,
        places,
        count,
        &|_, place| fill(rt, publisher, listener, place),
    );
}
