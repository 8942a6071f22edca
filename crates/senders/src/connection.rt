//! Connections that are served side by side.

ghost use Rattle.std.specs.Prelude.{◌<◌, ℕ, IsSomeAnd, length, slice_index_or};
ghost use Rattle.senders.specs.Serving.{IsPermitted, IsServed};

use crate::gate::Gate;
use crate::served::Served;
use crate::serving::serve;
use crate::sink::Sink;
use crate::source::Source;
use publisher_desk::{Publisher, Publishing};
use std::sync::Wait;
use std::thread;
use std::thread::Threads;
use std::time::Clock;

/// A connection: what it is read from and written to, and its result when it has been served.
#[derive(Drop)]
pub struct Conn<P: Publishing, S, W> {
    pub reader: S,
    pub writer: W,
    pub served: Option<Served<P>>,
}

/// Serves a connection, and stores the result in it.
fn serve_one<
    P: Publishing + Sync,
    S: Source + Send + Drop,
    W: Sink + Send + Drop,
    G: Gate + Sync,
    R: Threads + Wait + Clock + Sync,
>(rt: &R, publisher: &Publisher<P>, connection: &mut Conn<P, S, W>, gate: &G)
    ensures served { IsSomeAnd connection.new.served (IsServed P.checked (S.left connection.old.reader)
        (S.left connection.new.reader) (S.has_failed connection.new.reader) (S.has_ended connection.new.reader)
        (W.taken connection.old.writer) (W.taken connection.new.writer) (W.has_failed connection.new.writer)) }
    ensures permitted { IsSomeAnd connection.new.served (IsPermitted (W.has_refused connection.old.writer)
        (W.has_refused connection.new.writer)) }
{
    let served = serve(
        rt,
        publisher,
        &mut connection.reader,
        &mut connection.writer,
        gate,
    );
    connection.served = Some(served);
}

/// Serves connections side by side, each as `serve` does, until all have ended, and stores the result in each.
///
/// PostgreSQL 15, 55.4. Streaming Replication Protocol.
pub fn run_all<
    P: Publishing + Sync,
    S: Source + Send + Drop,
    W: Sink + Send + Drop,
    G: Gate + Sync,
    R: Threads + Wait + Clock + Sync,
>(rt: &R, publisher: &Publisher<P>, connections: &mut [Conn<P, S, W>], gate: &G)
    ensures served { (place : ℕ) (other : _) → place < length connections.old
        → IsSomeAnd (slice_index_or connections.new place other).served (IsServed P.checked
        (S.left (slice_index_or connections.old place other).reader)
        (S.left (slice_index_or connections.new place other).reader)
        (S.has_failed (slice_index_or connections.new place other).reader)
        (S.has_ended (slice_index_or connections.new place other).reader)
        (W.taken (slice_index_or connections.old place other).writer)
        (W.taken (slice_index_or connections.new place other).writer)
        (W.has_failed (slice_index_or connections.new place other).writer)) }
    ensures permitted { (place : ℕ) (other : _) → place < length connections.old
        → IsSomeAnd (slice_index_or connections.new place other).served (IsPermitted
        (W.has_refused (slice_index_or connections.old place other).writer)
        (W.has_refused (slice_index_or connections.new place other).writer)) }
{
    if connections.is_empty() {
        return;
    }
    let count = connections.len();
    thread::for_each_mut(
        rt,
        connections,
        count,
        &|_, connection| { serve_one(rt, publisher, connection, gate) },
    );
}
