//! Connections over sockets.

use crate::board::Board;
use crate::checks::{holds, same};
use crate::clients::client;
use crate::gates::FirstHeld;
use crate::running::{expect_all, expect_closed, run};
use crate::sessions::take_seats;
use crate::work::{Hold, Work};
use senders::{Conn, FromRead, Publisher, Publishing, Seat, Seats, Served, ToWrite};
use std::alloc::Global;
use std::net::{Ipv4Addr, Net, TcpListener, TcpStream};
use std::process::Abort;
use std::sync::Wait;
use std::test::Fail;
use std::thread::{Threads, join};
use std::time::Clock;

/// A connection over a socket.
type Wired<P> = Conn<P, FromRead<TcpStream>, ToWrite<TcpStream>>;

/// The connections of two clients.
fn accept<P: Publishing>(alloc: Global, listener: &TcpListener) -> Result<Vec<Wired<P>>, Fail> {
    let mut list = Vec::new(alloc);
    for _ in 0..2 {
        let (stream, _) = listener.accept()?;
        let other = stream.try_clone()?;
        list.push(Conn {
            reader: FromRead::new(stream),
            writer: ToWrite::new(other),
            served: None,
        })?;
    }
    Ok(list)
}

/// That both connections took all commits.
fn expect_both<P: Publishing>(
    rt: &impl Abort,
    board: &Board,
    connections: Vec<Wired<P>>,
) -> Result<Vec<Served<P>>, Fail> {
    let mut list = Vec::new(board.alloc);
    for connection in connections {
        let Conn { served, .. } = connection;
        let Some(served) = served else {
            return Err(Fail::from("a connection was not served"));
        };
        expect_all(rt, &served, board.work);
        list.push(served)?;
    }
    Ok(list)
}

/// Serves two connections while two sessions write.
fn serve_both<P: Publishing + Sync, R: Threads + Wait + Clock + Abort + Sync>(
    rt: &R,
    publisher: &Publisher<P>,
    seats: &mut Vec<Seat<P>>,
    listener: &TcpListener,
    board: &Board,
) -> Result<Vec<Served<P>>, Fail> {
    let mut connections = accept(board.alloc, listener)?;
    let gate = FirstHeld { clock: rt, board };
    run(
        rt,
        publisher,
        seats,
        connections.as_mut_slice(),
        &gate,
        board,
    );
    expect_both(rt, board, connections)
}

/// Two clients, in two threads.
fn follow_both<R: Threads + Clock + Net<Listener = TcpListener, Stream = TcpStream> + Sync>(
    rt: &R,
    board: &Board,
) {
    join(rt, || client(rt, board, 0), || client(rt, board, 1));
}

/// That two clients over sockets are served all, while two sessions write, and the publisher can be closed.
pub(crate) fn expect_served<
    P: Publishing + Sync,
    R: Threads + Wait + Clock + Abort + Net<Listener = TcpListener, Stream = TcpStream> + Sync,
>(
    rt: &R,
    alloc: Global,
    publisher: Publisher<P>,
    mut free: Seats<P>,
    hold: Hold,
) -> Result<(), Fail> {
    let listener = TcpListener::bind(rt, (Ipv4Addr::LOCALHOST, 0u16))?;
    let port = listener.local_addr()?.port();
    let board = Board::new(alloc, Work::Pairs, hold, port)?;
    let mut seats = take_seats(alloc, &mut free, 2)?;
    let (_, served) = join(
        rt,
        || follow_both(rt, &board),
        || serve_both(rt, &publisher, &mut seats, &listener, &board),
    );
    let served = served?;
    holds(rt, board.is_fine());
    same(rt, served.len(), 2);
    expect_closed(rt, &board, publisher, free, seats, served)
}
