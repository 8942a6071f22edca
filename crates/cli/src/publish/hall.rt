//! What the places share: how many wait for clients, and whether clients are still let in.

use crate::requests::{Feed, LogFormat};
use std::net::{Ipv4Addr, Net, SocketAddr, TcpListener, TcpStream};
use std::sync::Wait;
use std::sync::atomic::{AtomicBool, AtomicUsize, Ordering};
use std::thread;
use std::time::{Clock, Duration};

/// How many milliseconds `close` waits for a connection to the program's own port, which wakes a place.
const KNOCK: u64 = 100;

/// How many milliseconds the session waits until a place waits for a client.
const BEGIN: u32 = 10_000;

/// What all places share. The timeouts are in seconds.
#[derive(Debug, Drop)]
pub(crate) struct Hall {
    /// How many places wait for a client.
    waiting: AtomicUsize,
    /// Whether a place has ever waited for a client.
    has_waited: AtomicBool,
    /// Whether no further client is let in.
    is_closed: AtomicBool,
    /// Whether the clients that are in are to be disconnected.
    is_cleared: AtomicBool,
    /// Whether it was reported that no connection can be accepted.
    was_busy: AtomicBool,
    start_timeout: u32,
    write_timeout: u32,
    keepalive: u32,
    timeout: u32,
    log: LogFormat,
}

impl Hall {
    /// A hall that lets clients in, where no place waits yet.
    pub(crate) fn new(feed: Feed<'_>) -> Hall {
        Hall {
            waiting: AtomicUsize::new(0),
            has_waited: AtomicBool::new(false),
            is_closed: AtomicBool::new(false),
            is_cleared: AtomicBool::new(false),
            was_busy: AtomicBool::new(false),
            start_timeout: feed.start_timeout,
            write_timeout: feed.write_timeout,
            keepalive: feed.keepalive,
            timeout: feed.timeout,
            log: feed.log,
        }
    }

    /// How many seconds a client has to start its stream.
    pub(crate) fn start_timeout(&self) -> u32 {
        self.start_timeout
    }

    /// How many seconds a write waits for a client that takes nothing.
    pub(crate) fn write_timeout(&self) -> u32 {
        self.write_timeout
    }

    /// The seconds between two keepalives.
    pub(crate) fn keepalive(&self) -> u32 {
        self.keepalive
    }

    /// How many seconds a client may be silent once its stream has started.
    pub(crate) fn timeout(&self) -> u32 {
        self.timeout
    }

    /// How standard error reports connections.
    pub(crate) fn log(&self) -> LogFormat {
        self.log
    }

    /// A place begins to wait for a client.
    pub(crate) fn enter(&self) {
        self.waiting.fetch_add(1, Ordering::SeqCst);
        self.has_waited.store(true, Ordering::SeqCst);
    }

    /// A place has stopped waiting.
    pub(crate) fn leave(&self) {
        self.waiting.fetch_sub(1, Ordering::SeqCst);
    }

    /// Whether no place waits for a client.
    pub(crate) fn is_full(&self) -> bool {
        self.waiting.load(Ordering::SeqCst) == 0
    }

    /// Whether some place has waited for a client. Waits for this up to ten seconds, since the threads of the places
    /// start at the same time as the session.
    pub(crate) fn is_attended<R: Wait + Clock>(&self, rt: &R) -> bool {
        for _ in 0..BEGIN {
            if self.has_waited.load(Ordering::SeqCst) {
                return true;
            }
            thread::sleep(rt, Duration::from_millis(1));
        }
        false
    }

    /// Whether no further client is let in.
    pub(crate) fn is_closed(&self) -> bool {
        self.is_closed.load(Ordering::SeqCst)
    }

    /// Whether the clients that are in are to be disconnected.
    pub(crate) fn is_cleared(&self) -> bool {
        self.is_cleared.load(Ordering::SeqCst)
    }

    /// Records that no connection can be accepted now. Returns whether this is the first time.
    pub(crate) fn is_first_trouble(&self) -> bool {
        !self.was_busy.swap(true, Ordering::SeqCst)
    }

    /// All clients are to be disconnected.
    pub(crate) fn clear(&self) {
        self.is_cleared.store(true, Ordering::SeqCst);
    }

    /// Lets no further client in. Connections to the own port wake the places that wait for one.
    pub(crate) fn close<R: Wait + Clock + Net<Listener = TcpListener, Stream = TcpStream>>(
        &self,
        rt: &R,
        port: u16,
    ) {
        self.is_closed.store(true, Ordering::SeqCst);
        let door = SocketAddr::from((Ipv4Addr::LOCALHOST, port));
        for _ in rt.forever() {
            if self.is_full() {
                return;
            }
            let _ = TcpStream::connect_timeout(rt, &door, Duration::from_millis(KNOCK));
            thread::sleep(rt, Duration::from_millis(1));
        }
    }
}
