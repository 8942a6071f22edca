//! Sockets with timeouts.

ghost use Rattle.std.specs.Io.{WritesAtMost};

use crate::publish::hall::Hall;
use std::io;
use std::io::{ErrorKind, Read, Write};
use std::net::TcpStream;
use std::sync::atomic::{AtomicBool, Ordering};
use std::time::{Clock, Duration, Instant};

/// How many milliseconds a tick has. After a tick without a byte, a client may have to be disconnected.
const TICK: u64 = 200;

/// How many ticks a second has.
const TICKS: u64 = 1_000 / TICK;

/// What is known of the writes to a client.
#[derive(Debug, Drop)]
pub(crate) struct Writes {
    /// Whether there was one.
    is_started: AtomicBool,
    /// Whether one failed.
    has_failed: AtomicBool,
}

impl Writes {
    /// Nothing has been written yet.
    pub(crate) fn new() -> Writes {
        Writes {
            is_started: AtomicBool::new(false),
            has_failed: AtomicBool::new(false),
        }
    }
}

/// What a client sends. A read fails if the client does not start its stream in time, or is silent while no place is
/// free; if it is silent for too long after the start; once a write to it has failed; and once all clients are to be
/// disconnected.
#[derive(Drop)]
pub(crate) struct PatientRead<'a, R> {
    rt: &'a R,
    hall: &'a Hall,
    stream: &'a TcpStream,
    writes: &'a Writes,
    /// When the client was accepted, if the clock could be read.
    accepted: Option<Instant>,
    /// For how many ticks the client has been silent.
    silent: u64,
    /// Whether the next read fails if the client is then still to be disconnected.
    is_last: bool,
}

impl<'a, R: Clock> PatientRead<'a, R> {
    /// A reader of the socket, whose client has the start timeout of the hall to start its stream.
    pub(crate) fn new(
        rt: &'a R,
        hall: &'a Hall,
        stream: &'a TcpStream,
        writes: &'a Writes,
    ) -> PatientRead<'a, R> {
        let _ = stream.set_read_timeout(Some(Duration::from_millis(TICK)));
        PatientRead {
            rt,
            hall,
            stream,
            writes,
            accepted: Instant::now(rt).ok(),
            silent: 0,
            is_last: false,
        }
    }

    /// Counts a tick in which the client was silent, or not.
    fn count(&mut self, is_silent: bool) {
        self.silent = if is_silent {
            self.silent.saturating_add(1)
        } else {
            0
        };
    }

    /// Whether the client has used up its time to start a stream. If the clock cannot be read, only the ticks count in
    /// which it was silent.
    fn is_late(&self) -> bool {
        let seconds = u64::from(self.hall.start_timeout());
        let spent = match &self.accepted {
            Some(accepted) => accepted.elapsed(self.rt).ok(),
            None => None,
        };
        match spent {
            Some(spent) => Duration::from_secs(seconds) <= spent,
            None => seconds.saturating_mul(TICKS) <= self.silent,
        }
    }

    /// Whether the client is to be disconnected. Called after each read and each tick. A silent client that has not
    /// started its stream is disconnected while no place is free, and once the hall is closed.
    fn is_over(&mut self, is_silent: bool) -> bool {
        self.count(is_silent);
        if self.hall.is_cleared() || self.writes.has_failed.load(Ordering::SeqCst) {
            return true;
        }
        if self.writes.is_started.load(Ordering::SeqCst) {
            return u64::from(self.hall.timeout()).saturating_mul(TICKS) <= self.silent;
        }
        self.is_late() || (is_silent && (self.hall.is_full() || self.hall.is_closed()))
    }
}

impl<R: Clock> Read for PatientRead<'_, R> {
    /// Bytes that were read are returned, also if the client is then to be disconnected: the next read fails, unless
    /// they started its stream.
    fn read(&mut self, buffer: &mut [u8]) -> io::Result<usize> {
        if self.is_last && self.is_over(false) {
            return Err(io::Error::from(ErrorKind::TimedOut));
        }
        for _ in 0..u64::MAX {
            let mut stream = self.stream;
            match stream.read(buffer) {
                Err(error) if error.kind() == ErrorKind::WouldBlock => {
                    if self.is_over(true) {
                        return Err(io::Error::from(ErrorKind::TimedOut));
                    }
                }
                Err(error) => return Err(error),
                Ok(count) => {
                    self.is_last = 0 < count && self.is_over(false);
                    return Ok(count);
                }
            }
        }
        Err(io::Error::from(ErrorKind::TimedOut))
    }
}

/// What is written to a client. A write fails if the client takes no byte for too long, or takes none when all clients
/// are to be disconnected; then nothing more is read from it.
#[derive(Debug, Drop)]
pub(crate) struct PatientWrite<'a> {
    hall: &'a Hall,
    stream: &'a TcpStream,
    writes: &'a Writes,
}

impl<'a> PatientWrite<'a> {
    /// A writer to the socket, which records that something is written, and that a write has failed.
    pub(crate) fn new(
        hall: &'a Hall,
        stream: &'a TcpStream,
        writes: &'a Writes,
    ) -> PatientWrite<'a> {
        let _ = stream.set_write_timeout(Some(Duration::from_millis(TICK)));
        PatientWrite {
            hall,
            stream,
            writes,
        }
    }

    /// Writes some of the bytes, within the write timeout.
    fn write_some(&self, bytes: &[u8]) -> io::Result<usize>
        ensures { WritesAtMost result bytes.now }
    {
        let mut stream = self.stream;
        for _ in 0..u64::from(self.hall.write_timeout()).saturating_mul(TICKS) {
            match stream.write(bytes) {
                Err(error) if error.kind() == ErrorKind::WouldBlock => {
                    if self.hall.is_cleared() {
                        break;
                    }
                }
                written => return written,
            }
        }
        Err(io::Error::from(ErrorKind::TimedOut))
    }
}

impl Write for PatientWrite<'_> {
    fn write(&mut self, bytes: &[u8]) -> io::Result<usize> {
        self.writes.is_started.store(true, Ordering::SeqCst);
        let written = self.write_some(bytes);
        if written.is_err() {
            self.writes.has_failed.store(true, Ordering::SeqCst);
        }
        written
    }

    fn flush(&mut self) -> io::Result<()> {
        Ok(())
    }
}
