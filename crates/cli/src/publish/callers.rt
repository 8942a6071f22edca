//! Callers: clients whose lines are answered like those of the input, one caller after another.

ghost use Rattle.std.specs.Prelude.{◌≡◌, IfErr, OnOk};
ghost use Rattle.commands.specs.declared.failure.Failure.TheVariants.{OutOfMemory};
ghost use Rattle.cli.specs.Talks.{AreHeard, HasTalked};

use crate::publish::hall::Hall;
use crate::publish::incoming::LineReader;
use crate::publish::places::accepted_or_waited;
use crate::publish::session::answer_lines;
use crate::publish::streams::{PatientWrite, Writes};
use commands::{Failure, Printer, Reader};
use senders::{Publisher, Publishing, Seat};
use std::io;
use std::io::Read;
use std::net::{TcpListener, TcpStream};
use std::sync::Wait;
use std::time::Clock;

/// What a caller sends. Its reads may fail.
#[derive(Drop)]
struct Call<'a> {
    stream: &'a TcpStream,
}

impl Read for Call<'_> {
    fn read(&mut self, buffer: &mut [u8]) -> io::Result<usize> {
        let mut stream = self.stream;
        stream.read(buffer)
    }
}

impl Reader for Call<'_> {
    ghost use Rattle.std.specs.Prelude.{true};

    ghost may_fail = { true };

    fn read_piece(&mut self, piece: &mut [u8]) -> io::Result<usize> {
        self.read(piece)
    }
}

/// Answers the lines of a caller, until it closes its connection, takes no answer for too long, or sends `QUIT;`.
/// Returns whether it sent `QUIT;`. The only error is out of memory.
#[tactic(auto, using(crate::proofs::Callers::talked, crate::proofs::Callers::talked_part))]
fn answer_caller<'a, P: Publishing, R: Wait + Clock>(
    rt: &R,
    publisher: &Publisher<P>,
    hall: &Hall,
    seat: &mut Seat<P>,
    stream: &TcpStream,
) -> Result<bool, Failure<'a>>
    ensures ok { OnOk result (HasTalked P.checked P.limit seat.old seat.new) }
    ensures err { IfErr result (λ failure. failure ≡ OutOfMemory) }
{
    let alloc = publisher.allocator();
    let _ = stream.set_nodelay(true);
    let mut lines = LineReader::new(alloc, Call { stream })?;
    let writes = Writes::new();
    let mut writer = Printer::new(PatientWrite::new(hall, stream, &writes));
    match answer_lines(rt, alloc, publisher, seat, &mut lines, &mut writer) {
        Ok(quits) => Ok(quits),
        Err(Failure::Output) => Ok(false),
        Err(_) => Err(Failure::OutOfMemory),
    }
}

/// Answers the lines of one caller after another, until one sends `QUIT;`. The only error is out of memory.
#[tactic(auto, using(crate::proofs::Callers::nobody, crate::proofs::Callers::one_more))]
pub(crate) fn answer_callers<'a, P: Publishing, R: Wait + Clock + Eprint>(
    rt: &R,
    publisher: &Publisher<P>,
    hall: &Hall,
    seat: &mut Seat<P>,
    listener: &TcpListener,
) -> Result<(), Failure<'a>>
    ensures ok { OnOk result (AreHeard P.checked P.limit seat.old seat.new) }
    ensures err { IfErr result (λ failure. failure ≡ OutOfMemory) }
{
    let alloc = publisher.allocator();
    for _ in rt.forever() {
        let Some((stream, _)) = accepted_or_waited(rt, alloc, hall, listener.accept()) else {
            continue;
        };
        if answer_caller(rt, publisher, hall, seat, &stream)? {
            return Ok(());
        }
    }
    unreachable!()
}
