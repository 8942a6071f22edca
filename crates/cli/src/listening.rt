//! The listening socket.

ghost use Rattle.std.specs.Prelude.{◌≡◌, true, IfErr, OnOk};
ghost use Rattle.std.specs.Io.KnownBytes.{Appends};
ghost use Rattle.commands.specs.Output.{StopsText, ended};
ghost use Rattle.cli.specs.Telling.{listening_line};

use crate::publish::notices::tell_port;
use crate::requests::LogFormat;
use commands::{Failure, Writer, write_line};
use std::alloc::Global;
use std::net::{Ipv4Addr, Net, TcpListener, TcpStream};
use std::time::Clock;

/// Writes the line with the port, for which a client may wait.
pub fn say_listening<'a, W: Writer>(
    alloc: Global,
    port: u16,
    writer: &mut W,
) -> Result<(), Failure<'a>>
    ensures written { OnOk result (Appends (W.contents writer.old) (W.contents writer.new)
        (ended (listening_line port))) }
    ensures stopped { IfErr result (StopsText (ended (listening_line port)) (W.contents writer.old)
        (W.contents writer.new)) }
    ensures flushed { OnOk result (W.is_flushed writer.new ≡ true) }
{
    let mut line = format!(in alloc; "listening {port}")?;
    write_line(&mut line, writer)?;
    match writer.flush() {
        Ok(()) => Ok(()),
        Err(_) => Err(Failure::Output),
    }
}

/// Listens on this port of the loopback interface, and writes the line that says so.
///
/// # Errors
///
/// `Output` if the port cannot be used, which standard error reports, or the line cannot be written.
pub fn listen<'a, W: Writer, R: Clock + Eprint + Net<Listener = TcpListener, Stream = TcpStream>>(
    rt: &R,
    alloc: Global,
    port: u16,
    writer: &mut W,
) -> Result<TcpListener, Failure<'a>>
    ensures written { OnOk result (Appends (W.contents writer.old) (W.contents writer.new)
        (ended (listening_line port))) }
    ensures stopped { IfErr result (StopsText (ended (listening_line port)) (W.contents writer.old)
        (W.contents writer.new)) }
    ensures flushed { OnOk result (W.is_flushed writer.new ≡ true) }
{
    match TcpListener::bind(rt, (Ipv4Addr::LOCALHOST, port)) {
        Ok(listener) => {
            say_listening(alloc, port, writer)?;
            Ok(listener)
        }
        Err(error) => {
            tell_port(rt, alloc, LogFormat::Text, port, &error);
            Err(Failure::Output)
        }
    }
}
