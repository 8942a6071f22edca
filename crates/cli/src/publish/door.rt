//! The ports for clients, and for callers.

ghost use Rattle.std.specs.Prelude.{◌≡◌, true, IfErr, IfOk, OnOk};
ghost use Rattle.std.specs.Io.KnownBytes.{Appends};
ghost use Rattle.std.specs.Option.{option_map};
ghost use Rattle.std.specs.String.{string_bytes};
ghost use Rattle.commands.specs.Output.{StopsText, text_of};
ghost use Rattle.cli.specs.Published.{AreCallersAt, IsPortFor, Opens, StopsTelling, callers_at};
ghost use Rattle.cli.specs.Telling.{IsStop, first_lines};

use crate::publish::notices::{tell_file, tell_port};
use crate::publish::telling::tell;
use crate::requests::Feed;
use commands::{Failure, Writer};
use std::alloc::{AllocError, Global};
use std::net::{Ipv4Addr, Net, TcpListener, TcpStream};
use std::rt::Files;
use std::time::Clock;
use std::{fs, io};

/// A listening socket, and its port.
#[derive(Debug, Drop)]
pub(crate) struct Door {
    pub(crate) listener: TcpListener,
    pub(crate) port: u16,
}

/// The door for clients, and that for callers if commands come from callers.
#[derive(Debug, Drop)]
pub(crate) struct Doors {
    pub(crate) clients: Door,
    pub(crate) callers: Option<Door>,
}

/// Listens on this port of the loopback interface, or on any free one if it is 0.
fn bind<R: Net<Listener = TcpListener, Stream = TcpStream>>(rt: &R, port: u16) -> io::Result<Door>
    ensures { IfOk result (λ door. IsPortFor port door.port) }
{
    let listener = TcpListener::bind(rt, (Ipv4Addr::LOCALHOST, port))?;
    if port != 0 {
        return Ok(Door { listener, port });
    }
    let port = listener.local_addr()?.port();
    Ok(Door { listener, port })
}

/// Listens on this port, and returns the actual one. If it cannot be used, standard error reports why.
fn find_door<'a, R: Net<Listener = TcpListener, Stream = TcpStream> + Clock + Eprint>(
    rt: &R,
    alloc: Global,
    feed: Feed<'_>,
    port: u16,
) -> Result<Door, Failure<'a>>
    ensures ok { IfOk result (λ door. IsPortFor port door.port) }
    ensures err { IfErr result IsStop }
{
    match bind(rt, port) {
        Ok(door) => Ok(door),
        Err(error) => {
            tell_port(rt, alloc, feed.log, port, &error);
            Err(Failure::Output)
        }
    }
}

/// Listens on the port for callers, if commands come from callers.
fn find_callers<'a, R: Net<Listener = TcpListener, Stream = TcpStream> + Clock + Eprint>(
    rt: &R,
    alloc: Global,
    feed: Feed<'_>,
) -> Result<Option<Door>, Failure<'a>>
    ensures ok { IfOk result (λ door. AreCallersAt feed.entry.commands (callers_at door)) }
    ensures err { IfErr result IsStop }
{
    let Some(port) = feed.commands else {
        return Ok(None);
    };
    let door = find_door(rt, alloc, feed, port)?;
    Ok(Some(door))
}

/// Listens on the ports.
fn find_doors<'a, R: Net<Listener = TcpListener, Stream = TcpStream> + Clock + Eprint>(
    rt: &R,
    alloc: Global,
    feed: Feed<'_>,
) -> Result<Doors, Failure<'a>>
    ensures clients { IfOk result (λ doors. IsPortFor feed.entry.port doors.clients.port) }
    ensures callers { IfOk result (λ doors. AreCallersAt feed.entry.commands (callers_at doors.callers)) }
    ensures err { IfErr result IsStop }
{
    let clients = find_door(rt, alloc, feed, feed.port)?;
    let callers = find_callers(rt, alloc, feed)?;
    Ok(Doors { clients, callers })
}

/// The port for callers, if there is one.
fn callers_port(doors: &Doors) -> Option<u16>
    ensures { result ≡ callers_at doors.now.callers }
{
    match &doors.callers {
        Some(door) => Some(door.port),
        None => None,
    }
}

/// The ports, one per line.
fn numbers_text(alloc: Global, port: u16, callers: Option<u16>) -> Result<String, AllocError> {
    match callers {
        Some(callers) => format!(in alloc; "{port}\n{callers}\n"),
        None => format!(in alloc; "{port}\n"),
    }
}

/// Writes the ports to the file, if there is one.
fn note_ports<'a, R: Files + Clock + Eprint>(
    rt: &R,
    alloc: Global,
    feed: Feed<'_>,
    port: u16,
    callers: Option<u16>,
) -> Result<(), Failure<'a>>
    ensures { IfErr result IsStop }
{
    let Some(file) = feed.port_file else {
        return Ok(());
    };
    let text = numbers_text(alloc, port, callers)?;
    if let Err(error) = fs::write(rt, file, text.as_str()) {
        tell_file(rt, alloc, feed.log, file, &error);
        return Err(Failure::Output);
    }
    Ok(())
}

/// The first lines of output, with the ports.
fn ports_text(alloc: Global, port: u16, callers: Option<u16>) -> Result<String, AllocError>
    ensures { IfOk result (λ text. string_bytes text ≡ text_of (first_lines port callers)) }
{
    match callers {
        Some(callers) => format!(in alloc; "listening {port}\ncommands {callers}\n"),
        None => format!(in alloc; "listening {port}\n"),
    }
}

/// Writes the lines with the ports.
fn say_ports<'a, W: Writer>(
    alloc: Global,
    port: u16,
    callers: Option<u16>,
    writer: &mut W,
) -> Result<(), Failure<'a>>
    ensures written { OnOk result (Appends (W.contents writer.old) (W.contents writer.new)
        (text_of (first_lines port callers))) }
    ensures stopped { IfErr result (StopsText (text_of (first_lines port callers)) (W.contents writer.old)
        (W.contents writer.new)) }
    ensures flushed { OnOk result (W.is_flushed writer.new ≡ true) }
{
    let text = ports_text(alloc, port, callers)?;
    tell(text.as_str(), writer)
}

/// Listens on the ports, and writes them to the file, if there is one, and to the output.
///
/// # Errors
///
/// `Output` if a port cannot be used, or the lines or the file cannot be written; standard error reports why.
/// `OutOfMemory`.
pub(crate) fn open_doors<
    'a,
    W: Writer,
    R: Net<Listener = TcpListener, Stream = TcpStream> + Files + Clock + Eprint,
>(rt: &R, alloc: Global, feed: Feed<'_>, writer: &mut W) -> Result<Doors, Failure<'a>>
    ensures opens { IfOk result (λ doors. Opens feed.entry doors.clients.port (callers_at doors.callers)
        (W.contents writer.old) (W.contents writer.new)) }
    ensures stopped { IfErr result (StopsTelling feed.entry (W.contents writer.old) (W.contents writer.new)) }
    ensures flushed { OnOk result (W.is_flushed writer.new ≡ true) }
{
    let doors = find_doors(rt, alloc, feed)?;
    let callers = callers_port(&doors);
    note_ports(rt, alloc, feed, doors.clients.port, callers)?;
    say_ports(alloc, doors.clients.port, callers, writer)?;
    Ok(doors)
}
