//! Reports of connections on standard error. If memory or standard error fails, nothing is reported.

use crate::publish::hall::Hall;
use crate::publish::objects::{accepted_line, ended_line, fault_line, time_now};
use crate::publish::sent::{Sent, sent_on};
use crate::requests::LogFormat;
use copy_both::LinkFault;
use senders::{End, Publisher, Publishing, Served};
use std::alloc::{AllocError, Global};
use std::io;
use std::net::SocketAddr;
use std::time::Clock;

/// Why a connection ended, in words.
fn reason(end: End) -> &'static str {
    match end {
        End::ReadFault => "the connection was lost, or the client sent nothing for too long",
        End::WriteFault => "the connection was lost, or the client read nothing for too long",
        End::Client => "the client closed the connection",
        End::Finished => "all commits were sent",
        End::Link(LinkFault::OutOfMemory) => "out of memory",
        End::Link(_) => "the client sent something that is not valid at this point",
    }
}

/// The line of text of a connection that has ended.
fn end_text(alloc: Global, sent: Option<&Sent>, reason: &str) -> Result<String, AllocError> {
    let Some(sent) = sent else {
        return format!(in alloc; "a client started no stream: {reason}\n");
    };
    let name = sent.name.as_str();
    let from = sent.from.as_str();
    let to = sent.to.as_str();
    format!(in alloc; "{name}: sent from {from} to {to}: {reason}\n")
}

/// The line of a connection that has ended.
fn end_line<P: Publishing, R: Clock>(
    rt: &R,
    publisher: &Publisher<P>,
    hall: &Hall,
    client: SocketAddr,
    served: &Served<P>,
) -> Result<String, AllocError> {
    let alloc = publisher.allocator();
    let sent = sent_on(publisher, served)?;
    let reason = reason(served.end());
    match hall.log() {
        LogFormat::Text => end_text(alloc, sent.as_ref(), reason),
        LogFormat::Json => {
            let client = format!(in alloc; "{client}")?;
            ended_line(alloc, time_now(rt), client.as_str(), sent.as_ref(), reason)
        }
    }
}

/// The line of a connection that was accepted.
fn start_line<R: Clock>(rt: &R, alloc: Global, client: SocketAddr) -> Result<String, AllocError> {
    let client = format!(in alloc; "{client}")?;
    accepted_line(alloc, time_now(rt), client.as_str())
}

/// The line of a failure.
fn amiss_line<R: Clock>(
    rt: &R,
    alloc: Global,
    log: LogFormat,
    fault: &str,
) -> Result<String, AllocError> {
    match log {
        LogFormat::Text => format!(in alloc; "{fault}\n"),
        LogFormat::Json => fault_line(alloc, time_now(rt), fault),
    }
}

/// Reports that a connection was accepted, if reports are objects.
pub(crate) fn tell_start<R: Clock + Eprint>(
    rt: &R,
    alloc: Global,
    hall: &Hall,
    client: SocketAddr,
) {
    if hall.log() == LogFormat::Text {
        return;
    }
    if let Ok(line) = start_line(rt, alloc, client) {
        let _ = rt.eprint(line.as_str());
    }
}

/// Reports how a connection ended.
pub(crate) fn tell_end<P: Publishing, R: Clock + Eprint>(
    rt: &R,
    publisher: &Publisher<P>,
    hall: &Hall,
    client: SocketAddr,
    served: &Served<P>,
) {
    if let Ok(line) = end_line(rt, publisher, hall, client, served) {
        let _ = rt.eprint(line.as_str());
    }
}

/// Reports a failure.
fn tell_amiss<R: Clock + Eprint>(rt: &R, alloc: Global, log: LogFormat, fault: &str) {
    if let Ok(line) = amiss_line(rt, alloc, log, fault) {
        let _ = rt.eprint(line.as_str());
    }
}

/// Reports, only the first time, that no connection can be accepted now.
pub(crate) fn tell_busy<R: Clock + Eprint>(rt: &R, alloc: Global, hall: &Hall, error: &io::Error) {
    if !hall.is_first_trouble() {
        return;
    }
    let fault = format!(in alloc;
        "no connection can be accepted now, and it is tried again: {error}"
    );
    if let Ok(fault) = fault {
        tell_amiss(rt, alloc, hall.log(), fault.as_str());
    }
}

/// Reports that the port cannot be used.
pub(crate) fn tell_port<R: Clock + Eprint>(
    rt: &R,
    alloc: Global,
    log: LogFormat,
    port: u16,
    error: &io::Error,
) {
    if let Ok(fault) = format!(in alloc; "port {port} of 127.0.0.1 cannot be used: {error}") {
        tell_amiss(rt, alloc, log, fault.as_str());
    }
}

/// Reports that the file of the ports cannot be written.
pub(crate) fn tell_file<R: Clock + Eprint>(
    rt: &R,
    alloc: Global,
    log: LogFormat,
    file: &str,
    error: &io::Error,
) {
    if let Ok(fault) = format!(in alloc; "{file} cannot be written: {error}") {
        tell_amiss(rt, alloc, log, fault.as_str());
    }
}
