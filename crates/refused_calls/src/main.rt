//! The program `refused_calls`: makes calls again and again, with each of their requests for memory refused in turn,
//! and tests what no proof says about a run: that memory is refused, what is left then, and that everything continues
//! from there.
//!
//! The refusals come from `tools/testing/refusing.c`, a library that is loaded before the C library. Without it nothing
//! is refused, and the program reports this.
//!
//! If its standard input has a stream, it feeds that to a subscriber instead, with each byte changed in turn, and
//! writes what the subscriber answers.
#![tactic(auto)]

mod calls;
mod changes;
mod commands;
mod commits;
mod connections;
mod feeds;
mod hears;
mod makes;
mod memos;
mod publishers;
mod refusals;
mod serves;
mod sessions;
mod sharding;
mod tables;
mod takes;
mod worlds;

use anyhow::{Context, Result, bail};
use changes::write_changes;
use std::alloc::Global;
use std::io;
use std::io::{BufWriter, Read, Write};
use std::sync::Wait;
use std::thread::Threads;
use std::time::Clock;

/// A call whose requests for memory are refused.
#[derive(Clone, Copy)]
enum Call {
    Commit,
    Take,
    Hear,
    Feed,
    Step,
    Make,
    Memo,
    SessionCommit,
    Serve,
}

/// All calls, with their names.
const CALLS: &[(Call, &str)] = &[
    (Call::Commit, "Book::commit"),
    (Call::Take, "Link::take"),
    (Call::Hear, "Link::hear"),
    (Call::Feed, "Subscriber::feed"),
    (Call::Step, "World::step"),
    (Call::Make, "make"),
    (Call::Memo, "Memo"),
    (Call::SessionCommit, "Publisher::commit"),
    (Call::Serve, "serve"),
];

/// Makes the call with request `number` refused, and tests what follows. Returns whether it was refused.
fn is_refused<R: Threads + Wait + Clock + Sync>(
    rt: &R,
    alloc: Global,
    call: Call,
    number: u16,
) -> Result<bool> {
    match call {
        Call::Commit => commits::is_refused(alloc, number),
        Call::Take => takes::is_refused(alloc, number),
        Call::Hear => hears::is_refused(alloc, number),
        Call::Feed => feeds::is_refused(alloc, number),
        Call::Step => worlds::is_refused(alloc, number),
        Call::Make => makes::is_refused(alloc, number),
        Call::Memo => memos::is_refused(alloc, number),
        Call::SessionCommit => sessions::is_refused(rt, alloc, number),
        Call::Serve => serves::is_refused(rt, alloc, number),
    }
}

/// How many of the call's requests were refused, each in a trial of its own.
fn count_refused<R: Threads + Wait + Clock + Sync>(
    rt: &R,
    alloc: Global,
    call: Call,
) -> Result<u16> {
    for number in 1..=10_000u16 {
        if !is_refused(rt, alloc, call, number).context(format_args!("request {number}"))? {
            return Ok(number - 1);
        }
    }
    bail!("the call makes more than 10,000 requests")
}

fn main(rt: HostRuntime) -> Result<()> {
    let mut stream = Vec::new(rt.alloc());
    rt.stdin().read_to_end(&mut stream)?;
    if !stream.is_empty() {
        let mut writer = BufWriter::new(rt.alloc(), io::writer(&rt))?;
        write_changes(rt.alloc(), &stream, &mut writer)?;
        writer.flush()?;
        return Ok(());
    }
    for (call, name) in CALLS {
        let count = count_refused(&rt, rt.alloc(), *call).context(*name)?;
        println!(rt; "{name}: {count} refused")?;
    }
    Ok(())
}
