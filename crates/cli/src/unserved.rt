//! Which subscriptions of a catalog were not served to the end of the log.

use commands::{push_position, subscriber_name};
use pub_catalog::Catalog;
use senders::{Closed, End, Publishing, Served};
use std::alloc::{AllocError, Global};
use tables_log::{Lsn, SlotNumber};

/// How many commits of the log end at or before a position.
fn commits_to(position: u64) -> u64 {
    Lsn::new(position).commits_before()
}

/// The position after this many commits, of which no log has more than a number of 32 bits.
fn end_of(commits: u64) -> Lsn {
    Lsn::end_of_commit(u32::try_from(commits).unwrap_or(u32::MAX))
}

/// How many commits a client of the slot has or was sent: those before its start, and those that followed, unless a
/// write failed, since then it is unknown how many of them were written. None if the connection was not for the slot.
fn commits_sent<P: Publishing>(served: &Served<P>, slot: SlotNumber) -> Option<u64> {
    let start = served.start()?;
    if served.slot() != Some(slot) {
        return None;
    }
    let taken = match served.end() {
        End::WriteFault => 0,
        _ => served.taken().len() as u64,
    };
    Some(commits_to(start).saturating_add(taken))
}

/// The most commits that a client of the slot was sent; none if no stream of the slot was started.
fn most_sent<P: Publishing>(served: &[Served<P>], slot: SlotNumber) -> Option<u64> {
    let mut most = None;
    for one in served {
        if let Some(sent) = commits_sent(one, slot) {
            most = Some(sent.max(most.unwrap_or(0)));
        }
    }
    most
}

/// The line of a subscription that was sent this many of the commits.
fn unserved_line(
    alloc: Global,
    name: &str,
    sent: Option<u64>,
    commits: u64,
) -> Result<String, AllocError> {
    let mut line = String::from_str(alloc, name)?;
    let Some(sent) = sent else {
        line.push_str(": no client started its stream\n")?;
        return Ok(line);
    };
    line.push_str(": sent to ")?;
    push_position(&mut line, end_of(sent))?;
    line.push_str(", and the log ends at ")?;
    push_position(&mut line, end_of(commits))?;
    line.push('\n')?;
    Ok(line)
}

/// Reports on standard error, in a line for each, the subscriptions of which no client started a stream, or was sent
/// the whole log. If memory or standard error fails, nothing is reported.
pub(crate) fn tell_unserved<P: Publishing, R: Eprint>(
    rt: &R,
    alloc: Global,
    catalog: &Catalog,
    closed: &Closed<P>,
) {
    let commits = u64::from(closed.book.log_len());
    for slot in 0..catalog.subscriptions.len() {
        let confirmed = commits_to(closed.book.confirmed(slot));
        let sent = most_sent(closed.served.as_slice(), slot).map(|sent| sent.max(confirmed));
        if sent == Some(commits) {
            continue;
        }
        let name = subscriber_name(catalog.subscriptions.as_slice(), slot);
        if let Ok(line) = unserved_line(alloc, name, sent, commits) {
            let _ = rt.eprint(line.as_str());
        }
    }
}
