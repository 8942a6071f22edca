//! How the publisher ends: clients are sent what is left, and have some time to confirm it.

ghost use Rattle.std.specs.Prelude.{None};
ghost use Rattle.publisher_desk.specs.SlotEvents.{KeepsEnded, KeepsSent};

use crate::publish::hall::Hall;
use publisher_desk::{ConnectionState, SlotTask};
use senders::{Publisher, Publishing};
use std::sync::Wait;
use std::thread;
use std::time::{Clock, Duration};
use tables_log::{Book, Lsn, SlotNumber};

/// How many milliseconds the program waits before each look at whether all is confirmed.
const LOOK: u64 = 50;

/// How often the program looks, at most: for ten seconds in all.
const LOOKS: u32 = 200;

/// Looks whether a connected client has not confirmed the log yet, and requests a keepalive for each such client.
#[derive(Drop)]
struct Asking;

/// Whether the client of a slot is connected, was sent something since its stream started, and has not confirmed the
/// whole log. If so, requests a keepalive for it.
fn ask(connections: &mut [ConnectionState], slot: SlotNumber, confirmed: Lsn, end: Lsn) -> bool
    ensures sent { KeepsSent None connections.old connections.new }
    ensures ended { KeepsEnded None None connections.old connections.new }
{
    let Some(connection) = connections.get(slot).copied() else {
        return false;
    };
    if connection.has_ended || connection.sent.to_u64() == 0 || !end.is_after(confirmed) {
        return false;
    }
    connections[slot] = ConnectionState {
        sent: connection.sent,
        wants_reply: true,
        has_ended: false,
    };
    true
}

impl SlotTask for Asking {
    type Answer = bool;

    ghost did = { λ before after old new connections left answer. Unit {0} };

    fn use_slots(&mut self, book: &mut Book, connections: &mut [ConnectionState]) -> bool {
        let end = Lsn::end_of_commit(book.log_len());
        let mut is_asked = false;
        for slot in 0..connections.len() {
            if ask(connections, slot, Lsn::new(book.confirmed(slot)), end) {
                is_asked = true;
            }
        }
        is_asked
    }
}

/// Waits until each connected client has confirmed the log, but no longer than ten seconds.
fn await_confirmed<P: Publishing, R: Wait + Clock>(rt: &R, publisher: &Publisher<P>) {
    for _ in 0..LOOKS {
        thread::sleep(rt, Duration::from_millis(LOOK));
        if !publisher.with_slots(rt, &mut Asking) {
            return;
        }
    }
}

/// Lets each connected client confirm what it was sent, and then disconnects all.
pub(crate) fn see_off<P: Publishing, R: Wait + Clock>(
    rt: &R,
    publisher: &Publisher<P>,
    hall: &Hall,
) {
    await_confirmed(rt, publisher);
    hall.clear();
}
