//! Keepalives, which tell clients that the publisher is still there.

ghost use Rattle.std.specs.Prelude.{None};
ghost use Rattle.publisher_desk.specs.SlotEvents.{KeepsEnded, KeepsSent};

use crate::publish::hall::Hall;
use publisher_desk::{ConnectionState, SlotTask};
use senders::{Publisher, Publishing};
use std::sync::Wait;
use std::thread;
use std::time::{Clock, Duration};
use tables_log::{Book, SlotNumber};

/// How many milliseconds a tick has. After each, keepalives may be due.
const TICK: u64 = 100;

/// How many ticks a second has.
const TICKS: u64 = 1_000 / TICK;

/// Requests a keepalive for each client.
#[derive(Drop)]
struct Reminding;

/// Requests a keepalive for the client of a slot, unless its stream has ended.
fn remind(connections: &mut [ConnectionState], slot: SlotNumber)
    ensures sent { KeepsSent None connections.old connections.new }
    ensures ended { KeepsEnded None None connections.old connections.new }
{
    let Some(connection) = connections.get(slot).copied() else {
        return;
    };
    if connection.has_ended {
        return;
    }
    connections[slot] = ConnectionState {
        sent: connection.sent,
        wants_reply: true,
        has_ended: false,
    };
}

/// Requests a keepalive for the client of each slot whose stream has not ended.
fn remind_all(connections: &mut [ConnectionState])
    ensures sent { KeepsSent None connections.old connections.new }
    ensures ended { KeepsEnded None None connections.old connections.new }
{
    for slot in 0..connections.len() {
        remind(connections, slot);
    }
}

impl SlotTask for Reminding {
    type Answer = ();

    ghost did = { λ before after old new connections left answer. Unit {0} };

    fn use_slots(&mut self, _book: &mut Book, connections: &mut [ConnectionState]) {
        remind_all(connections);
    }
}

/// Requests a keepalive for all clients each time this many seconds have passed, until the hall is closed.
pub(crate) fn keep_alive<P: Publishing, R: Wait + Clock>(
    rt: &R,
    publisher: &Publisher<P>,
    hall: &Hall,
) {
    let between = u64::from(hall.keepalive()) * TICKS;
    let mut left = between;
    for _ in rt.forever() {
        if hall.is_closed() {
            return;
        }
        thread::sleep(rt, Duration::from_millis(TICK));
        left = left.saturating_sub(1);
        if left == 0 {
            publisher.with_slots(rt, &mut Reminding);
            left = between;
        }
    }
}
