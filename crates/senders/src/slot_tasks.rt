//! How connections end.

use publisher_desk::{ConnectionState, Publisher, Publishing, SlotTask};
use std::sync::Wait;
use tables_log::{Book, SlotNumber};

/// Ends the connection of a slot, which its sender then sees. Its answer is whether it had not ended before.
#[derive(Drop)]
struct EndConnection {
    slot: SlotNumber,
}

impl SlotTask for EndConnection {
    type Answer = bool;

    ghost did = { λ before after old new connections left answer. Unit {0} };

    fn use_slots(&mut self, _book: &mut Book, connections: &mut [ConnectionState]) -> bool {
        let Some(connection) = connections.get(self.slot).copied() else {
            return false;
        };
        connections[self.slot] = ConnectionState {
            sent: connection.sent,
            wants_reply: connection.wants_reply,
            has_ended: true,
        };
        !connection.has_ended
    }
}

/// Ends the connection of a slot, and returns whether it had not ended before.
pub(crate) fn end_connection<P: Publishing, R: Wait>(
    rt: &R,
    publisher: &Publisher<P>,
    slot: SlotNumber,
) -> bool {
    publisher.with_slots(rt, &mut EndConnection { slot })
}
