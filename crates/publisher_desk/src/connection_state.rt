//! The state of connections.

use tables_log::Lsn;

/// What a publisher keeps of the connection that has a slot: the position up to which its client was sent the log,
/// whether its client has requested a reply, and whether it has ended.
#[derive(Clone, Copy, Debug, PartialEq, Eq)]
pub struct ConnectionState {
    pub sent: Lsn,
    pub wants_reply: bool,
    pub has_ended: bool,
}
