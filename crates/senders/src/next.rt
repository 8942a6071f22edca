//! What follows from a read.

use crate::listener_end::ListenerEnd;

/// What follows from a read: the listener goes on, with whether the sender had ended the connection before; or it
/// ends.
#[derive(Clone, Copy, Debug, PartialEq, Eq)]
pub enum Next {
    GoesOn(bool),
    Ends(ListenerEnd),
}
