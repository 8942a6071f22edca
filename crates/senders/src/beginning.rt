//! How a connection begins.

use crate::listener_end::ListenerEnd;
use copy_both::StreamStart;
use publisher_desk::Permit;

/// How a connection begins: its stream started, and goes on; or its stream was started by the piece that also ended the
/// connection; or the connection ended without a stream. A stream comes with the permit of its slot.
#[derive(Debug)]
pub enum Beginning {
    Started(StreamStart, Permit),
    Ended(StreamStart, ListenerEnd, Permit),
    Refused(ListenerEnd),
}
