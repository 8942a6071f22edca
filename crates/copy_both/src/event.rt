//! What a client sends while a stream runs.

ghost use Rattle.std.specs.Prelude.{◌≡◌};
ghost use Rattle.copy_both.specs.Events as spec;

use crate::link_fault::LinkFault;
use copy_frames::{Status, read_status};

/// What a client sends while a stream runs.
#[derive(Clone, Copy)]
pub(crate) enum Event {
    Status(Status),
    /// CopyDone, CopyFail or Terminate.
    End(u8),
}

/// What a frame of this kind and body means while a stream runs.
pub(crate) fn event_of(kind: u8, body: &[u8]) -> Result<Event, LinkFault>
    ensures { result ≡ spec.event_of kind body.now }
{
    match kind {
        b'd' => data_event(body),
        b'c' | b'f' | b'X' => Ok(Event::End(kind)),
        _ => Err(LinkFault::Unexpected(kind)),
    }
}

fn data_event(body: &[u8]) -> Result<Event, LinkFault>
    ensures { result ≡ spec.data_event body.now }
{
    match body.first() {
        None => Err(LinkFault::Unexpected(b'd')),
        Some(b'r') => status_event(body),
        Some(byte) => Err(LinkFault::Unexpected(*byte)),
    }
}

fn status_event(body: &[u8]) -> Result<Event, LinkFault>
    ensures { result ≡ spec.status_event body.now }
{
    match read_status(body) {
        None => Err(LinkFault::BadLength),
        Some(status) => Ok(Event::Status(status)),
    }
}
