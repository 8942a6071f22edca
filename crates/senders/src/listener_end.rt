//! Why a listener ended.

use copy_both::LinkFault;

/// Why a listener ended a connection: its source failed or had no more bytes, a frame of this kind ended it, or what
/// was heard has this fault.
#[derive(Clone, Copy, Debug, PartialEq, Eq)]
pub enum ListenerEnd {
    SourceFailed,
    SourceEnded,
    Frame(u8),
    Fault(LinkFault),
}
