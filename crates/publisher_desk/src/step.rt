//! What senders do next.

use std::alloc::Global;
use std::sync::Arc;
use tables_log::{Commit, Routed};

/// What the sender of a slot does next.
#[derive(Drop)]
pub enum SenderStep {
    /// It sends this entry, of which its subscriber gets something.
    Entry(Routed),
    /// It passes over these commits, of which its subscriber gets nothing.
    Skip(Vec<Arc<Commit, Global>>),
    /// It replies to its client.
    Reply,
    /// It ends, since its connection has ended.
    Ended,
    /// It ends, since the publisher is finished and there is no further commit.
    Finished,
    /// It ends, since memory was refused or an entry is shared too often.
    OutOfMemory,
}
