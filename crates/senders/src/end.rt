//! Why a connection ended.

use copy_both::LinkFault;

/// Why a connection ended: the first cause that was noted. If two come at about the same time, for example if a sink
/// fails and the client leaves, it may be either.
///
/// PostgreSQL 15, 55.4. Streaming Replication Protocol.
#[derive(Clone, Copy, Debug, PartialEq, Eq)]
pub enum End {
    /// What it is read from failed.
    ReadFault,
    /// What it is written to failed.
    WriteFault,
    /// Its client sent something invalid, its start was refused, or memory or a thread for it was refused.
    Link(LinkFault),
    /// Its client ended it, or there was nothing more to read.
    Client,
    /// The publisher was finished, and all commits were taken.
    Finished,
}
