//! Where a stream starts.

use std::marker::Model;
use tables_log::{Lsn, SlotNumber};

/// The slot whose stream was started, and where in the log the stream starts. Contracts see these two numbers as a
/// pair.
///
/// PostgreSQL 15, 55.4. Streaming Replication Protocol (START_REPLICATION SLOT .. LOGICAL).
#[derive(Clone, Copy, Debug, PartialEq, Eq, Drop)]
pub struct StreamStart {
    pub slot: SlotNumber,
    pub start: Lsn,
}

impl Model for StreamStart {
    ghost use Rattle.std.specs.Prelude.{ℕ};

    ghost Value = { ℕ × ℕ };

    ghost view = { λ s. (s.slot, s.start) };

    ghost inverse = { λ pair. record { slot = pair.0; start = pair.1 } };
}
