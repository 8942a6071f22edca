//! What a connection's threads made of it.

use crate::end::End;
use copy_both::LinkFault;
use std::alloc::Global;
use std::sync::Arc;
use tables_log::{Commit, SlotNumber};

/// What came of a connection before its slot is released: the slot whose stream it started, and where in the log, in
/// bytes; `None` for both if it started none; the commits that were taken for it, in order; why it ended; and the fault
/// of what its client sent, if it has one.
#[derive(Debug, Drop)]
pub struct Outcome {
    pub slot: Option<SlotNumber>,
    pub start: Option<u64>,
    pub taken: Vec<Arc<Commit, Global>>,
    pub end: End,
    pub fault: Option<LinkFault>,
}
