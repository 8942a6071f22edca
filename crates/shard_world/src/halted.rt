//! Why a step ends before its time.

use copy_both::LinkFault;
use std::alloc::AllocError;
use test_subscriber::SubFault;

/// Memory was refused in the middle of a step on a connection, which cannot continue.
#[derive(Clone, Copy, Debug, PartialEq, Eq)]
pub(crate) struct Halted;

impl From<AllocError> for Halted {
    fn from(_: AllocError) -> Halted {
        Halted
    }
}

impl From<LinkFault> for Halted {
    fn from(_: LinkFault) -> Halted {
        Halted
    }
}

impl From<SubFault> for Halted {
    fn from(_: SubFault) -> Halted {
        Halted
    }
}
