//! Messages to the library that refuses requests for memory, and its answers.

use std::alloc::{AllocError, Global};

/// The size of a request that only `refuse` makes, the same as in `tools/testing/refusing.c`.
const SIGNAL: usize = 1_000_003;

/// The size of a request that only `was_refused` makes. It is more than `SIGNAL` plus any number.
const QUESTION: usize = 2_000_003;

/// Has the request for memory with this number, counted from now, refused, or none for 0: by a request whose size is
/// `SIGNAL` plus the number. Without the library it does nothing.
pub fn refuse(alloc: Global, number: u16) -> Result<(), AllocError> {
    let _signal: Vec<u8> = Vec::with_capacity(alloc, SIGNAL + number as usize)?;
    Ok(())
}

/// Whether the request that was chosen last was refused: if so, this one is refused too. Without the library none is.
pub fn was_refused(alloc: Global) -> bool {
    let question: Result<Vec<u8>, AllocError> = Vec::with_capacity(alloc, QUESTION);
    question.is_err()
}

/// Cancels a choice that has not taken effect, and returns whether it had taken effect.
pub fn end_refusals(alloc: Global) -> Result<bool, AllocError> {
    let was_refused = was_refused(alloc);
    refuse(alloc, 0)?;
    Ok(was_refused)
}
