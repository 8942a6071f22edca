//! `make`.

use crate::refusals::{end_refusals, refuse};
use crate::sharding::catalog;
use anyhow::{Result, ensure};
use bumpalo::Bump;
use cert_maker::{Made, make};
use pub_catalog::Catalog;
use replica_identity::{Plan, plan};
use std::alloc::Global;

/// The table that both subscribers have rows of.
const TABLE: usize = 1;

/// Whether a certificate is made, rather than memory running out. Any other answer is an error.
fn is_made(alloc: Global, arena: &Bump, catalog: &Catalog, plan: &Plan) -> Result<bool> {
    let made = make(alloc, arena, catalog, plan, TABLE);
    let is_refusal = matches!(made, Made::OutOfMemory);
    ensure!(
        is_refusal || matches!(made, Made::Cert(_)),
        "there is no certificate"
    );
    Ok(!is_refusal)
}

/// Makes a certificate with request `number` refused, and tests what follows: the arena is reset, and can be
/// used for the next one. Returns whether it was refused.
pub fn is_refused(alloc: Global, number: u16) -> Result<bool> {
    let catalog = catalog(alloc)?;
    let plan = plan(alloc, &catalog)?;
    let mut arena = Bump::new(alloc);
    refuse(alloc, number)?;
    let is_first = is_made(alloc, &arena, &catalog, &plan)?;
    let was_refused = end_refusals(alloc)?;
    ensure!(is_first || was_refused, "memory is refused without a cause");
    arena.reset()?;
    ensure!(
        is_made(alloc, &arena, &catalog, &plan)?,
        "the same is refused next"
    );
    Ok(was_refused)
}
