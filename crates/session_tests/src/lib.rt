//! Tests of a publisher that several sessions share, through its public calls.
#![tactic(auto)]

#[cfg(test)]
mod calls;
#[cfg(test)]
mod checks;
#[cfg(test)]
mod connections;
#[cfg(test)]
mod limits;
#[cfg(test)]
mod seats;
mod sharding;
#[cfg(test)]
mod steps;
#[cfg(test)]
mod threads;

pub use sharding::accepted;
