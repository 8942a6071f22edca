//! Tests of what `call_driver` cannot make: trees that no text can be parsed to, tables that no catalog has, generic
//! code for a second allocator and for a type, and what values show.
#![tactic(auto)]

#[cfg(test)]
mod chains;
#[cfg(test)]
mod checks;
#[cfg(test)]
mod identities;
#[cfg(test)]
mod maps;
#[cfg(test)]
mod parts;
#[cfg(test)]
mod readers;
#[cfg(test)]
mod shardings;
mod takers;
#[cfg(test)]
mod truths;

pub use takers::{both_take, takes_one_alone};
