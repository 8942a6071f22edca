//! Tests of the program over readers and writers that a started program does not have, by `run` of `cli`.
#![tactic(auto)]

#[cfg(test)]
mod checks;
#[cfg(test)]
mod streams;
