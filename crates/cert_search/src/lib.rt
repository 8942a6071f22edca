//! Looks for a certificate of a table with its shares, or for a row that shows that it is not sharded correctly. It is
//! only guaranteed that the search ends; `cert_maker` tests what is found.
#![tactic(auto)]

mod atoms;
mod cells;
mod choices;
mod closing;
mod conditions;
mod facts;
mod keys;
mod masks;
mod numbers;
mod owners;
mod parts;
mod problem;
mod rows;
mod scores;
mod search;
mod state;
mod stop;
mod texts;

pub use owners::owners_of;
pub use search::{Found, MAX_STEPS, find_cert};
