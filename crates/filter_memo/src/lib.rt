//! A cache of texts that depend only on the values of row filters. Each atom of the filters is evaluated once for all
//! values of its term that have the same position among its constants. All rows with the same values of the atoms share
//! one text, which is built once.
#![tactic(auto)]

mod all_breakpoints;
mod atoms;
mod bounds;
mod branches;
mod breakpoints;
mod bucket;
mod clause;
mod covering;
mod interval;
mod interval_index;
mod memo;
mod parts;
mod plan;
mod said;
mod telling;

pub use atoms::Atoms;
pub use memo::Memo;
pub use said::Said;
