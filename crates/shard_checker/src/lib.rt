//! Checks whether a sharding is sound: whether each row that fits a table passes to exactly one subscriber.
//! Certificates give the reason, and the check relies on nothing else that their maker says.
#![tactic(auto)]

mod bit_sets;
mod candidate_sets;
mod candidates;
mod checked;
mod claims;
mod covering;
mod domain;
mod error;
mod facts;
mod formulas;
mod known;
mod laws;
mod leaf_masks;
mod masks;
mod members;
mod nodes;
mod nulls;
mod numbering;
mod one_table;
mod owners;
mod publishing;
mod remaining;
mod sharding;
mod source;
mod steps;
mod subject;
mod text_error;
mod texts;
mod values;
mod walk;

pub use checked::Checked;
pub use domain::{Range, kind_at, range_of};
pub use error::{CheckError, Operation};
pub use laws::emptiness_is_decidable;
pub use numbering::{numbered_atoms, numbered_terms};
pub use one_table::check_one;
pub use sharding::{check, shares_in};
pub use text_error::TextError;
pub use texts::check_text;
