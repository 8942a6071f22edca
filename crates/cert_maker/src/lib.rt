//! Searches for a certificate that the check accepts, which shows that a table is sharded correctly, or for a row that
//! shows that it is not. What is found is tested before it is returned, so nobody has to trust the search.
#![tactic(auto)]

mod made;
mod making;

pub use cert_search::MAX_STEPS;
pub use made::Made;
pub use making::make;
