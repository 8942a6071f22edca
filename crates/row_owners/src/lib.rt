//! Which subscribers get something from a commit.
#![tactic(auto)]

mod own_changes;
mod owner_set;
mod router;
mod routes;
mod routing;
mod table_router;

pub use own_changes::{count_of, next_of};
pub use owner_set::OwnerSet;
pub use router::Router;
pub use routes::{ChangeOwners, Routes};
