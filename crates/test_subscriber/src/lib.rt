//! The subscriber at the other end of a replication connection: it starts a stream and applies what it receives.
#![tactic(auto)]

mod fault;
mod frames;
mod intake;
mod laws;
mod passes;
mod phase;
mod reading;
mod replica;
mod same_relation;
mod shape;
mod start_query;
mod subscriber;
mod table_copy;

pub use fault::SubFault;
pub use laws::{machines_hear_alike, pieces_are_fed_as_one};
pub use subscriber::Subscriber;
