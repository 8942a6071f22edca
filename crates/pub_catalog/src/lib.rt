//! What the catalog of a publisher has: tables, publications with their row filters, and subscriptions, always within
//! its limits and with names that the grammar allows. It is read by `pub_reader`.
#![tactic(auto)]

mod catalog;
mod index_identity;

pub use catalog::{Catalog, Entry, Operations, Publication, SubscriberNumber, Subscription};
pub use index_identity::identifies;
