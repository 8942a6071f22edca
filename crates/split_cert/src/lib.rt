//! Certificates that a table is sharded correctly, as trees, and their text.
//!
//! A certificate splits the rows of a table by the values of atoms of the filters, until it can name the one subscriber
//! whose filter a row passes.
#![tactic(auto)]

mod cert;
mod cursor;
mod error;
mod head;
mod laws;
mod levels;
mod limits;
mod node;
mod node_reader;
mod number;
mod reading;
mod writing;

pub use cert::{Cert, MAX_NODES, MAX_SPLITS};
pub use error::CertError;
pub use laws::nodes_are_those_of_the_certificate;
pub use limits::is_within_limits;
pub use node::Node;
pub use node_reader::NodeReader;
pub use reading::read_in;
pub use writing::write;
