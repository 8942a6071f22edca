//! Laws about the canonical texts of catalogs and filters, which `catalog_text` writes: different catalogs have
//! different texts, and so do different filters.
#![tactic(auto)]

mod laws;

pub use laws::{texts_tell_catalogs, texts_tell_filters};
