//! The sharding that the calls are made on.

use anyhow::Result;
use pub_catalog::Catalog;
use pub_reader::read_catalog;
use replica_identity::plan;
use shard_checker::{Checked, check_text};
use std::alloc::Global;
use std::sync::Arc;

/// A table whose rows are identified by a unique index, one whose rows are identified by all their values and go to one
/// of two subscribers by their number, and one whose primary key is a number and a text, in another order than that of
/// its columns, and whose notes differ if they are not null.
const CATALOG: &str = "CREATE TABLE codes (id integer PRIMARY KEY, code text NOT NULL, note text);
CREATE UNIQUE INDEX codes_code ON codes (code);
ALTER TABLE codes REPLICA IDENTITY USING INDEX codes_code;
CREATE TABLE orders (id integer PRIMARY KEY, region text);
ALTER TABLE orders REPLICA IDENTITY FULL;
CREATE TABLE places (name text, id integer, note text, PRIMARY KEY (id, name));
CREATE UNIQUE INDEX places_note ON places (note);
CREATE PUBLICATION low FOR TABLE codes, places, TABLE orders WHERE (id < 100);
CREATE PUBLICATION high FOR TABLE orders WHERE (id >= 100);
CREATE SUBSCRIPTION s0 CONNECTION '' PUBLICATION low;
CREATE SUBSCRIPTION s1 CONNECTION '' PUBLICATION high;";

/// The certificates of its tables.
const CERTIFICATES: [&str; 3] = ["o 0", "s 0 s 1 e 0 o 0 n 1 s 1 o 1 e 0 n 1 n 0", "o 0"];

/// The catalog.
pub fn catalog(alloc: Global) -> Result<Catalog> {
    Ok(read_catalog(alloc, CATALOG)?)
}

/// The catalog, whose sharding is sound.
pub fn checked(alloc: Global) -> Result<Arc<Checked, Global>> {
    let catalog = catalog(alloc)?;
    let plan = plan(alloc, &catalog)?;
    let checked = check_text(alloc, catalog, plan, &CERTIFICATES)?;
    Ok(Arc::new(alloc, checked)?)
}
