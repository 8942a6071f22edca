//! Laws about catalogs that are read.

ghost use Rattle.pub_reader.specs.WellFormed.{CatalogsAreWellFormed};

/// A law about catalogs: a function without an effect whose contract states it. Each catalog that a text spells, so
/// each that `read_catalog` returns, is well formed. No table and no unique index has the name of another one of its
/// schema, and no two columns of a table have the same name. A table has a primary key, whose columns are NOT NULL. A
/// key or an index has columns of its table, none twice. A filter is on columns that exist. Each is compared with
/// constants of its own kind, and by an order only if it is an integer; only of an integer a remainder is taken, and
/// not by 0.
///
/// PostgreSQL 15, SQL Commands, CREATE TABLE and CREATE INDEX, and "Logical Replication", 31.3 Row Filters.
pub fn catalogs_are_well_formed()
    ensures { CatalogsAreWellFormed }
{}
