//! Laws about the canonical texts of catalogs and filters.

ghost use Rattle.catalog_laws.specs.Laws.{TextsTellCatalogs, TextsTellFilters};

/// A law about catalogs: a function without an effect whose contract states it. If two texts are read as catalogs, and
/// the canonical texts of these catalogs are equal, then the catalogs are equal: they have the same tables,
/// publications, filters and subscriptions, in the same order.
///
/// PostgreSQL 15, SQL Commands, CREATE SCHEMA, CREATE TABLE, CREATE INDEX, ALTER TABLE (REPLICA IDENTITY), CREATE
/// PUBLICATION and CREATE SUBSCRIPTION.
pub fn texts_tell_catalogs()
    ensures { TextsTellCatalogs }
{}

/// A law about filters: a function without an effect whose contract states it. Two filters on the same columns, no two
/// of which have the same name, are equal if their canonical texts are. The texts are in parentheses, as after WHERE,
/// and are compared with all that follows them.
///
/// PostgreSQL 15, "Logical Replication", 31.3 Row Filters.
pub fn texts_tell_filters()
    ensures { TextsTellFilters }
{}
