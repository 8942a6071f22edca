//! What a catalog has.

ghost use Rattle.std.specs.Prelude.{◌≤◌, length, map, All};
ghost use Rattle.pub_catalog.specs.CatalogEntries.{CarriesKnown};
ghost use Rattle.pub_catalog.specs.CatalogLimits.{IsLimitedTable};
ghost use Rattle.pub_catalog.specs.CatalogNames.{AreOwnNames, TakesKnown};
ghost use Rattle.pub_catalog.specs.PublicationView.{publication_view};

use filter_tree::{Filter, Items, Table, TableNumber, Text};

/// The number of a subscription in its catalog, from 0 in the order in which subscriptions are created. Its subscriber
/// has the same number.
///
/// PostgreSQL 15, "Logical Replication", 31.2 Subscription.
pub type SubscriberNumber = usize;

/// The tables, the publications and the subscriptions of a catalog, each in the order in which they are created, so
/// that each has a number from 0.
///
/// It is always within its limits: at most 64 tables of at most 100 columns and 8 unique indexes, 64 publications and
/// 32 subscriptions. The columns of a primary key and of a unique index are columns of their table. An identity by an
/// index names an index of the table whose columns are NOT NULL. The names of schemas, tables and columns have 1 to 63
/// bytes of UTF-8, and no zero byte.
///
/// Publications have names of this kind too, and no two have the same name. The same holds for subscriptions. Each
/// entry of a publication is for one of the tables, and its filter names columns of that table. Each subscription names
/// at least one of the publications, and none twice.
///
/// PostgreSQL 15, "Logical Replication", 31.1 Publication, 31.2 Subscription and 31.3 Row Filters.
#[derive(Drop)]
pub struct Catalog {
    pub tables: Vec<Table>,
    pub publications: Vec<Publication>,
    pub subscriptions: Vec<Subscription>,
    ghost few_tables: { length tables.items ≤ 64 },
    ghost limited_tables: { ∥ All IsLimitedTable tables.items ∥₁ },
    ghost few_publications: { length publications.items ≤ 64 },
    ghost few_subscriptions: { length subscriptions.items ≤ 32 },
    ghost named_publications: { ∥ AreOwnNames (map (λ p. p.name) publications.items) ∥₁ },
    ghost named_subscriptions: { ∥ AreOwnNames (map (λ s. s.name) subscriptions.items) ∥₁ },
    ghost known_entries: { ∥ All (CarriesKnown tables.items) (map publication_view publications.items) ∥₁ },
    ghost taken_publications: { ∥ All (TakesKnown (length publications.items)) subscriptions.items ∥₁ },
}

/// Which operations a publication publishes.
///
/// PostgreSQL 15, SQL Commands, CREATE PUBLICATION (publish).
#[derive(Clone, Copy, Debug, PartialEq, Eq)]
pub struct Operations {
    pub insert: bool,
    pub update: bool,
    pub delete: bool,
    pub truncate: bool,
}

/// A publication: its name, the operations that it publishes, and the tables that it carries. These are first the
/// tables that it names, and then, in the order of the tables, each table that it carries whole by FOR ALL TABLES or
/// TABLES IN SCHEMA.
///
/// PostgreSQL 15, "Logical Replication", 31.1 Publication.
#[derive(Drop)]
pub struct Publication {
    pub name: Text,
    pub publishes: Operations,
    pub entries: Vec<Entry>,
}

/// A table that a publication carries: its number, from 0, and the filter of its rows. With no filter all rows are
/// carried.
///
/// PostgreSQL 15, "Logical Replication", 31.3 Row Filters.
#[derive(Drop)]
pub struct Entry {
    pub table: TableNumber,
    pub filter: Option<Filter>,
}

/// A subscription: its name, which is also the name of its replication slot, and the numbers of the publications that
/// it subscribes to, from 0, in the order of its list.
///
/// PostgreSQL 15, "Logical Replication", 31.2 Subscription.
#[derive(Drop)]
pub struct Subscription {
    pub name: Text,
    pub publications: Items<usize>,
}
