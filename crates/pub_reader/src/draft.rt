//! A catalog while it is being read: what was created so far, and the names by which it is found.

ghost use Rattle.std.specs.Prelude.{◌≡◌, ◌<◌, length, map, IfSome};
ghost use Rattle.pub_reader.specs.Drafts as spec;

use crate::coverage::Coverage;
use crate::filters::add_filters;
use crate::names::{Names, check_new, known_number};
use crate::resolution::resolved;
use crate::table_name::NewName;
use filter_tree::{Column, Filter, Identity, Table, TableNumber, Text, UniqueIndex};
use pub_catalog::{Catalog, Operations, Publication, SubscriberNumber, Subscription};
use sql_reader::{ErrorKind, Limit, PlacedName, ReadError};
use std::alloc::{AllocError, Global};

/// How many tables, unique indexes of a table, publications and subscriptions a catalog may have.
const MAX_TABLES: usize = 64;

const MAX_INDEXES: usize = 8;

const MAX_PUBLICATIONS: usize = 64;

const MAX_SUBSCRIPTIONS: usize = 32;

/// The schema that exists from the start.
pub const PUBLIC: &str = "public";

/// A publication while the catalog is being read: what it covers whole is known only at the end of the catalog.
#[derive(Drop)]
pub struct DraftPublication {
    pub name: Text,
    pub publishes: Operations,
    pub coverage: Coverage,
}

/// The number of the index with a name.
pub fn find_index(indexes: &[UniqueIndex], name: &str) -> Option<usize>
    ensures value { result ≡ spec.find_index name.now indexes.now }
    ensures within { IfSome result (λ n. n < length indexes.now) }
{
    indexes.iter().position(|index| name == index.name.as_str())
}

/// Whether a table, or an index of it, has this name in this schema.
fn has_name(table: &Table, schema: &str, name: &str) -> bool
    ensures { result ≡ spec.has_name schema.now name.now table.now }
{
    schema == table.schema.as_str()
        && (name == table.name.as_str() || find_index(table.indexes.as_slice(), name).is_some())
}

/// The schemas, tables, publications and subscriptions created so far, with their names.
#[derive(Drop)]
pub struct Draft {
    schemas: Names,
    tables: Vec<Table>,
    publications: Vec<DraftPublication>,
    publication_names: Names,
    subscriptions: Vec<Subscription>,
    subscription_names: Names,
    ghost same_publications: { publication_names ≡ map (λ p. p.name) publications.items },
    ghost same_subscriptions: { subscription_names ≡ map (λ s. s.name) subscriptions.items },
}

impl Draft {
    ghost use Rattle.std.specs.Prelude.{◌≡◌, ◌<◌, ◌∷◌, ◌++◌, [], length, map, IfOk, IfSome, None, OnOk};
    ghost use Rattle.filter_tree.specs.Shape.{expr_view};
    ghost use Rattle.sql_reader.specs.Reading.{Answers};
    ghost use Rattle.pub_catalog.specs.CatalogEntries.{AllCarryKnown};
    ghost use Rattle.pub_catalog.specs.CatalogLimits.{IsLimited};
    ghost use Rattle.pub_catalog.specs.CatalogNames.{IsNamedCatalog};
    ghost use Rattle.pub_catalog.specs.Catalogs.{schema_at, columns_at, indexes_at, identified, indexed};
    ghost use Rattle.pub_catalog.specs.CatalogView.{catalog_view};
    ghost use Rattle.pub_reader.specs.Drafts as spec;
    ghost use Rattle.pub_reader.specs.DraftView.{draft_view, draft_publication_view};
    ghost use Rattle.pub_reader.specs.Indexes.{check_new_index};
    ghost use Rattle.pub_reader.specs.Publications.{check_new_publication};
    ghost use Rattle.pub_reader.specs.Schemas.{known_position, check_new_schema, known_schema};
    ghost use Rattle.pub_reader.specs.Subscriptions.{check_new_subscription};
    ghost use Rattle.pub_reader.specs.TableNames.{check_new_table, known_table};

    /// Only the schema `public`.
    pub fn new(alloc: Global) -> Result<Draft, AllocError>
        ensures { IfOk result (λ draft. draft_view draft ≡ spec.no_draft) }
    {
        let mut schemas = Names::new(alloc);
        schemas.add(String::from_str(alloc, PUBLIC)?)?;
        Ok(Draft {
            schemas,
            tables: Vec::new(alloc),
            publications: Vec::new(alloc),
            publication_names: Names::new(alloc),
            subscriptions: Vec::new(alloc),
            subscription_names: Names::new(alloc),
        })
    }

    /// Refuses a schema whose name is taken.
    #[tactic(auto, unfolding(crate::specs::Schemas::check_new_schema))]
    pub fn check_new_schema(&self, name: &PlacedName) -> Result<(), ReadError>
        ensures { Answers (λ u. u) (check_new_schema (draft_view self.now).schemas name.now) result }
    {
        let found = self.schemas.find(name.text.as_str());
        if found.is_some() {
            return Err(ReadError {
                place: name.place,
                kind: ErrorKind::NameTwice,
            });
        }
        Ok(())
    }

    /// The number of a schema that was created before.
    #[tactic(auto, unfolding(crate::specs::Schemas::known_schema))]
    pub fn known_schema(&self, name: &PlacedName) -> Result<usize, ReadError>
        ensures { Answers (λ n. n) (known_schema (draft_view self.now).schemas name.now) result }
    {
        known_number(name, self.schemas.find(name.text.as_str()))
    }

    /// Adds a schema.
    pub fn add_schema(&mut self, name: Text) -> Result<(), AllocError>
        ensures { OnOk result (draft_view self.new ≡ record (draft_view self.old)
            { schemas = spec.with_name (draft_view self.old).schemas name }) }
    {
        self.schemas.add(name.into_string())
    }

    /// The number of the table with a schema and a name.
    fn find_table(&self, schema: &str, name: &str) -> Option<TableNumber>
        ensures value { result ≡ spec.find_table schema.now name.now (draft_view self.now).tables }
        ensures within { IfSome result (λ n. n < length (draft_view self.now).tables) }
    {
        self.tables.iter().position(|table| schema == table.schema.as_str()
            && name == table.name.as_str())
    }

    /// The number of the table that has a name in a schema, or that has an index of this name: tables and indexes share
    /// their names.
    fn find_relation(&self, schema: &str, name: &str) -> Option<TableNumber>
        ensures { result ≡ spec.find_relation schema.now name.now (draft_view self.now).tables }
    {
        self.tables
            .iter()
            .position(|table| has_name(table, schema, name))
    }

    /// The number of the publication with a name.
    fn find_publication(&self, name: &str) -> Option<usize>
        ensures { result ≡ spec.find_publication name.now (draft_view self.now).publications }
    {
        self.publication_names.find(name)
    }

    /// The number of the subscription with a name.
    fn find_subscription(&self, name: &str) -> Option<SubscriberNumber>
        ensures { result ≡ spec.find_subscription name.now (draft_view self.now).subscriptions }
    {
        self.subscription_names.find(name)
    }

    /// Refuses a table whose name is taken by a table or an index of its schema, or that is one too many.
    #[tactic(auto, unfolding(crate::specs::TableNames::check_new_table))]
    pub fn check_new_table(&self, name: &NewName) -> Result<(), ReadError>
        ensures { Answers (λ u. u) (check_new_table (draft_view self.now).tables name.now) result }
    {
        let found = self.find_relation(name.schema.as_str(), name.name.text.as_str());
        check_new(
            &name.name,
            found,
            self.tables.len() >= MAX_TABLES,
            Limit::Tables,
        )
    }

    /// Refuses an index of the table with this number, if its name is taken by a table or an index of the table's
    /// schema, or if it is one too many.
    #[tactic(auto, unfolding(crate::specs::Indexes::check_new_index))]
    pub fn check_new_index(&self, number: TableNumber, name: &PlacedName) -> Result<(), ReadError>
        requires { number < length (draft_view self.now).tables }
        ensures { Answers (λ u. u) (check_new_index (draft_view self.now).tables number name.now) result }
    {
        let found = self.find_relation(self.schema(number), name.text.as_str());
        check_new(
            name,
            found,
            self.indexes(number).len() >= MAX_INDEXES,
            Limit::Indexes,
        )
    }

    /// Refuses a publication whose name is taken, or that is one too many.
    #[tactic(auto, unfolding(crate::specs::Publications::check_new_publication))]
    pub fn check_new_publication(&self, name: &PlacedName) -> Result<(), ReadError>
        ensures answer { Answers (λ u. u) (check_new_publication (draft_view self.now) name.now) result }
        ensures free { OnOk result (spec.find_publication name.now.text (draft_view self.now).publications ≡ None) }
    {
        let found = self.find_publication(name.text.as_str());
        check_new(
            name,
            found,
            self.publications.len() >= MAX_PUBLICATIONS,
            Limit::Publications,
        )
    }

    /// Refuses a subscription whose name is taken, or that is one too many.
    #[tactic(auto, unfolding(crate::specs::Subscriptions::check_new_subscription))]
    pub fn check_new_subscription(&self, name: &PlacedName) -> Result<(), ReadError>
        ensures answer { Answers (λ u. u) (check_new_subscription (draft_view self.now) name.now) result }
        ensures free { OnOk result (spec.find_subscription name.now.text (draft_view self.now).subscriptions ≡ None) }
    {
        let found = self.find_subscription(name.text.as_str());
        check_new(
            name,
            found,
            self.subscriptions.len() >= MAX_SUBSCRIPTIONS,
            Limit::Subscriptions,
        )
    }

    /// The number of a table that was created before.
    #[tactic(auto, unfolding(crate::specs::TableNames::known_table))]
    pub fn known_table(&self, schema: &str, name: &PlacedName) -> Result<TableNumber, ReadError>
        ensures answer { Answers (λ n. n) (known_table (draft_view self.now).tables schema.now name.now) result }
        ensures within { IfOk result (λ n. n < length (draft_view self.now).tables) }
    {
        known_number(name, self.find_table(schema, name.text.as_str()))
    }

    /// The number of a publication that was created before.
    pub fn known_publication(&self, name: &PlacedName) -> Result<usize, ReadError>
        ensures { Answers (λ n. n)
            (known_position name.now (spec.find_publication name.now.text (draft_view self.now).publications)) result }
    {
        known_number(name, self.find_publication(name.text.as_str()))
    }

    /// The schema of a table.
    #[tactic(auto, using(crate::proofs::TableLemmas::table_numbers))]
    fn schema(&self, number: TableNumber) -> &str
        requires { number < length (draft_view self.now).tables }
        ensures { result.now ≡ schema_at (draft_view self.now).tables number }
    {
        self.tables[number].schema.as_str()
    }

    /// The columns of a table.
    #[tactic(auto, using(crate::proofs::TableLemmas::table_numbers))]
    pub fn columns(&self, number: TableNumber) -> &[Column]
        requires { number < length (draft_view self.now).tables }
        ensures { result.now ≡ columns_at (draft_view self.now).tables number }
    {
        self.tables[number].columns.as_slice()
    }

    /// The unique indexes of a table.
    #[tactic(auto, using(crate::proofs::TableLemmas::table_numbers))]
    pub fn indexes(&self, number: TableNumber) -> &[UniqueIndex]
        requires { number < length (draft_view self.now).tables }
        ensures { result.now ≡ indexes_at (draft_view self.now).tables number }
    {
        self.tables[number].indexes.as_slice()
    }

    /// The filters on a table.
    pub fn filters(&self, alloc: Global, number: TableNumber) -> Result<Vec<&Filter>, AllocError>
        ensures { IfOk result (λ filters. map (λ f. expr_view f.now) filters.items
            ≡ spec.filters_on (λ f. f) number (draft_view self.now).publications) }
    {
        let mut filters = Vec::new(alloc);
        for publication in &self.publications {
            add_filters(
                &mut filters,
                publication.coverage.entries.as_slice(),
                number,
            )?;
        }
        Ok(filters)
    }

    /// Adds a table.
    pub fn add_table(&mut self, table: Table) -> Result<(), AllocError>
        ensures { OnOk result (draft_view self.new ≡ record (draft_view self.old)
            { tables = (draft_view self.old).tables ++ table ∷ [] }) }
    {
        self.tables.push(table)?;
        Ok(())
    }

    /// Adds a publication with a new name.
    pub fn add_publication(
        &mut self,
        alloc: Global,
        publication: DraftPublication,
    ) -> Result<(), AllocError>
        requires { spec.find_publication publication.name (draft_view self.old).publications ≡ None }
        ensures { OnOk result (draft_view self.new ≡ record (draft_view self.old)
            { publications = (draft_view self.old).publications ++ draft_publication_view publication ∷ [] }) }
    {
        let name = String::from_str(alloc, publication.name.as_str())?;
        self.publications.try_reserve(1)?;
        self.publication_names.add(name)?;
        self.publications.push_reserved(publication);
        Ok(())
    }

    /// Adds a subscription with a new name.
    pub fn add_subscription(
        &mut self,
        alloc: Global,
        subscription: Subscription,
    ) -> Result<(), AllocError>
        requires { spec.find_subscription subscription.name (draft_view self.old).subscriptions ≡ None }
        ensures { OnOk result (draft_view self.new ≡ record (draft_view self.old)
            { subscriptions = (draft_view self.old).subscriptions ++ subscription ∷ [] }) }
    {
        let name = String::from_str(alloc, subscription.name.as_str())?;
        self.subscriptions.try_reserve(1)?;
        self.subscription_names.add(name)?;
        self.subscriptions.push_reserved(subscription);
        Ok(())
    }

    /// Gives a table another replica identity.
    #[tactic(auto, using(crate::proofs::TableLemmas::table_numbers))]
    pub fn identify(&mut self, number: TableNumber, identity: Identity)
        requires { number < length (draft_view self.old).tables }
        ensures { draft_view self.new ≡ record (draft_view self.old)
            { tables = identified (draft_view self.old).tables number identity } }
    {
        self.tables[number].identity = identity;
    }

    /// Gives a table one more unique index.
    #[tactic(auto, using(crate::proofs::TableLemmas::table_numbers))]
    pub fn add_index(&mut self, number: TableNumber, index: UniqueIndex) -> Result<(), AllocError>
        requires { number < length (draft_view self.old).tables }
        ensures { OnOk result (draft_view self.new ≡ record (draft_view self.old)
            { tables = indexed (draft_view self.old).tables number index }) }
    {
        self.tables[number].indexes.push(index)?;
        Ok(())
    }

    /// The catalog, after it was read: what the publications cover is resolved.
    pub fn finish(self, alloc: Global) -> Result<Catalog, AllocError>
        requires limits { IsLimited (spec.resolved (draft_view self)) }
        requires entries { AllCarryKnown (spec.resolved (draft_view self)) }
        requires names { IsNamedCatalog (spec.resolved (draft_view self)) }
        ensures { IfOk result (λ catalog. catalog_view catalog ≡ spec.resolved (draft_view self)) }
    {
        let Draft {
            schemas: _,
            tables,
            publications,
            publication_names: _,
            subscriptions,
            subscription_names: _,
        } = self;
        let publications = resolved(alloc, tables.as_slice(), publications)?;
        Ok(Catalog {
            tables,
            publications,
            subscriptions,
        })
    }
}
