//! What a publication covers, while the catalog is being read.

use crate::names::Names;
use filter_tree::{Table, TableNumber, Text};
use pub_catalog::Entry;
use sql_reader::{ErrorKind, ReadError};
use std::alloc::{AllocError, Global};

/// The kind of an object of a publication.
#[derive(Clone, Copy)]
pub enum ObjectKind {
    Table,
    Schema,
}

/// The tables that a publication names, and what it carries whole: the tables of some schemas, or every table. Tables
/// that are created later are included.
#[derive(Drop)]
pub struct Coverage {
    pub entries: Vec<Entry>,
    pub schemas: Names,
    pub everything: bool,
}

impl Coverage {
    ghost use Rattle.std.specs.Prelude.{◌≡◌, OnOk};
    ghost use Rattle.std.specs.List.{list_any};
    ghost use Rattle.sql_reader.specs.Reading.{Answers};
    ghost use Rattle.pub_catalog.specs.CatalogView.{entry_view};
    ghost use Rattle.pub_reader.specs.Drafts.{nothing_covered, takes_table};
    ghost use Rattle.pub_reader.specs.DraftView.{coverage_view};
    ghost use Rattle.pub_reader.specs.Objects as spec;

    /// No tables.
    pub fn new(alloc: Global) -> Coverage
        ensures { coverage_view result ≡ nothing_covered }
    {
        Coverage {
            entries: Vec::new(alloc),
            schemas: Names::new(alloc),
            everything: false,
        }
    }

    /// Whether a table is carried whole, because its schema is or because every table is.
    pub fn covers(&self, table: &Table) -> bool
        ensures { result ≡ takes_table self.now.everything self.now.schemas table.now }
    {
        self.everything || self.schemas.find(table.schema.as_str()).is_some()
    }

    /// Adds the tables of a schema, unless it has them already.
    pub fn add_schema(&mut self, schema: Text) -> Result<(), AllocError>
        ensures { OnOk result (coverage_view self.new ≡ spec.with_schema (coverage_view self.old) schema) }
    {
        self.schemas.add(schema.into_string())
    }

    /// Whether a table is named.
    fn has_table(&self, number: TableNumber) -> bool
        ensures { result ≡ list_any (spec.is_entry_of number) (coverage_view self.now).entries }
    {
        for entry in &self.entries {
            if entry.table == number {
                return true;
            }
        }
        false
    }

    /// Whether a table is named with a filter.
    fn has_filter(&self, number: TableNumber) -> bool
        ensures { result ≡ list_any (spec.is_filtered number) (coverage_view self.now).entries }
    {
        for entry in &self.entries {
            if entry.table == number && entry.filter.is_some() {
                return true;
            }
        }
        false
    }

    /// Adds a table whose name is at this place. If it was named before, nothing is added; it is refused if either
    /// mention has a filter.
    #[tactic(auto, unfolding(crate::specs::Objects::table_mentioned))]
    pub fn add_table(&mut self, place: usize, entry: Entry) -> Result<(), ReadError>
        ensures { Answers (λ _. coverage_view self.new)
            (spec.table_mentioned (coverage_view self.old) place (entry_view entry)) result }
    {
        if !self.has_table(entry.table) {
            self.entries.push(entry)?;
            return Ok(());
        }
        if entry.filter.is_some() || self.has_filter(entry.table) {
            return Err(ReadError {
                place,
                kind: ErrorKind::TableTwice,
            });
        }
        Ok(())
    }
}
