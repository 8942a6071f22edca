//! The values that earlier calls have made.

use anyhow::{Context, Result};
use bytes::BytesMut;
use copy_both::{Ear, Link, Voice};
use copy_frames::Deframer;
use filter_memo::{Memo, Said};
use filter_tree::{Filter, Row, Table};
use pub_catalog::Catalog;
use replica_identity::{Change, Plan};
use shard_checker::Checked;
use shard_world::World;
use std::alloc::Global;
use std::sync::Arc;
use tables_log::Book;
use test_subscriber::Subscriber;

/// The values that calls have made: the last of each kind.
#[derive(Drop)]
pub struct Desk {
    pub alloc: Global,
    /// The text of the catalog.
    pub text: String,
    pub catalog: Option<Catalog>,
    pub plan: Option<Plan>,
    pub filter: Option<Filter>,
    /// A filter whose atoms are on a path.
    pub path: Option<Filter>,
    pub memo: Option<Memo>,
    pub said: Vec<Said>,
    /// The row that changes begin with.
    pub old: Option<Row>,
    pub change: Option<Change>,
    pub checked: Option<Arc<Checked, Global>>,
    pub book: Option<Book>,
    /// Which tables were announced to a subscriber.
    pub announced: Vec<bool>,
    pub deframer: Option<Deframer>,
    /// The responses to starts.
    pub response: BytesMut,
    pub ears: Vec<Ear>,
    pub voice: Option<Voice>,
    pub links: Vec<Link>,
    pub subscriber: Option<Subscriber>,
    pub world: Option<World>,
}

impl Desk {
    /// An empty desk.
    pub fn new(alloc: Global) -> Desk {
        Desk {
            alloc,
            text: String::new(alloc),
            catalog: None,
            plan: None,
            filter: None,
            path: None,
            memo: None,
            said: Vec::new(alloc),
            old: None,
            change: None,
            checked: None,
            book: None,
            announced: Vec::new(alloc),
            deframer: None,
            response: BytesMut::new(alloc),
            ears: Vec::new(alloc),
            voice: None,
            links: Vec::new(alloc),
            subscriber: None,
            world: None,
        }
    }

    pub fn catalog(&self) -> Result<&Catalog> {
        self.catalog.as_ref().context("there is no catalog")
    }

    pub fn table(&self, number: usize) -> Result<&Table> {
        let catalog = self.catalog()?;
        catalog.tables.get(number).context("there is no such table")
    }

    pub fn plan(&self) -> Result<&Plan> {
        self.plan.as_ref().context("there is no plan")
    }

    pub fn filter(&self) -> Result<&Filter> {
        self.filter.as_ref().context("there is no filter")
    }

    /// The sharding, shared.
    pub fn checked(&self) -> Result<Arc<Checked, Global>> {
        let checked = self.checked.as_ref().context("no sharding is checked")?;
        Ok(Arc::try_clone(checked)?)
    }

    pub fn book(&self) -> Result<&Book> {
        self.book.as_ref().context("there is no book")
    }
}
