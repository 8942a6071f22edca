//! Calls of `read_catalog`, and the contents of catalogs.

use crate::cells::{count, first};
use crate::desk::Desk;
use crate::escapes::unescaped;
use crate::rows::refusal;
use anyhow::{Context, Result};
use filter_tree::{Filter, Table, copy_in};
use pub_catalog::{Catalog, Operations, Publication, Subscription};
use pub_reader::{ReadError, read_catalog};
use std::alloc::Global;

/// The catalog that the text declares.
pub fn catalog_of(alloc: Global, text: &str) -> Result<Catalog, ReadError> {
    read_catalog(alloc, text)
}

/// Reads a catalog, and puts it on the desk.
fn read(desk: &mut Desk, text: String) -> Result<String> {
    match catalog_of(desk.alloc, text.as_str()) {
        Ok(catalog) => {
            desk.text = text;
            desk.catalog = Some(catalog);
            Ok(String::from_str(desk.alloc, "ok")?)
        }
        Err(error) => refusal(desk.alloc, &error),
    }
}

/// Appends a letter for each operation.
fn push_operations(publishes: Operations, answer: &mut String) -> Result<()> {
    for (letter, is_published) in [
        ("i", publishes.insert),
        ("u", publishes.update),
        ("d", publishes.delete),
        ("t", publishes.truncate),
    ] {
        if is_published {
            answer.push_str(letter)?;
        }
    }
    Ok(())
}

fn push_table(table: &Table, answer: &mut String) -> Result<()> {
    write!(answer, "{}.{} ", table.schema.as_str(), table.name.as_str())?;
    Ok(())
}

fn push_publication(publication: &Publication, answer: &mut String) -> Result<()> {
    write!(answer, "| {} ", publication.name.as_str())?;
    push_operations(publication.publishes, answer)?;
    answer.push(' ')?;
    for entry in &publication.entries {
        let mark = if entry.filter.is_some() { "?" } else { "" };
        write!(answer, "{}{mark} ", entry.table)?;
    }
    Ok(())
}

fn push_subscription(subscription: &Subscription, answer: &mut String) -> Result<()> {
    write!(answer, "> {} ", subscription.name.as_str())?;
    for number in subscription.publications.as_slice() {
        write!(answer, "{number} ")?;
    }
    Ok(())
}

/// The tables, the publications with their operations and entries, with a `?` after an entry that has a filter, and the
/// subscriptions with the numbers of their publications.
fn shown(alloc: Global, catalog: &Catalog) -> Result<String> {
    let mut answer = String::new(alloc);
    for table in &catalog.tables {
        push_table(table, &mut answer)?;
    }
    for publication in &catalog.publications {
        push_publication(publication, &mut answer)?;
    }
    for subscription in &catalog.subscriptions {
        push_subscription(subscription, &mut answer)?;
    }
    Ok(String::from_str(alloc, answer.as_str().trim_end())?)
}

/// The filter of an entry, by the number of its publication and its own number.
fn filter_at(catalog: &Catalog, publication: usize, entry: usize) -> Result<&Filter> {
    let publication = catalog
        .publications
        .get(publication)
        .context("there is no publication")?;
    let entry = publication.entries.get(entry).context("there is no entry")?;
    entry.filter.as_ref().context("the entry has no filter")
}

/// Puts the filter of an entry on the desk.
fn take_filter(desk: &mut Desk, given: &str) -> Result<String> {
    let (publication, entry) = first(given);
    let filter = filter_at(desk.catalog()?, count(publication)?, count(entry)?)?;
    let copy = copy_in(desk.alloc, filter)?;
    desk.filter = Some(copy);
    Ok(String::from_str(desk.alloc, "ok")?)
}

/// The answer to the call.
pub fn answer(desk: &mut Desk, call: &str, rest: &str) -> Result<Option<String>> {
    Ok(Some(match call {
        "read" => {
            let text = unescaped(desk.alloc, rest)?;
            read(desk, text)?
        }
        "show" => shown(desk.alloc, desk.catalog()?)?,
        "filter" => take_filter(desk, rest)?,
        _ => return Ok(None),
    }))
}
