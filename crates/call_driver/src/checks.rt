//! Calls of the checker.

use crate::catalogs::catalog_of;
use crate::cells::{count, first};
use crate::desk::Desk;
use anyhow::{Context, Result, bail};
use filter_tree::{ColType, Term};
use pub_catalog::Catalog;
use replica_identity::{Plan, Share, plan};
use shard_checker::{
    CheckError, Checked, TextError, check, check_one, check_text, kind_at, numbered_atoms,
    numbered_terms, range_of, shares_in,
};
use split_cert::{Cert, read_in};
use std::alloc::Global;
use std::fmt::Debug;
use std::sync::Arc;

/// The texts of certificates, which are separated by semicolons.
fn texts(alloc: Global, given: &str) -> Result<Vec<&str>> {
    let mut texts = Vec::new(alloc);
    if !given.is_empty() {
        for text in given.split(";") {
            texts.push(text)?;
        }
    }
    Ok(texts)
}

/// The certificates that the texts spell.
fn trees(alloc: Global, given: &str) -> Result<Vec<Cert>> {
    let mut trees = Vec::new(alloc);
    for text in &texts(alloc, given)? {
        trees.push(read_in(alloc, *text)?)?;
    }
    Ok(trees)
}

/// Puts a sharding that was accepted on the desk.
fn put(desk: &mut Desk, checked: Checked) -> Result<String> {
    desk.checked = Some(Arc::new(desk.alloc, checked)?);
    Ok(String::from_str(desk.alloc, "ok")?)
}

fn shown<E: Debug>(alloc: Global, error: &E) -> Result<String> {
    Ok(format!(in alloc; "{error:?}")?)
}

/// The check of a sharding by texts.
fn by_texts(alloc: Global, catalog: Catalog, texts: &[&str]) -> Result<Result<Checked, TextError>> {
    let plan = plan(alloc, &catalog)?;
    Ok(check_text(alloc, catalog, plan, texts))
}

/// Checks the catalog's sharding by the texts of certificates.
fn check_texts(desk: &mut Desk, given: &str) -> Result<String> {
    let catalog = catalog_of(desk.alloc, desk.text.as_str())?;
    let texts = texts(desk.alloc, given)?;
    match by_texts(desk.alloc, catalog, texts.as_slice())? {
        Ok(checked) => put(desk, checked),
        Err(error) => shown(desk.alloc, &error),
    }
}

/// The check of a sharding by certificates.
fn by_trees(
    alloc: Global,
    catalog: Catalog,
    trees: &[Cert],
) -> Result<Result<Checked, CheckError>> {
    let plan = plan(alloc, &catalog)?;
    Ok(check(alloc, catalog, plan, trees))
}

/// Checks the catalog's sharding by certificates.
fn check_trees(desk: &mut Desk, given: &str) -> Result<String> {
    let catalog = catalog_of(desk.alloc, desk.text.as_str())?;
    let trees = trees(desk.alloc, given)?;
    match by_trees(desk.alloc, catalog, trees.as_slice())? {
        Ok(checked) => put(desk, checked),
        Err(error) => shown(desk.alloc, &error),
    }
}

/// The shares of a table, by subscriber.
fn shares<'a>(
    alloc: Global,
    catalog: &Catalog,
    plan: &'a Plan,
    table: usize,
) -> Result<Vec<&'a Share>> {
    Ok(shares_in(alloc, plan, table, catalog.subscriptions.as_slice())?)
}

/// Checks the certificate of one table.
fn check_alone(desk: &Desk, given: &str) -> Result<String> {
    let (number, text) = first(given);
    let number = count(number)?;
    let cert = read_in(desk.alloc, text)?;
    let shares = shares(desk.alloc, desk.catalog()?, desk.plan()?, number)?;
    match check_one(desk.alloc, desk.table(number)?, shares.as_slice(), &cert) {
        Ok(()) => Ok(String::from_str(desk.alloc, "ok")?),
        Err(error) => shown(desk.alloc, &error),
    }
}

/// The type of this name.
pub fn column_type(word: &str) -> Result<ColType> {
    Ok(match word {
        "smallint" => ColType::SmallInt,
        "integer" => ColType::Integer,
        "bigint" => ColType::BigInt,
        "boolean" => ColType::Boolean,
        "text" => ColType::Text,
        _ => bail!("there is no such type"),
    })
}

/// The least number and the greatest one of a column of a type, or of its remainders.
fn range(alloc: Global, given: &str) -> Result<String> {
    let (kind, divisor) = first(given);
    let term = match divisor {
        "" => Term::Col(0),
        _ => Term::Mod(0, divisor.parse::<i64>()?),
    };
    let range = range_of(column_type(kind)?, term);
    Ok(format!(in alloc; "{} {}", range.least, range.greatest)?)
}

/// The terms of a table's filters, in the order of their numbers, with the term of each atom, and the number of shares.
fn numbered(desk: &Desk, given: &str) -> Result<String> {
    let alloc = desk.alloc;
    let shares = shares(alloc, desk.catalog()?, desk.plan()?, count(given)?)?;
    let terms = numbered_terms(alloc, shares.as_slice())?;
    let mut answer = format!(in alloc; "{} {:?}", shares.len(), terms.as_slice())?;
    for atom in &numbered_atoms(alloc, shares.as_slice())? {
        let term = atom.term();
        write!(answer, " {term:?}")?;
    }
    Ok(answer)
}

/// The type of a column of a table, by their numbers.
fn kind(desk: &Desk, given: &str) -> Result<String> {
    let (table, column) = first(given);
    let table = desk.table(count(table)?)?;
    let kind = kind_at(table.columns.as_slice(), count(column)?);
    Ok(format!(in desk.alloc; "{kind:?}")?)
}

/// The contents of the sharding: how many tables, the plan's share of a subscriber in a table, and how many shares it
/// has.
fn accepted(desk: &Desk, given: &str) -> Result<String> {
    let (subscriber, table) = first(given);
    let table = count(table)?;
    let checked = desk.checked.as_ref().context("no sharding is checked")?;
    let catalog = checked.catalog();
    let share = match checked.plan().share(count(subscriber)?, table) {
        Share::Nothing => "nothing",
        Share::Everything => "everything",
        Share::Where(_) => "where",
    };
    let shares = shares(desk.alloc, catalog, checked.plan(), table)?;
    Ok(format!(in desk.alloc; "{} {share} {}", catalog.tables.len(), shares.len())?)
}

/// The answer to the call.
pub fn answer(desk: &mut Desk, call: &str, rest: &str) -> Result<Option<String>> {
    Ok(Some(match call {
        "texts" => check_texts(desk, rest)?,
        "certificates" => check_trees(desk, rest)?,
        "one" => check_alone(desk, rest)?,
        "range" => range(desk.alloc, rest)?,
        "terms" => numbered(desk, rest)?,
        "kind" => kind(desk, rest)?,
        "accepted" => accepted(desk, rest)?,
        _ => return Ok(None),
    }))
}
