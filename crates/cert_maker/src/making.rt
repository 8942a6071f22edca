//! `make`: what the search finds is tested, and only what passes is returned.

ghost use Rattle.std.specs.Prelude.{◌≡◌, ◌≤◌, IfOk, length};
ghost use Rattle.pub_catalog.specs.CatalogView.{catalog_view};
ghost use Rattle.replica_identity.specs.Plans.{plan_view};
ghost use Rattle.shard_checker.specs.CatalogRefusal.{table_shares};
ghost use Rattle.shard_checker.specs.Owners.{shares_view};
ghost use Rattle.cert_maker.specs.Answers.{IfCert, IfCounter, IsAcceptedCert, IsCounter};
ghost use Rattle.cert_maker.specs.Owners.{IsRight};
ghost use Rattle.cert_maker.specs.declared.made.Made.TheVariants.{Unknown};

use crate::made::Made;
use bumpalo::Bump;
use cert_search::{Found, MAX_STEPS, find_cert, owners_of};
use filter_tree::{Row, Table, TableNumber, valid};
use pub_catalog::Catalog;
use replica_identity::{Plan, Share};
use shard_checker::{CheckError, check_one, shares_in};
use split_cert::{Cert, is_within_limits};
use std::alloc::{AllocError, Global};

/// The most steps of all searches of a catalog, which its tables share equally.
const RUN_STEPS: u64 = 1_000_000_000;

/// The result with a certificate, if the check accepts it and it is within the limits on certificates that are read.
fn tested_cert<'b>(
    alloc: Global,
    table: &Table,
    shares: &[&Share],
    cert: Cert<&'b Bump>,
) -> Made<'b>
    ensures { IsRight table.now (shares_view shares.now) result }
{
    match check_one(alloc, table, shares, &cert) {
        Ok(()) if is_within_limits(&cert) => Made::Cert(cert),
        Ok(()) => Made::TooLarge,
        Err(CheckError::OutOfMemory) => Made::OutOfMemory,
        Err(_) => Made::Unknown,
    }
}

/// The result with a row, if it fits the table and the number of shares that take it is not one.
fn tested_row<'b>(
    alloc: Global,
    table: &Table,
    shares: &[&Share],
    row: Row,
) -> Result<Made<'b>, AllocError>
    ensures { IfOk result (IsRight table.now (shares_view shares.now)) }
{
    let owners = owners_of(alloc, shares, &row)?;
    match valid(table, &row) {
        Ok(()) if owners.len() != 1 => Ok(Made::Counter(row, owners)),
        Ok(()) | Err(_) => Ok(Made::Unknown),
    }
}

/// How many steps the search may take for each of this number of tables.
fn steps_of(tables: usize) -> u64 {
    match u64::try_from(tables) {
        Ok(tables) if tables > 0 => MAX_STEPS.min(RUN_STEPS / tables),
        Ok(_) | Err(_) => 0,
    }
}

/// The result for a table with these shares, after at most `steps` steps.
fn tested<'b>(
    alloc: Global,
    arena: &'b Bump,
    table: &Table,
    shares: &[&Share],
    steps: u64,
) -> Result<Made<'b>, AllocError>
    ensures { IfOk result (IsRight table.now (shares_view shares.now)) }
{
    match find_cert(alloc, arena, &*table, &*shares, steps)? {
        Found::Cert(cert) => Ok(tested_cert(alloc, table, shares, cert)),
        Found::Row(row) => tested_row(alloc, table, shares, row),
        Found::Unknown => Ok(Made::Unknown),
        Found::TooLarge => Ok(Made::TooLarge),
    }
}

/// The result for a table, with its number.
fn answer<'b>(
    alloc: Global,
    arena: &'b Bump,
    catalog: &Catalog,
    plan: &Plan,
    number: TableNumber,
    table: &Table,
) -> Result<Made<'b>, AllocError>
    ensures { IfOk result (IsRight table.now
        (table_shares (plan_view plan.now) number 0 (catalog_view catalog.now).subscriptions)) }
{
    let shares = shares_in(alloc, plan, number, catalog.subscriptions.as_slice())?;
    let steps = steps_of(catalog.tables.as_slice().len());
    Ok(tested(alloc, arena, table, &shares, steps)?)
}

/// A certificate of the catalog's table with this number, from 0, or a row that shows that no certificate exists. The
/// plan is the catalog's own.
///
/// A certificate is returned only if `check_one` accepts it with the table and its shares, and if it has at most
/// 1,000,000 nodes and at most 64 splits on a path, so that `read_in` reads what `write` gives for it. A row is
/// returned only if it fits the table and no subscriber gets it, or several do. `Unknown` is returned if neither was
/// found, and for a table that does not exist. The search visits no further node after `MAX_STEPS` steps, or after this
/// table's part of the steps that all tables share. `OutOfMemory` may come instead of any result for a table that
/// exists.
pub fn make<'b>(
    alloc: Global,
    arena: &'b Bump,
    catalog: &Catalog,
    plan: &Plan,
    table: TableNumber,
) -> Made<'b>
    ensures absent { length catalog.now.tables.items ≤ table → result ≡ Unknown }
    ensures cert { IfCert result (IsAcceptedCert (catalog_view catalog.now) (plan_view plan.now) table) }
    ensures counter { IfCounter result (IsCounter (catalog_view catalog.now) (plan_view plan.now) table) }
{
    match catalog.tables.get(table) {
        None => Made::Unknown,
        Some(found) => match answer(alloc, arena, catalog, plan, table, found) {
            Ok(made) => made,
            Err(_) => Made::OutOfMemory,
        },
    }
}
