//! How the shares of subscribers are made from a catalog.

ghost use Rattle.std.specs.Prelude.{◌≡◌, IfOk, OnOk, fold, map, replicate};
ghost use Rattle.pub_catalog.specs.CatalogView.{catalog_view, entry_view, publication_view};
ghost use Rattle.replica_identity.specs.Joining.{joined as joined_of, joined_at};
ghost use Rattle.replica_identity.specs.Plans as spec;
ghost use Rattle.replica_identity.specs.Plans.{plan_view};
ghost use Rattle.replica_identity.specs.Shares.{share_view, Nothing};

use crate::share::{Share, joined};
use crate::shares::Plan;
use pub_catalog::{Catalog, Entry, Publication, Subscription};
use std::alloc::{AllocError, Global};
use std::mem;

/// Joins an entry to the share of its table.
fn join_to(alloc: Global, share: &mut Share, entry: &Entry) -> Result<(), AllocError>
    ensures { OnOk result (share_view share.new ≡ joined_of (share_view share.old) (entry_view entry.now).filter) }
{
    let earlier = mem::replace(share, Share::Nothing);
    *share = joined(alloc, earlier, entry.filter.as_ref())?;
    Ok(())
}

/// Joins an entry to the share of its table, if the table exists.
#[tactic(auto, using(crate::proofs::PlanLemmas::joins))]
fn join(alloc: Global, shares: &mut Vec<Share>, entry: &Entry) -> Result<(), AllocError>
    ensures { OnOk result
        (map share_view shares.new.items ≡ joined_at (map share_view shares.old.items) (entry_view entry.now)) }
{
    if entry.table >= shares.len() {
        return Ok(());
    }
    join_to(alloc, &mut shares[entry.table], entry)?;
    Ok(())
}

/// Joins entries to the shares of their tables.
fn join_entries(alloc: Global, shares: &mut Vec<Share>, entries: &[Entry]) -> Result<(), AllocError>
    ensures { OnOk result
        (map share_view shares.new.items ≡ fold joined_at (map share_view shares.old.items)
        (map entry_view entries.now)) }
{
    for entry in entries {
        join(alloc, shares, entry)?;
    }
    Ok(())
}

/// Joins the entries of a publication, if it exists.
fn join_publication(
    alloc: Global,
    shares: &mut Vec<Share>,
    publications: &[Publication],
    number: usize,
) -> Result<(), AllocError>
    ensures { OnOk result
        (map share_view shares.new.items ≡ fold joined_at (map share_view shares.old.items)
        (spec.entries_at (map publication_view publications.now) number)) }
{
    match publications.get(number) {
        None => Ok(()),
        Some(publication) => join_entries(alloc, shares, publication.entries.as_slice()),
    }
}

/// Joins the entries of the publications of a list.
fn join_publications(
    alloc: Global,
    shares: &mut Vec<Share>,
    publications: &[Publication],
    numbers: &[usize],
) -> Result<(), AllocError>
    ensures { OnOk result
        (map share_view shares.new.items ≡ fold joined_at (map share_view shares.old.items)
        (spec.entries_listed (map publication_view publications.now) numbers.now)) }
{
    for number in numbers {
        join_publication(alloc, shares, publications, *number)?;
    }
    Ok(())
}

/// The share `Nothing` for each of this number of tables.
fn no_shares(alloc: Global, tables: usize) -> Result<Vec<Share>, AllocError>
    ensures { IfOk result (λ shares. map share_view shares.items ≡ replicate tables Nothing) }
{
    let mut shares = Vec::new(alloc);
    for _ in 0..tables {
        shares.push(Share::Nothing)?;
    }
    Ok(shares)
}

/// A subscriber's share of each table.
#[tactic(auto, using(crate::proofs::JoiningLemmas::joined_all))]
fn shares_for(
    alloc: Global,
    catalog: &Catalog,
    subscription: &Subscription,
) -> Result<Vec<Share>, AllocError>
    ensures { IfOk result
        (λ shares. map share_view shares.items ≡ spec.shares_for (catalog_view catalog.now) subscription.now) }
{
    let tables = catalog.tables.as_slice();
    let mut shares = no_shares(alloc, tables.len())?;
    let publications = catalog.publications.as_slice();
    join_publications(
        alloc,
        &mut shares,
        publications,
        subscription.publications.as_slice(),
    )?;
    Ok(shares)
}

/// The shares of each subscriber.
fn all_shares(alloc: Global, catalog: &Catalog) -> Result<Vec<Vec<Share>>, AllocError>
    ensures { IfOk result
        (λ all. map (λ shares. map share_view shares.items) all.items ≡ spec.plan_of (catalog_view catalog.now)) }
{
    let mut all = Vec::new(alloc);
    for subscription in &catalog.subscriptions {
        all.push(shares_for(alloc, catalog, subscription)?)?;
    }
    Ok(all)
}

/// What each subscriber gets of each table of a catalog. It gets every row if one of its publications carries the table
/// whole. Otherwise it gets the rows for which the filter of one of its publications is true: the filters are joined by
/// OR in the order of the subscription's list. The only error is out of memory. The nesting of a filter uses stack;
/// `read_catalog` limits it.
///
/// PostgreSQL 15, "Logical Replication", 31.3.6 Combining Multiple Row Filters.
#[tactic(auto, using(crate::proofs::PassingLemmas::takes_what_passes))]
pub fn plan(alloc: Global, catalog: &Catalog) -> Result<Plan, AllocError>
    ensures shares { IfOk result (λ plan. plan_view plan ≡ spec.plan_of (catalog_view catalog.now)) }
    ensures passes { IfOk result (λ plan. spec.TakesWhatPasses (catalog_view catalog.now) (plan_view plan)) }
{
    Ok(Plan::new(all_shares(alloc, catalog)?))
}
