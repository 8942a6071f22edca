//! The check of a whole catalog.

ghost use Rattle.std.specs.Prelude.{◌≡◌, OnOk, IfOk, None, map, length};
ghost use Rattle.filter_tree.specs.Memory.{NeedsMemoryOnlyIf};
ghost use Rattle.pub_catalog.specs.CatalogView.{catalog_view};
ghost use Rattle.replica_identity.specs.Plans.{plan_of, plan_view};
ghost use Rattle.replica_identity.specs.Setting.{setting_of};
ghost use Rattle.table_changes.specs.Standing.{Covered, KeepsApart, DividesRows};
ghost use Rattle.split_cert.specs.Where.{tree_view};
ghost use Rattle.shard_checker.specs.CatalogRefusal as spec;
ghost use Rattle.shard_checker.specs.CatalogTruth.{ShardingIsWrong};
ghost use Rattle.shard_checker.specs.Checks.{Checks, Finds, IfRefused};
ghost use Rattle.shard_checker.specs.CheckedView.{checked_of, checked_view};
ghost use Rattle.shard_checker.specs.Emptiness.{IsEmptiness, EmptyTest};
ghost use Rattle.shard_checker.specs.Owners.{shares_view};
ghost use Rattle.shard_checker.specs.Sound.{IsSound};
ghost use Rattle.shard_checker.specs.Candidates.{is_empty};
ghost use Rattle.shard_checker.specs.Walking as walking;

use crate::checked::Checked;
use crate::covering::{check_covering, check_identities};
use crate::error::CheckError;
use crate::one_table::check_table;
use crate::publishing::check_publishing;
use crate::source::Source;
use filter_tree::{Table, TableNumber};
use pub_catalog::{Catalog, Subscription};
use replica_identity::{Plan, Share};
use split_cert::Cert;
use std::alloc::{AllocError, Allocator, Global};

/// The shares of the subscribers in the table with this number, as `check_one` takes them. The only error is out of
/// memory.
pub fn shares_in<'a>(
    alloc: Global,
    plan: &'a Plan,
    table: TableNumber,
    subscriptions: &[Subscription],
) -> Result<Vec<&'a Share>, AllocError>
    ensures { IfOk result (λ shares.
        shares_view shares.items ≡ spec.table_shares (plan_view plan.now) table 0 subscriptions.now) }
{
    let mut shares = Vec::new(alloc);
    for (number, _) in subscriptions.iter().enumerate() {
        shares.push(plan.share(number, table))?;
    }
    Ok(shares)
}

/// Checks the certificate of the table with this number.
fn check_certificate<C: Source>(
    alloc: Global,
    plan: &Plan,
    subscriptions: &[Subscription],
    number: TableNumber,
    table: &Table,
    cert: &C,
) -> Result<(), CheckError>
    ensures { Checks
        (walking.nodes_refusal is_empty number table.now
        (spec.table_shares (plan_view plan.now) number 0 subscriptions.now) (C.nodes cert.now)) result }
{
    let shares = shares_in(alloc, plan, number, subscriptions)?;
    check_table(alloc, number, table, &shares, cert)
}

/// Checks the certificates of the tables, one for each table.
fn check_certificates<C: Source>(
    alloc: Global,
    plan: &Plan,
    subscriptions: &[Subscription],
    tables: &[Table],
    certs: &[C],
) -> Result<(), CheckError>
    requires { length certs.now ≡ length tables.now }
    ensures { Checks
        (walking.tables_refusal is_empty (plan_view plan.now) subscriptions.now 0 tables.now
        (map C.nodes certs.now)) result }
{
    for (number, table) in tables.iter().enumerate() {
        check_certificate(alloc, plan, subscriptions, number, table, &certs[number])?;
    }
    Ok(())
}

fn check_count(tables: usize, certificates: usize) -> Result<(), CheckError>
    ensures exact { Finds (spec.count_refusal tables certificates) result }
    ensures counted { OnOk result (certificates ≡ tables) }
{
    if certificates == tables {
        Ok(())
    } else {
        Err(CheckError::CertCount)
    }
}

/// Checks what the catalog says about publications and replica identities.
fn check_catalog(alloc: Global, catalog: &Catalog) -> Result<(), CheckError>
    ensures exact { Checks (spec.catalog_refusal (catalog_view catalog.now)) result }
    ensures declared { OnOk result (spec.declared_refusal (catalog_view catalog.now) ≡ None) }
    ensures memory { NeedsMemoryOnlyIf CheckError.OutOfMemory
        (spec.declared_refusal (catalog_view catalog.now) ≡ None) result }
{
    let tables = catalog.tables.as_slice();
    let publications = catalog.publications.as_slice();
    let subscriptions = catalog.subscriptions.as_slice();
    check_publishing(subscriptions, publications)?;
    check_identities(tables)?;
    check_covering(alloc, tables, subscriptions, publications)?;
    Ok(())
}

/// Checks a sharding by certificates that are trees or texts.
pub fn check_given<C: Source>(
    alloc: Global,
    catalog: &Catalog,
    plan: &Plan,
    certs: &[C],
) -> Result<(), CheckError>
    ensures exact { Checks
        (walking.refusal_by_nodes is_empty (catalog_view catalog.now) (plan_view plan.now) (map C.nodes certs.now))
        result }
    ensures memory { NeedsMemoryOnlyIf CheckError.OutOfMemory
        (spec.declared_refusal (catalog_view catalog.now) ≡ None) result }
{
    check_catalog(alloc, catalog)?;
    let tables = catalog.tables.as_slice();
    check_count(tables.len(), certs.len())?;
    check_certificates(alloc, plan, catalog.subscriptions.as_slice(), tables, certs)?;
    Ok(())
}

fn check_sharding<A: Allocator>(
    alloc: Global,
    catalog: &Catalog,
    plan: &Plan,
    certs: &[Cert<A>],
) -> Result<(), CheckError>
    ensures exact { Checks
        (spec.sharding_refusal is_empty (catalog_view catalog.now) (plan_view plan.now) (map tree_view certs.now))
        result }
    ensures memory { NeedsMemoryOnlyIf CheckError.OutOfMemory
        (spec.declared_refusal (catalog_view catalog.now) ≡ None) result }
{
    check_given(alloc, catalog, plan, certs)?;
    Ok(())
}

/// Checks that the sharding of the catalog is sound. Each row that may be in its table, with texts of any length, must
/// pass to exactly one subscriber, as the certificates of the tables, in their order, say. Each subscribed publication
/// must publish insert, update, delete and truncate, and must carry only tables that exist, by filters that name only
/// columns of their replica identities. Each table's replica identity must distinguish its rows; NOTHING does not, nor
/// does an index that does not exist or that has a column which may be null. The plan is the catalog's own.
///
/// In the setting of a catalog that is accepted and its plan, a row's replica identity determines who gets the row
/// (`covered`), commands that are accepted leave no two rows of a table with the same identity (`apart`), and each row
/// that fits its table passes to exactly one subscriber (`divided`). A `Checked` preserves this.
///
/// # Errors
///
/// The first of these: an operation that a subscribed publication does not publish, by publications; a table whose
/// replica identity does not distinguish its rows; a column that a filter names and the replica identity lacks, by
/// subscribed publications, their entries, and columns in the order of first appearance; a number of certificates that
/// is not the number of tables; and then the error of the first certificate that has one, as `check_one` returns it,
/// with the table's number. `OutOfMemory` may come instead of these, but not of the first two (`memory`). What an
/// error says about what it names is true (`wrong`). On an error the catalog and the plan are dropped.
///
/// PostgreSQL 15, "Logical Replication", 31.3 Row Filters.
#[tactic(auto, using(crate::proofs::StandingLemmas::standing, crate::proofs::ReasonLemmas::sharding_wrong))]
pub fn check<A: Allocator>(
    alloc: Global,
    catalog: Catalog,
    plan: Plan,
    certs: &[Cert<A>],
) -> Result<Checked, CheckError>
    requires { plan_view plan ≡ plan_of (catalog_view catalog) }
    ensures sound { OnOk result (IsSound (catalog_view catalog)) }
    ensures covered { OnOk result (Covered (setting_of (catalog_view catalog) (plan_view plan))) }
    ensures apart { OnOk result (KeepsApart (setting_of (catalog_view catalog) (plan_view plan))) }
    ensures divided { OnOk result (DividesRows (setting_of (catalog_view catalog) (plan_view plan))) }
    ensures kept { IfOk result (λ checked. checked_view checked ≡ checked_of catalog plan) }
    ensures exact { (test : EmptyTest) → IsEmptiness test → Checks
        (spec.sharding_refusal test (catalog_view catalog) (plan_view plan) (map tree_view certs.now)) result }
    ensures memory { NeedsMemoryOnlyIf CheckError.OutOfMemory
        (spec.declared_refusal (catalog_view catalog) ≡ None) result }
    ensures wrong { IfRefused result
        (ShardingIsWrong (catalog_view catalog) (plan_view plan) (map tree_view certs.now)) }
{
    check_sharding(alloc, &catalog, &plan, certs)?;
    Ok(Checked::new(catalog, plan))
}
