//! Calls of `make`.

use crate::cells::{count, push_row};
use crate::desk::Desk;
use anyhow::{Result, bail};
use bumpalo::Bump;
use cert_maker::{Made, make};
use filter_tree::{Row, eval};
use pub_catalog::Catalog;
use replica_identity::Plan;
use split_cert::Cert;
use std::alloc::Global;

/// The result of `make` for a table.
fn made<'b>(
    alloc: Global,
    arena: &'b Bump,
    catalog: &Catalog,
    plan: &Plan,
    table: usize,
) -> Made<'b> {
    make(alloc, arena, catalog, plan, table)
}

fn sort(made: &Made<'_>) -> &'static str {
    match made {
        Made::Cert(_) => "certificate",
        Made::Counter(..) => "counterexample",
        Made::Unknown => "unknown",
        Made::TooLarge => "too large",
        Made::OutOfMemory => "out of memory",
    }
}

/// Which kinds of leaves a certificate has, and how many nodes.
#[derive(Clone, Copy)]
struct Parts {
    count: usize,
    owner: bool,
    empty: bool,
    never_null: bool,
}

fn both(one: Parts, other: Parts) -> Parts {
    Parts {
        count: one.count.saturating_add(other.count),
        owner: one.owner || other.owner,
        empty: one.empty || other.empty,
        never_null: one.never_null || other.never_null,
    }
}

fn counted(cert: &Cert<&Bump>) -> Parts {
    let this = Parts {
        count: 1,
        owner: matches!(cert, Cert::Owner(_)),
        empty: matches!(cert, Cert::Empty(_)),
        never_null: matches!(cert, Cert::NeverNull(_)),
    };
    match cert {
        Cert::Split(_, if_true, if_false, if_null) => both(
            both(this, counted(if_true)),
            both(counted(if_false), counted(if_null)),
        ),
        Cert::Owner(_) | Cert::Empty(_) | Cert::NeverNull(_) => this,
    }
}

/// The number of a certificate's nodes.
fn node_count(alloc: Global, cert: &Cert<&Bump>) -> Result<String> {
    Ok(format!(in alloc; "{}", counted(cert).count)?)
}

/// The kinds of a certificate's leaves.
fn leaves(alloc: Global, cert: &Cert<&Bump>) -> Result<String> {
    let found = counted(cert);
    let mut answer = String::from_str(alloc, "leaves:")?;
    for (is_there, kind) in [
        (found.owner, " owner"),
        (found.empty, " empty"),
        (found.never_null, " never null"),
    ] {
        if is_there {
            answer.push_str(kind)?;
        }
    }
    Ok(answer)
}

/// The owner of all rows.
fn owner(alloc: Global, cert: &Cert<&Bump>) -> Result<String> {
    match cert {
        Cert::Owner(owner) => Ok(format!(in alloc; "{owner}")?),
        _ => bail!("the table has more than one owner"),
    }
}

/// The row of a counterexample and its owners.
fn row_and_owners(alloc: Global, row: &Row, owners: &[usize]) -> Result<String> {
    let mut answer = String::new(alloc);
    push_row(alloc, row, &mut answer)?;
    write!(answer, " {owners:?}")?;
    Ok(answer)
}

/// Whether the filter on the desk is true of the row of a counterexample, and its owners.
fn value_and_owners(desk: &Desk, row: &Row, owners: &[usize]) -> Result<String> {
    let said = eval(desk.filter()?, row);
    Ok(format!(in desk.alloc; "{said:?} {owners:?}")?)
}

/// The answer to a call on a certificate.
fn of_certificate(alloc: Global, cert: &Cert<&Bump>, call: &str) -> Result<Option<String>> {
    Ok(Some(match call {
        "nodes" => node_count(alloc, cert)?,
        "leaves" => leaves(alloc, cert)?,
        "owner" => owner(alloc, cert)?,
        _ => return Ok(None),
    }))
}

/// The answer to a call on a counterexample.
fn of_counterexample(
    desk: &Desk,
    row: &Row,
    owners: &[usize],
    call: &str,
) -> Result<Option<String>> {
    Ok(Some(match call {
        "row" => row_and_owners(desk.alloc, row, owners)?,
        "eval" => value_and_owners(desk, row, owners)?,
        _ => return Ok(None),
    }))
}

/// The answer to the call.
pub fn answer(desk: &mut Desk, call: &str, rest: &str) -> Result<Option<String>> {
    let arena = Bump::new(desk.alloc);
    let made = made(
        desk.alloc,
        &arena,
        desk.catalog()?,
        desk.plan()?,
        count(rest)?,
    );
    if call == "sort" {
        return Ok(Some(String::from_str(desk.alloc, sort(&made))?));
    }
    match &made {
        Made::Cert(cert) => of_certificate(desk.alloc, cert, call),
        Made::Counter(row, owners) => of_counterexample(desk, row, owners.as_slice(), call),
        _ => bail!("nothing is made"),
    }
}
