//! What needs a function with a contract, a second allocator or a type: who takes a row of a sharding that was
//! accepted, filters in an arena, and a law for a type.

use crate::checks::{holds, same};
use crate::takers::{both_take, takes_one_alone};
use bumpalo::Bump;
use copy_both::streams_grow;
use filter_tree::{Filter, Row, Tri, Value, copy_in, eval};
use pub_reader::{read_catalog, read_row};
use replica_identity::{Share, plan};
use shard_checker::{Checked, check_text};
use std::alloc::{AllocError, Global};
use std::process::Abort;
use std::test::Fail;

/// A certificate for `id < 100` and `id >= 100`.
const BY_HALVES: &str = "s 0 s 1 e 0 o 0 n 1 s 1 o 1 e 0 n 1 n 0";

const CATALOG: &str = "CREATE TABLE t (id integer, region text, PRIMARY KEY (id));
CREATE PUBLICATION pa FOR TABLE t WHERE (id < 100);
CREATE PUBLICATION pb FOR TABLE t WHERE (id >= 100);
CREATE SUBSCRIPTION s0 CONNECTION '' PUBLICATION pa;
CREATE SUBSCRIPTION s1 CONNECTION '' PUBLICATION pb;";

/// The sharding of the catalog.
fn accepted(alloc: Global) -> Result<Checked, Fail> {
    let catalog = read_catalog(alloc, CATALOG)?;
    let plan = plan(alloc, &catalog)?;
    Ok(check_text(alloc, catalog, plan, &[BY_HALVES])?)
}

fn row(alloc: Global, id: i64) -> Result<Row, AllocError> {
    Ok(Row::from_values(vec![in alloc; Value::Int(id), Value::Null]?))
}

/// Whether subscriber 0 takes only the row of one number.
fn takes_alone(alloc: Global, checked: &Checked, one: i64, other: i64) -> Result<bool, AllocError> {
    let (one, other) = (row(alloc, one)?, row(alloc, other)?);
    Ok(takes_one_alone(checked, 0, 0, &one, &other))
}

#[test]
fn rows_of_a_checked_catalog_have_one_subscriber(rt: HostRuntime) -> Result<(), Fail> {
    let alloc = rt.alloc();
    let checked = accepted(alloc)?;
    holds(&rt, takes_alone(alloc, &checked, 99, 100)?);
    holds(&rt, !takes_alone(alloc, &checked, 99, 99)?);
    let low = row(alloc, 99)?;
    holds(&rt, both_take(&checked, 0, &low, 0, 0));
    holds(&rt, !both_take(&checked, 0, &low, 0, 1));
    Ok(())
}

/// Fails the test if a copy of the share's filter in an arena has another value for one of these rows.
fn expect_values(
    rt: &impl Abort,
    alloc: Global,
    share: &Share,
    cases: &[(&'static str, Tri)],
) -> Result<(), Fail> {
    let Share::Where(filter) = share else {
        return Err("the share is a filter".into());
    };
    let arena = Bump::new(alloc);
    let copy: Filter<&Bump> = copy_in(&arena, filter)?;
    for (spelling, wanted) in cases {
        same(rt, eval(&copy, &read_row(alloc, *spelling)?), *wanted);
    }
    Ok(())
}

#[test]
fn filters_in_an_arena_say_the_same(rt: HostRuntime) -> Result<(), Fail> {
    let alloc = rt.alloc();
    let catalog = read_catalog(alloc, CATALOG)?;
    let plan = plan(alloc, &catalog)?;
    let of_low = [("(7, 'eu')", Tri::True), ("(100, NULL)", Tri::False)];
    expect_values(&rt, alloc, plan.share(0, 0), &of_low)?;
    let of_high = [("(7, 'eu')", Tri::False), ("(100, NULL)", Tri::True)];
    expect_values(&rt, alloc, plan.share(1, 0), &of_high)
}

/// The law for a type.
#[test]
fn streams_grow_at_a_type() -> Result<(), Fail> {
    streams_grow::<u8>();
    Ok(())
}
