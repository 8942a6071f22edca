//! Filters that no text can be parsed to: long chains, and how many different atoms and nodes several have together.

use crate::checks::same;
use filter_tree::{Atom, Filter};
use sql_reader::{Limit, exceeded_limit};
use std::alloc::{AllocError, Global};
use std::test::Fail;

/// The limit that these filters exceed.
fn exceeded(alloc: Global, filters: &[&Filter]) -> Result<Option<Limit>, AllocError> {
    exceeded_limit(alloc, filters)
}

fn missing(column: usize) -> Filter {
    Filter::Atom(Atom::IsNull(column))
}

/// A left-leaning chain of ANDs of this number of atoms: `IS NULL` of the columns `first` to `last` in turn.
fn chain(alloc: Global, atoms: usize, first: usize, last: usize) -> Result<Filter, AllocError> {
    let mut filter = missing(first);
    let mut column = first;
    for _ in 1..atoms {
        column = if column < last { column + 1 } else { first };
        let left = Box::new(alloc, filter)?;
        filter = Filter::And(left, Box::new(alloc, missing(column))?);
    }
    Ok(filter)
}

/// Chains from column 0: how many atoms, the last column, and the limit that is exceeded.
const CHAINS: &[(usize, usize, Option<Limit>)] = &[
    (1, 0, None),
    (64, 63, None),
    (65, 64, Some(Limit::Atoms)),
    (500, 63, None),
    (501, 63, Some(Limit::Nodes)),
    (501, 64, Some(Limit::Atoms)),
    (300_000, 9, Some(Limit::Nodes)),
    (300_000, 299_999, Some(Limit::Atoms)),
];

#[test]
fn chains_pass_the_limits(rt: HostRuntime) -> Result<(), Fail> {
    for (atoms, last, wanted) in CHAINS {
        let filter = chain(rt.alloc(), *atoms, 0, *last)?;
        same(&rt, exceeded(rt.alloc(), &[&filter])?, *wanted);
    }
    Ok(())
}

/// NOT before a filter.
fn not(alloc: Global, filter: Filter) -> Result<Filter, AllocError> {
    Ok(Filter::Not(Box::new(alloc, filter)?))
}

#[test]
fn a_not_is_a_node(rt: HostRuntime) -> Result<(), Fail> {
    let alloc = rt.alloc();
    let thousand = not(alloc, chain(alloc, 500, 0, 9)?)?;
    same(&rt, exceeded(alloc, &[&thousand])?, None);
    let more = not(alloc, thousand)?;
    same(&rt, exceeded(alloc, &[&more])?, Some(Limit::Nodes));
    Ok(())
}

/// Chains of a number of atoms, each from one column to another.
const LONG: (usize, usize, usize) = (461, 0, 39);

const ONE: (usize, usize, usize) = (40, 0, 39);

const SHARED: (usize, usize, usize) = (40, 24, 63);

const NEW: (usize, usize, usize) = (40, 25, 64);

/// Two chains, and the limit that they exceed together.
const PAIRS: &[((usize, usize, usize), (usize, usize, usize), Option<Limit>)] = &[
    (ONE, ONE, None),
    (ONE, SHARED, None),
    (ONE, NEW, Some(Limit::Atoms)),
    (ONE, LONG, None),
    (SHARED, LONG, None),
    (LONG, LONG, Some(Limit::Nodes)),
    (NEW, LONG, Some(Limit::Atoms)),
];

#[test]
fn filters_count_together(rt: HostRuntime) -> Result<(), Fail> {
    let alloc = rt.alloc();
    for ((atoms, first, last), (others, from, to), wanted) in PAIRS {
        let one = chain(alloc, *atoms, *first, *last)?;
        let other = chain(alloc, *others, *from, *to)?;
        same(&rt, exceeded(alloc, &[&one, &other])?, *wanted);
    }
    same(&rt, exceeded(alloc, &[])?, None);
    Ok(())
}

/// The limit that `count` filters of one atom exceed, if `different` of the atoms differ.
fn limit_of(alloc: Global, count: usize, different: usize) -> Result<Option<Limit>, AllocError> {
    let mut filters: Vec<Filter> = Vec::new(alloc);
    for number in 0..count {
        filters.push(Filter::Atom(Atom::IsNull(number.checked_rem(different).unwrap_or(0))))?;
    }
    let mut listed: Vec<&Filter> = Vec::new(alloc);
    for filter in &filters {
        listed.push(filter)?;
    }
    exceeded(alloc, listed.as_slice())
}

#[test]
fn counts_many_filters(rt: HostRuntime) -> Result<(), Fail> {
    let alloc = rt.alloc();
    same(&rt, limit_of(alloc, 64, 64)?, None);
    same(&rt, limit_of(alloc, 65, 65)?, Some(Limit::Atoms));
    same(&rt, limit_of(alloc, 1_000, 64)?, None);
    same(&rt, limit_of(alloc, 1_001, 64)?, Some(Limit::Nodes));
    Ok(())
}
