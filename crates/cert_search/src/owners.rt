//! Which shares take a row.

ghost use Rattle.std.specs.Prelude.{◌≡◌, IfOk};
ghost use Rattle.shard_checker.specs.Owners.{shares_view};
ghost use Rattle.cert_search.specs.Owners.{owners_from};

use filter_tree::{Row, Table, valid};
use replica_identity::Share;
use std::alloc::{AllocError, Global};

/// The numbers of the shares that take the row.
pub fn owners_of(alloc: Global, shares: &[&Share], row: &Row) -> Result<Vec<usize>, AllocError>
    ensures { IfOk result (λ owners. owners.items ≡ owners_from 0 (shares_view shares.now) row.now) }
{
    let mut owners = Vec::new(alloc);
    for (number, share) in shares.iter().enumerate() {
        if share.takes(row) {
            owners.push(number)?;
        }
    }
    Ok(owners)
}

/// How many shares take the row.
fn count_owners(shares: &[&Share], row: &Row) -> usize {
    let mut count = 0usize;
    for share in shares {
        if share.takes(row) {
            count = count.saturating_add(1);
        }
    }
    count
}

/// Whether the row fits the table, and the number of shares that take it is not one.
pub fn is_counter(table: &Table, shares: &[&Share], row: &Row) -> bool {
    valid(table, row).is_ok() && count_owners(shares, row) != 1
}
