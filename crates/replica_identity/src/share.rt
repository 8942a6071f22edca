//! What a subscriber gets of a table.

ghost use Rattle.std.specs.Prelude.{◌≡◌, IfOk};
ghost use Rattle.std.specs.Option.{option_map};
ghost use Rattle.filter_tree.specs.Shape.{expr_view};
ghost use Rattle.filter_tree.specs.Expr.{Or};
ghost use Rattle.replica_identity.specs.Joining.{joined as joined_of};
ghost use Rattle.replica_identity.specs.Shares.{share_view, Where};

use filter_tree::{Filter, Row, Tri, copy_in, eval};
use std::alloc::{AllocError, Allocator, Global};

/// What a subscriber gets of a table: no row, every row, or the rows for which a filter is true.
///
/// PostgreSQL 15, "Logical Replication", 31.3.6 Combining Multiple Row Filters.
#[derive(Debug, Drop)]
pub enum Share<A: Allocator = Global> {
    Nothing,
    Everything,
    Where(Filter<A>),
}

impl<A: Allocator> Share<A> {
    ghost use Rattle.std.specs.Prelude.{◌≡◌};
    ghost use Rattle.replica_identity.specs.Shares.{share_view, takes};

    /// Whether the subscriber gets the row. It does not if a filter is null.
    pub fn takes<R: Allocator>(&self, row: &Row<R>) -> bool
        ensures { result ≡ takes (share_view self.now) row.now }
    {
        match self {
            Share::Nothing => false,
            Share::Everything => true,
            Share::Where(filter) => matches!(eval(filter, row), Tri::True),
        }
    }
}

/// A filter that is true if either of two is true.
fn either(alloc: Global, left: Filter, right: Filter) -> Result<Filter, AllocError>
    ensures { IfOk result (λ filter. expr_view filter ≡ Or (expr_view left) (expr_view right)) }
{
    let left = Box::new(alloc, left)?;
    let right = Box::new(alloc, right)?;
    Ok(Filter::Or(left, right))
}

/// The share of a filter, with one more filter.
fn with_filter(alloc: Global, filter: Filter, more: &Filter) -> Result<Share, AllocError>
    ensures { IfOk result (λ share. share_view share ≡ Where (Or (expr_view filter) (expr_view more.now))) }
{
    let more = copy_in(alloc, more)?;
    Ok(Share::Where(either(alloc, filter, more)?))
}

/// The share of one filter.
fn first_filter(alloc: Global, filter: &Filter) -> Result<Share, AllocError>
    ensures { IfOk result (λ share. share_view share ≡ Where (expr_view filter.now)) }
{
    Ok(Share::Where(copy_in(alloc, filter)?))
}

/// What a subscriber gets if one more publication carries the table, whole or the rows of a filter. The only error is
/// out of memory.
pub fn joined(alloc: Global, share: Share, more: Option<&Filter>) -> Result<Share, AllocError>
    ensures { IfOk result
        (λ joined. share_view joined ≡ joined_of (share_view share)
        (option_map (λ filter. expr_view filter.now) more.entry)) }
{
    match (share, more) {
        (Share::Everything, _) => Ok(Share::Everything),
        (_, None) => Ok(Share::Everything),
        (Share::Nothing, Some(filter)) => first_filter(alloc, filter),
        (Share::Where(earlier), Some(filter)) => with_filter(alloc, earlier, filter),
    }
}
