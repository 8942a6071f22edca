//! Shardings that were accepted.

ghost use Rattle.std.specs.Prelude.{◌≡◌, IfOk, Ok};
ghost use Rattle.std.specs.Arc.{arc_value};
ghost use Rattle.sql_reader.specs.Written.{as_filter};
ghost use Rattle.pub_reader.specs.Statements.{catalog_by};
ghost use Rattle.shard_checker.specs.CheckedView.{checked_view};

use pub_reader::read_catalog;
use replica_identity::plan;
use shard_checker::{Checked, check_text};
use std::alloc::Global;
use std::sync::Arc;
use std::test::Fail;

/// The catalog in a text, whose sharding these certificates show to be sound.
pub fn accepted(
    alloc: Global,
    text: &str,
    certificates: &[&str],
) -> Result<Arc<Checked, Global>, Fail>
    ensures { IfOk result
        (λ checked. catalog_by as_filter text.now ≡ Ok (checked_view (arc_value checked)).catalog) }
{
    let catalog = read_catalog(alloc, text)?;
    let plan = plan(alloc, &catalog)?;
    let checked = check_text(alloc, catalog, plan, certificates)?;
    Ok(Arc::new(alloc, checked)?)
}
