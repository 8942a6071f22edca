//! What each subscriber gets of each table of a catalog, and what a table's replica identity records of an old row.
#![tactic(auto)]

mod change;
mod identity;
mod laws;
mod part;
mod planning;
mod share;
mod shared_row;
mod shares;
mod transforms;

pub use change::{Change, OldPart};
pub use identity::{covered, identity_columns, tells_rows_apart};
pub use laws::{catalogs_make_settings, settings_record_parts};
pub use part::old_part;
pub use planning::plan;
pub use share::Share;
pub use shared_row::SharedRow;
pub use shares::Plan;
pub use transforms::{Out, carries, transform};
