//! CREATE SCHEMA.

ghost use Rattle.pub_reader.specs.DraftView.{draft_view};
ghost use Rattle.pub_reader.specs.Schemas as spec;
ghost use Rattle.sql_reader.specs.ParsingContracts.{TakesSome};

use crate::draft::Draft;
use sql_reader::{ReadError, Reader, read_name};
use std::alloc::Global;

/// Reads what follows CREATE SCHEMA, and creates the schema.
#[tactic(auto, unfolding(crate::specs::Schemas::create_schema))]
pub fn create_schema(r: &mut Reader<'_>, alloc: Global, draft: &mut Draft) -> Result<(), ReadError>
    ensures { TakesSome (λ _. draft_view draft.new) (spec.create_schema (draft_view draft.old)) r.old result r.new }
{
    let name = read_name(r, alloc, "the name of a schema")?;
    draft.check_new_schema(&name)?;
    draft.add_schema(name.text)?;
    Ok(())
}
