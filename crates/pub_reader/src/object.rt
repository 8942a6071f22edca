//! What a publication is for: tables, with the filters of their rows, and schemas.

ghost use Rattle.std.specs.Prelude.{◌≡◌};
ghost use Rattle.sql_reader.specs.ParsingContracts.{Takes, TakesSome, to_read, Reads, Answers};
ghost use Rattle.sql_reader.specs.Written.{as_filter};
ghost use Rattle.pub_reader.specs.Drafts.{nothing_covered};
ghost use Rattle.pub_reader.specs.DraftView.{coverage_view, draft_view, objects_view};
ghost use Rattle.pub_reader.specs.Objects as spec;

use crate::coverage::{Coverage, ObjectKind};
use crate::draft::{Draft, PUBLIC};
use crate::filter_clause::filter_clause;
use crate::table_name::table_named;
use filter_tree::Text;
use pub_catalog::Entry;
use sql_reader::{ErrorKind, Item, Keyword, PlacedName, ReadError, Reader, read_name};
use sql_tokens::Operator;
use std::alloc::Global;

/// Adds a schema that was created before.
#[tactic(auto, unfolding(crate::specs::Objects::schema_mentioned, crate::specs::Schemas::known_schema))]
fn mention_schema(draft: &Draft, coverage: &mut Coverage, name: PlacedName) -> Result<(), ReadError>
    ensures { Answers (λ _. coverage_view coverage.new)
        (spec.schema_mentioned (draft_view draft.now) (coverage_view coverage.old) name) result }
{
    draft.known_schema(&name)?;
    coverage.add_schema(name.text)?;
    Ok(())
}

/// Reads the name of a schema.
#[tactic(auto, unfolding(crate::specs::Objects::named_schema))]
fn named_schema(
    r: &mut Reader<'_>,
    alloc: Global,
    draft: &Draft,
    coverage: &mut Coverage,
) -> Result<ObjectKind, ReadError>
    ensures { TakesSome (λ kind. objects_view kind coverage.new)
        (spec.named_schema (draft_view draft.now) (coverage_view coverage.old)) r.old result r.new }
{
    let name = read_name(r, alloc, "the name of a schema")?;
    mention_schema(draft, coverage, name)?;
    Ok(ObjectKind::Schema)
}

/// Reads CURRENT_SCHEMA.
#[tactic(auto, unfolding(crate::specs::Objects::current_schema))]
fn current_schema(
    r: &mut Reader<'_>,
    alloc: Global,
    coverage: &mut Coverage,
) -> Result<ObjectKind, ReadError>
    ensures { TakesSome (λ kind. objects_view kind coverage.new) (spec.current_schema (coverage_view coverage.old))
        r.old result r.new }
{
    r.expect(Item::Keyword(Keyword::CurrentSchema), "CURRENT_SCHEMA")?;
    let schema = Text::from_str(alloc, PUBLIC)?;
    coverage.add_schema(schema)?;
    Ok(ObjectKind::Schema)
}

/// Reads a schema.
#[tactic(auto, unfolding(crate::specs::Objects::schema_object))]
fn schema_object(
    r: &mut Reader<'_>,
    alloc: Global,
    draft: &Draft,
    coverage: &mut Coverage,
) -> Result<ObjectKind, ReadError>
    ensures { TakesSome (λ kind. objects_view kind coverage.new)
        (spec.schema_object (draft_view draft.now) (coverage_view coverage.old)) r.old result r.new }
{
    match r.item() {
        Some(Item::Keyword(Keyword::CurrentSchema)) => current_schema(r, alloc, coverage),
        _ => named_schema(r, alloc, draft, coverage),
    }
}

/// Reads IN SCHEMA and a schema.
#[tactic(auto, unfolding(crate::specs::Objects::in_schema))]
fn in_schema(
    r: &mut Reader<'_>,
    alloc: Global,
    draft: &Draft,
    coverage: &mut Coverage,
) -> Result<ObjectKind, ReadError>
    ensures { TakesSome (λ kind. objects_view kind coverage.new)
        (spec.in_schema (draft_view draft.now) (coverage_view coverage.old)) r.old result r.new }
{
    r.expect(Item::Keyword(Keyword::In), "IN SCHEMA")?;
    r.expect(Item::Keyword(Keyword::Schema), "SCHEMA")?;
    schema_object(r, alloc, draft, coverage)
}

/// Adds a schema, after its name was read.
#[tactic(auto, unfolding(crate::specs::Objects::taken_schema))]
fn taken_schema(
    r: &Reader<'_>,
    draft: &Draft,
    coverage: &mut Coverage,
    name: PlacedName,
) -> Result<ObjectKind, ReadError>
    ensures { Reads (λ kind. objects_view kind coverage.new)
        (spec.taken_schema (draft_view draft.now) (coverage_view coverage.old) name (to_read r.now))
        result (to_read r.now) }
{
    mention_schema(draft, coverage, name)?;
    Ok(ObjectKind::Schema)
}

/// Reads the rest of a table and its filter, after the first part of the table's name was read.
#[tactic(auto, unfolding(crate::specs::Objects::taken_table))]
fn taken_table(
    r: &mut Reader<'_>,
    alloc: Global,
    draft: &Draft,
    coverage: &mut Coverage,
    name: &PlacedName,
) -> Result<ObjectKind, ReadError>
    ensures { Takes (λ kind. objects_view kind coverage.new)
        (spec.taken_table as_filter (draft_view draft.now) (coverage_view coverage.old) name.now) r.old result r.new }
{
    let number = table_named(r, alloc, draft, name)?;
    r.eat(Item::Operator(Operator::Star));
    let filter = filter_clause(r, alloc, draft, coverage, number)?;
    coverage.add_table(
        name.place,
        Entry {
            table: number,
            filter,
        },
    )?;
    Ok(ObjectKind::Table)
}

/// Reads a table with its filter, or a whole table.
#[tactic(auto, unfolding(crate::specs::Objects::table_object))]
fn table_object(
    r: &mut Reader<'_>,
    alloc: Global,
    draft: &Draft,
    coverage: &mut Coverage,
) -> Result<ObjectKind, ReadError>
    ensures { TakesSome (λ kind. objects_view kind coverage.new)
        (spec.table_object as_filter (draft_view draft.now) (coverage_view coverage.old)) r.old result r.new }
{
    r.eat(Item::Keyword(Keyword::Only));
    let name = read_name(r, alloc, "the name of a table")?;
    Ok(taken_table(r, alloc, draft, coverage, &name)?)
}

/// Reads the rest of an object of this kind, after the first part of its name was read.
fn taken_object(
    r: &mut Reader<'_>,
    alloc: Global,
    draft: &Draft,
    kind: ObjectKind,
    coverage: &mut Coverage,
    name: PlacedName,
) -> Result<ObjectKind, ReadError>
    ensures { Takes (λ kind. objects_view kind coverage.new)
        (spec.taken_by as_filter kind (draft_view draft.now) (coverage_view coverage.old) name) r.old result r.new }
{
    match kind {
        ObjectKind::Table => taken_table(r, alloc, draft, coverage, &name),
        ObjectKind::Schema => taken_schema(r, draft, coverage, name),
    }
}

/// Reads the rest of an object, after the word TABLES at its front was read: it begins TABLES IN SCHEMA, or is a name.
#[tactic(auto, unfolding(crate::specs::Objects::after_tables))]
fn after_tables(
    r: &mut Reader<'_>,
    alloc: Global,
    draft: &Draft,
    kind: ObjectKind,
    coverage: &mut Coverage,
    name: PlacedName,
) -> Result<ObjectKind, ReadError>
    ensures { Takes (λ kind. objects_view kind coverage.new)
        (spec.after_tables as_filter (draft_view draft.now) (objects_view kind coverage.old) name) r.old result r.new }
{
    r.look()?;
    match r.item() {
        Some(Item::Keyword(Keyword::In)) => Ok(in_schema(r, alloc, draft, coverage)?),
        _ => Ok(taken_object(r, alloc, draft, kind, coverage, name)?),
    }
}

/// Reads an object whose first word is TABLES.
#[tactic(auto, unfolding(crate::specs::Objects::tables_object))]
fn tables_object(
    r: &mut Reader<'_>,
    alloc: Global,
    draft: &Draft,
    kind: ObjectKind,
    coverage: &mut Coverage,
) -> Result<ObjectKind, ReadError>
    ensures { TakesSome (λ kind. objects_view kind coverage.new)
        (spec.tables_object as_filter (draft_view draft.now) (objects_view kind coverage.old)) r.old result r.new }
{
    let name = read_name(r, alloc, "TABLES")?;
    Ok(after_tables(r, alloc, draft, kind, coverage, name)?)
}

/// Reads an object of this kind.
fn object_of(
    r: &mut Reader<'_>,
    alloc: Global,
    draft: &Draft,
    kind: ObjectKind,
    coverage: &mut Coverage,
) -> Result<ObjectKind, ReadError>
    ensures { TakesSome (λ kind. objects_view kind coverage.new)
        (spec.object_of as_filter kind (draft_view draft.now) (coverage_view coverage.old)) r.old result r.new }
{
    match kind {
        ObjectKind::Table => table_object(r, alloc, draft, coverage),
        ObjectKind::Schema => schema_object(r, alloc, draft, coverage),
    }
}

/// Reads one more object, which is of the kind of the one before unless it names its own.
#[tactic(auto, using(sql_reader::proofs::Ahead::rest_is_no_more), unfolding(crate::specs::Objects::object))]
fn object(
    r: &mut Reader<'_>,
    alloc: Global,
    draft: &Draft,
    kind: ObjectKind,
    coverage: &mut Coverage,
) -> Result<ObjectKind, ReadError>
    ensures { TakesSome (λ kind. objects_view kind coverage.new)
        (spec.object as_filter (draft_view draft.now) (objects_view kind coverage.old)) r.old result r.new }
{
    match r.item() {
        Some(Item::Keyword(Keyword::Table)) => {
            r.advance();
            table_object(r, alloc, draft, coverage)
        }
        Some(Item::Keyword(Keyword::Tables)) => tables_object(r, alloc, draft, kind, coverage),
        _ => object_of(r, alloc, draft, kind, coverage),
    }
}

/// Reads the first object, which names its kind.
#[tactic(auto, using(sql_reader::proofs::Ahead::rest_is_no_more), unfolding(crate::specs::Objects::first_object))]
fn first_object(
    r: &mut Reader<'_>,
    alloc: Global,
    draft: &Draft,
    coverage: &mut Coverage,
) -> Result<ObjectKind, ReadError>
    ensures { TakesSome (λ kind. objects_view kind coverage.new)
        (spec.first_object as_filter (draft_view draft.now) (coverage_view coverage.old)) r.old result r.new }
{
    match r.item() {
        Some(Item::Keyword(Keyword::Table)) => {
            r.advance();
            table_object(r, alloc, draft, coverage)
        }
        Some(Item::Keyword(Keyword::Tables)) => {
            r.advance();
            in_schema(r, alloc, draft, coverage)
        }
        _ => Err(r.refusal("ALL TABLES, TABLE or TABLES IN SCHEMA")),
    }
}

/// Reads objects, separated by commas.
#[tactic(auto, using(sql_reader::proofs::RepetitionLemmas::chains), unfolding(crate::specs::Objects::objects))]
pub fn objects(
    r: &mut Reader<'_>,
    alloc: Global,
    draft: &Draft,
    coverage: &mut Coverage,
) -> Result<ObjectKind, ReadError>
    requires { coverage_view coverage.old ≡ nothing_covered }
    ensures { TakesSome (λ kind. objects_view kind coverage.new) (spec.objects as_filter (draft_view draft.now))
        r.old result r.new }
{
    let mut kind = first_object(r, alloc, draft, coverage)?;
    while r.next_is(Item::Comma)? {
        r.advance();
        kind = object(r, alloc, draft, kind, coverage)?;
    }
    Ok(kind)
}
