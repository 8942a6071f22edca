//! The statements of a catalog.

ghost use Rattle.std.specs.Prelude.{IfOk, OnOk};
ghost use Rattle.sql_reader.specs.ParsingContracts.{Takes, TakesSome, to_read, Reads, Answers};
ghost use Rattle.sql_reader.specs.Written.{as_filter, as_written};
ghost use Rattle.pub_catalog.specs.CatalogEntries.{AllCarryKnown};
ghost use Rattle.pub_catalog.specs.CatalogLimits.{IsLimited};
ghost use Rattle.pub_reader.specs.CatalogMeaning.{MeansAsWritten};
ghost use Rattle.pub_catalog.specs.CatalogNames.{IsNamedCatalog};
ghost use Rattle.pub_reader.specs.DraftNames.{IsNamedDraft};
ghost use Rattle.pub_catalog.specs.CatalogView.{catalog_view};
ghost use Rattle.pub_reader.specs.DraftView.{draft_view};
ghost use Rattle.pub_reader.specs.Statements as spec;

use crate::draft::Draft;
use crate::identity::alter_table;
use crate::index::create_index;
use crate::publication::create_publication;
use crate::schema::create_schema;
use crate::subscription::create_subscription;
use crate::table::create_table;
use pub_catalog::Catalog;
use sql_reader::{Item, Keyword, ReadError, Reader};
use std::alloc::Global;

/// Reads what is created, after CREATE.
#[tactic(auto, using(sql_reader::proofs::Ahead::rest_is_no_more), unfolding(crate::specs::Statements::created))]
fn created(r: &mut Reader<'_>, alloc: Global, draft: &mut Draft) -> Result<(), ReadError>
    ensures { TakesSome (λ _. draft_view draft.new) (spec.created as_filter (draft_view draft.old)) r.old result r.new }
{
    match r.item() {
        Some(Item::Keyword(Keyword::Table)) => {
            r.advance();
            create_table(r, alloc, draft)
        }
        Some(Item::Keyword(Keyword::Publication)) => {
            r.advance();
            create_publication(r, alloc, draft)
        }
        Some(Item::Keyword(Keyword::Schema)) => {
            r.advance();
            create_schema(r, alloc, draft)
        }
        Some(Item::Keyword(Keyword::Subscription)) => {
            r.advance();
            create_subscription(r, alloc, draft)
        }
        Some(Item::Keyword(Keyword::Unique)) => {
            r.advance();
            create_index(r, alloc, draft)
        }
        _ => Err(r.refusal("SCHEMA, TABLE, UNIQUE INDEX, PUBLICATION or SUBSCRIPTION")),
    }
}

#[tactic(auto, unfolding(crate::specs::Statements::create))]
fn create(r: &mut Reader<'_>, alloc: Global, draft: &mut Draft) -> Result<(), ReadError>
    ensures { TakesSome (λ _. draft_view draft.new) (spec.create as_filter (draft_view draft.old)) r.old result r.new }
{
    r.expect(Item::Keyword(Keyword::Create), "CREATE")?;
    created(r, alloc, draft)
}

/// Reads a statement, which may be empty, up to its semicolon.
#[tactic(auto, unfolding(crate::specs::Statements::statement))]
fn statement(r: &mut Reader<'_>, alloc: Global, draft: &mut Draft) -> Result<(), ReadError>
    ensures { Takes (λ _. draft_view draft.new) (spec.statement as_filter (draft_view draft.old)) r.old result r.new }
{
    match r.item() {
        Some(Item::Keyword(Keyword::Create)) => create(r, alloc, draft),
        Some(Item::Keyword(Keyword::Alter)) => alter_table(r, alloc, draft),
        Some(Item::Semicolon) => Ok(()),
        _ => Err(r.refusal("CREATE, ALTER or `;`")),
    }
}

/// Reads a statement and its semicolon.
#[tactic(auto, unfolding(crate::specs::Statements::ended_statement))]
fn ended_statement(r: &mut Reader<'_>, alloc: Global, draft: &mut Draft) -> Result<(), ReadError>
    ensures { TakesSome (λ _. draft_view draft.new) (spec.ended_statement as_filter (draft_view draft.old))
        r.old result r.new }
{
    statement(r, alloc, draft)?;
    r.expect(Item::Semicolon, "`;`")?;
    Ok(())
}

/// Reads statements to the end of a text.
#[tactic(auto, using(sql_reader::proofs::RepetitionLemmas::turns), unfolding(crate::specs::Statements::statements))]
fn statements(r: &mut Reader<'_>, alloc: Global, draft: &mut Draft) -> Result<(), ReadError>
    ensures reads { Reads (λ _. draft_view draft.new) (spec.statements as_filter (draft_view draft.old) (to_read r.old))
        result (to_read r.new) }
    ensures named { IsNamedDraft (draft_view draft.old) → OnOk result (IsNamedDraft (draft_view draft.new)) }
{
    while r.more_ahead()? {
        ended_statement(r, alloc, draft)?;
    }
    Ok(())
}

/// Reads a catalog: CREATE SCHEMA, CREATE TABLE, CREATE UNIQUE INDEX, ALTER TABLE .. REPLICA IDENTITY, CREATE
/// PUBLICATION and CREATE SUBSCRIPTION, each ended by `;`. A publication's entries are the tables that it names, and
/// then each table that it carries whole by FOR ALL TABLES or TABLES IN SCHEMA, wherever in the text the table is
/// created. There are at most 64 tables of at most 100 columns and 8 unique indexes, 64 publications and 32
/// subscriptions. An identity by an index names an index of the table, all of whose columns are NOT NULL. The names of
/// schemas, tables and columns have 1 to 63 bytes of UTF-8, none of which is zero. Each publication has such a name of
/// its own, and so does each subscription, which names at least one of the publications, and none twice. The columns of
/// keys and the tables and columns that publications name exist.
///
/// # Errors
///
/// The first fault of the text, or `OutOfMemory` if an allocation failed.
#[tactic(auto, using(crate::proofs::Rules::facts_of_catalogs))]
pub fn read_catalog(alloc: Global, text: &str) -> Result<Catalog, ReadError>
    ensures catalog { Answers catalog_view (spec.catalog_by as_filter text.now) result }
    ensures written { IfOk result
        (λ catalog. MeansAsWritten (spec.catalog_by as_written text.now) (catalog_view catalog)) }
    ensures limits { IfOk result (λ catalog. IsLimited (catalog_view catalog)) }
    ensures entries { IfOk result (λ catalog. AllCarryKnown (catalog_view catalog)) }
    ensures names { IfOk result (λ catalog. IsNamedCatalog (catalog_view catalog)) }
{
    whole_catalog(alloc, text)
}

#[tactic(auto, unfolding(crate::specs::Statements::catalog_by))]
fn whole_catalog(alloc: Global, text: &str) -> Result<Catalog, ReadError>
    ensures { Answers catalog_view (spec.catalog_by as_filter text.now) result }
{
    let mut draft = Draft::new(alloc)?;
    statements(&mut Reader::new(text), alloc, &mut draft)?;
    Ok(draft.finish(alloc)?)
}
