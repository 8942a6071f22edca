//! The messages of one change: Relations that were not sent before, and what the subscriber gets.

ghost use Rattle.std.specs.Prelude.{◌≡◌, ◌∷◌, [], All, OnOk, false, slice_get, slice_index_or};
ghost use Rattle.std.specs.Option.{option_copied};
ghost use Rattle.pub_catalog.specs.CatalogLimits.{IsLimitedTable};
ghost use Rattle.replica_identity.specs.ChangeView.{part_view};
ghost use Rattle.table_changes.specs.Records as r;
ghost use Rattle.tables_log.specs.Sendable.{IsSendableChange, IsTableNumber};
ghost use Rattle.pgoutput_msgs.specs.Sinks.{TakesEach};
ghost use Rattle.pgoutput_msgs.specs.Telling as spec;

use crate::sink::MessageSink;
use filter_tree::{Row, Table, TableNumber};
use replica_identity::OldPart;
use std::alloc::AllocError;

/// Whether the Relation of the table was sent.
fn is_announced(relation_sent: &[bool], number: TableNumber) -> bool
    ensures { result ≡ slice_index_or relation_sent.now number false }
{
    relation_sent.get(number).copied().unwrap_or(false)
}

#[tactic(auto, using(std::proofs::lemmas::List::set_past))]
fn mark(relation_sent: &mut [bool], number: TableNumber)
    ensures { relation_sent.new ≡ spec.mark_one relation_sent.old number }
{
    if number < relation_sent.len() {
        relation_sent[number] = true;
    }
}

fn table_at(tables: &[Table], number: TableNumber) -> Option<&Table>
    ensures { option_copied result ≡ slice_get tables.now number }
{
    tables.get(number)
}

/// Sends the Relation of a table.
fn say_new_relation<S: MessageSink>(
    tables: &[Table],
    number: TableNumber,
    sink: &mut S,
) -> Result<(), AllocError>
    requires number { IsTableNumber number }
    requires limited { All IsLimitedTable tables.now }
    ensures { OnOk result (TakesEach S.takes_one sink.old sink.new
        (spec.a_relation number (slice_get tables.now number))) }
{
    match table_at(tables, number) {
        None => Ok(()),
        Some(table) => {
            sink.relation(number, table)?;
            Ok(())
        }
    }
}

/// Sends the Relation of a table, if it was not sent before.
fn say_relation<S: MessageSink>(
    tables: &[Table],
    number: TableNumber,
    relation_sent: &[bool],
    sink: &mut S,
) -> Result<(), AllocError>
    requires number { IsTableNumber number }
    requires limited { All IsLimitedTable tables.now }
    ensures { OnOk result
        (TakesEach S.takes_one sink.old sink.new (spec.relation_once tables.now relation_sent.now number)) }
{
    if is_announced(relation_sent, number) {
        return Ok(());
    }
    say_new_relation(tables, number, sink)?;
    Ok(())
}

/// Sends the Relations of tables that were not sent before, in this order.
pub(crate) fn say_relations<S: MessageSink>(
    tables: &[Table],
    numbers: &[TableNumber],
    relation_sent: &mut [bool],
    sink: &mut S,
) -> Result<(), AllocError>
    requires numbers { All IsTableNumber numbers.now }
    requires limited { All IsLimitedTable tables.now }
    ensures said { OnOk result (TakesEach S.takes_one sink.old sink.new
        (spec.relations_of tables.now relation_sent.old numbers.now)) }
    ensures relation_sent { OnOk result (relation_sent.new ≡ spec.mark_all relation_sent.old numbers.now) }
{
    for number in numbers {
        say_relation(tables, *number, relation_sent, sink)?;
        mark(relation_sent, *number);
    }
    Ok(())
}

#[tactic(auto, unfolding(crate::specs::Telling::mark_by))]
pub(crate) fn say_insert<S: MessageSink>(
    tables: &[Table],
    table: TableNumber,
    new: &Row,
    relation_sent: &mut [bool],
    sink: &mut S,
) -> Result<(), AllocError>
    requires sendable { IsSendableChange (r.Insert table new.now) }
    requires limited { All IsLimitedTable tables.now }
    ensures said { OnOk result (TakesEach S.takes_one sink.old sink.new
        (spec.said tables.now relation_sent.old (Some (r.Insert table new.now)))) }
    ensures relation_sent { OnOk result
        (relation_sent.new ≡ spec.mark_by relation_sent.old (Some (r.Insert table new.now))) }
{
    say_relations(tables, &[table], relation_sent, sink)?;
    sink.insert(table, new)?;
    Ok(())
}

#[tactic(auto, unfolding(crate::specs::Telling::mark_by))]
pub(crate) fn say_update<S: MessageSink>(
    tables: &[Table],
    table: TableNumber,
    old: &OldPart,
    new: &Row,
    relation_sent: &mut [bool],
    sink: &mut S,
) -> Result<(), AllocError>
    requires sendable { IsSendableChange (r.Update table (part_view old.now) new.now) }
    requires limited { All IsLimitedTable tables.now }
    ensures said { OnOk result (TakesEach S.takes_one sink.old sink.new
        (spec.said tables.now relation_sent.old (Some (r.Update table (part_view old.now) new.now)))) }
    ensures relation_sent { OnOk result
        (relation_sent.new ≡ spec.mark_by relation_sent.old (Some (r.Update table (part_view old.now) new.now))) }
{
    say_relations(tables, &[table], relation_sent, sink)?;
    sink.update(table, old, new)?;
    Ok(())
}

fn say_gone<S: MessageSink>(
    tables: &[Table],
    table: TableNumber,
    old: &OldPart,
    relation_sent: &mut [bool],
    sink: &mut S,
) -> Result<(), AllocError>
    requires recorded { spec.named_in (r.Delete table (part_view old.now)) ≡ table ∷ [] }
    requires sendable { IsSendableChange (r.Delete table (part_view old.now)) }
    requires limited { All IsLimitedTable tables.now }
    ensures said { OnOk result (TakesEach S.takes_one sink.old sink.new
        (spec.said tables.now relation_sent.old (Some (r.Delete table (part_view old.now))))) }
    ensures relation_sent { OnOk result
        (relation_sent.new ≡ spec.mark_by relation_sent.old (Some (r.Delete table (part_view old.now)))) }
{
    say_relations(tables, &[table], relation_sent, sink)?;
    sink.delete(table, old)?;
    Ok(())
}

/// Sends nothing if nothing is recorded of the row.
pub(crate) fn say_delete<S: MessageSink>(
    tables: &[Table],
    table: TableNumber,
    old: &OldPart,
    relation_sent: &mut [bool],
    sink: &mut S,
) -> Result<(), AllocError>
    requires sendable { IsSendableChange (r.Delete table (part_view old.now)) }
    requires limited { All IsLimitedTable tables.now }
    ensures said { OnOk result (TakesEach S.takes_one sink.old sink.new
        (spec.said tables.now relation_sent.old (Some (r.Delete table (part_view old.now))))) }
    ensures relation_sent { OnOk result
        (relation_sent.new ≡ spec.mark_by relation_sent.old (Some (r.Delete table (part_view old.now)))) }
{
    match old {
        OldPart::None => Ok(()),
        OldPart::Key(_) | OldPart::Full(_) => Ok(say_gone(
            tables,
            table,
            old,
            relation_sent,
            sink,
        )?),
    }
}

#[tactic(auto, unfolding(crate::specs::Telling::mark_by))]
pub(crate) fn say_truncate<S: MessageSink>(
    tables: &[Table],
    numbers: &[TableNumber],
    relation_sent: &mut [bool],
    sink: &mut S,
) -> Result<(), AllocError>
    requires sendable { IsSendableChange (r.Truncate numbers.now) }
    requires limited { All IsLimitedTable tables.now }
    ensures said { OnOk result (TakesEach S.takes_one sink.old sink.new
        (spec.said tables.now relation_sent.old (Some (r.Truncate numbers.now)))) }
    ensures relation_sent { OnOk result
        (relation_sent.new ≡ spec.mark_by relation_sent.old (Some (r.Truncate numbers.now))) }
{
    say_relations(tables, numbers, relation_sent, sink)?;
    sink.truncate(numbers)?;
    Ok(())
}
