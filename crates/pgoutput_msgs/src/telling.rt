//! The messages of a commit: Begin, those of its changes, and Commit.

ghost use Rattle.std.specs.Prelude.{◌≡◌, ◌++◌, All, IfOk, OnOk, OnErr, filter, map};
ghost use Rattle.pub_catalog.specs.CatalogLimits.{IsLimitedTable};
ghost use Rattle.replica_identity.specs.ChangeView.{change_view};
ghost use Rattle.replica_identity.specs.Plans.{plan_view};
ghost use Rattle.replica_identity.specs.Transforms.{takes_any};
ghost use Rattle.row_owners.specs.Owners.{AreOwners};
ghost use Rattle.shard_checker.specs.CheckedView.{checked_view, setting_in};
ghost use Rattle.table_changes.specs.Outs as outs;
ghost use Rattle.table_changes.specs.Outs.{got};
ghost use Rattle.tables_log.specs.Sendable.{IsSendableChange, IsTableNumber};
ghost use Rattle.pgoutput_msgs.specs.Ranges.{IsWithinRange, HasTexts};
ghost use Rattle.pgoutput_msgs.specs.Sent.{IsSent};
ghost use Rattle.pgoutput_msgs.specs.Sinks.{TakesEach};
ghost use Rattle.pgoutput_msgs.specs.Telling as spec;

use crate::message::Msg;
use crate::saying::{say_delete, say_insert, say_truncate, say_update};
use crate::sink::MessageSink;
use crate::spoken::Spoken;
use crate::transaction::{begin_message, commit_message};
use filter_tree::{Table, TableNumber};
use pub_catalog::SubscriberNumber;
use replica_identity::{Change, Out, Plan, carries, transform};
use row_owners::{OwnerSet, next_of};
use shard_checker::Checked;
use std::alloc::{AllocError, Global};
use tables_log::Commit;

/// The messages that report a commit to the subscriber with this number: Begin, then for each change that is for it the
/// message of what it gets, and Commit; none if no change is for it. `relation_sent` is, for each table by its number,
/// whether its Relation was sent: one that was not is sent directly before the first message that names its table,
/// before a Truncate in its order, and is marked from then on. Each message fits its layout (`room`), the bytes that
/// spell it are decoded as that message, and there are at most 13,108,011 of them (`sent`). Positions and transaction
/// numbers are those of `Lsn` and `xid_of_commit`, and OIDs those of `oid_of`. The only error is out of memory, which
/// leaves `relation_sent` as it was.
///
/// PostgreSQL 15, 55.5.3. Logical Replication Protocol Message Flow.
pub fn messages_of(
    alloc: Global,
    checked: &Checked,
    subscriber: SubscriberNumber,
    commit: &Commit,
    relation_sent: &mut [bool],
) -> Result<Vec<Msg>, AllocError>
    ensures exact { IfOk result (λ messages. messages.items
        ≡ spec.messages_for (checked_view checked.now) subscriber relation_sent.old commit.now) }
    ensures relation_sent { OnOk result
        (relation_sent.new
        ≡ spec.relation_sent_after (checked_view checked.now) subscriber relation_sent.old commit.now) }
    ensures err { OnErr result (relation_sent.new ≡ relation_sent.old) }
    ensures room { IfOk result (λ messages. All IsWithinRange messages.items) }
    ensures sent { IfOk result (λ messages. All IsSent messages.items) }
{
    let mut after = Vec::from_slice(alloc, relation_sent)?;
    let mut spoken = Spoken::new(alloc);
    tell_each(
        alloc,
        checked,
        subscriber,
        commit.changes(),
        &[],
        after.as_mut_slice(),
        &mut spoken,
    )?;
    let messages = enclosed(commit, spoken.into_messages())?;
    relation_sent.copy_from_slice(after.as_slice());
    Ok(messages)
}

/// Begin, the messages between, and Commit; no message if there are none between.
#[tactic(auto, using(crate::proofs::TellingLemmas::enclosed_some, crate::proofs::TellingLemmas::enclosed_none))]
fn enclosed(commit: &Commit, said: Vec<Msg>) -> Result<Vec<Msg>, AllocError>
    requires { All HasTexts said.items }
    ensures exact { IfOk result (λ messages. messages.items ≡ spec.enclosed commit.now said.items) }
    ensures texts { IfOk result (λ messages. All HasTexts messages.items) }
{
    if said.is_empty() {
        return Ok(said);
    }
    let mut messages = said;
    messages.insert(0, begin_message(commit))?;
    messages.push(commit_message(commit))?;
    Ok(messages)
}

/// The tables of the catalog.
fn tables_of(checked: &Checked) -> &[Table]
    ensures tables { result.now ≡ (checked_view checked.now).catalog.tables }
    ensures limited { All IsLimitedTable result.now }
{
    checked.catalog().tables.as_slice()
}

/// Reports to the subscriber with this number the changes of a commit that are for it, and tables whose Relation was
/// not sent: the messages between Begin and Commit of `messages_of`, which a sink takes one after the other.
/// `relation_sent` is, for each table by its number, whether its Relation was sent. `owners` are the subscribers that
/// get something from each of the first changes; a change that is not for the subscriber by its set is skipped. The
/// only error is out of memory; then `sink` has taken the first few messages.
///
/// PostgreSQL 15, 55.5.3. Logical Replication Protocol Message Flow.
pub fn tell_changes<S: MessageSink>(
    alloc: Global,
    checked: &Checked,
    subscriber: SubscriberNumber,
    commit: &Commit,
    owners: &[OwnerSet],
    relation_sent: &mut [bool],
    sink: &mut S,
) -> Result<(), AllocError>
    requires { AreOwners (checked_view checked.now).plan commit.now.changes owners.now }
    ensures said { OnOk result (TakesEach S.takes_one sink.old sink.new
        (spec.said_each (checked_view checked.now) subscriber relation_sent.old commit.now.changes)) }
    ensures relation_sent { OnOk result
        (relation_sent.new
        ≡ spec.relation_sent_after (checked_view checked.now) subscriber relation_sent.old commit.now) }
{
    tell_each(
        alloc,
        checked,
        subscriber,
        commit.changes(),
        owners,
        relation_sent,
        sink,
    )?;
    Ok(())
}

/// Reports changes to the subscriber, one after the other. Those that are only for others are passed over.
fn tell_each<S: MessageSink>(
    alloc: Global,
    checked: &Checked,
    subscriber: SubscriberNumber,
    changes: &[Change],
    owners: &[OwnerSet],
    relation_sent: &mut [bool],
    sink: &mut S,
) -> Result<(), AllocError>
    requires sendable { All IsSendableChange (map change_view changes.now) }
    requires owners { AreOwners (checked_view checked.now).plan (map change_view changes.now) owners.now }
    ensures said { OnOk result (TakesEach S.takes_one sink.old sink.new
        (spec.said_each (checked_view checked.now) subscriber relation_sent.old (map change_view changes.now))) }
    ensures relation_sent { OnOk result (relation_sent.new
        ≡ spec.mark_each (checked_view checked.now) subscriber relation_sent.old (map change_view changes.now)) }
{
    let mut place = next_of(owners, 0, subscriber);
    while place < changes.len() {
        tell_change(
            alloc,
            checked,
            subscriber,
            &changes[place],
            relation_sent,
            sink,
        )?;
        place = next_of(owners, place + 1, subscriber);
    }
    Ok(())
}

/// Reports a change to the subscriber.
#[tactic(auto, using(crate::proofs::TellingLemmas::got_changes))]
fn tell_change<S: MessageSink>(
    alloc: Global,
    checked: &Checked,
    subscriber: SubscriberNumber,
    change: &Change,
    relation_sent: &mut [bool],
    sink: &mut S,
) -> Result<(), AllocError>
    requires { IsSendableChange (change_view change.now) }
    ensures said { OnOk result (TakesEach S.takes_one sink.old sink.new
        (spec.said (checked_view checked.now).catalog.tables relation_sent.old
        (got (setting_in (checked_view checked.now)) subscriber (change_view change.now)))) }
    ensures relation_sent { OnOk result (relation_sent.new
        ≡ spec.mark_by relation_sent.old
        (got (setting_in (checked_view checked.now)) subscriber (change_view change.now))) }
{
    let plan = checked.plan();
    let tables = tables_of(checked);
    let table = table_of(change);
    match transform(plan, subscriber, change) {
        None => Ok(()),
        Some(Out::Insert(new)) => Ok(say_insert(tables, table, new, relation_sent, sink)?),
        Some(Out::Update(old, new)) => Ok(say_update(
            tables,
            table,
            old,
            new,
            relation_sent,
            sink,
        )?),
        Some(Out::Delete(old)) => Ok(say_delete(tables, table, old, relation_sent, sink)?),
        Some(Out::Truncate(numbers)) => {
            let carried = carried_of(alloc, plan, subscriber, numbers)?;
            Ok(say_truncate(tables, carried.as_slice(), relation_sent, sink)?)
        }
    }
}

/// The table of a change of rows.
fn table_of(change: &Change) -> TableNumber
    requires { IsSendableChange (change_view change.now) }
    ensures exact { result ≡ outs.changed_table (change_view change.now) }
    ensures within { IsTableNumber result }
{
    match change {
        Change::Insert { table, .. }
        | Change::Update { table, .. }
        | Change::Delete { table, .. } => *table,
        Change::Truncate { .. } => 0,
    }
}

/// Those of the tables that the subscriber gets anything of.
#[tactic(auto, using(crate::proofs::TellingLemmas::kept_numbers))]
fn carried_of(
    alloc: Global,
    plan: &Plan,
    subscriber: SubscriberNumber,
    numbers: &[TableNumber],
) -> Result<Vec<TableNumber>, AllocError>
    requires { All IsTableNumber numbers.now }
    ensures exact { IfOk result (λ carried. carried.items
        ≡ filter (takes_any (plan_view plan.now) subscriber) numbers.now) }
    ensures within { IfOk result (λ carried. All IsTableNumber carried.items) }
{
    let mut carried = Vec::new(alloc);
    for number in numbers {
        if carries(plan, subscriber, *number) {
            carried.push(*number)?;
        }
    }
    Ok(carried)
}
