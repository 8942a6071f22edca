//! The line of a refused sharding.

ghost use Rattle.std.specs.Prelude.{◌≡◌, ◌++◌, [], IfOk, OnOk};
ghost use Rattle.std.specs.String.{string_bytes};
ghost use Rattle.pub_catalog.specs.CatalogView.{catalog_view};
ghost use Rattle.commands.specs.Refusals as spec;
ghost use Rattle.commands.specs.Names.{spaced};

use crate::names::{column_name, publication_name, push_table, push_word, subscriber_name};
use filter_tree::{Table, TableNumber};
use pub_catalog::{Catalog, SubscriberNumber};
use shard_checker::{CheckError, Operation};
use std::alloc::{AllocError, Global};

fn operation_word(operation: Operation) -> &'static str
    ensures { result.now ≡ spec.operation_word operation }
{
    match operation {
        Operation::Insert => "insert",
        Operation::Update => "update",
        Operation::Delete => "delete",
        Operation::Truncate => "truncate",
    }
}

/// The name of a refusal, without its arguments.
fn refusal_name(error: CheckError) -> &'static str
    ensures { result.now ≡ spec.refusal_name error }
{
    match error {
        CheckError::PublishMissing { .. } => "PublishMissing",
        CheckError::NoIdentity { .. } => "NoIdentity",
        CheckError::NotCovered { .. } => "NotCovered",
        CheckError::CertCount => "CertCount",
        CheckError::BadIndex { .. } => "BadIndex",
        CheckError::NotEmpty { .. } => "NotEmpty",
        CheckError::MayBeNull { .. } => "MayBeNull",
        CheckError::NotOwner { .. } => "NotOwner",
        CheckError::SecondOwner { .. } => "SecondOwner",
        CheckError::OutOfMemory => "OutOfMemory",
    }
}

/// Writes a table, and the number of a node of its certificate.
fn push_node(
    line: &mut String,
    tables: &[Table],
    table: TableNumber,
    node: usize,
) -> Result<(), AllocError>
    ensures { OnOk result (string_bytes line.new ≡ string_bytes line.old ++ spaced
        (spec.node_words tables.now table node)) }
{
    push_table(line, tables, table)?;
    write!(line, " {node}")
}

/// Writes a table, the number of a node of its certificate, and a subscriber.
fn push_owner(
    line: &mut String,
    catalog: &Catalog,
    table: TableNumber,
    node: usize,
    subscriber: SubscriberNumber,
) -> Result<(), AllocError>
    ensures { OnOk result (string_bytes line.new ≡ string_bytes line.old ++ spaced
        (spec.owner_words (catalog_view catalog.now) table node subscriber)) }
{
    push_node(line, catalog.tables.as_slice(), table, node)?;
    push_word(
        line,
        subscriber_name(catalog.subscriptions.as_slice(), subscriber),
    )
}

/// Writes a publication, and a table that it carries.
fn push_entry(
    line: &mut String,
    catalog: &Catalog,
    publication: usize,
    table: TableNumber,
) -> Result<(), AllocError>
    ensures { OnOk result (string_bytes line.new ≡ string_bytes line.old ++ spaced
        (spec.entry_words (catalog_view catalog.now) publication table)) }
{
    push_word(
        line,
        publication_name(catalog.publications.as_slice(), publication),
    )?;
    push_table(line, catalog.tables.as_slice(), table)
}

/// Writes the arguments of a refusal, with a space before each.
fn push_arguments(line: &mut String, catalog: &Catalog, error: CheckError) -> Result<(), AllocError>
    ensures { OnOk result (string_bytes line.new ≡ string_bytes line.old ++ spaced
        (spec.arguments_of (catalog_view catalog.now) error)) }
{
    let tables = catalog.tables.as_slice();
    let publications = catalog.publications.as_slice();
    match error {
        CheckError::PublishMissing {
            publication,
            operation,
        } => {
            push_word(line, publication_name(publications, publication))?;
            push_word(line, operation_word(operation))
        }
        CheckError::NoIdentity { table } => push_table(line, tables, table),
        CheckError::NotCovered {
            publication,
            table,
            column,
        } => {
            push_entry(line, catalog, publication, table)?;
            push_word(line, column_name(tables, table, column))
        }
        CheckError::BadIndex { table, node }
        | CheckError::NotEmpty { table, node }
        | CheckError::MayBeNull { table, node }
        | CheckError::NotOwner { table, node } => push_node(line, tables, table, node),
        CheckError::SecondOwner {
            table,
            node,
            subscriber,
        } => push_owner(line, catalog, table, node, subscriber),
        CheckError::CertCount | CheckError::OutOfMemory => Ok(()),
    }
}

/// Writes a refusal on an empty line: `refused`, its name, and its arguments with the catalog's names.
fn push_refusal(line: &mut String, catalog: &Catalog, error: CheckError) -> Result<(), AllocError>
    requires { string_bytes line.old ≡ [] }
    ensures { OnOk result (string_bytes line.new ≡ spec.refused_line (catalog_view catalog.now) error) }
{
    line.push_str("refused")?;
    push_word(line, refusal_name(error))?;
    push_arguments(line, catalog, error)
}

/// The line of a refusal, with the catalog's names.
pub fn refusal_text(
    alloc: Global,
    catalog: &Catalog,
    error: CheckError,
) -> Result<String, AllocError>
    ensures { IfOk result (λ line. string_bytes line ≡ spec.refused_line (catalog_view catalog.now) error) }
{
    let mut line = String::new(alloc);
    push_refusal(&mut line, catalog, error)?;
    Ok(line)
}
