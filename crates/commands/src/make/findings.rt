//! The line of a table after the search for its certificate.

ghost use Rattle.std.specs.Prelude.{◌≡◌, ◌++◌, ◌∷◌, [], IfOk, OnOk, codes};
ghost use Rattle.std.specs.String.{string_bytes};
ghost use Rattle.pub_catalog.specs.CatalogView.{catalog_view};
ghost use Rattle.commands.specs.Make.Making.{finding_view};
ghost use Rattle.commands.specs.Make.Making as spec;
ghost use Rattle.commands.specs.Names.{spaced, plain_table};

use crate::names::{push_table, push_word, subscriber_name};
use cert_maker::Made;
use filter_tree::{Row, TableNumber};
use pub_catalog::{Catalog, SubscriberNumber, Subscription};
use split_cert::write;
use sql_reader::write_row;
use std::alloc::{AllocError, Global};

/// Writes a space, and the names of subscribers, separated by commas, or `none`.
fn push_owners(
    line: &mut String,
    subscriptions: &[Subscription],
    owners: &[SubscriberNumber],
) -> Result<(), AllocError>
    ensures { OnOk result (string_bytes line.new ≡ string_bytes line.old ++ spaced
        (spec.owners_text subscriptions.now owners.now ∷ [])) }
{
    match owners {
        [] => push_word(line, "none"),
        [first, others @ ..] => {
            push_word(line, subscriber_name(subscriptions, *first))?;
            for owner in others {
                line.push(',')?;
                line.push_str(subscriber_name(subscriptions, *owner))?;
            }
            Ok(())
        }
    }
}

/// The line of a row that shows that the table with this number is not sharded correctly.
fn counter_line(
    alloc: Global,
    catalog: &Catalog,
    number: TableNumber,
    row: &Row,
    owners: &[SubscriberNumber],
) -> Result<String, AllocError>
    ensures { IfOk result (λ line. string_bytes line ≡ codes "counter" ++ spaced
        (spec.counter_words (catalog_view catalog.now) number row.now owners.now)) }
{
    let mut line = String::from_str(alloc, "counter")?;
    push_table(&mut line, catalog.tables.as_slice(), number)?;
    push_word(&mut line, write_row(alloc, row)?.as_str())?;
    push_word(&mut line, "owners")?;
    push_owners(&mut line, catalog.subscriptions.as_slice(), owners)?;
    Ok(line)
}

/// The line of the table of this number with these words.
fn undecided_line(
    alloc: Global,
    catalog: &Catalog,
    number: TableNumber,
    words: &str,
) -> Result<String, AllocError>
    ensures { IfOk result (λ line. string_bytes line ≡ words.now ++ spaced
        (plain_table (catalog_view catalog.now).tables number ∷ [])) }
{
    let mut line = String::from_str(alloc, words)?;
    push_table(&mut line, catalog.tables.as_slice(), number)?;
    Ok(line)
}

/// The line of what was found for the table with this number.
pub fn finding_line(
    alloc: Global,
    catalog: &Catalog,
    number: TableNumber,
    made: &Made<'_>,
) -> Result<String, AllocError>
    ensures { IfOk result (λ line. string_bytes line ≡ spec.line_for (catalog_view catalog.now) number
        (finding_view made.now)) }
{
    match made {
        Made::Cert(cert) => write(alloc, cert),
        Made::Counter(row, owners) => counter_line(alloc, catalog, number, row, owners.as_slice()),
        Made::Unknown => undecided_line(alloc, catalog, number, "unknown"),
        Made::TooLarge => undecided_line(alloc, catalog, number, "too large"),
        Made::OutOfMemory => Err(AllocError),
    }
}
