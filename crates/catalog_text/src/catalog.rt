//! Publications, subscriptions, and whole catalogs.

ghost use Rattle.std.specs.Prelude.{◌≡◌, ◌++◌, IfOk, OnOk, codes, map};
ghost use Rattle.std.specs.List.{flat_map, join_by};
ghost use Rattle.std.specs.String.{string_bytes};
ghost use Rattle.pub_catalog.specs.CatalogView.{catalog_view, publication_view};
ghost use Rattle.catalog_text.specs.CatalogText as spec;

use crate::objects::write_objects;
use crate::tables::write_tables;
use crate::words::write_name;
use filter_tree::Table;
use pub_catalog::{Catalog, Operations, Publication, Subscription};
use std::alloc::{AllocError, Global};

/// The words with one more added, if `is` says so.
fn with_word(
    mut words: Vec<&'static str>,
    is: bool,
    word: &'static str,
) -> Result<Vec<&'static str>, AllocError>
    ensures { IfOk result (λ longer. map (λ word. word.now) longer.items
        ≡ map (λ word. word.now) words.entry.items ++ spec.word_if is word.now) }
{
    if is {
        words.push(word)?;
    }
    Ok(words)
}

/// The operations that are published.
#[tactic(auto, unfolding(crate::specs::CatalogText::operation_words))]
fn operation_words(alloc: Global, publishes: Operations) -> Result<Vec<&'static str>, AllocError>
    ensures { IfOk result (λ words. map (λ word. word.now) words.items ≡ spec.operation_words publishes) }
{
    let words = with_word(Vec::new(alloc), publishes.insert, "insert")?;
    let words = with_word(words, publishes.update, "update")?;
    let words = with_word(words, publishes.delete, "delete")?;
    with_word(words, publishes.truncate, "truncate")
}

/// Writes words separated by a comma and a space.
fn write_words(words: &[&'static str], text: &mut String) -> Result<(), AllocError>
    ensures { OnOk result (string_bytes text.new ≡ string_bytes text.old
        ++ join_by (λ word. word) (codes ", ") (map (λ word. word.now) words.now)) }
{
    if let [first, others @ ..] = words {
        text.push_str(first)?;
        for word in others {
            text.push_str(", ")?;
            text.push_str(word)?;
        }
    }
    Ok(())
}

#[tactic(auto, unfolding(crate::specs::CatalogText::publication_text))]
fn write_publication(
    alloc: Global,
    tables: &[Table],
    publication: &Publication,
    text: &mut String,
) -> Result<(), AllocError>
    ensures { OnOk result (string_bytes text.new ≡ string_bytes text.old
        ++ spec.publication_text tables.now (publication_view publication.now)) }
{
    let words = operation_words(alloc, publication.publishes)?;
    text.push_str("CREATE PUBLICATION ")?;
    write_name(publication.name.as_str(), text)?;
    write_objects(alloc, tables, publication.entries.as_slice(), text)?;
    text.push_str(" WITH (publish = '")?;
    write_words(words.as_slice(), text)?;
    text.push_str("');\n")?;
    Ok(())
}

fn write_publications(
    alloc: Global,
    tables: &[Table],
    publications: &[Publication],
    text: &mut String,
) -> Result<(), AllocError>
    ensures { OnOk result (string_bytes text.new ≡ string_bytes text.old
        ++ flat_map (spec.publication_text tables.now) (map publication_view publications.now)) }
{
    for publication in publications {
        write_publication(alloc, tables, publication, text)?;
    }
    Ok(())
}

/// Writes the name of the publication with this number; nothing if there is none.
fn write_publication_name(
    publications: &[Publication],
    number: usize,
    text: &mut String,
) -> Result<(), AllocError>
    ensures { OnOk result (string_bytes text.new ≡ string_bytes text.old
        ++ spec.publication_sql (map publication_view publications.now) number) }
{
    match publications.get(number) {
        Some(publication) => write_name(publication.name.as_str(), text),
        None => Ok(()),
    }
}

/// Writes the names of the publications with these numbers, separated by a comma and a space.
fn write_publication_names(
    publications: &[Publication],
    numbers: &[usize],
    text: &mut String,
) -> Result<(), AllocError>
    ensures { OnOk result (string_bytes text.new ≡ string_bytes text.old
        ++ join_by (spec.publication_sql (map publication_view publications.now)) (codes ", ") numbers.now) }
{
    if let [first, others @ ..] = numbers {
        write_publication_name(publications, *first, text)?;
        for number in others {
            text.push_str(", ")?;
            write_publication_name(publications, *number, text)?;
        }
    }
    Ok(())
}

#[tactic(auto, unfolding(crate::specs::CatalogText::subscription_text))]
fn write_subscription(
    publications: &[Publication],
    subscription: &Subscription,
    text: &mut String,
) -> Result<(), AllocError>
    ensures { OnOk result (string_bytes text.new ≡ string_bytes text.old
        ++ spec.subscription_text (map publication_view publications.now) subscription.now) }
{
    text.push_str("CREATE SUBSCRIPTION ")?;
    write_name(subscription.name.as_str(), text)?;
    text.push_str(" CONNECTION '' PUBLICATION ")?;
    write_publication_names(publications, subscription.publications.as_slice(), text)?;
    text.push_str(";\n")?;
    Ok(())
}

fn write_subscriptions(
    publications: &[Publication],
    subscriptions: &[Subscription],
    text: &mut String,
) -> Result<(), AllocError>
    ensures { OnOk result (string_bytes text.new ≡ string_bytes text.old
        ++ flat_map (spec.subscription_text (map publication_view publications.now)) subscriptions.now) }
{
    for subscription in subscriptions {
        write_subscription(publications, subscription, text)?;
    }
    Ok(())
}

/// The text of a catalog: its statements as SQL, one per line. Numbers are resolved to names, every name is quoted, and
/// filters have exactly the parentheses that they need. The only error is out of memory.
#[tactic(auto, unfolding(crate::specs::CatalogText::catalog_text))]
pub fn write_catalog(alloc: Global, catalog: &Catalog) -> Result<String, AllocError>
    ensures { IfOk result (λ text. string_bytes text ≡ spec.catalog_text (catalog_view catalog.now)) }
{
    let tables = catalog.tables.as_slice();
    let publications = catalog.publications.as_slice();
    let mut text = String::new(alloc);
    write_tables(tables, &mut text)?;
    write_publications(alloc, tables, publications, &mut text)?;
    write_subscriptions(publications, catalog.subscriptions.as_slice(), &mut text)?;
    Ok(text)
}
