//! What the subscribed publications publish.

ghost use Rattle.std.specs.Prelude.{◌≡◌, ◌≢◌, IfErr, map};
ghost use Rattle.pub_catalog.specs.CatalogView.{publication_view};
ghost use Rattle.shard_checker.specs.CatalogRefusal as spec;
ghost use Rattle.shard_checker.specs.Checks.{Finds};
ghost use Rattle.shard_checker.specs.Sound as sound;

use crate::error::{CheckError, Operation};
use pub_catalog::{Operations, Publication, Subscription};

/// Whether the subscription names the publication with this number.
fn is_listed(publication: usize, subscription: &Subscription) -> bool
    ensures { result ≡ sound.is_listed publication subscription.now }
{
    subscription.publications.as_slice().contains(&publication)
}

/// Whether some subscription names the publication with this number.
pub fn is_taken(subscriptions: &[Subscription], publication: usize) -> bool
    ensures { result ≡ sound.is_taken subscriptions.now publication }
{
    for subscription in subscriptions {
        if is_listed(publication, subscription) {
            return true;
        }
    }
    false
}

/// The first of insert, update, delete and truncate that is not published.
fn missing_operation(publishes: Operations) -> Option<Operation>
    ensures { result ≡ spec.missing_operation publishes }
{
    if !publishes.insert {
        Some(Operation::Insert)
    } else if !publishes.update {
        Some(Operation::Update)
    } else if !publishes.delete {
        Some(Operation::Delete)
    } else if !publishes.truncate {
        Some(Operation::Truncate)
    } else {
        None
    }
}

fn check_operations(publication: usize, publishes: Operations) -> Result<(), CheckError>
    ensures exact { Finds (spec.missing_by publication (spec.missing_operation publishes)) result }
    ensures needs_no_memory { IfErr result (λ error. error ≢ CheckError.OutOfMemory) }
{
    match missing_operation(publishes) {
        None => Ok(()),
        Some(operation) => Err(CheckError::PublishMissing {
            publication,
            operation,
        }),
    }
}

fn check_publication(
    subscriptions: &[Subscription],
    number: usize,
    publishes: Operations,
) -> Result<(), CheckError>
    ensures exact { Finds (spec.publication_refusal subscriptions.now number publishes) result }
    ensures needs_no_memory { IfErr result (λ error. error ≢ CheckError.OutOfMemory) }
{
    if is_taken(subscriptions, number) {
        check_operations(number, publishes)
    } else {
        Ok(())
    }
}

/// Checks that each subscribed publication publishes insert, update, delete and truncate.
pub fn check_publishing(
    subscriptions: &[Subscription],
    publications: &[Publication],
) -> Result<(), CheckError>
    ensures exact { Finds (spec.publishing_refusal subscriptions.now 0 (map publication_view publications.now)) result }
    ensures needs_no_memory { IfErr result (λ error. error ≢ CheckError.OutOfMemory) }
{
    for (number, publication) in publications.iter().enumerate() {
        check_publication(subscriptions, number, publication.publishes)?;
    }
    Ok(())
}
