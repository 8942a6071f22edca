//! The subscribers of a catalog, in their first state.

ghost use Rattle.std.specs.Prelude.{◌≡◌, IfOk, map, slice_get};
ghost use Rattle.std.specs.String.{string_bytes};
ghost use Rattle.pub_catalog.specs.CatalogView.{catalog_view, publication_view};
ghost use Rattle.shard_world.specs.FirstPeers as spec;
ghost use Rattle.shard_world.specs.World as world;

use crate::peer::Peer;
use pub_catalog::{Catalog, Publication, Subscription};
use std::alloc::{AllocError, Global};
use test_subscriber::Subscriber;

/// A copy of a publication's name; empty if there is no publication with this number.
fn publication_name(
    alloc: Global,
    publications: &[Publication],
    number: usize,
) -> Result<String, AllocError>
    ensures { IfOk result (λ name.
        string_bytes name ≡ world.publication_name (slice_get (map publication_view publications.now) number)) }
{
    let name = match publications.get(number) {
        Some(publication) => publication.name.as_str(),
        None => "",
    };
    Ok(String::from_str(alloc, name)?)
}

/// Copies of the names of the publications with these numbers, in their order.
fn publication_names(
    alloc: Global,
    publications: &[Publication],
    numbers: &[usize],
) -> Result<Vec<String>, AllocError>
    ensures { IfOk result (λ names.
        map string_bytes names.items ≡ spec.names_of (map publication_view publications.now) numbers.now) }
{
    let mut names = Vec::with_capacity(alloc, numbers.len())?;
    for number in numbers {
        names.push(publication_name(alloc, publications, *number)?)?;
    }
    Ok(names)
}

/// The subscriber of a subscription, without a connection.
fn first_peer(
    alloc: Global,
    publications: &[Publication],
    subscription: &Subscription,
) -> Result<Peer, AllocError>
    ensures { IfOk result (spec.IsFirstPeer (map publication_view publications.now) subscription.now) }
{
    let slot = String::from_str(alloc, subscription.name.as_str())?;
    let names = publication_names(alloc, publications, subscription.publications.as_slice())?;
    Ok(Peer {
        link: None,
        subscriber: Subscriber::new(alloc, slot, names),
    })
}

/// A subscriber for each subscription of a catalog, in their order. The only error is out of memory.
#[tactic(auto, using(crate::proofs::FirstPeerLemmas::one_more))]
pub(crate) fn first_peers(alloc: Global, catalog: &Catalog) -> Result<Vec<Peer>, AllocError>
    ensures { IfOk result (λ peers. spec.AreFirstPeers (catalog_view catalog.now).publications
        (catalog_view catalog.now).subscriptions peers.items) }
{
    let publications = catalog.publications.as_slice();
    let mut peers = Vec::with_capacity(alloc, catalog.subscriptions.len())?;
    for subscription in catalog.subscriptions.as_slice() {
        peers.push(first_peer(alloc, publications, subscription)?)?;
    }
    Ok(peers)
}
