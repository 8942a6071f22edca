//! CREATE SUBSCRIPTION.

ghost use Rattle.std.specs.Prelude.{◌≡◌, IfOk, None};
ghost use Rattle.pub_reader.specs.Drafts.{find_subscription};
ghost use Rattle.pub_reader.specs.DraftView.{draft_view};
ghost use Rattle.pub_reader.specs.Subscriptions as spec;
ghost use Rattle.sql_reader.specs.ParsingContracts.{TakesSome, to_read, Reads, Answers};

use crate::draft::Draft;
use filter_tree::Items;
use pub_catalog::Subscription;
use sql_reader::{ErrorKind, Item, Keyword, Omitted, PlacedName, ReadError, Reader, read_name};
use std::alloc::Global;

/// Reads the name of a new subscription.
#[tactic(auto, unfolding(crate::specs::Subscriptions::new_subscription_name))]
fn subscription_name(
    r: &mut Reader<'_>,
    alloc: Global,
    draft: &Draft,
) -> Result<PlacedName, ReadError>
    ensures takes { TakesSome (λ name. name) (spec.new_subscription_name (draft_view draft.now)) r.old result r.new }
    ensures free { IfOk result (λ name. find_subscription name.text (draft_view draft.now).subscriptions ≡ None) }
{
    let name = read_name(r, alloc, "the name of a subscription")?;
    draft.check_new_subscription(&name)?;
    Ok(name)
}

/// The number of a publication that was created before, if it is not among these numbers.
#[tactic(auto, unfolding(crate::specs::Subscriptions::subscribed))]
fn subscribed(draft: &Draft, numbers: &[usize], name: &PlacedName) -> Result<usize, ReadError>
    ensures { Answers (λ n. n) (spec.subscribed (draft_view draft.now) numbers.now name.now) result }
{
    let number = draft.known_publication(name)?;
    if numbers.contains(&number) {
        return Err(ReadError {
            place: name.place,
            kind: ErrorKind::NameTwice,
        });
    }
    Ok(number)
}

/// Reads the name of a publication.
#[tactic(auto, unfolding(crate::specs::Subscriptions::one_publication))]
fn one_publication(
    r: &mut Reader<'_>,
    alloc: Global,
    draft: &Draft,
    numbers: &mut Vec<usize>,
) -> Result<(), ReadError>
    ensures { TakesSome (λ _. numbers.new.items) (spec.one_publication (draft_view draft.now) numbers.old.items)
        r.old result r.new }
{
    let name = read_name(r, alloc, "the name of a publication")?;
    let number = subscribed(draft, numbers.as_slice(), &name)?;
    numbers.push(number)?;
    Ok(())
}

/// Reads the names of publications, separated by commas.
#[tactic(auto, using(crate::proofs::Rules::chaining), unfolding(crate::specs::Subscriptions::publication_list))]
fn publication_list(
    r: &mut Reader<'_>,
    alloc: Global,
    draft: &Draft,
) -> Result<Vec<usize>, ReadError>
    ensures { TakesSome (λ numbers. numbers.items) (spec.publication_list (draft_view draft.now)) r.old result r.new }
{
    let mut numbers = Vec::new(alloc);
    one_publication(r, alloc, draft, &mut numbers)?;
    while r.next_is(Item::Comma)? {
        r.advance();
        one_publication(r, alloc, draft, &mut numbers)?;
    }
    Ok(numbers)
}

/// Refuses WITH after the publications.
#[tactic(auto, unfolding(crate::specs::Subscriptions::subscription_tail))]
fn subscription_tail(r: &Reader<'_>) -> Result<(), ReadError>
    ensures { Reads (λ u. u) (spec.subscription_tail (to_read r.now)) result (to_read r.now) }
{
    match r.item() {
        Some(Item::Keyword(Keyword::With)) => Err(r.refused(ErrorKind::LeftOut(Omitted::Clause))),
        _ => Ok(()),
    }
}

/// Reads what follows the name of a subscription, and returns the numbers of its publications.
#[tactic(auto, unfolding(crate::specs::Subscriptions::subscription_body))]
fn subscription_body(
    r: &mut Reader<'_>,
    alloc: Global,
    draft: &Draft,
) -> Result<Vec<usize>, ReadError>
    ensures { TakesSome (λ numbers. numbers.items) (spec.subscription_body (draft_view draft.now)) r.old result r.new }
{
    r.expect(Item::Keyword(Keyword::Connection), "CONNECTION")?;
    r.expect(Item::Text, "a string")?;
    r.expect(Item::Keyword(Keyword::Publication), "PUBLICATION")?;
    let numbers = publication_list(r, alloc, draft)?;
    subscription_tail(r)?;
    Ok(numbers)
}

/// Reads what follows CREATE SUBSCRIPTION, and creates the subscription.
#[tactic(auto, unfolding(crate::specs::Subscriptions::create_subscription))]
pub fn create_subscription(
    r: &mut Reader<'_>,
    alloc: Global,
    draft: &mut Draft,
) -> Result<(), ReadError>
    ensures { TakesSome (λ _. draft_view draft.new) (spec.create_subscription (draft_view draft.old))
        r.old result r.new }
{
    let name = subscription_name(r, alloc, draft)?;
    let numbers = subscription_body(r, alloc, draft)?;
    draft.add_subscription(
        alloc,
        Subscription {
            name: name.text,
            publications: Items::from_vec(numbers),
        },
    )?;
    Ok(())
}
