//! Why a start command is refused. The reasons are tested in this order: the slot's name, each option, missing options,
//! the publications, the position, a slot in use.

ghost use Rattle.std.specs.Prelude.{◌≡◌, map, []};
ghost use Rattle.std.specs.List.{list_any, list_all};
ghost use Rattle.std.specs.Option.{option_map};
ghost use Rattle.std.specs.Str.{bytes_eq};
ghost use Rattle.copy_both.specs.Refusals.{refusal_view};
ghost use Rattle.copy_both.specs.StartOrder as spec;

use crate::refusal::Refusal;
use crate::start_command::{OptionValue, StartCommand, StartOption};
use filter_tree::Text;
use pub_catalog::{Publication, Subscription};
use tables_log::{Lsn, SlotNumber, StartError};

fn is_wrong(value: &OptionValue) -> bool
    ensures { result ≡ spec.is_wrong value.now }
{
    matches!(value, OptionValue::Wrong)
}

fn is_unsupported(value: &OptionValue) -> bool
    ensures { result ≡ spec.is_unsupported value.now }
{
    matches!(value, OptionValue::Unsupported)
}

fn is_version(value: &OptionValue) -> bool
    ensures { result ≡ spec.is_version value.now }
{
    matches!(value, OptionValue::Version)
}

fn has_publications(value: &OptionValue) -> bool
    ensures { result ≡ spec.has_publications value.now }
{
    matches!(value, OptionValue::Publications(_))
}

fn is_given(options: &[StartOption], name: &str) -> bool
    ensures { result ≡ list_any (spec.is_named name.now) options.now }
{
    options.iter().any(|option| option.name.as_str() == name)
}

/// The refusal of an option that is wrong, was given before, or is not supported.
fn option_refusal<'a>(earlier: &[StartOption], option: &'a StartOption) -> Option<Refusal<'a>>
    ensures { option_map refusal_view result ≡ spec.option_refusal earlier.now option.now }
{
    if is_wrong(&option.value) || is_given(earlier, option.name.as_str()) {
        return Some(Refusal::WrongOption(option.name.as_str()));
    }
    if is_unsupported(&option.value) {
        return Some(Refusal::UnsupportedOption(option.name.as_str()));
    }
    None
}

#[tactic(auto, using(crate::proofs::OrderLemmas::options_step, crate::proofs::OrderLemmas::options_end))]
fn options_refusal(options: &[StartOption]) -> Option<Refusal<'_>>
    ensures { option_map refusal_view result ≡ spec.options_refusal [] options.now }
{
    for index in 0..options.len() {
        if let Some(refusal) = option_refusal(options.split_at(index).0, &options[index]) {
            return Some(refusal);
        }
    }
    None
}

fn has_version(options: &[StartOption]) -> bool
    ensures { result ≡ list_any (λ option. spec.is_version option.value) options.now }
{
    options.iter().any(|option| is_version(&option.value))
}

fn has_names(options: &[StartOption]) -> bool
    ensures { result ≡ list_any (λ option. spec.has_publications option.value) options.now }
{
    options.iter().any(|option| has_publications(&option.value))
}

fn missing_refusal(options: &[StartOption]) -> Option<Refusal<'static>>
    ensures { option_map refusal_view result ≡ spec.missing_refusal options.now }
{
    if !has_version(options) {
        return Some(Refusal::MissingOption("proto_version"));
    }
    if !has_names(options) {
        return Some(Refusal::MissingOption("publication_names"));
    }
    None
}

fn names_of(value: &OptionValue) -> &[Text]
    ensures { result.now ≡ spec.names_of value.now }
{
    match value {
        OptionValue::Publications(names) => names.as_slice(),
        OptionValue::Wrong | OptionValue::Unsupported | OptionValue::Version | OptionValue::Off =>
            &[],
    }
}

#[tactic(auto, using(crate::proofs::OrderLemmas::names_step, std::proofs::lemmas::List::drop_all))]
fn names_in(options: &[StartOption]) -> &[Text]
    ensures { result.now ≡ spec.names_in options.now }
{
    for option in options {
        if has_publications(&option.value) {
            return names_of(&option.value);
        }
    }
    &[]
}

fn any_is_called(publications: &[Publication], name: &str) -> bool
    ensures { result ≡ list_any (λ p. bytes_eq name.now p.name) publications.now }
{
    publications
        .iter()
        .any(|publication| name == publication.name.as_str())
}

fn is_publication(publications: &[Publication], name: &str) -> bool
    ensures { result ≡ list_any (bytes_eq name.now) (map (λ p. p.name) publications.now) }
{
    any_is_called(publications, name)
}

#[tactic(auto, using(crate::proofs::OrderLemmas::unknown_step, std::proofs::lemmas::List::drop_all))]
fn unknown_refusal<'a>(publications: &[Publication], names: &'a [Text]) -> Option<Refusal<'a>>
    ensures { option_map refusal_view result
        ≡ spec.unknown_refusal (map (λ p. p.name) publications.now) names.now }
{
    for name in names {
        if !is_publication(publications, name.as_str()) {
            return Some(Refusal::NoPublication(name.as_str()));
        }
    }
    None
}

/// Whether this is the name of the publication with this number.
#[tactic(auto, using(crate::proofs::OrderLemmas::any_of_map, crate::proofs::OrderLemmas::at_of_map))]
fn is_called(publications: &[Publication], name: &str, number: usize) -> bool
    ensures { result ≡ spec.is_called (map (λ p. p.name) publications.now) name.now number }
{
    match publications.get(number) {
        None => false,
        Some(publication) => name == publication.name.as_str(),
    }
}

/// Whether this is the name of a publication with one of these numbers.
fn is_one_of(publications: &[Publication], name: &str, numbers: &[usize]) -> bool
    ensures { result ≡ list_any (spec.is_called (map (λ p. p.name) publications.now) name.now) numbers.now }
{
    numbers
        .iter()
        .any(|number| is_called(publications, name, *number))
}

/// Whether one of these is the name of the publication with this number.
fn has_one_of(publications: &[Publication], number: usize, names: &[Text]) -> bool
    ensures { result ≡ list_any (λ name. spec.is_called (map (λ p. p.name) publications.now) name number) names.now }
{
    names
        .iter()
        .any(|name| is_called(publications, name.as_str(), number))
}

/// Whether each name is that of a publication with one of these numbers.
fn each_is_one_of(publications: &[Publication], names: &[Text], numbers: &[usize]) -> bool
    ensures { result ≡ list_all
        (λ name. list_any (spec.is_called (map (λ p. p.name) publications.now) name) numbers.now) names.now }
{
    names
        .iter()
        .all(|name| is_one_of(publications, name.as_str(), numbers))
}

/// Whether each publication with one of these numbers has one of these names.
fn each_has_one_of(publications: &[Publication], numbers: &[usize], names: &[Text]) -> bool
    ensures { result ≡ list_all
        (λ number. list_any (λ name. spec.is_called (map (λ p. p.name) publications.now) name number) names.now)
        numbers.now }
{
    numbers
        .iter()
        .all(|number| has_one_of(publications, *number, names))
}

/// Whether these names and these numbers are those of the same publications.
fn same_publications(publications: &[Publication], names: &[Text], numbers: &[usize]) -> bool
    ensures { result ≡ spec.same_publications (map (λ p. p.name) publications.now) names.now numbers.now }
{
    each_is_one_of(publications, names, numbers) && each_has_one_of(publications, numbers, names)
}

/// Whether a connection streams from the slot.
fn is_taken(in_use: &[bool], slot: SlotNumber) -> bool
    ensures { result ≡ spec.is_in_use in_use.now slot }
{
    in_use.get(slot).copied().unwrap_or(false)
}

/// What a start is checked against: the publications and the subscriptions of the catalog, where the log ends,
/// and for each subscription's slot whether a connection streams from it.
#[derive(Clone, Copy)]
pub struct Offer<'a> {
    pub publications: &'a [Publication],
    pub subscriptions: &'a [Subscription],
    pub log_end: Lsn,
    pub in_use: &'a [bool],
}

/// The first refusal of a start from this slot, whose subscription takes these publications; or none.
pub fn slot_refusal<'a>(
    offer: &Offer<'_>,
    command: &'a StartCommand,
    slot: SlotNumber,
    taken: &[usize],
) -> Option<Refusal<'a>>
    ensures { option_map refusal_view result
        ≡ spec.slot_refusal (spec.offer_view offer.now) command.now slot taken.now }
{
    let options = command.options.as_slice();
    if let Some(refusal) = options_refusal(options) {
        return Some(refusal);
    }
    if let Some(refusal) = missing_refusal(options) {
        return Some(refusal);
    }
    let names = names_in(options);
    if let Some(refusal) = unknown_refusal(offer.publications, names) {
        return Some(refusal);
    }
    if !same_publications(offer.publications, names, taken) {
        return Some(Refusal::OtherPublications(command.slot.as_str()));
    }
    if command.position.is_after(offer.log_end) {
        return Some(Refusal::Ahead);
    }
    if is_taken(offer.in_use, slot) {
        return Some(Refusal::InUse(command.slot.as_str()));
    }
    None
}

/// The number of the subscription that has the slot of this name.
pub fn find_slot(subscriptions: &[Subscription], name: &str) -> Option<SlotNumber>
    ensures { result ≡ spec.find_slot name.now subscriptions.now }
{
    subscriptions
        .iter()
        .position(|subscription| name == subscription.name.as_str())
}

/// The numbers of the publications that the subscription of this slot takes; none if there is no such subscription.
pub fn publications_at(subscriptions: &[Subscription], slot: SlotNumber) -> &[usize]
    ensures { result.now ≡ spec.publications_at subscriptions.now slot }
{
    match subscriptions.get(slot) {
        None => &[],
        Some(subscription) => subscription.publications.as_slice(),
    }
}

fn refusal_at<'a>(
    offer: &Offer<'_>,
    command: &'a StartCommand,
    found: Option<SlotNumber>,
) -> Option<Refusal<'a>>
    ensures { option_map refusal_view result ≡ spec.refusal_at (spec.offer_view offer.now) command.now found }
{
    match found {
        None => Some(Refusal::NoSlot(command.slot.as_str())),
        Some(slot) => {
            let taken = publications_at(offer.subscriptions, slot);
            slot_refusal(offer, command, slot, taken)
        }
    }
}

/// The first refusal of a start command, or none ("55.4. Streaming Replication Protocol"). The order is this project's
/// own.
pub fn start_refusal<'a>(offer: &Offer<'_>, command: &'a StartCommand) -> Option<Refusal<'a>>
    ensures { option_map refusal_view result ≡ spec.start_refusal (spec.offer_view offer.now) command.now }
{
    let found = find_slot(offer.subscriptions, command.slot.as_str());
    refusal_at(offer, command, found)
}

/// The name of the slot with this number; empty if there is none.
fn slot_name(subscriptions: &[Subscription], slot: SlotNumber) -> &str
    ensures { result.now ≡ spec.slot_name subscriptions.now slot }
{
    match subscriptions.get(slot) {
        None => "",
        Some(subscription) => subscription.name.as_str(),
    }
}

/// Why a start from this slot is refused, when the book refuses it with this error.
pub(crate) fn book_refusal(
    subscriptions: &[Subscription],
    slot: SlotNumber,
    error: StartError,
) -> Refusal<'_>
    ensures { refusal_view result ≡ spec.book_refusal (spec.slot_name subscriptions.now slot) error }
{
    let name = slot_name(subscriptions, slot);
    match error {
        StartError::NoSlot => Refusal::NoSlot(name),
        StartError::Ahead => Refusal::Ahead,
        StartError::InUse => Refusal::InUse(name),
    }
}
