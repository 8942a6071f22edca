//! The answer to the first frame of a client.

ghost use Rattle.std.specs.Prelude.{◌≡◌, ◌==◌, IfOk, OnOk, OnErr, position};
ghost use Rattle.std.specs.Option.{option_copied};
ghost use Rattle.copy_both.specs.CommandText.{command_of};
ghost use Rattle.copy_both.specs.Refusals.{CanBeSent, refusal_view};
ghost use Rattle.copy_both.specs.ShortNames.{IsShortCommand};
ghost use Rattle.copy_both.specs.StartAnswers as spec;
ghost use Rattle.copy_both.specs.StartAnswers.{Refused, asked_at, asked_by_command, asked_of, start_reported, sent_after};
ghost use Rattle.copy_both.specs.StartOrder.{offer_view};

use crate::command_text::command_of;
use crate::error_response::append_error_response;
use crate::refusal::Refusal;
use crate::sql_state::SqlState;
use crate::start_command::StartCommand;
use crate::start_order::{Offer, find_slot, publications_at, slot_refusal};
use bytes::BytesMut;
use std::alloc::{AllocError, Global};
use tables_log::{Lsn, SlotNumber};

/// What a client requests by its first frame.
#[derive(Clone, Copy, Debug, PartialEq, Eq)]
pub enum StartAnswer {
    /// A stream from the slot of the subscription with this number, from this position on.
    Stream { slot: SlotNumber, position: Lsn },
    /// A start that is refused with an error of this kind.
    Refused(SqlState),
}

/// The bytes as a text, if they are UTF-8.
fn utf8_text(bytes: &[u8]) -> Option<&str>
    ensures { option_copied result ≡ spec.text_if_utf8 bytes.now }
{
    match str::from_utf8(bytes) {
        Ok(text) => Some(text),
        Err(_) => None,
    }
}

fn first_zero(body: &[u8]) -> Option<usize>
    ensures { result ≡ position (λ b. b == 0) body.now }
{
    body.iter().position(|byte| *byte == 0)
}

/// The text of a Query, which is UTF-8 and ends with a zero byte.
fn text_in(body: &[u8]) -> Option<&str>
    ensures { option_copied result ≡ spec.text_of_query body.now }
{
    let Some(end) = first_zero(body) else {
        return None;
    };
    if end + 1 != body.len() {
        return None;
    }
    utf8_text(body.split_at(end).0)
}

fn refuse(response: &mut BytesMut, refusal: &Refusal<'_>) -> Result<StartAnswer, AllocError>
    requires { CanBeSent (refusal_view refusal.now) }
    ensures asked { IfOk result (λ asked. asked ≡ start_reported (Refused (refusal_view refusal.now))) }
    ensures ok { OnOk result
        (response.new.items ≡ sent_after response.old.items (Refused (refusal_view refusal.now))) }
    ensures err { OnErr result (response.new.items ≡ response.old.items) }
{
    append_error_response(response, refusal)?;
    Ok(StartAnswer::Refused(refusal.state()))
}

/// Answers a command for the slot of the subscription with this number.
fn answer_slot(
    offer: &Offer<'_>,
    command: &StartCommand,
    slot: SlotNumber,
    response: &mut BytesMut,
) -> Result<StartAnswer, AllocError>
    requires { IsShortCommand command.now }
    ensures asked { IfOk result
        (λ asked. asked ≡ start_reported (asked_at (offer_view offer.now) command.now (Some slot))) }
    ensures ok { OnOk result
        (response.new.items ≡ sent_after response.old.items (asked_at (offer_view offer.now) command.now (Some slot))) }
    ensures err { OnErr result (response.new.items ≡ response.old.items) }
{
    let taken = publications_at(offer.subscriptions, slot);
    if let Some(refusal) = slot_refusal(offer, command, slot, taken) {
        return Ok(refuse(response, &refusal)?);
    }
    let position = command.position;
    Ok(StartAnswer::Stream { slot, position })
}

fn answer_command(
    offer: &Offer<'_>,
    command: &StartCommand,
    response: &mut BytesMut,
) -> Result<StartAnswer, AllocError>
    requires { IsShortCommand command.now }
    ensures asked { IfOk result
        (λ asked. asked ≡ start_reported (asked_by_command (offer_view offer.now) (Some command.now))) }
    ensures ok { OnOk result
        (response.new.items
        ≡ sent_after response.old.items (asked_by_command (offer_view offer.now) (Some command.now))) }
    ensures err { OnErr result (response.new.items ≡ response.old.items) }
{
    let Some(slot) = find_slot(offer.subscriptions, command.slot.as_str()) else {
        return Ok(refuse(response, &Refusal::NoSlot(command.slot.as_str()))?);
    };
    Ok(answer_slot(offer, command, slot, response)?)
}

/// Answers the text of a Query.
fn answer_text(
    alloc: Global,
    offer: &Offer<'_>,
    text: &str,
    response: &mut BytesMut,
) -> Result<StartAnswer, AllocError>
    ensures asked { IfOk result
        (λ asked. asked ≡ start_reported (asked_by_command (offer_view offer.now) (command_of text.now))) }
    ensures ok { OnOk result
        (response.new.items
        ≡ sent_after response.old.items (asked_by_command (offer_view offer.now) (command_of text.now))) }
    ensures err { OnErr result (response.new.items ≡ response.old.items) }
{
    let Some(command) = command_of(alloc, text)? else {
        return Ok(refuse(response, &Refusal::Unreadable)?);
    };
    Ok(answer_command(offer, &command, response)?)
}

/// Answers the first frame of a client, of this kind and body: the frame starts a stream, or the ErrorResponse that
/// refuses it is appended to `response` ("55.4. Streaming Replication Protocol"). The only error is out of memory,
/// which leaves `response` as it was.
#[tactic(auto, unfolding(crate::specs::StartAnswers::asked_of))]
pub fn answer_start(
    alloc: Global,
    offer: &Offer<'_>,
    kind: u8,
    body: &[u8],
    response: &mut BytesMut,
) -> Result<StartAnswer, AllocError>
    ensures asked { IfOk result (λ asked. asked ≡ start_reported (asked_of (offer_view offer.now) kind body.now)) }
    ensures ok { OnOk result
        (response.new.items ≡ sent_after response.old.items (asked_of (offer_view offer.now) kind body.now)) }
    ensures err { OnErr result (response.new.items ≡ response.old.items) }
{
    if kind != b'Q' {
        return Ok(refuse(response, &Refusal::ExpectedQuery)?);
    }
    let Some(text) = text_in(body) else {
        return Ok(refuse(response, &Refusal::ExpectedQuery)?);
    };
    Ok(answer_text(alloc, offer, text, response)?)
}
