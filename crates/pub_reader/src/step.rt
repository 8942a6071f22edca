//! The steps of a script.

ghost use Rattle.sql_reader.specs.ParsingContracts.{Takes, TakesSome};
ghost use Rattle.pub_reader.specs.StepView.{step_view};
ghost use Rattle.pub_reader.specs.Steps as spec;

use crate::script_command::commands_or_none;
use crate::step_word::StepWord;
use filter_tree::Table;
use pub_catalog::SubscriberNumber;
use sql_reader::{Item, Keyword, ReadError, Reader};
use std::alloc::Global;
use table_changes::Command;

/// A step of a script: what is committed, or what happens on the connection of a subscriber. The subscriber is given by
/// its number from 0 and need not exist.
#[derive(Drop)]
pub enum Step {
    /// A transaction of these commands is committed.
    Commit(Vec<Command>),
    /// The subscriber connects, and asks for the stream from its position on.
    Open {
        subscriber: SubscriberNumber,
    },
    /// The publisher receives the next bytes from the subscriber, at most this number.
    Hear {
        subscriber: SubscriberNumber,
        bytes: usize,
    },
    /// The publisher takes the next commit and sends what the subscriber gets of it.
    Take {
        subscriber: SubscriberNumber,
    },
    /// The publisher sends a keepalive, which may ask for a reply.
    Keep {
        subscriber: SubscriberNumber,
        want: bool,
    },
    /// The next bytes from the publisher, at most this number, arrive at the subscriber.
    Deliver {
        subscriber: SubscriberNumber,
        bytes: usize,
    },
    /// The subscriber sends its position, and may ask for a reply.
    Report {
        subscriber: SubscriberNumber,
        want: bool,
    },
    /// The connection is lost.
    Lose {
        subscriber: SubscriberNumber,
    },
    /// The subscriber gets all that was committed, and confirms it.
    Pump {
        subscriber: SubscriberNumber,
    },
    /// The state of the publisher and of each subscriber is shown.
    View,
}

/// Reads a number without a sign.
#[tactic(auto, using(sql_reader::proofs::Ahead::rest_of_some_is_fewer), unfolding(crate::specs::Steps::natural))]
fn natural(r: &mut Reader<'_>, what: &'static str) -> Result<usize, ReadError>
    ensures { TakesSome (λ number. number) spec.natural r.old result r.new }
{
    match r.item() {
        Some(Item::Number(number)) => {
            r.advance();
            Ok(number as usize)
        }
        _ => Err(r.refusal(what)),
    }
}

fn subscriber(r: &mut Reader<'_>) -> Result<SubscriberNumber, ReadError>
    ensures { TakesSome (λ number. number) spec.natural r.old result r.new }
{
    Ok(natural(r, "the number of a subscriber")?)
}

fn byte_count(r: &mut Reader<'_>) -> Result<usize, ReadError>
    ensures { TakesSome (λ number. number) spec.natural r.old result r.new }
{
    Ok(natural(r, "a number of bytes")?)
}

/// Reads TRUE or FALSE.
#[tactic(auto, using(sql_reader::proofs::Ahead::rest_of_some_is_fewer), unfolding(crate::specs::Steps::truth_word))]
fn truth(r: &mut Reader<'_>) -> Result<bool, ReadError>
    ensures { TakesSome (λ b. b) spec.truth_word r.old result r.new }
{
    match r.item() {
        Some(Item::Keyword(Keyword::True)) => {
            r.advance();
            Ok(true)
        }
        Some(Item::Keyword(Keyword::False)) => {
            r.advance();
            Ok(false)
        }
        _ => Err(r.refusal("TRUE or FALSE")),
    }
}

/// Reads TRUE or FALSE, or nothing, which is FALSE.
#[tactic(auto, using(sql_reader::proofs::Ahead::rest_is_no_more), unfolding(crate::specs::Steps::truth_or_false))]
fn truth_or_false(r: &mut Reader<'_>) -> Result<bool, ReadError>
    ensures { Takes (λ b. b) spec.truth_or_false r.old result r.new }
{
    match r.item() {
        Some(Item::Keyword(Keyword::True)) => {
            r.advance();
            Ok(true)
        }
        Some(Item::Keyword(Keyword::False)) => {
            r.advance();
            Ok(false)
        }
        _ => Ok(false),
    }
}

#[tactic(auto, unfolding(crate::specs::Steps::commit_body))]
fn commit_body(r: &mut Reader<'_>, alloc: Global, tables: &[Table]) -> Result<Step, ReadError>
    ensures { Takes step_view (spec.commit_body tables.now) r.old result r.new }
{
    Ok(Step::Commit(commands_or_none(r, alloc, tables)?))
}

#[tactic(auto, unfolding(crate::specs::Steps::on_subscriber))]
fn open_body(r: &mut Reader<'_>) -> Result<Step, ReadError>
    ensures { Takes step_view (spec.on_subscriber spec.Open) r.old result r.new }
{
    let subscriber = subscriber(r)?;
    Ok(Step::Open { subscriber })
}

#[tactic(auto, unfolding(crate::specs::Steps::hear_body))]
fn hear_body(r: &mut Reader<'_>) -> Result<Step, ReadError>
    ensures { Takes step_view spec.hear_body r.old result r.new }
{
    let subscriber = subscriber(r)?;
    let bytes = byte_count(r)?;
    Ok(Step::Hear { subscriber, bytes })
}

#[tactic(auto, unfolding(crate::specs::Steps::on_subscriber))]
fn take_body(r: &mut Reader<'_>) -> Result<Step, ReadError>
    ensures { Takes step_view (spec.on_subscriber spec.Take) r.old result r.new }
{
    let subscriber = subscriber(r)?;
    Ok(Step::Take { subscriber })
}

#[tactic(auto, unfolding(crate::specs::Steps::keep_body))]
fn keep_body(r: &mut Reader<'_>) -> Result<Step, ReadError>
    ensures { Takes step_view spec.keep_body r.old result r.new }
{
    let subscriber = subscriber(r)?;
    let want = truth(r)?;
    Ok(Step::Keep { subscriber, want })
}

#[tactic(auto, unfolding(crate::specs::Steps::deliver_body))]
fn deliver_body(r: &mut Reader<'_>) -> Result<Step, ReadError>
    ensures { Takes step_view spec.deliver_body r.old result r.new }
{
    let subscriber = subscriber(r)?;
    let bytes = byte_count(r)?;
    Ok(Step::Deliver { subscriber, bytes })
}

#[tactic(auto, unfolding(crate::specs::Steps::report_body))]
fn report_body(r: &mut Reader<'_>) -> Result<Step, ReadError>
    ensures { Takes step_view spec.report_body r.old result r.new }
{
    let subscriber = subscriber(r)?;
    let want = truth_or_false(r)?;
    Ok(Step::Report { subscriber, want })
}

#[tactic(auto, unfolding(crate::specs::Steps::on_subscriber))]
fn lose_body(r: &mut Reader<'_>) -> Result<Step, ReadError>
    ensures { Takes step_view (spec.on_subscriber spec.Lose) r.old result r.new }
{
    let subscriber = subscriber(r)?;
    Ok(Step::Lose { subscriber })
}

#[tactic(auto, unfolding(crate::specs::Steps::on_subscriber))]
fn pump_body(r: &mut Reader<'_>) -> Result<Step, ReadError>
    ensures { Takes step_view (spec.on_subscriber spec.Pump) r.old result r.new }
{
    let subscriber = subscriber(r)?;
    Ok(Step::Pump { subscriber })
}

/// Reads what follows the word of a step.
#[tactic(auto, unfolding(crate::specs::Steps::step_body))]
pub fn step_body(
    r: &mut Reader<'_>,
    alloc: Global,
    word: StepWord,
    tables: &[Table],
) -> Result<Step, ReadError>
    ensures { Takes step_view (spec.step_body word tables.now) r.old result r.new }
{
    match word {
        StepWord::Commit => commit_body(r, alloc, tables),
        StepWord::Open => open_body(r),
        StepWord::Hear => hear_body(r),
        StepWord::Take => take_body(r),
        StepWord::Keep => keep_body(r),
        StepWord::Deliver => deliver_body(r),
        StepWord::Report => report_body(r),
        StepWord::Lose => lose_body(r),
        StepWord::Pump => pump_body(r),
        StepWord::View => Ok(Step::View),
    }
}
