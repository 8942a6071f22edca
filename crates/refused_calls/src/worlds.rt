//! `World::step`.

use crate::calls::{pump, step, view};
use crate::commands::{commands, first_commits};
use crate::publishers::COMMITS;
use crate::refusals::{end_refusals, refuse};
use crate::sharding::checked;
use crate::tables::{end_of, shard_after, tables_after};
use anyhow::{Context, Result, ensure};
use shard_world::{Answer, Event, PeerEvent, View, World};
use std::alloc::{AllocError, Global};
use tables_log::CommitError;

/// What happens to the first subscriber after the commits, and the answers.
const EVENTS: &[(PeerEvent, Answer)] = &[
    (PeerEvent::Open, Answer::Opened),
    (PeerEvent::Hear { bytes: 40 }, Answer::Heard(40)),
    (PeerEvent::Hear { bytes: 1_000 }, Answer::Heard(52)),
    (PeerEvent::Take, Answer::Sent(1)),
    (PeerEvent::Take, Answer::Sent(2)),
    (PeerEvent::Deliver { bytes: 300 }, Answer::Delivered(300)),
    (PeerEvent::Take, Answer::Sent(3)),
    (PeerEvent::Take, Answer::Sent(4)),
    (PeerEvent::Take, Answer::Sent(5)),
    (PeerEvent::Keep { want: true }, Answer::Kept),
    (
        PeerEvent::Deliver { bytes: 2_000 },
        Answer::Delivered(2_000),
    ),
    (PeerEvent::Report { want: true }, Answer::Reported),
    (PeerEvent::Hear { bytes: 1_000 }, Answer::Heard(39)),
];

/// Something happens to a subscriber.
fn on(subscriber: usize, event: PeerEvent) -> Event {
    Event::On { subscriber, event }
}

/// All events, the commits first.
fn events(alloc: Global) -> Result<Vec<Event>> {
    let mut events = Vec::new(alloc);
    for commands in first_commits(alloc)? {
        events.push(Event::Commit { commands, time: 1 })?;
    }
    let commands = commands(alloc)?;
    events.push(Event::Commit { commands, time: 2 })?;
    for (event, _) in EVENTS {
        events.push(on(0, *event))?;
    }
    Ok(events)
}

/// Whether an event was refused memory.
fn is_refusal(answer: Answer) -> bool {
    answer == Answer::OutOfMemory || answer == Answer::Refused(CommitError::OutOfMemory)
}

/// Makes the events happen, up to one that is refused memory.
fn run(world: &mut World, events: &[Event], answers: &mut Vec<Answer>) -> Result<(), AllocError> {
    for event in events {
        let answer = step(world, event);
        answers.push(answer)?;
        if is_refusal(answer) {
            break;
        }
    }
    Ok(())
}

/// The answer to the event at this place if nothing is refused.
fn plain(place: u64) -> Option<Answer> {
    if place < COMMITS {
        return Some(Answer::Committed((place + 1) as u32));
    }
    match EVENTS.get((place - COMMITS) as usize) {
        Some((_, answer)) => Some(*answer),
        None => None,
    }
}

/// How many of the answers are those without refusals: all except one that was refused.
fn count_plain(answers: &[Answer], was_refused: bool) -> Result<u64> {
    let mut count = 0u64;
    for answer in answers {
        if is_refusal(*answer) {
            ensure!(was_refused, "memory is refused without a cause");
            return Ok(count);
        }
        ensure!(
            Some(*answer) == plain(count),
            "event {count} is answered {answer:?}"
        );
        count = count.saturating_add(1);
    }
    Ok(count)
}

/// Checks that after this number of commits the publisher and its first subscriber have what these leave, and the other
/// one nothing.
fn check_view(alloc: Global, view: &View, commits: u64) -> Result<()> {
    ensure!(
        u64::from(view.log) == commits,
        "the log has {} commits",
        view.log
    );
    ensure!(
        tables_after(alloc, commits)?.are(&view.rows),
        "after {commits} commits the publisher's rows differ"
    );
    let first = view.subscribers.first().context("there is no subscriber")?;
    let applied = first.applied;
    ensure!(
        first.position.to_u64() == end_of(applied),
        "the subscriber is at {}",
        first.position.to_u64()
    );
    ensure!(
        shard_after(alloc, applied)?.are(&first.rows),
        "after {applied} commits the subscriber's rows differ"
    );
    Ok(())
}

/// Checks that the remaining commits are accepted.
fn check_commits(world: &mut World, events: &[Event], done: u64) -> Result<()> {
    for (place, event) in events.iter().enumerate() {
        let place = place as u64;
        if done <= place && place < COMMITS {
            ensure!(
                Some(step(world, event)) == plain(place),
                "the commit after {place} is refused"
            );
        }
    }
    Ok(())
}

/// Checks that a subscriber that connects, if it is not connected, gets everything.
fn check_pump(world: &mut World, subscriber: usize) -> Result<()> {
    step(world, &on(subscriber, PeerEvent::Open));
    let answer = pump(world, subscriber);
    ensure!(
        answer == Answer::At(end_of(COMMITS)),
        "the pump is answered {answer:?}"
    );
    Ok(())
}

/// Makes all events with request `number` refused, and tests what follows: a refused commit changes nothing,
/// and anything else loses the connection; then everything that remains happens. Returns whether it was refused.
pub fn is_refused(alloc: Global, number: u16) -> Result<bool> {
    let mut world = World::new(alloc, checked(alloc)?, 1_000)?;
    let events = events(alloc)?;
    let mut answers = Vec::with_capacity(alloc, events.len())?;
    refuse(alloc, number)?;
    run(&mut world, &events, &mut answers)?;
    let was_refused = end_refusals(alloc)?;
    let count = count_plain(&answers, was_refused)?;
    check_view(alloc, &view(&world)?, count.min(COMMITS))?;
    if matches!(answers.last(), Some(Answer::OutOfMemory)) {
        let answer = step(&mut world, &on(0, PeerEvent::Take));
        ensure!(
            answer == Answer::NotOpen,
            "a lost connection answers {answer:?}"
        );
    }
    check_commits(&mut world, &events, count)?;
    check_pump(&mut world, 0)?;
    check_pump(&mut world, 1)?;
    check_view(alloc, &view(&world)?, COMMITS)?;
    Ok(was_refused)
}
