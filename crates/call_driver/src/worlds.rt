//! Calls of `World`.

use crate::books::shown;
use crate::cells::{count, first, number, small, written_rows};
use crate::desk::Desk;
use crate::escapes::unescaped;
use crate::scripts::{lines_of, step_of};
use anyhow::{Context, Result, bail};
use filter_tree::Row;
use pub_reader::Step;
use shard_world::{Answer, Event, PeerEvent, SubscriberView, View, World};
use std::alloc::Global;

/// A world of the sharding, without rows, whose log may have a given number of commits.
fn begin(desk: &mut Desk, given: &str) -> Result<String> {
    let limit = small(given)?;
    if limit == 0 || limit > 1_000_000_000 {
        bail!("a limit is from 1 to 1,000,000,000");
    }
    let world = World::new(desk.alloc, desk.checked()?, limit)?;
    desk.world = Some(world);
    Ok(String::from_str(desk.alloc, "ok")?)
}

fn on(subscriber: usize, event: PeerEvent) -> Event {
    Event::On { subscriber, event }
}

/// The event of a script's step. A commit is made at this time.
fn event_of(step: Step, time: u64) -> Result<Event> {
    Ok(match step {
        Step::Commit(commands) => Event::Commit { commands, time },
        Step::Open { subscriber } => on(subscriber, PeerEvent::Open),
        Step::Hear { subscriber, bytes } => on(subscriber, PeerEvent::Hear { bytes }),
        Step::Take { subscriber } => on(subscriber, PeerEvent::Take),
        Step::Keep { subscriber, want } => on(subscriber, PeerEvent::Keep { want }),
        Step::Deliver { subscriber, bytes } => on(subscriber, PeerEvent::Deliver { bytes }),
        Step::Report { subscriber, want } => on(subscriber, PeerEvent::Report { want }),
        Step::Lose { subscriber } => on(subscriber, PeerEvent::Lose),
        Step::Pump { .. } | Step::View => bail!("this step is no event"),
    })
}

fn step(world: &mut World, now: u64, event: &Event) -> Answer {
    world.step(now, event)
}

/// The answer to a step at a given time.
fn stepped(desk: &mut Desk, given: &str) -> Result<String> {
    let (now, given) = first(given);
    let now = number(now)?;
    let event = event_of(step_of(desk, given)?, now)?;
    let world = desk.world.as_mut().context("there is no world")?;
    let answer = step(world, now, &event);
    shown(desk.alloc, &answer)
}

/// The events of a script, each at the time after that of the one before.
fn events(desk: &Desk, now: u64, given: &str) -> Result<Vec<(u64, Event)>> {
    let text = unescaped(desk.alloc, given)?;
    let mut now = now;
    let mut events = Vec::new(desk.alloc);
    for line in lines_of(desk.alloc, desk.catalog()?, text.as_str())? {
        events.push((now, event_of(line.step, now)?))?;
        now = now.saturating_add(1);
    }
    Ok(events)
}

/// The answers to a script's steps from a given time on.
fn ran(desk: &mut Desk, given: &str) -> Result<String> {
    let (now, given) = first(given);
    let events = events(desk, number(now)?, given)?;
    let world = desk.world.as_mut().context("there is no world")?;
    let answers = world.run(events.as_slice())?;
    Ok(format!(in desk.alloc; "{:?}", answers.as_slice())?)
}

/// The answer to a pump of a subscriber at a given time.
fn pumped(desk: &mut Desk, given: &str) -> Result<String> {
    let (now, subscriber) = first(given);
    let world = desk.world.as_mut().context("there is no world")?;
    let answer = world.pump(number(now)?, count(subscriber)?);
    shown(desk.alloc, &answer)
}

/// Appends the rows of each table, in brackets.
fn push_tables(alloc: Global, tables: &[Vec<Row>], answer: &mut String) -> Result<()> {
    for rows in tables {
        let rows = written_rows(alloc, rows.as_slice())?;
        write!(answer, " [{rows}]")?;
    }
    Ok(())
}

/// Appends a subscriber's position, the number of its commits, its confirmed position, and its rows.
fn push_subscriber(alloc: Global, view: &SubscriberView, answer: &mut String) -> Result<()> {
    let position = view.position.to_u64();
    let applied = view.applied;
    let confirmed = view.confirmed.to_u64();
    write!(
        answer,
        "; at {position}, {applied} applied, confirmed to {confirmed},"
    )?;
    push_tables(alloc, view.rows.as_slice(), answer)
}

/// The number of commits, the publisher's rows, and what each subscriber has.
fn view_shown(alloc: Global, view: &View) -> Result<String> {
    let mut answer = format!(in alloc; "{} commits,", view.log)?;
    push_tables(alloc, view.rows.as_slice(), &mut answer)?;
    for subscriber in &view.subscribers {
        push_subscriber(alloc, subscriber, &mut answer)?;
    }
    Ok(answer)
}

/// What is in the world.
fn viewed(desk: &Desk) -> Result<String> {
    let world = desk.world.as_ref().context("there is no world")?;
    view_shown(desk.alloc, &world.view()?)
}

/// The answer to the call.
pub fn answer(desk: &mut Desk, call: &str, rest: &str) -> Result<Option<String>> {
    Ok(Some(match call {
        "new" => begin(desk, rest)?,
        "step" => stepped(desk, rest)?,
        "run" => ran(desk, rest)?,
        "pump" => pumped(desk, rest)?,
        "view" => viewed(desk)?,
        _ => return Ok(None),
    }))
}
