//! `simulate`: what the steps of a script lead to.

ghost use Rattle.std.specs.Prelude.{◌≡◌, ◌≤◌, IfErr, IfOk, Ok, OnOk, length, map};
ghost use Rattle.std.specs.String.{string_bytes};
ghost use Rattle.pub_catalog.specs.CatalogView.{catalog_view};
ghost use Rattle.pub_reader.specs.Scripts.{script_by};
ghost use Rattle.pub_reader.specs.ScriptView.{line_view};
ghost use Rattle.pub_reader.specs.StepView.{step_view};
ghost use Rattle.shard_checker.specs.CheckedView.{checked_view};
ghost use Rattle.shard_world.specs.WorldCalls.{world_checked};
ghost use Rattle.commands.specs.Certificates.{IsOfLines};
ghost use Rattle.commands.specs.Output.{EndsByFault, TellsFault};
ghost use Rattle.commands.specs.Parts as parts;
ghost use Rattle.commands.specs.Simulate.Givings.{Gives, HasVerdict, IsOfParts};
ghost use Rattle.commands.specs.Simulate.StepActions.{action_of, action_view};
ghost use Rattle.commands.specs.Simulate.Limits.{IsLogLimit};
ghost use Rattle.commands.specs.Simulate.Simulation.{EndsSimulation, IsOfScript};
ghost use Rattle.commands.specs.Simulate.WorldSteps.{DoesFromEach, StopsStep, WritesStep, WritesSteps};

pub mod answers;
pub mod views;

use crate::failure::{Failure, InputFault, Status};
use crate::output::write_text;
use crate::parts::three_parts;
use crate::simulate::answers::answer_text;
use crate::simulate::views::view_text;
use crate::verdicts::{lines_of, verdict_of, write_refused};
use crate::writer::Writer;
use pub_catalog::{Catalog, SubscriberNumber};
use pub_reader::{ErrorKind, Line, Step, read_catalog, read_script};
use shard_checker::{CheckError, Checked};
use shard_world::{Event, PeerEvent, World};
use std::alloc::{AllocError, Global};
use std::sync::Arc;

/// The action of the world that a step of a script requests.
enum StepAction {
    Event(Event),
    Pump(SubscriberNumber),
    View,
}

/// The action that a step requests, at a time.
fn action_at(step: Step, time: u64) -> StepAction
    ensures { action_view result ≡ action_of time (step_view step) }
{
    let (subscriber, event) = match step {
        Step::Commit(commands) => return StepAction::Event(Event::Commit { commands, time }),
        Step::Pump { subscriber } => return StepAction::Pump(subscriber),
        Step::View => return StepAction::View,
        Step::Open { subscriber } => (subscriber, PeerEvent::Open),
        Step::Hear { subscriber, bytes } => (subscriber, PeerEvent::Hear { bytes }),
        Step::Take { subscriber } => (subscriber, PeerEvent::Take),
        Step::Keep { subscriber, want } => (subscriber, PeerEvent::Keep { want }),
        Step::Deliver { subscriber, bytes } => (subscriber, PeerEvent::Deliver { bytes }),
        Step::Report { subscriber, want } => (subscriber, PeerEvent::Report { want }),
        Step::Lose { subscriber } => (subscriber, PeerEvent::Lose),
    };
    StepAction::Event(Event::On { subscriber, event })
}

/// Executes a step, and returns the lines of its answer.
fn step_text(
    alloc: Global,
    catalog: &Catalog,
    world: &mut World,
    step: Step,
    now: u64,
) -> Result<String, AllocError>
    requires { catalog_view catalog.now ≡ (world_checked world.old).catalog }
    ensures { IfOk result (λ text. DoesFromEach world.old world.new now (step_view step) (string_bytes text)) }
{
    match action_at(step, now) {
        StepAction::Event(event) => answer_text(alloc, world.step(now, &event)),
        StepAction::Pump(subscriber) => answer_text(alloc, world.pump(now, subscriber)),
        StepAction::View => view_text(alloc, catalog, &world.view()?),
    }
}

/// Executes a step, and writes the lines of its answer.
fn write_step<'a, W: Writer>(
    alloc: Global,
    catalog: &Catalog,
    world: &mut World,
    step: Step,
    now: u64,
    writer: &mut W,
) -> Result<(), Failure<'a>>
    requires { catalog_view catalog.now ≡ (world_checked world.old).catalog }
    ensures written { OnOk result (WritesStep world.old world.new now (step_view step) (W.contents writer.old)
        (W.contents writer.new)) }
    ensures stopped { IfErr result (StopsStep world.old world.new now (step_view step) (W.contents writer.old)
        (W.contents writer.new)) }
    ensures failed { TellsFault (W.has_failed writer.old) (W.has_failed writer.new) result }
{
    let text = step_text(alloc, catalog, world, step, now)?;
    write_text(text.as_str(), writer)
}

/// Executes the steps of a script, and writes the lines of each answer: the first step at the time 1, and each further
/// one a microsecond later.
fn write_steps<'a, W: Writer>(
    alloc: Global,
    checked: Checked,
    limit: u32,
    lines: Vec<Line>,
    writer: &mut W,
) -> Result<Status, Failure<'a>>
    requires within { IsLogLimit limit }
    requires few { length lines.items ≤ 100000 }
    ensures written { WritesSteps (checked_view checked) limit (map line_view lines.items) (W.contents writer.old)
        (W.contents writer.new) result }
    ensures failed { EndsByFault (W.has_failed writer.old) (W.has_failed writer.new) result }
{
    let shared = Arc::new(alloc, checked)?;
    let catalog = shared.catalog();
    let mut world = World::new(alloc, Arc::try_clone(&shared)?, limit)?;
    let mut now = 0;
    for line in lines {
        now += 1;
        write_step(alloc, catalog, &mut world, line.step, now, writer)?;
    }
    Ok(Status::Done)
}

/// The steps of a script.
#[tactic(auto, using(crate::proofs::ScriptLengths::script_is_short))]
pub fn read_steps<'a>(
    alloc: Global,
    catalog: &Catalog,
    script: &str,
) -> Result<Vec<Line>, Failure<'a>>
    ensures read { IfOk result (λ lines. script_by (catalog_view catalog.now).tables script.now
        ≡ Ok (map line_view lines.items)) }
    ensures few { IfOk result (λ lines. length lines.items ≤ 100000) }
    ensures err { IfErr result (IsOfScript (script_by (catalog_view catalog.now).tables script.now)) }
{
    match read_script(alloc, catalog, script) {
        Ok(lines) => Ok(lines),
        Err(error) => match error.kind {
            ErrorKind::OutOfMemory => Err(Failure::OutOfMemory),
            _ => Err(Failure::Input(InputFault::Script(error))),
        },
    }
}

/// The verdict on a sharding by the texts of its certificates, one per line.
fn verdict_by<'a>(
    alloc: Global,
    catalog: Catalog,
    certificates: &str,
) -> Result<Result<Checked, CheckError>, Failure<'a>>
    ensures ok { IfOk result (HasVerdict (catalog_view catalog) certificates.now) }
    ensures err { IfErr result (IsOfLines (parts.lines_of certificates.now)) }
{
    let texts = lines_of(alloc, certificates)?;
    let verdict = verdict_of(alloc, catalog, texts.as_slice())?;
    Ok(verdict)
}

/// The verdict on the sharding of the first part by the certificates of the second, and the steps of the third. A fault
/// of the catalog precedes one of a certificate, and this one of the script.
fn read_parts<'a>(
    alloc: Global,
    text: &str,
    certificates: &str,
    script: &str,
) -> Result<(Result<Checked, CheckError>, Vec<Line>), Failure<'a>>
    ensures ok { IfOk result (λ given. Gives (record
        { first = text.now; second = certificates.now; third = script.now }) given.0 given.1.items) }
    ensures err { IfErr result (IsOfParts (record
        { first = text.now; second = certificates.now; third = script.now })) }
{
    let catalog = read_catalog(alloc, text)?;
    let lines = read_steps(alloc, &catalog, script);
    let verdict = verdict_by(alloc, catalog, certificates)?;
    let lines = lines?;
    Ok((verdict, lines))
}

/// Answers an input: a catalog, the texts of the certificates of its tables, one per line, and a script, with lines
/// `%%` between them. The log takes at most `limit` commits. The check takes the catalog, so its text is read once more
/// for the names in a refusal.
pub fn simulate_input<'a, W: Writer>(
    alloc: Global,
    limit: u32,
    input: &str,
    writer: &mut W,
) -> Result<Status, Failure<'a>>
    requires { IsLogLimit limit }
    ensures ends { EndsSimulation limit input.now (W.contents writer.old) (W.contents writer.new) result }
    ensures failed { EndsByFault (W.has_failed writer.old) (W.has_failed writer.new) result }
{
    let (text, certificates, script) = three_parts(input).ok_or(InputFault::Parts)?;
    let (verdict, lines) = read_parts(alloc, text, certificates, script)?;
    match verdict {
        Ok(checked) => write_steps(alloc, checked, limit, lines, writer),
        Err(refusal) => {
            let catalog = read_catalog(alloc, text)?;
            write_refused(alloc, &catalog, refusal, writer)
        }
    }
}
