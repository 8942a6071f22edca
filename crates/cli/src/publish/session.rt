//! The session that makes the commits, one line at a time.

ghost use Rattle.std.specs.Prelude.{◌≡◌, ◌≢◌, false, [], ◌∷◌, true, None, codes, map, IfErr, IfOk, OnOk};
ghost use Rattle.std.specs.String.{string_bytes};
ghost use Rattle.pub_reader.specs.ScriptView.{line_view};
ghost use Rattle.pub_reader.specs.StepView.{step_view};
ghost use Rattle.table_changes.specs.Commands.{command_view};
ghost use Rattle.sql_reader.specs.KindNames.{kind_name};
ghost use Rattle.commands.specs.Failures.{fault_line};
ghost use Rattle.commands.specs.Output.{text_of};
ghost use Rattle.cli.specs.Incoming.{coming};
ghost use Rattle.cli.specs.Talks as spec;
ghost use Rattle.cli.specs.Talks.{Answers, HasAnswered, HasGone, HasQuit, IsCutOff, Replies, StopsNext, Tells};
ghost use Rattle.cli.specs.declared.publish.session.Turn.TheVariants as turns;

use crate::publish::incoming::LineReader;
use crate::publish::telling::tell;
use crate::publish::view::view_text;
use commands::{Failure, InputFault, Reader, Writer, answer_text, read_steps};
use pub_catalog::Catalog;
use pub_reader::{Command, ErrorKind, Line, ReadError, Step};
use senders::{Publisher, Publishing, Seat};
use shard_world::Answer;
use std::alloc::{AllocError, Global};
use std::str::from_utf8;
use std::sync::Wait;
use std::time::Clock;

/// Whether the step is COMMIT or VIEW.
fn is_fit(step: &Step) -> bool
    ensures { result ≡ spec.is_fit (step_view step.now) }
{
    matches!(step, Step::Commit(_) | Step::View)
}

/// The place of the first step that is neither COMMIT nor VIEW, or not the first on its line.
fn first_unfit(steps: &[Line]) -> Option<usize>
    ensures { result ≡ spec.first_unfit (map line_view steps.now) }
{
    let mut is_first = true;
    for step in steps {
        if !is_first || !is_fit(&step.step) {
            return Some(step.place);
        }
        is_first = false;
    }
    None
}

/// The seconds from 1970-01-01 to 2000-01-01.
const SECONDS_TO_2000: u64 = 946_684_800;

/// The time in microseconds since 2000-01-01, as that of a commit; 0 if the clock cannot be read.
fn commit_time<R: Clock>(rt: &R) -> u64 {
    let Ok(time) = rt.since_1970() else {
        return 0;
    };
    let seconds = time.as_secs().saturating_sub(SECONDS_TO_2000);
    seconds
        .saturating_mul(1_000_000)
        .saturating_add(u64::from(time.subsec_micros()))
}

/// Makes the commands one commit at this time, and returns the answer.
fn commit<P: Publishing, R: Wait + Clock>(
    rt: &R,
    publisher: &Publisher<P>,
    seat: &mut Seat<P>,
    commands: Vec<Command>,
) -> Answer
    ensures { Replies P.checked P.limit (map command_view commands.items) seat.old seat.new result }
{
    match publisher.commit(rt, seat, commands, commit_time(rt)) {
        Ok(number) => Answer::Committed(number),
        Err(error) => Answer::Refused(error),
    }
}

/// Executes a step, and returns the lines of its answer.
fn step_text<P: Publishing, R: Wait + Clock>(
    rt: &R,
    alloc: Global,
    publisher: &Publisher<P>,
    seat: &mut Seat<P>,
    step: Step,
) -> Result<String, AllocError>
    requires { spec.is_fit (step_view step) ≡ true }
    ensures { IfOk result (λ text. Tells P.checked P.limit (step_view step) seat.old seat.new (string_bytes text)) }
{
    match step {
        Step::Commit(commands) => answer_text(alloc, commit(rt, publisher, seat, commands)),
        _ => view_text(rt, alloc, publisher, seat),
    }
}

/// The line of a fault.
fn fault_text(alloc: Global, fault: InputFault<'_>) -> Result<String, AllocError>
    ensures { IfOk result (λ text. string_bytes text ≡ text_of (fault_line fault.entry ∷ [])) }
{
    format!(in alloc; "{fault}\n")
}

/// The fault of a line that has an unfit step at this place.
fn unfit_at(place: usize) -> ReadError
    ensures place { result.place ≡ place }
    ensures kind { kind_name result.kind ≡ codes "Expected" }
{
    let kind = ErrorKind::Expected("COMMIT");
    ReadError { place, kind }
}

/// Executes the step of a line, if it has one, and returns the lines of the answer.
fn line_text<P: Publishing, R: Wait + Clock>(
    rt: &R,
    alloc: Global,
    publisher: &Publisher<P>,
    seat: &mut Seat<P>,
    line: &str,
) -> Result<String, AllocError>
    ensures { IfOk result (λ text. Answers P.checked P.limit line.now seat.old seat.new (string_bytes text)) }
{
    let catalog = publisher.checked().catalog();
    let mut steps = match read_steps(alloc, catalog, line) {
        Ok(steps) => steps,
        Err(Failure::Input(fault)) => return fault_text(alloc, fault),
        Err(_) => return Err(AllocError),
    };
    if let Some(place) = first_unfit(steps.as_slice()) {
        return fault_text(alloc, InputFault::Script(unfit_at(place)));
    }
    match steps.pop() {
        None => Ok(String::new(alloc)),
        Some(line) => step_text(rt, alloc, publisher, seat, line.step),
    }
}

/// Executes a line, and returns the lines of the answer.
fn answer<P: Publishing, R: Wait + Clock>(
    rt: &R,
    alloc: Global,
    publisher: &Publisher<P>,
    seat: &mut Seat<P>,
    line: &[u8],
) -> Result<String, AllocError>
    ensures { IfOk result (λ text. Answers P.checked P.limit line.now seat.old seat.new (string_bytes text)) }
{
    match from_utf8(line) {
        Ok(text) => line_text(rt, alloc, publisher, seat, text),
        Err(_) => fault_text(alloc, InputFault::Unread),
    }
}

/// Whether a line ends the session.
fn is_quit(line: &[u8]) -> bool
    ensures quits { result ≡ true → line.now ≡ codes "QUIT;" }
    ensures other { result ≡ false → line.now ≢ codes "QUIT;" }
{
    line == "QUIT;".as_bytes()
}

/// What was read.
#[derive(Clone, Copy, Debug, PartialEq, Eq)]
pub(crate) enum Turn {
    /// A line, which was answered.
    Line,
    /// `QUIT;`
    Quit,
    /// No further line.
    Over,
}

/// Reads the next line, and answers it at once unless it is `QUIT;`. A reader that fails has no further line.
#[tactic(auto, using(crate::proofs::Talking::over_at_end, crate::proofs::Talking::over_failed))]
fn answer_next<'a, P: Publishing, I: Reader, W: Writer, R: Wait + Clock>(
    rt: &R,
    alloc: Global,
    publisher: &Publisher<P>,
    seat: &mut Seat<P>,
    line: &mut Vec<u8>,
    lines: &mut LineReader<I>,
    writer: &mut W,
) -> Result<Turn, Failure<'a>>
    ensures ok { IfOk result (HasGone P.checked P.limit I.may_fail (coming I.remaining lines.old)
        (coming I.remaining lines.new) (W.contents writer.old) (W.contents writer.new) seat.old seat.new) }
    ensures err { IfErr result (StopsNext P.checked P.limit (coming I.remaining lines.old)
        (coming I.remaining lines.new) (W.contents writer.old) (W.contents writer.new) seat.old seat.new) }
    ensures flushed { IfOk result (λ turn. turn ≡ turns.Line → W.is_flushed writer.new ≡ true) }
{
    match lines.next_line(rt, line) {
        Ok(true) => {}
        Ok(false) | Err(Failure::Input(_)) => return Ok(Turn::Over),
        Err(_) => return Err(Failure::OutOfMemory),
    }
    if is_quit(line.as_slice()) {
        return Ok(Turn::Quit);
    }
    let text = answer(rt, alloc, publisher, seat, line.as_slice())?;
    tell(text.as_str(), writer)?;
    Ok(Turn::Line)
}

/// Answers each line as it arrives, until there are no more or one is `QUIT;`. Returns whether one was.
pub(crate) fn answer_lines<'a, P: Publishing, I: Reader, W: Writer, R: Wait + Clock>(
    rt: &R,
    alloc: Global,
    publisher: &Publisher<P>,
    seat: &mut Seat<P>,
    lines: &mut LineReader<I>,
    writer: &mut W,
) -> Result<bool, Failure<'a>>
    ensures ok { OnOk result (HasAnswered P.checked P.limit None I.may_fail (coming I.remaining lines.old)
        (coming I.remaining lines.new) (W.contents writer.old) (W.contents writer.new) seat.old seat.new) }
    ensures err { IfErr result (IsCutOff P.checked P.limit None (coming I.remaining lines.old)
        (coming I.remaining lines.new) (W.contents writer.old) (W.contents writer.new) seat.old seat.new) }
    ensures quit { IfOk result (λ quits. quits ≡ true → HasQuit P.checked P.limit (coming I.remaining lines.new)) }
{
    let mut line = Vec::new(alloc);
    for _ in rt.forever() {
        match answer_next(rt, alloc, publisher, seat, &mut line, lines, writer)? {
            Turn::Line => {}
            Turn::Quit => return Ok(true),
            Turn::Over => return Ok(false),
        }
    }
    unreachable!()
}
