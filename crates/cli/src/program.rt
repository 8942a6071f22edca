//! The program, over any reader and writer.

ghost use Rattle.std.specs.Prelude.{◌≡◌, ◌≢◌, ◌⊎◌, Bool, true, false, map, IfErr, IfOk, OnOk};
ghost use Rattle.std.specs.Io.KnownBytes.{Appends};
ghost use Rattle.std.specs.String.{string_bytes};
ghost use Rattle.commands.specs.Output.{EndsByFault, StopsText, ended};
ghost use Rattle.commands.specs.declared.failure.Status.TheVariants.{Done};
ghost use Rattle.cli.specs.CommandLine.{CanDo};
ghost use Rattle.commands.specs.Simulate.Limits.{IsLogLimit};
ghost use Rattle.cli.specs.Courses.{Concludes, ConcludesFault, CourseSaysFault, Finishes, FinishesFault, IsCourse, IsUnserved};
ghost use Rattle.cli.specs.Outcomes.{NumberSaysFault};
ghost use Rattle.cli.specs.Requests.{AcceptsInput, AnswersReader, CanServe, EndsRequest, UsesSockets};
ghost use Rattle.cli.specs.Runs.{IsProgramRun};
ghost use Rattle.cli.specs.declared.requests.Request.TheVariants.{Serve};

use crate::arguments::{Invocation, parse};
use crate::publish::publish_input;
use crate::requests::{Request, Service};
use crate::serve::serve_input;
use commands::{
    Failure, Reader, Status, Writer, check_input, evaluate, make_input, read_input, report,
    show_input, simulate_input, write_line,
};
use std::alloc::{AllocGlobal, Global};
use std::convert::AsStr;
use std::net::{Net, TcpListener, TcpStream};
use std::rt::Files;
use std::sync::Wait;
use std::thread::Threads;
use std::time::Clock;

/// What a command line leads to.
#[derive(Drop)]
pub enum Course<'a, I> {
    /// It was answered, or the failure says why not.
    Ended(Result<Status, Failure<'a>>),
    /// A request for which subscribers have to be served, and its input.
    Serve(Request<'a>, I),
}

/// Writes the help or the version.
fn write_help<'a, W: Writer>(mut text: String, writer: &mut W) -> Result<Status, Failure<'a>>
    ensures status { IfOk result (λ status. status ≡ Done) }
    ensures written { OnOk result (Appends (W.contents writer.old) (W.contents writer.new)
        (ended (string_bytes text))) }
    ensures stopped { IfErr result (StopsText (ended (string_bytes text)) (W.contents writer.old)
        (W.contents writer.new)) }
    ensures failed { EndsByFault (W.has_failed writer.old) (W.has_failed writer.new) result }
{
    write_line(&mut text, writer)?;
    Ok(Status::Done)
}

/// Answers a request that serves nobody, for an input.
fn answer<'a, W: Writer>(
    alloc: Global,
    request: Request<'a>,
    input: &str,
    writer: &mut W,
) -> Result<Status, Failure<'a>>
    requires can { CanDo request }
    requires other { CanServe false request }
    ensures ends { (may_fail : Bool) → EndsRequest may_fail request.entry input.now (W.contents writer.old)
        (W.contents writer.new) result }
    ensures failed { EndsByFault (W.has_failed writer.old) (W.has_failed writer.new) result }
{
    match request {
        Request::Eval { table, wanted } => evaluate(alloc, table, wanted, input, writer),
        Request::Show => show_input(alloc, input, writer),
        Request::Check { shows } => check_input(alloc, shows, input, writer),
        Request::Make => make_input(alloc, input, writer),
        Request::Simulate { limit } => simulate_input(alloc, limit, input, writer),
        Request::Serve(_) | Request::Publish(_) => unreachable!(),
    }
}

/// Answers a request that serves nobody, for what a reader gives.
fn answer_reader<'a, I: Reader + Drop, W: Writer>(
    alloc: Global,
    request: Request<'a>,
    input: I,
    writer: &mut W,
) -> Result<Status, Failure<'a>>
    requires can { CanDo request }
    requires other { CanServe false request }
    ensures ends { AnswersReader request.entry I.may_fail (I.remaining input) (W.contents writer.old)
        (W.contents writer.new) result }
    ensures failed { EndsByFault (W.has_failed writer.old) (W.has_failed writer.new) result }
{
    let input = read_input(alloc, input)?;
    answer(alloc, request, input.as_str(), writer)
}

/// Answers what the arguments request, or returns what is to be served.
#[tactic(auto, using(crate::proofs::RequestLemmas::asked_can))]
fn answer_words<'a, S: AsStr, I: Reader + Drop, W: Writer>(
    alloc: Global,
    words: &'a [S],
    input: I,
    writer: &mut W,
) -> Course<'a, I>
    ensures course { IsCourse (map S.text words.entry.now) I.may_fail (I.remaining input) input
        (W.contents writer.old) (W.contents writer.new) result }
    ensures failed { CourseSaysFault (W.has_failed writer.old) (W.has_failed writer.new) result }
{
    match parse(alloc, words) {
        Err(failure) => Course::Ended(Err(failure)),
        Ok(Invocation::Help(text)) => Course::Ended(write_help(text, writer)),
        Ok(Invocation::Answer(request)) => {
            if request.needs_sockets() {
                return Course::Serve(request, input);
            }
            Course::Ended(answer_reader(alloc, request, input, writer))
        }
    }
}

/// Reports the failure, if there is one, and returns the exit status.
fn outcome<'a, W: Writer>(
    alloc: Global,
    ending: Result<Status, Failure<'a>>,
    writer: &mut W,
) -> Status
    ensures concludes { Concludes ending.entry (W.contents writer.old) (W.contents writer.new) result }
    ensures failed { ConcludesFault ending.entry (W.has_failed writer.old) (W.has_failed writer.new) result }
{
    match ending {
        Ok(status) => status,
        Err(failure) => report(alloc, failure, writer),
    }
}

/// Reports a failure, flushes what was written, and returns the exit status.
fn finish<'a, W: Writer>(alloc: Global, ending: Result<Status, Failure<'a>>, writer: &mut W) -> u8
    ensures finishes { Finishes ending.entry (W.contents writer.old) (W.contents writer.new) result }
    ensures failed { FinishesFault ending.entry (W.has_failed writer.old) (W.has_failed writer.new) result }
    ensures flushed { result ≢ 4 → W.is_flushed writer.new ≡ true }
{
    let status = outcome(alloc, ending, writer);
    if status == Status::Output {
        return status as u8;
    }
    match writer.flush() {
        Ok(()) => status as u8,
        Err(_) => Status::Output as u8,
    }
}

/// The failure of a request to serve where there are no sockets.
fn unserved<'a>(alloc: Global) -> Failure<'a>
    ensures { IsUnserved result }
{
    match String::from_str(alloc, "serve needs sockets, and there are none") {
        Ok(why) => Failure::CommandLine(why),
        Err(_) => Failure::OutOfMemory,
    }
}

/// Runs the program without `serve` and `publish` with the arguments of a command line, which begin with the program's
/// name, and returns its exit status:
///
/// - 0 or 1: the request was answered. 1 is a refusal: a row cannot be read or does not fit its table, the sharding is
///   refused, or no certificate was found for some table. The help and the version have the status 0
/// - 2: a usage error, or a request to serve; a line and a text say so, and nothing else is written
/// - 3: the input cannot be read; a line says why, and nothing else is written
/// - 4: the writer failed; what is written is a prefix of what would have been written
/// - 5: out of memory; the first lines of the answer may be written before the line `out of memory`
///
/// With a status other than 4, everything that was written is flushed.
pub fn run<S: AsStr, I: Reader + Drop, W: Writer>(
    alloc: Global,
    words: &[S],
    input: I,
    writer: &mut W,
) -> u8
    ensures run { IsProgramRun false (map S.text words.now) I.may_fail (I.remaining input) (W.contents writer.old)
        (W.contents writer.new) result }
    ensures failed { NumberSaysFault (W.has_failed writer.old) (W.has_failed writer.new) result }
    ensures flushed { result ≢ 4 → W.is_flushed writer.new ≡ true }
{
    match answer_words(alloc, words, input, writer) {
        Course::Ended(ending) => finish(alloc, ending, writer),
        Course::Serve(_, _) => finish(alloc, Err(unserved(alloc)), writer),
    }
}

/// Answers `serve` for what a reader gives.
fn serve_script<
    'a,
    I: Reader + Drop,
    W: Writer,
    R: AllocGlobal
        + Threads
        + Wait
        + Clock
        + Eprint
        + Net<Listener = TcpListener, Stream = TcpStream>
        + Sync,
>(rt: &R, service: Service, input: I, writer: &mut W) -> Result<Status, Failure<'a>>
    requires { IsLogLimit service.limit }
    ensures ends { AnswersReader (Serve service) I.may_fail (I.remaining input) (W.contents writer.old)
        (W.contents writer.new) result }
    ensures failed { AcceptsInput (Serve service) (I.remaining input) ⊎ EndsByFault (W.has_failed writer.old)
        (W.has_failed writer.new) result }
{
    let input = read_input(rt.alloc(), input)?;
    serve_input(rt, rt.alloc(), service, input.as_str(), writer)
}

/// Answers any request for what a reader gives.
fn serve_reader<
    'a,
    I: Reader + Drop,
    W: Writer,
    R: AllocGlobal
        + Threads
        + Wait
        + Clock
        + Eprint
        + Files
        + Net<Listener = TcpListener, Stream = TcpStream>
        + Sync,
>(rt: &R, request: Request<'a>, input: I, writer: &mut W) -> Result<Status, Failure<'a>>
    requires { CanDo request }
    ensures ends { AnswersReader request.entry I.may_fail (I.remaining input) (W.contents writer.old)
        (W.contents writer.new) result }
    ensures failed { AcceptsInput request.entry (I.remaining input) ⊎ EndsByFault (W.has_failed writer.old)
        (W.has_failed writer.new) result }
{
    if let Request::Serve(service) = request {
        return serve_script(rt, service, input, writer);
    }
    if let Request::Publish(feed) = request {
        return publish_input(rt, rt.alloc(), feed, input, writer);
    }
    answer_reader(rt.alloc(), request, input, writer)
}

/// Runs the whole program, as `run` does, and serves subscribers over sockets if the arguments request it. For `serve`
/// and `publish` the status is 0 if all connections have ended and the publisher was closed, 1 if the sharding is
/// refused or the publisher cannot be closed, and 4 also if a port cannot be used, or the listening socket of `serve`
/// fails. Sockets are used only if the sharding was accepted, so otherwise 4 means that the writer failed.
pub fn run_serving<
    S: AsStr,
    I: Reader + Drop,
    W: Writer,
    R: AllocGlobal
        + Threads
        + Wait
        + Clock
        + Eprint
        + Files
        + Net<Listener = TcpListener, Stream = TcpStream>
        + Sync,
>(rt: &R, words: &[S], input: I, writer: &mut W) -> u8
    ensures run { IsProgramRun true (map S.text words.now) I.may_fail (I.remaining input) (W.contents writer.old)
        (W.contents writer.new) result }
    ensures failed { UsesSockets (map S.text words.now) (I.remaining input) ⊎ NumberSaysFault (W.has_failed writer.old)
        (W.has_failed writer.new) result }
    ensures flushed { result ≢ 4 → W.is_flushed writer.new ≡ true }
{
    match answer_words(rt.alloc(), words, input, writer) {
        Course::Ended(ending) => finish(rt.alloc(), ending, writer),
        Course::Serve(request, input) => {
            let ending = serve_reader(rt, request, input, writer);
            finish(rt.alloc(), ending, writer)
        }
    }
}
