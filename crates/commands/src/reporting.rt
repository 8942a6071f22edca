//! How the program reports a failure.

ghost use Rattle.std.specs.Prelude.{◌≡◌, ◌≢◌, Bool, IfOk};
ghost use Rattle.std.specs.String.{string_bytes};
ghost use Rattle.commands.specs.Failures.{failure_lines, status_of_failure};
ghost use Rattle.commands.specs.Output.{SaysFault, text_of};
ghost use Rattle.commands.specs.Reporting.{IsReport, IsWritten};
ghost use Rattle.commands.specs.declared.failure.Status.TheVariants.{Output};

use crate::failure::{Failure, Status};
use crate::writer::Writer;
use std::alloc::{AllocError, Global};

/// The lines of a failure; none if the writer failed.
fn failure_text(alloc: Global, failure: &Failure<'_>) -> Result<String, AllocError>
    ensures { IfOk result (λ text. string_bytes text ≡ text_of (failure_lines failure.now)) }
{
    let mut text = String::new(alloc);
    match failure {
        Failure::CommandLine(why) => write!(text, "command line\n{why}\n")?,
        Failure::Input(fault) => write!(text, "{fault}\n")?,
        Failure::Output => {}
        Failure::OutOfMemory => text.push_str("out of memory\n")?,
    }
    Ok(text)
}

/// Writes a text, and returns this status, or `Output` if the writer fails.
fn write_report<W: Writer>(text: &str, status: Status, writer: &mut W) -> Status
    ensures written { IsWritten text.now status (W.contents writer.old) (W.contents writer.new) result }
    ensures failed { status ≢ Output → SaysFault (W.has_failed writer.old) (W.has_failed writer.new) result }
{
    match writer.write_text(text) {
        Ok(()) => status,
        Err(_) => Status::Output,
    }
}

/// Writes the lines of a failure, and returns the status of the program. If the writer failed, nothing more is written.
/// If memory runs out for the lines, that is reported instead.
pub fn report<W: Writer>(alloc: Global, failure: Failure<'_>, writer: &mut W) -> Status
    ensures written { IsReport failure.entry (W.contents writer.old) (W.contents writer.new) result }
    ensures failed { (before : Bool) → SaysFault before (W.has_failed writer.old) (status_of_failure failure.entry)
        → SaysFault before (W.has_failed writer.new) result }
{
    if let Failure::Output = failure {
        return Status::Output;
    }
    match failure_text(alloc, &failure) {
        Ok(text) => write_report(text.as_str(), failure.status(), writer),
        Err(_) => write_report("out of memory\n", Status::OutOfMemory, writer),
    }
}
