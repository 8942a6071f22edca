//! The program `call_driver`: makes the calls that its standard input names, one per line, and prints the answer to
//! each.
//!
//! A line is the name of a call, such as `book.commit`, and then its arguments. Calls leave their values on a desk,
//! where later ones find them, and `new` clears it. `tools/testing/calls` has tables of calls and their answers.
#![tactic(auto)]

mod books;
mod catalogs;
mod cells;
mod certificates;
mod changes;
mod checks;
mod comparisons;
mod decoding;
mod desk;
mod digits;
mod ears;
mod encoding;
mod escapes;
mod filters;
mod frames;
mod links;
mod makes;
mod memos;
mod plans;
mod rows;
mod scripts;
mod spoken;
mod starts;
mod subscribers;
mod tables;
mod texts;
mod tokens;
mod voices;
mod worlds;

use anyhow::Result;
use desk::Desk;
use escapes::escaped;
use std::alloc::Global;
use std::io::Read;

/// The answer to a call on texts, filters and catalogs, or `None` if there is no such call.
fn answer_of_text(desk: &mut Desk, topic: &str, call: &str, rest: &str) -> Result<Option<String>> {
    match topic {
        "tokens" => tokens::answer(desk.alloc, call, rest),
        "row" => rows::answer(desk.alloc, call, rest),
        "text" => texts::answer(desk.alloc, call, rest),
        "value" => comparisons::answer(desk.alloc, call, rest),
        "filter" => filters::answer(desk, call, rest),
        "catalog" => catalogs::answer(desk, call, rest),
        "table" => tables::answer(desk, call, rest),
        "script" => scripts::answer(desk, call, rest),
        "memo" => memos::answer(desk, call, rest),
        _ => Ok(None),
    }
}

/// The answer to a call on shardings and changes, or `None` if there is no such call.
fn answer_of_sharding(
    desk: &mut Desk,
    topic: &str,
    call: &str,
    rest: &str,
) -> Result<Option<String>> {
    match topic {
        "plan" => plans::answer(desk, call, rest),
        "change" => changes::answer(desk, call, rest),
        "certificate" => certificates::answer(desk.alloc, call, rest),
        "check" => checks::answer(desk, call, rest),
        "make" => makes::answer(desk, call, rest),
        _ => Ok(None),
    }
}

/// The answer to a call on commits, messages and connections, or `None` if there is no such call.
fn answer_of_stream(
    desk: &mut Desk,
    topic: &str,
    call: &str,
    rest: &str,
) -> Result<Option<String>> {
    match topic {
        "book" => books::answer(desk, call, rest),
        "encode" => encoding::answer(desk, call, rest),
        "decode" => decoding::answer(desk.alloc, call, rest),
        "messages" => spoken::answer(desk, call, rest),
        "frames" => frames::answer(desk, call, rest),
        "start" => starts::answer(desk, call, rest),
        "ear" => ears::answer(desk, call, rest),
        "voice" => voices::answer(desk, call, rest),
        "link" => links::answer(desk, call, rest),
        "subscriber" => subscribers::answer(desk, call, rest),
        "world" => worlds::answer(desk, call, rest),
        _ => Ok(None),
    }
}

/// The answer to the call, or `None` if there is no such call.
fn answer_of(desk: &mut Desk, name: &str, rest: &str) -> Result<Option<String>> {
    let (topic, call) = name.split_once(".").unwrap_or((name, ""));
    let answer = answer_of_text(desk, topic, call, rest)?;
    if answer.is_some() {
        return Ok(answer);
    }
    let answer = answer_of_sharding(desk, topic, call, rest)?;
    if answer.is_some() {
        return Ok(answer);
    }
    answer_of_stream(desk, topic, call, rest)
}

/// The answer to the line. A line that cannot be read has an answer too, and does not end the run.
fn answer_of_line(desk: &mut Desk, line: &str) -> Result<String> {
    let alloc = desk.alloc;
    let (name, rest) = line.split_once(" ").unwrap_or((line, ""));
    if name == "new" {
        *desk = Desk::new(alloc);
        return Ok(String::new(alloc));
    }
    let answer = match answer_of(desk, name, rest) {
        Ok(Some(answer)) => answer,
        Ok(None) => format!(in alloc; "no such call: {name}")?,
        Err(error) => format!(in alloc; "error: {error}")?,
    };
    escaped(alloc, answer.as_str())
}

/// The answers to all lines, one per line.
fn answers_of(alloc: Global, lines: &str) -> Result<String> {
    let mut desk = Desk::new(alloc);
    let mut answers = String::new(alloc);
    for line in lines.lines() {
        answers.push_str(answer_of_line(&mut desk, line)?.as_str())?;
        answers.push('\n')?;
    }
    Ok(answers)
}

fn main(rt: HostRuntime) -> Result<()> {
    let mut bytes = Vec::new(rt.alloc());
    rt.stdin().read_to_end(&mut bytes)?;
    let answers = answers_of(rt.alloc(), str::from_utf8(bytes.as_slice())?)?;
    print!(rt; "{answers}")?;
    Ok(())
}
