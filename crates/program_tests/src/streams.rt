//! Readers and writers that a started program does not have, by `run`. Those whose reads and writes fail at any call
//! are in `tools/testing/failed`, with the built program.

use crate::checks::{holds, same};
use cli::run;
use commands::{Input, Printer};
use std::alloc::Global;
use std::io;
use std::io::{ErrorKind, Read, Write};
use std::process::Abort;
use std::test::Fail;

/// A catalog, and two rows.
const ROWS: &str = "CREATE TABLE t (id integer, region text, PRIMARY KEY (id));
CREATE PUBLICATION pa FOR TABLE t WHERE (id < 100);
%%
(7, 'eu')
(100, NULL)
";

/// The status of a run over a reader and a writer.
fn status_of<R: Read + Drop, W: Write>(
    alloc: Global,
    words: &[&str],
    reader: R,
    writer: &mut W,
) -> u8 {
    run(alloc, words, Input::new(reader), &mut Printer::new(writer))
}

/// A command line that lacks even the program's name, as no shell gives it.
#[test]
fn a_command_line_without_words_is_refused(rt: HostRuntime) -> Result<(), Fail> {
    let mut output: Vec<u8> = Vec::new(rt.alloc());
    let status = status_of(rt.alloc(), &[], ROWS.as_bytes(), &mut output);
    same(&rt, status, 2);
    holds(&rt, output.starts_with(b"command line\nerror: "));
    holds(&rt, output.ends_with(b"try '--help'.\n"));
    Ok(())
}

/// A reader that gives a byte, fails so many times, gives another byte, and ends.
#[derive(Drop)]
struct Failing<'a> {
    text: &'a [u8],
    kind: ErrorKind,
    failures: usize,
    reads: &'a mut usize,
}

impl Read for Failing<'_> {
    fn read(&mut self, buffer: &mut [u8]) -> io::Result<usize> {
        *self.reads = self.reads.saturating_add(1);
        if *self.reads > 1 && self.failures > 0 {
            self.failures -= 1;
            return Err(io::Error::from(self.kind));
        }
        let room = buffer.len().min(1);
        self.text.read(&mut buffer[..room])
    }
}

/// How often the reader is read by so many reads of an input.
fn reads_by(count: usize, kind: ErrorKind, failures: usize) -> usize {
    let mut reads = 0;
    let reader = Failing {
        text: b"ab",
        kind,
        failures,
        reads: &mut reads,
    };
    let mut input = Input::new(reader);
    let mut byte = [0; 1];
    for _ in 0..count {
        let _answer = input.read(&mut byte);
    }
    drop(input);
    reads
}

/// How a read fails.
const KINDS: &[ErrorKind] = &[
    ErrorKind::Other,
    ErrorKind::OutOfMemory,
    ErrorKind::Interrupted,
];

/// That up to seven reads of an input are as many of its reader, which fails so many times.
fn expect_reads(rt: &impl Abort, kind: ErrorKind, failures: usize) {
    for count in 0..8 {
        same(rt, reads_by(count, kind, failures), count);
    }
}

#[test]
fn a_read_of_an_input_is_one_of_its_reader(rt: HostRuntime) {
    for kind in KINDS {
        expect_reads(&rt, *kind, 0);
        expect_reads(&rt, *kind, 1);
        expect_reads(&rt, *kind, 2);
    }
}

/// A reader that never ends: it gives a byte at a time, or is always interrupted.
#[derive(Drop)]
struct Endless<'a> {
    interrupted: bool,
    reads: &'a mut usize,
}

impl Read for Endless<'_> {
    fn read(&mut self, buffer: &mut [u8]) -> io::Result<usize> {
        *self.reads = self.reads.saturating_add(1);
        if self.interrupted {
            return Err(io::Error::from(ErrorKind::Interrupted));
        }
        let room = buffer.len().min(1);
        io::repeat(b' ').read(&mut buffer[..room])
    }
}

/// That such a reader is read no more than a text of the longest input needs, and is an input fault.
fn expect_limit(rt: &impl Abort, alloc: Global, interrupted: bool) {
    let mut reads = 0;
    let reader = Endless {
        interrupted,
        reads: &mut reads,
    };
    let mut output: Vec<u8> = Vec::new(alloc);
    let status = status_of(alloc, &["pgshard", "make"], reader, &mut output);
    same(rt, (status, output.as_slice()), (3, b"input\n".as_slice()));
    same(rt, reads, 16_777_217);
}

#[test]
fn reads_have_a_limit(rt: HostRuntime) {
    expect_limit(&rt, rt.alloc(), false);
    expect_limit(&rt, rt.alloc(), true);
}

/// A writer whose first write fails, and which then works.
#[derive(Drop)]
struct Recovering {
    taken: Vec<u8>,
    failed: bool,
    flushed: bool,
}

impl Write for Recovering {
    fn write(&mut self, bytes: &[u8]) -> io::Result<usize> {
        if !self.failed {
            self.failed = true;
            return Err(io::Error::from(ErrorKind::Other));
        }
        self.taken.write(bytes)
    }

    fn flush(&mut self) -> io::Result<()> {
        self.flushed = true;
        Ok(())
    }
}

/// That a run which writes rows, or why it cannot, writes nothing after its first write has failed.
fn expect_silence(rt: &impl Abort, alloc: Global, table: &str) {
    let mut writer = Recovering {
        taken: Vec::new(alloc),
        failed: false,
        flushed: false,
    };
    let words = ["pgshard", "eval", table];
    same(
        rt,
        status_of(alloc, &words, ROWS.as_bytes(), &mut writer),
        4,
    );
    holds(rt, writer.taken.is_empty() && !writer.flushed);
}

#[test]
fn nothing_is_written_after_a_failed_write(rt: HostRuntime) {
    expect_silence(&rt, rt.alloc(), "t");
    expect_silence(&rt, rt.alloc(), "u");
}
