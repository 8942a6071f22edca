use crate::checks::{holds, same};
use senders::{FromRead, Gate, OpenGate, Sink, Source, ToWrite};
use std::test::Fail;

#[test]
fn a_reader_is_a_source(rt: HostRuntime) -> Result<(), Fail> {
    let mut source = FromRead::new("abc".as_bytes());
    let mut piece = [0; 2];
    same(&rt, source.pull(&mut piece).ok(), Some(2));
    same(&rt, piece, [97, 98]);
    same(&rt, source.pull(&mut piece).ok(), Some(1));
    same(&rt, piece[0], 99);
    holds(&rt, !source.ended());
    same(&rt, source.pull(&mut piece).ok(), Some(0));
    holds(&rt, source.ended() && !source.failed());
    Ok(())
}

#[test]
fn a_writer_is_a_sink(rt: HostRuntime) -> Result<(), Fail> {
    let mut room = [0; 3];
    let mut sink = ToWrite::new(&mut room[..]);
    same(&rt, sink.refuse("ab".as_bytes()).ok(), Some(2));
    same(&rt, sink.refuse("cd".as_bytes()).ok(), Some(1));
    holds(&rt, !sink.failed());
    holds(&rt, sink.refuse("d".as_bytes()).is_err() && sink.failed());
    OpenGate.pass(0, 1);
    Ok(())
}
