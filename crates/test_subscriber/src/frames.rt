//! What a subscriber does with the frames of a connection.

ghost use Rattle.std.specs.Prelude.{◌≡◌, IfOk, IfErr, Ok};
ghost use Rattle.pgoutput_msgs.specs.Reading.{decoded};
ghost use Rattle.test_subscriber.specs.Copies.{RefusedBy};
ghost use Rattle.test_subscriber.specs.Frames.{code_in, refused_start, fault_of, message_of};

use crate::fault::SubFault;
use crate::phase::Phase;
use crate::replica::Replica;
use copy_frames::{Frame, FrameFault, Keepalive, read_keepalive, read_xlog_data};
use pgoutput_msgs::{Msg, MsgError, decode};
use std::alloc::Global;
use tables_log::Lsn;

/// The code of an ErrorResponse with a severity, twice, a code of five characters and a text.
///
/// PostgreSQL 15, 55.8. Error and Notice Message Fields.
fn code_in(body: &[u8]) -> Option<[u8; 5]>
    ensures { result ≡ code_in body.now }
{
    if body.len() < 24 {
        return None;
    }
    let end = body.len() - 2;
    if &body[..15] == b"SERROR\0VERROR\0C".as_slice()
        && &body[20..22] == b"\0M".as_slice()
        && &body[end..] == b"\0\0".as_slice()
    {
        Some([body[15], body[16], body[17], body[18], body[19]])
    } else {
        None
    }
}

/// What an ErrorResponse reports.
fn refusal(body: &[u8]) -> SubFault
    ensures { result ≡ refused_start (code_in body.now) }
{
    match code_in(body) {
        None => SubFault::OutOfPlace,
        Some(code) => SubFault::Refused(code),
    }
}

fn fault_of(error: MsgError) -> SubFault
    ensures { result ≡ fault_of error }
{
    match error {
        MsgError::OutOfMemory => SubFault::OutOfMemory,
        MsgError::Unknown(_)
        | MsgError::Toast
        | MsgError::BadCount
        | MsgError::Short
        | MsgError::BadText
        | MsgError::Trailing => SubFault::Msg(error),
    }
}

/// The message that the bytes spell.
#[tactic(auto, using(crate::proofs::FrameLemmas::decode_refuses))]
fn message_in(alloc: Global, bytes: &[u8]) -> Result<Msg, SubFault>
    ensures ok { IfOk result (λ message. decoded bytes.now ≡ Ok message) }
    ensures fault { IfErr result (RefusedBy (message_of (decoded bytes.now))) }
{
    match decode(alloc, bytes) {
        Ok(message) => Ok(message),
        Err(error) => Err(fault_of(error)),
    }
}

impl Replica {
    ghost use Rattle.test_subscriber.specs.Answers.{Hears};
    ghost use Rattle.test_subscriber.specs.Frames.{hear_response, hear_start, hear_keepalive, hear_data, hear_content, hear_stream, hear_frame};
    ghost use Rattle.test_subscriber.specs.Machine.{Alike};
    ghost use Rattle.test_subscriber.specs.Frames.{kept_alive};
    ghost use Rattle.test_subscriber.specs.Views.{machine_view};
    ghost use Rattle.pgoutput_msgs.specs.Reading.{decoded};
    ghost use Rattle.test_subscriber.specs.Frames.{hear_decoded};
    ghost use Rattle.copy_frames.specs.Contents.{xlog_data_in, keepalive_in};

    /// Hears a CopyBothResponse.
    fn hear_response(&mut self, body: &[u8]) -> Result<(), SubFault>
        ensures { Hears (hear_response body.now) self.old result self.new }
    {
        if body != b"\0\0\0".as_slice() {
            return Err(SubFault::OutOfPlace);
        }
        self.phase = Phase::Idle;
        Ok(())
    }

    /// Hears the answer to the command that starts the stream.
    fn hear_start(&mut self, frame: &Frame) -> Result<(), SubFault>
        ensures { Hears (hear_start frame.now) self.old result self.new }
    {
        match frame.kind {
            b'W' => self.hear_response(frame.body.as_slice()),
            b'E' => Err(refusal(frame.body.as_slice())),
            _ => Err(SubFault::OutOfPlace),
        }
    }

    /// Raises the position to that of a keepalive, unless a transaction is not committed, and keeps whether it requests
    /// a status.
    fn keep_alive(&mut self, keepalive: &Keepalive)
        ensures { Alike (machine_view self.new) (kept_alive keepalive.now (machine_view self.old)) }
    {
        if self.phase == Phase::Idle {
            self.position = self.position.max(Lsn::new(keepalive.position));
        }
        self.wants_reply |= keepalive.wants_reply;
    }

    fn hear_keepalive(&mut self, body: &[u8]) -> Result<(), SubFault>
        ensures { Hears (hear_keepalive (keepalive_in body.now)) self.old result self.new }
    {
        let Some(keepalive) = read_keepalive(body) else {
            return Err(SubFault::Frame(FrameFault::BadLength));
        };
        self.keep_alive(&keepalive);
        Ok(())
    }

    fn hear_data(&mut self, body: &[u8]) -> Result<(), SubFault>
        ensures { Hears (hear_data (xlog_data_in body.now)) self.old result self.new }
    {
        let Some((_, bytes)) = read_xlog_data(body) else {
            return Err(SubFault::Frame(FrameFault::BadLength));
        };
        self.hear_bytes(bytes)
    }

    /// Hears the message that the bytes spell.
    fn hear_bytes(&mut self, bytes: &[u8]) -> Result<(), SubFault>
        ensures { Hears (hear_decoded (decoded bytes.now)) self.old result self.new }
    {
        let message = message_in(self.alloc, bytes)?;
        self.hear(message)?;
        Ok(())
    }

    /// Hears what CopyData carries.
    fn hear_content(&mut self, body: &[u8]) -> Result<(), SubFault>
        ensures { Hears (hear_content body.now) self.old result self.new }
    {
        if body.is_empty() {
            return Err(SubFault::OutOfPlace);
        }
        match body[0] {
            b'w' => self.hear_data(body),
            b'k' => self.hear_keepalive(body),
            _ => Err(SubFault::OutOfPlace),
        }
    }

    /// Hears a frame of the stream.
    fn hear_stream(&mut self, frame: &Frame) -> Result<(), SubFault>
        ensures { Hears (hear_stream frame.now) self.old result self.new }
    {
        if frame.kind != b'd' {
            return Err(SubFault::OutOfPlace);
        }
        self.hear_content(frame.body.as_slice())?;
        Ok(())
    }

    /// Hears a frame. An error keeps what stays after a fault.
    pub(crate) fn hear_frame(&mut self, frame: &Frame) -> Result<(), SubFault>
        ensures { Hears (hear_frame frame.now) self.old result self.new }
    {
        match self.phase {
            Phase::Shut => Err(SubFault::Closed),
            Phase::Waiting => self.hear_start(frame),
            Phase::Idle | Phase::Busy(_) => self.hear_stream(frame),
        }
    }
}
