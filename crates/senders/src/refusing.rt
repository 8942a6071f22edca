//! Connections on which no stream was started.

ghost use Rattle.std.specs.Prelude.{◌≡◌, [], None};
ghost use Rattle.copy_both.specs.Ears.{ear_refusal};
ghost use Rattle.senders.specs.Refusing.{AnswersAs, WritesFirst, cause_by, fault_by};

use crate::end::End;
use crate::listener::Listener;
use crate::listener_end::ListenerEnd;
use crate::sink::Sink;
use copy_both::LinkFault;

/// Writes the bytes of a response until the sink fails: all of them if it does not.
fn write_all<W: Sink>(bytes: &[u8], writer: &mut W)
    ensures { WritesFirst (W.taken writer.old) (W.taken writer.new) (W.has_failed writer.new) bytes.now }
{
    let mut rest = bytes;
    while !rest.is_empty() {
        let Ok(count) = writer.refuse(rest) else {
            return;
        };
        rest = &rest[count..];
    }
}

/// Why a connection ended, if its listener ended it.
pub(crate) fn cause_of(why: ListenerEnd) -> End
    ensures { result ≡ cause_by why }
{
    match why {
        ListenerEnd::SourceFailed => End::ReadFault,
        ListenerEnd::SourceEnded | ListenerEnd::Frame(_) => End::Client,
        ListenerEnd::Fault(fault) => End::Link(fault),
    }
}

/// The fault of what the client sent, if that ended its listener.
pub(crate) fn fault_of(why: ListenerEnd) -> Option<LinkFault>
    ensures { result ≡ fault_by why }
{
    match why {
        ListenerEnd::Fault(fault) => Some(fault),
        ListenerEnd::SourceFailed | ListenerEnd::SourceEnded | ListenerEnd::Frame(_) => None,
    }
}

/// Writes the response to a start that was refused, if that is why it ended.
pub(crate) fn answer<W: Sink>(listener: &Listener, why: ListenerEnd, writer: &mut W)
    ensures { AnswersAs why (W.taken writer.old) (W.taken writer.new) (W.has_failed writer.new)
        (ear_refusal listener.now.ear) }
{
    if let ListenerEnd::Fault(LinkFault::BadStart(_)) = why {
        write_all(listener.refusal(), writer);
    }
}
