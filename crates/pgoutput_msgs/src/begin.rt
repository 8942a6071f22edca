//! Begin: a transaction begins.

ghost use Rattle.pgoutput_msgs.specs.Spelling.{spelling_of};
ghost use Rattle.pgoutput_msgs.specs.Room.{HasRoom, Puts};
ghost use Rattle.pgoutput_msgs.specs.Reading.{Reads, begin_at};

use crate::error::MsgError;
use crate::message::Msg;
use crate::reader::Reader;
use crate::room::{put_byte, put_int32, put_int64};

pub(crate) const BEGIN_LEN: usize = 21;

pub(crate) fn put_begin(final_lsn: u64, time: u64, xid: u32, out: &mut Vec<u8>)
    requires { HasRoom out.old (spelling_of (Msg.Begin final_lsn time xid)) }
    ensures { Puts out.old out.new (spelling_of (Msg.Begin final_lsn time xid)) }
{
    put_byte(b'B', out);
    put_int64(final_lsn, out);
    put_int64(time, out);
    put_int32(xid, out);
}

#[tactic(auto, unfolding(crate::specs::Reading::begin_at))]
pub(crate) fn read_begin(r: &mut Reader) -> Result<Msg, MsgError>
    ensures { Reads (λ x. x) (begin_at r.old) result r.new }
{
    let final_lsn = r.int64()?;
    let time = r.int64()?;
    let xid = r.int32()?;
    Ok(Msg::Begin {
        final_lsn,
        time,
        xid,
    })
}
