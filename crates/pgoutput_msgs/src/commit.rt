//! Commit: a transaction ends.

ghost use Rattle.pgoutput_msgs.specs.Spelling.{spelling_of};
ghost use Rattle.pgoutput_msgs.specs.Room.{HasRoom, Puts};
ghost use Rattle.pgoutput_msgs.specs.Reading.{Reads, commit_at};

use crate::error::MsgError;
use crate::message::Msg;
use crate::reader::Reader;
use crate::room::{put_byte, put_int64};

pub(crate) const COMMIT_LEN: usize = 26;

pub(crate) fn put_commit(lsn: u64, end_lsn: u64, time: u64, out: &mut Vec<u8>)
    requires { HasRoom out.old (spelling_of (Msg.Commit lsn end_lsn time)) }
    ensures { Puts out.old out.new (spelling_of (Msg.Commit lsn end_lsn time)) }
{
    put_byte(b'C', out);
    put_byte(0, out);
    put_int64(lsn, out);
    put_int64(end_lsn, out);
    put_int64(time, out);
}

#[tactic(auto, unfolding(crate::specs::Reading::commit_at))]
pub(crate) fn read_commit(r: &mut Reader) -> Result<Msg, MsgError>
    ensures { Reads (λ x. x) (commit_at r.old) result r.new }
{
    let flags = r.byte()?;
    if flags != 0 {
        return Err(MsgError::Unknown(flags));
    }
    let lsn = r.int64()?;
    let end_lsn = r.int64()?;
    let time = r.int64()?;
    Ok(Msg::Commit { lsn, end_lsn, time })
}
