//! What is at the front of some bytes.

ghost use Rattle.std.specs.Prelude.{◌≡◌, ◌≤◌, length};
ghost use Rattle.copy_frames.specs.Frames.{front};
ghost use Rattle.copy_frames.specs.Scans.{Tells};

use crate::fault::FrameFault;
use byteorder::{BigEndian, ByteOrder};

/// What is at the front of some bytes.
#[derive(Clone, Copy)]
pub enum Front {
    /// Less than a frame.
    Part,
    /// A length that no frame may have.
    Faulty(FrameFault),
    /// A frame of this many bytes, its kind and its length among them.
    Whole(usize),
}

/// What is at the front of the bytes, if the length of a frame is at most `limit`.
pub fn peek(limit: u32, bytes: &[u8]) -> Front
    ensures front { result ≡ front limit bytes.now }
    ensures tells { Tells limit bytes.now result }
{
    classify(limit, bytes)
}

#[tactic(auto, unfolding(crate::specs::Frames::front))]
fn classify(limit: u32, bytes: &[u8]) -> Front
    ensures { result ≡ front limit bytes.now }
{
    if bytes.len() < 5 {
        return Front::Part;
    }
    let size = BigEndian::read_u32(&bytes[1..5]);
    if size < 4 || size >= 1 << 31 {
        return Front::Faulty(FrameFault::BadLength);
    }
    if limit < size {
        return Front::Faulty(FrameFault::FrameTooLong);
    }
    let whole = size as usize + 1;
    if bytes.len() < whole {
        Front::Part
    } else {
        Front::Whole(whole)
    }
}
