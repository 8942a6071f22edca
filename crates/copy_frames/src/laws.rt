//! Laws about frames, and about their contents.

ghost use Rattle.copy_frames.specs.FrameLaws.{CutsAreSpelled, SpelledAreCut, CutsAreWhole, StartsGiven, FedIsGiven, FrameIsGiven, FaultIsFirst};
ghost use Rattle.copy_frames.specs.WholeFrames.{BytesAreFrames, OnlyOfThese};
ghost use Rattle.copy_frames.specs.ContentLaws.{XLogDataIsRead, KeepaliveIsRead, StatusIsRead};

/// A law about what bytes are cut into: a function without an effect whose contract states it.
///
/// The frames that were cut, spelled again, and what is left are the bytes. The spellings of frames, one after another,
/// are cut into those frames and what comes after them. Each frame is within the limit, what is left at the end is not
/// a whole frame, and a fault is that of the length there ("55.7. Message Formats"). So bytes are made of the frames
/// that are cut from them and a rest with its fault (`made`), and of no others (`only`).
#[tactic(auto, using(crate::proofs::CutLemmas::cut_laws))]
pub fn bytes_make_frames()
    ensures spelled { CutsAreSpelled }
    ensures cut { SpelledAreCut }
    ensures whole { CutsAreWhole }
    ensures made { BytesAreFrames }
    ensures only { OnlyOfThese }
{}

/// A law about a `Deframer`: whatever the pieces, the bytes that were fed are the frames that it returned and what it
/// holds, and they are cut into the same frames as if they had come at once. The fault is that of all bytes that were
/// fed.
#[tactic(auto, using(crate::proofs::HistoryLemmas::fault_is_first))]
pub fn pieces_make_frames()
    ensures starts { StartsGiven }
    ensures feeds { FedIsGiven }
    ensures gives { FrameIsGiven }
    ensures fault { FaultIsFirst }
{}

/// A law about what is carried in CopyData: what is spelled is read.
#[tactic(auto, using(crate::proofs::ContentLemmas::content_laws))]
pub fn bodies_are_read_as_spelled()
    ensures data { XLogDataIsRead }
    ensures keepalive { KeepaliveIsRead }
    ensures status { StatusIsRead }
{}
