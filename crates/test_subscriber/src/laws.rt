//! Laws about what a subscriber does.

ghost use Rattle.test_subscriber.specs.FeedingLaws.{FirstPiecesStay, PiecesAreFedAsOne, StopsComeAtOnce};
ghost use Rattle.test_subscriber.specs.MachineLaws.{HearAlike};

/// A law about messages: a function without an effect whose contract states it. Machines that keep, know and show the
/// same at each OID and key still do after a message, or stop with the same fault.
#[tactic(auto, using(crate::proofs::HearAlikeLemmas::hear_alike))]
pub fn machines_hear_alike()
    ensures { HearAlike }
{}

/// A law about pieces: if the first of two pieces has no fault, both leave what they leave as one piece, and `feed`
/// stops with the same error. The same holds for any pieces that bytes are cut into. If memory is refused for the
/// second piece, all whole frames of the first one are heard (`stays`).
///
/// PostgreSQL 15, 55.7. Message Formats.
pub fn pieces_are_fed_as_one()
    ensures fed { PiecesAreFedAsOne }
    ensures stopped { StopsComeAtOnce }
    ensures stays { FirstPiecesStay }
{}
