//! Laws about streams.

ghost use Rattle.stream_laws.specs.Asking.{CommandsAreRead, StartsAreAnswered};
ghost use Rattle.stream_laws.specs.CommandSpelling.{TokensAreSpelled};
ghost use Rattle.stream_laws.specs.Cutting.{FirstPartsAreCut};
ghost use Rattle.stream_laws.specs.Following.{ItemsAreFollowed};
ghost use Rattle.stream_laws.specs.FollowingBytes.{BytesAreFollowed, FedFollow, NothingIsFed, StoppedFollow, LostFollow, FirstFollows, FollowsLonger};
ghost use Rattle.stream_laws.specs.LayoutRoom.{LogsFitLayouts, StreamsCanBeSent};

/// A law about cutting streams: a function without an effect whose contract states it. Bytes that are a first part of a
/// stream are cut into the frames that are whole in them, and a rest that is not a whole frame.
///
/// PostgreSQL 15, 55.7. Message Formats.
#[tactic(auto, using(crate::proofs::CuttingLemmas::first_parts_are_cut))]
pub fn first_parts_are_cut()
    ensures { FirstPartsAreCut }
{}

/// A law about a subscriber that follows: its rows are those of its shard of the publisher's tables after the commits
/// that its position counts. It opens a connection at its own position. After the frames of any first items of the
/// stream that starts there, whatever the stream's moves, it follows, at the greatest position that they carried, and
/// none of them is a fault to it (`items`). The same holds after any first bytes of the stream (`bytes`).
///
/// PostgreSQL 15, 55.4. Streaming Replication Protocol, and "Logical Replication", 31.3 Row Filters.
#[tactic(auto, using(crate::proofs::Rules::following))]
pub fn subscribers_follow_streams()
    ensures items { ItemsAreFollowed }
    ensures bytes { BytesAreFollowed }
{}

/// A law about subscribers, by what their calls leave. One that follows, and opened a connection, follows after it was
/// fed any first bytes of its stream (`fed`), which is the same in pieces (`pieces_are_fed_as_one` of
/// `test_subscriber`); before the first piece it is as if it was fed nothing (`nothing`). If a piece stops it, memory
/// was refused, and it still follows, after all items that are whole in the pieces before it, and some of those that
/// are whole with it (`stops`). It also follows after it lost its connection (`lost`), before its first one (`first`),
/// and when more is committed (`longer`).
///
/// PostgreSQL 15, 31.2. Subscription, and 55.4. Streaming Replication Protocol.
#[tactic(auto, using(crate::proofs::Rules::following_pieces))]
pub fn fed_subscribers_follow()
    ensures fed { FedFollow }
    ensures nothing { NothingIsFed }
    ensures stops { StoppedFollow }
    ensures lost { LostFollow }
    ensures first { FirstFollows }
    ensures longer { FollowsLonger }
{}

/// A law about logs of transactions that were accepted: if times have 64 bits, the catalog is within its limits and
/// there are at most 1,000,000,000 transactions, the layouts have room for each message that reports them to any
/// subscriber, so that it is read as it was spelled.
///
/// PostgreSQL 15, 55.9. Logical Replication Message Formats.
#[tactic(auto, using(crate::proofs::LayoutRoomLemmas::logs_fit_layouts))]
pub fn logs_fit_layouts()
    ensures { LogsFitLayouts }
{}

/// A law about streams: if the layouts have room for what is sent of the log, and clocks have 64 bits, they have room
/// for each item of a stream that starts at a position that the log reaches, whatever its moves.
///
/// PostgreSQL 15, 55.4. Streaming Replication Protocol.
pub fn streams_can_be_sent()
    ensures { StreamsCanBeSent }
{}

/// A law about the tokens of a text, which is a replication command or a list of names. The tokens that are read are
/// those that the text spells, whatever the text: each as it is written, in order, with or without blanks before,
/// between and after them. So no text spells two lists of tokens, and a text that spells none is not read.
///
/// PostgreSQL 15, 55.4. Streaming Replication Protocol, and 4.1. Lexical Structure.
pub fn tokens_are_spelled()
    ensures { TokensAreSpelled }
{}

/// A law about the command with which a subscriber requests its stream. The publisher reads what was meant: the slot,
/// the position, version 1 of the protocol and the publications' names, if each name has 1 to 63 bytes and the position
/// has 64 bits. There is at least one publication. A name may have any bytes, quotes and commas among them.
///
/// PostgreSQL 15, 55.4. Streaming Replication Protocol, and 55.5.1. Logical Streaming Replication Parameters.
pub fn commands_are_read()
    ensures { CommandsAreRead }
{}

/// A law about the first frame of a subscriber of the world, if its subscription is found by its name, its publications
/// are those of the catalog, and names are plain. If its slot is free and the log reaches the position, the publisher
/// starts the stream of its slot there, or where the slot is confirmed if that is later.
///
/// PostgreSQL 15, 55.4. Streaming Replication Protocol.
pub fn starts_are_answered()
    ensures { StartsAreAnswered }
{}
