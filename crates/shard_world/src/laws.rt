//! Laws about worlds.

ghost use Rattle.stream_laws.specs.Asking.{SubscribersCanAsk};
ghost use Rattle.shard_world.specs.CatchingUp.{SubscribersCatchUp};
ghost use Rattle.shard_world.specs.Connections.{OpensStep, HearsStep, TakesStep, KeepsStep, DeliversStep, ReportsStep, LosesStep};
ghost use Rattle.shard_world.specs.Refusals.{OpensAreAnswered, HearsAreAnswered, TakesAreAnswered, KeepsAreAnswered};
ghost use Rattle.shard_world.specs.Refusals.{DeliversAreAnswered, ReportsAreAnswered, OpenStays, OpenBreaks};
ghost use Rattle.shard_world.specs.Refusals.{HearHalts, TakeHalts, KeepHalts, DeliverHalts, ReportHalts, LossBreaks};
ghost use Rattle.shard_world.specs.SubscriberFrames.{StartsAreHeard, StatusesAreHeard};
ghost use Rattle.shard_world.specs.WorldLaws.{CheckedPublish, WorldsHoldExactly, WorldsDivideRows, WorldsStartAsAsked};

/// A law about the world of a publisher and its subscribers: a function without an effect whose contract states it. Any
/// of them moves next: commits, and connections that are opened and lost, on which bytes are heard and delivered in any
/// pieces (`Steps`). Events, each with its time, lead from the world without rows to another one. There each subscriber
/// has exactly its shard of the publisher's tables after the commits that its position counts (`exactly`). If all have
/// applied the same commits, each row of the tables after them is at exactly one subscriber, and no subscriber has
/// another row (`divided`). Each stream starts at the position that its subscriber requests, since what was confirmed
/// is never later (`asked`).
///
/// PostgreSQL 15, "Logical Replication", 31.2 Subscription and 31.3 Row Filters.
pub fn subscribers_divide_the_tables()
    ensures exactly { WorldsHoldExactly }
    ensures divided { WorldsDivideRows }
    ensures asked { WorldsStartAsAsked }
{}

/// A law about a subscriber with a connection, in each world that events lead to. If all that it sent is heard, each
/// remaining commit is taken, a keepalive is sent and all is delivered, and memory is not refused, then its position is
/// where the last commit of the log ends, so that it has applied all of them.
///
/// PostgreSQL 15, 55.4. Streaming Replication Protocol.
#[tactic(auto, using(crate::proofs::AskingLemmas::subscribers_catch_up))]
pub fn subscribers_catch_up()
    ensures { SubscribersCatchUp }
{}

/// A law about catalogs that were checked. Each, with its own plan, is a publisher as the laws of the world require, if
/// its log may have at most 1,000,000,000 commits (`publish`). Each subscriber of a catalog can request its stream: its
/// subscription is found by its name, its publications are those of the catalog, names are plain, and the command fits
/// a frame of a client (`ask`).
///
/// PostgreSQL 15, 55.4. Streaming Replication Protocol.
pub fn checked_catalogs_publish()
    ensures publish { CheckedPublish }
    ensures ask { SubscribersCanAsk }
{}

/// A law about the frames of a subscriber of the world, as the publisher's end of its connection hears them
/// (`frames_heard` of `copy_both`). The command that requests the stream (`start`), and then statuses (`statuses`), do
/// to the slot's confirmed position, to where the stream starts and to the requested replies what they do to a
/// session of the world (`hear_up`), with no fault. A status reports no more than what was sent and what the log has.
///
/// PostgreSQL 15, 55.4. Streaming Replication Protocol.
pub fn subscribers_are_heard()
    ensures start { StartsAreHeard }
    ensures statuses { StatusesAreHeard }
{}

/// A law about a subscriber and the publisher's end of its connection, by what their calls leave (`Subscriber` of
/// `test_subscriber`, `Link` of `copy_both`). If they match a subscriber of a world that events lead to, a call that
/// does not run out of memory leaves what matches that subscriber after the step of the world, and returns what the
/// step answers: when the subscriber opens a connection (`opened`), any first bytes of what it sent are heard
/// (`heard`), the next commit is taken (`taken`), a keepalive is sent (`kept`), any first bytes of what waits are
/// delivered to the subscriber (`delivered`), it reports its position (`reported`), and the connection is lost
/// (`lost`).
///
/// PostgreSQL 15, 31.2. Subscription, and 55.4. Streaming Replication Protocol.
pub fn connections_step_as_the_world()
    ensures opened { OpensStep }
    ensures heard { HearsStep }
    ensures taken { TakesStep }
    ensures kept { KeepsStep }
    ensures delivered { DeliversStep }
    ensures reported { ReportsStep }
    ensures lost { LosesStep }
{}

/// A law about a subscriber and the publisher's end of its connection, if memory is refused to a call. While they match
/// a subscriber of a world that events lead to, no call returns a fault (`opens`, `hears`, `takes`, `keeps`,
/// `delivers`, `reports`), so that an error means that memory was refused. A subscriber that cannot open a connection
/// stays without one (`stays`, `opened`). A call on a connection leaves the position, the rows and the slot as the
/// world has them after some of the bytes that were to be heard (`heard`) or delivered (`delivered`), and otherwise as
/// they were (`taken`, `kept`, `reported`). When the connection is then lost, what is left matches what the step of the
/// world leaves if memory is refused (`lost`).
///
/// PostgreSQL 15, 31.2. Subscription, and 55.4. Streaming Replication Protocol.
pub fn refused_connections_are_lost()
    ensures opens { OpensAreAnswered }
    ensures hears { HearsAreAnswered }
    ensures takes { TakesAreAnswered }
    ensures keeps { KeepsAreAnswered }
    ensures delivers { DeliversAreAnswered }
    ensures reports { ReportsAreAnswered }
    ensures stays { OpenStays }
    ensures opened { OpenBreaks }
    ensures heard { HearHalts }
    ensures taken { TakeHalts }
    ensures kept { KeepHalts }
    ensures delivered { DeliverHalts }
    ensures reported { ReportHalts }
    ensures lost { LossBreaks }
{}
