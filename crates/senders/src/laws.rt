//! Laws of connections that were served.

ghost use Rattle.senders.specs.Following.{
  ClientsFollow,
  ClientsStop,
  ClosedAreFollowed,
  ClosedAreExplained,
  ClosedTellTheLog,
  ServedAreFirstParts,
};

/// A law, and no code, about connections that were served, whose commits are those of a book's log from their start
/// on, as the closing comparison finds them. What was written, without a CopyDone at the end, is a prefix of the
/// stream over the log of the book's transactions.
///
/// PostgreSQL 15, 55.4. Streaming Replication Protocol.
pub fn served_streams_tell_the_log()
    ensures { ServedAreFirstParts }
{}

/// A law, and no code, about the clients of such connections. Take a subscriber that has its shard, and opens a
/// connection at its own position, which starts there. After it has been fed any prefix of the stream, in any pieces,
/// it has its shard of the tables as of the commits that its position counts (`follow`). If a piece stops it, memory
/// was refused, and it has its shard after everything that was whole before the piece and some of what is whole with
/// it (`stop`). The law holds for each catalog that was checked, and for transactions that were accepted, whose times
/// have 64 bits.
///
/// PostgreSQL 15, 31.2. Subscription, and 55.4. Streaming Replication Protocol.
pub fn clients_of_connections_follow()
    ensures follow { ClientsFollow }
    ensures stop { ClientsStop }
{}

/// A law, and no code, about a publisher that was closed, whose answer is `IsClosed`. The transactions of its log,
/// which explain its receipts, were accepted one after another, and have times of 64 bits (`explained`). What was
/// written to each of its connections, without a CopyDone at the end, is a prefix of the stream over the log of these
/// transactions (`streams`). A subscriber that has its shard, opened the connection at its own position and was fed any
/// prefix of this has its shard of the tables as of the commits that its position counts (`clients`).
///
/// PostgreSQL 15, 3.4. Transactions, and 31.2. Subscription.
pub fn closed_publishers_were_followed()
    ensures explained { ClosedAreExplained }
    ensures streams { ClosedTellTheLog }
    ensures clients { ClosedAreFollowed }
{}
