//! Laws about the spellings of messages, and about the messages that report commits.

ghost use Rattle.pgoutput_msgs.specs.Introducing.{CommitsIntroduce, CommitsInTurnIntroduce, RecordsAreOfTables, LogsAreOfTables};
ghost use Rattle.pgoutput_msgs.specs.ReadBack.{RowsReadBack, ValidRowsReadBack, RecordedRowsReadBack};
ghost use Rattle.pgoutput_msgs.specs.SeenMessages.{MessagesTellWhatIsSeen};
ghost use Rattle.pgoutput_msgs.specs.Sent.{MessagesAreReadBack};
ghost use Rattle.pgoutput_msgs.specs.Silent.{QuietAreSilent};
ghost use Rattle.pgoutput_msgs.specs.Transactions.{CommitsTellTransactions};
ghost use Rattle.pgoutput_msgs.specs.Laws.{NoneIsProperPrefix, EachSpellsOne, SpellingsAreDecoded, DecodedAreSpellings, NothingMayFollow, FaultsAreTrue};

/// A law about spellings: a function without an effect whose contract states it. No message's spelling is a proper
/// prefix of another's, and no two messages are spelled alike. So whoever reads spellings one after another can tell
/// where each ends, and which message it spells.
///
/// Each has to be a message: a name with a zero byte would be spelled as two.
///
/// PostgreSQL 15, 55.9. Logical Replication Message Formats.
pub fn no_spelling_begins_another()
    ensures ends { NoneIsProperPrefix }
    ensures one { EachSpellsOne }
{}

/// A law about decoding: a spelling is decoded as its message, what is decoded has that spelling, and a spelling with
/// bytes after it is refused because of them. If the bytes have a fault, it is true of them.
pub fn spellings_are_decoded()
    ensures decoded { SpellingsAreDecoded }
    ensures spelled { DecodedAreSpellings }
    ensures alone { NothingMayFollow }
    ensures faults { FaultsAreTrue }
{}

/// A law about rows: the tuple of a row whose values are null or of their columns' types is read back as that row,
/// value by value. The same holds for a row that fits its table (`valid`). What is recorded of an old row (`recorded`)
/// is read back as the row with nulls outside the columns of the replica identity, and under FULL as the row itself.
pub fn rows_are_read_back()
    ensures rows { RowsReadBack }
    ensures valid { ValidRowsReadBack }
    ensures recorded { RecordedRowsReadBack }
{}

/// A law about `messages_of`: the spelling of each message that it returns is decoded as that message.
pub fn messages_are_read_back()
    ensures { MessagesAreReadBack }
{}

/// A law about Relations: in the messages of a commit (`one`), and of commits one after the other (`all`), each change
/// is of tables that were announced, before the commit or by a Relation before the change. No Relation comes for a
/// table that was announced. Afterwards the tables that `messages_of` marks are those that were announced. It holds if
/// there is a flag for each table, and changes name only tables that exist, as do those that commands record
/// (`recorded`) and those of each log (`logged`).
///
/// PostgreSQL 15, 55.5.3. Logical Replication Protocol Message Flow.
pub fn relations_come_once()
    ensures one { CommitsIntroduce }
    ensures all { CommitsInTurnIntroduce }
    ensures recorded { RecordsAreOfTables }
    ensures logged { LogsAreOfTables }
{}

/// A law about changes: without Begin, Commit and Relations, the messages of a commit are those of what the subscriber
/// sees of the commit's commands, in their order: an Insert for a new row alone, a Delete for an old row alone, and an
/// Update for both, with what is recorded of the old row. So there are none if, and only if, nothing is seen. It holds
/// if a row's identity determines who gets the row, as in each catalog that was checked.
///
/// PostgreSQL 15, "Logical Replication", 31.3.3 UPDATE Transformations.
pub fn messages_tell_what_is_seen()
    ensures { MessagesTellWhatIsSeen }
{}

/// A law about commits: the messages of a commit depend only on what the subscriber sees of the commit's commands and
/// on the tables that the connection named before. Begin and Commit carry the commit's number and time; between them is
/// each change, in the order of the commands, and directly before a change are the Relations of those of its tables
/// that no change of the connection named before. It holds if a row's identity determines who gets the row, as in each
/// catalog that was checked.
///
/// PostgreSQL 15, 55.5.3. Logical Replication Protocol Message Flow.
pub fn commits_tell_transactions()
    ensures { CommitsTellTransactions }
{}

/// A law about commits of whose changes a subscriber gets nothing: no message reports such a commit to it, and no
/// Relation is sent for it. So the commit may be passed over without a look at its changes.
///
/// PostgreSQL 15, "Logical Replication", 31.3.3 UPDATE Transformations.
pub fn quiet_commits_are_silent()
    ensures { QuietAreSilent }
{}
