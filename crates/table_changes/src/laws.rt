//! Laws about what commands do to tables. A law is a function without an effect whose contract states it.

ghost use Rattle.table_changes.specs.Always.{FaultsOfCommandsStay};
ghost use Rattle.table_changes.specs.Setting.{Setting};
ghost use Rattle.table_changes.specs.Changes.{RowComes, RowGoes, TablesAreEmptied, OthersStay, OneRowForKey};
ghost use Rattle.table_changes.specs.Changes.{RowsStand, RowsStayKeyed, RowsStayFit, RowsStayApart, BeginsWell};
ghost use Rattle.table_changes.specs.CommandLists.{SameAreAlike, FaultOfOneMore, FirstFaultStays, LeftByOneMore, RecordOfOneMore};
ghost use Rattle.table_changes.specs.Showing.{RecordShows, RecordShowsAll};

/// A law about tables in which a row is found by each of its unique keys, and has a primary key. No other row changes
/// when a row comes that shares no value in a unique key (`comes`), when a row goes (`goes`) and when tables are
/// emptied (`empties`). Rows stay where each of their unique keys finds them (`stay`). Rows of a table that share a
/// value in a unique key are one row (`one`).
///
/// PostgreSQL 15, Chapter 6 Data Manipulation, 5.4.4 Primary Keys, and 11.6 Unique Indexes.
#[tactic(auto, using(crate::proofs::Rules::rows_of_tables))]
pub fn rows_come_and_go()
    ensures comes { RowComes }
    ensures goes { RowGoes }
    ensures empties { TablesAreEmptied }
    ensures stay { OthersStay }
    ensures one { OneRowForKey }
{}

/// A law about commands on tables. A command without a fault leaves exactly the rows that it adds and those that it
/// does not take out (`stand`). Commands without a fault, each acting on what the earlier ones leave, keep each row
/// where each of its unique keys has it (`keyed`), rows that fit their tables (`fit`), and the rows of a table distinct
/// by their identity (`apart`). Tables without rows have all of these properties (`begin`).
///
/// PostgreSQL 15, Chapter 6 Data Manipulation, and SQL Commands, TRUNCATE.
#[tactic(auto, using(crate::proofs::Rules::changes_of_rows))]
pub fn commands_change_rows()
    ensures stand { RowsStand }
    ensures keyed { RowsStayKeyed }
    ensures fit { RowsStayFit }
    ensures apart { RowsStayApart }
    ensures begin { (setting : Setting) → BeginsWell setting }
{}

/// A law about lists of commands. On tables with the same row in each place commands have the same faults, and leave,
/// record and show the same (`alike`). After commands without a fault the first fault is that of the next command
/// (`fault`), and after a fault it stays the first (`first`). One more command acts on what the others leave (`left`),
/// and its change is recorded after theirs (`recorded`).
///
/// PostgreSQL 15, Chapter 6 Data Manipulation.
#[tactic(auto, using(crate::proofs::Rules::lists_of_commands))]
pub fn commands_come_one_by_one()
    ensures alike { SameAreAlike }
    ensures fault { FaultOfOneMore }
    ensures first { FirstFaultStays }
    ensures left { LeftByOneMore }
    ensures recorded { RecordOfOneMore }
{}

/// A law about the faults that a command has by itself: a table that does not exist, and a row that does not fit its
/// table. A list that is refused on any tables for such a fault of a command has that fault, whatever rows there are.
///
/// PostgreSQL 15, Chapter 6 Data Manipulation, and SQL Commands, TRUNCATE.
#[tactic(auto, using(crate::proofs::AlwaysLemmas::faults_of_commands_stay))]
pub fn faults_of_commands_stay()
    ensures { FaultsOfCommandsStay }
{}

/// A law about what is recorded of commands without a fault, if a row's identity determines who gets it. From each
/// recorded change a subscriber gets what it sees of the command at that position, and nothing if it sees nothing
/// (`each`); so from the whole record it gets what it sees of the commands (`all`).
///
/// PostgreSQL 15, "Logical Replication", 31.3.3 UPDATE Transformations.
#[tactic(auto, using(crate::proofs::ShowingLemmas::record_shows, crate::proofs::ShowingLemmas::record_shows_all))]
pub fn records_show_what_is_seen()
    ensures each { RecordShows }
    ensures all { RecordShowsAll }
{}
