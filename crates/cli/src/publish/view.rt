//! What VIEW shows: the publisher's rows, and how far each subscriber is.

ghost use Rattle.std.specs.Prelude.{◌≡◌, ◌++◌, length, IfOk, OnOk};
ghost use Rattle.std.specs.String.{string_bytes};
ghost use Rattle.pub_catalog.specs.CatalogView.{catalog_view};
ghost use Rattle.commands.specs.Output.{ended, text_of};
ghost use Rattle.shard_world.specs.ViewContents.{AllAt, FoundIn};
ghost use Rattle.tables_log.specs.BookView.{book_slots};
ghost use Rattle.tables_log.specs.Committing.{IsKept};
ghost use Rattle.publisher_desk.specs.Seats.{SeesOn};
ghost use Rattle.publisher_desk.specs.SlotEvents.{sent_at};
ghost use Rattle.cli.specs.Views as spec;
ghost use Rattle.cli.specs.Views.{IsViewText, progress_lines, progress_seen, taken_at};

use commands::{push_position, push_tables, subscriber_name};
use filter_tree::Row;
use pub_catalog::Catalog;
use publisher_desk::{ConnectionState, SlotTask};
use senders::{Publisher, Publishing, Seat};
use std::alloc::{AllocError, Global};
use std::sync::Wait;
use tables_log::{Book, Lsn, SlotNumber, StartError};

/// The progress of a subscriber: the position up to which it has confirmed the log, that up to which it was sent the
/// log since its stream last started, and whether it is connected.
#[derive(Clone, Copy, Debug, PartialEq, Eq)]
pub(crate) struct Progress {
    pub(crate) confirmed: Lsn,
    pub(crate) sent: Lsn,
    pub(crate) is_connected: bool,
}

/// The number of commits of the log, the rows of each table, and the progress of each subscriber.
#[derive(Debug, Drop)]
pub(crate) struct View {
    pub(crate) log: u32,
    pub(crate) rows: Vec<Vec<Row>>,
    pub(crate) progress: Vec<Progress>,
}

/// Looks at a book.
#[derive(Drop)]
struct Viewing {
    alloc: Global,
    tables: usize,
    subscriptions: usize,
}

/// Whether a start is refused because a stream has the slot.
fn is_in_use(error: StartError) -> bool
    ensures { result ≡ spec.is_in_use error }
{
    matches!(error, StartError::InUse)
}

/// Whether a stream has the slot. To find out, one is started; if none had it, the slot is released again.
fn is_taken(book: &mut Book, slot: SlotNumber) -> bool
    ensures kept { IsKept book.old book.new }
    ensures taken { result ≡ taken_at (book_slots book.old) slot }
{
    match book.start(slot, 0) {
        Ok(_) => {
            book.release(slot);
            false
        }
        Err(error) => is_in_use(error),
    }
}

/// The position up to which the client of a slot was sent the log; 0 if there is no such slot.
fn sent_to(connections: &[ConnectionState], slot: SlotNumber) -> Lsn
    ensures { result ≡ sent_at connections.now slot }
{
    match connections.get(slot) {
        Some(connection) => connection.sent,
        None => Lsn::new(0),
    }
}

/// The progress of the subscriber whose slot this is.
fn progress_of(book: &mut Book, connections: &[ConnectionState], slot: SlotNumber) -> Progress
    ensures kept { IsKept book.old book.new }
    ensures shows { result ≡ progress_seen (book_slots book.old) connections.now slot }
{
    Progress {
        confirmed: Lsn::new(book.confirmed(slot)),
        sent: sent_to(connections, slot),
        is_connected: is_taken(book, slot),
    }
}

/// The progress of each subscriber.
fn progress_in(
    alloc: Global,
    book: &mut Book,
    connections: &[ConnectionState],
    subscriptions: usize,
) -> Result<Vec<Progress>, AllocError>
    ensures kept { IsKept book.old book.new }
    ensures count { IfOk result (λ progress. length progress.items ≡ subscriptions) }
    ensures each { IfOk result (λ progress.
        AllAt (λ slot one. one ≡ progress_seen (book_slots book.old) connections.now slot) progress.items) }
{
    let mut progress = Vec::new(alloc);
    for slot in 0..subscriptions {
        progress.push(progress_of(book, connections, slot))?;
    }
    Ok(progress)
}

/// The rows of each table.
#[tactic(auto, using(shard_world::proofs::ViewLemmas::at_more))]
fn rows_in(alloc: Global, book: &Book, tables: usize) -> Result<Vec<Vec<Row>>, AllocError>
    ensures width { IfOk result (λ rows. length rows.items ≡ tables) }
    ensures found { IfOk result (λ rows. AllAt (λ table rows. FoundIn book.now table rows.items) rows.items) }
{
    let mut rows = Vec::new(alloc);
    for table in 0..tables {
        rows.push(book.rows(table)?)?;
    }
    Ok(rows)
}

impl SlotTask for Viewing {
    ghost use Rattle.std.specs.Prelude.{IfOk};
    ghost use Rattle.cli.specs.Views.{IsSeen};

    type Answer = Result<View, AllocError>;

    ghost did = { λ before after old new connections left answer.
        IfOk answer (IsSeen old connections before.tables before.subscriptions) };

    fn use_slots(
        &mut self,
        book: &mut Book,
        connections: &mut [ConnectionState],
    ) -> Result<View, AllocError> {
        let log = book.log_len();
        let rows = rows_in(self.alloc, book, self.tables)?;
        let progress = progress_in(self.alloc, book, connections, self.subscriptions)?;
        Ok(View {
            log,
            rows,
            progress,
        })
    }
}

/// Whether a subscriber is connected, as a word after a space.
fn state(is_connected: bool) -> &'static str
    ensures { result.now ≡ spec.state is_connected }
{
    if is_connected {
        " connected"
    } else {
        " disconnected"
    }
}

/// Writes the line of a subscriber.
fn push_progress(text: &mut String, name: &str, progress: Progress) -> Result<(), AllocError>
    ensures { OnOk result (string_bytes text.new ≡ string_bytes text.old
        ++ ended (spec.progress_line name.now progress)) }
{
    text.push_str(name)?;
    text.push_str(" sent ")?;
    push_position(text, progress.sent)?;
    text.push_str(" confirmed ")?;
    push_position(text, progress.confirmed)?;
    text.push_str(state(progress.is_connected))?;
    text.push('\n')?;
    Ok(())
}

/// Writes the line of each subscriber.
fn push_all_progress(
    text: &mut String,
    catalog: &Catalog,
    progress: &[Progress],
) -> Result<(), AllocError>
    ensures { OnOk result (string_bytes text.new ≡ string_bytes text.old
        ++ text_of (progress_lines (catalog_view catalog.now) 0 progress.now)) }
{
    for (number, progress) in progress.iter().enumerate() {
        let name = subscriber_name(catalog.subscriptions.as_slice(), number);
        push_progress(text, name, *progress)?;
    }
    Ok(())
}

/// The lines of a view of a publisher of this catalog.
fn shown_text(alloc: Global, catalog: &Catalog, view: &View) -> Result<String, AllocError>
    ensures { IfOk result (λ text. string_bytes text ≡ text_of (spec.view_lines (catalog_view catalog.now) view.now)) }
{
    let log = view.log;
    let mut text = format!(in alloc; "log {log}\n")?;
    push_tables(
        &mut text,
        alloc,
        "",
        catalog.tables.as_slice(),
        view.rows.as_slice(),
    )?;
    push_all_progress(&mut text, catalog, view.progress.as_slice())?;
    Ok(text)
}

/// The lines that show the publisher: the log's length, its rows, and the progress of each subscriber, by the log and
/// the events of slots that the session's seat has then seen. The log has all commits of the seat.
pub(crate) fn view_text<P: Publishing, R: Wait>(
    rt: &R,
    alloc: Global,
    publisher: &Publisher<P>,
    seat: &mut Seat<P>,
) -> Result<String, AllocError>
    ensures text { IfOk result (λ text. IsViewText P.checked seat.new (string_bytes text)) }
    ensures same { seat.new.notes ≡ seat.old.notes }
    ensures begins { SeesOn seat.old seat.new }
{
    let catalog = publisher.checked().catalog();
    let mut viewing = Viewing {
        alloc,
        tables: catalog.tables.len(),
        subscriptions: catalog.subscriptions.len(),
    };
    let view = publisher.with_slots_for(rt, seat, &mut viewing)?;
    shown_text(alloc, catalog, &view)
}
