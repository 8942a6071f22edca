//! Whether connections took the commits that count as sent on them, and those that were finished all of the log.

ghost use Rattle.std.specs.Prelude.{◌≡◌, ◌≤◌, ◌^◌, All, MatchBool};
ghost use Rattle.tables_log.specs.BookView.{book_log};
ghost use Rattle.senders.specs.Results.{taken_from};
ghost use Rattle.senders.specs.TakenCommits.{IsComplete, confirmed_to, sent_to, taken_to};

use crate::end::End;
use crate::served::Served;
use publisher_desk::Publishing;
use tables_log::{Book, Lsn};

/// The greatest number of commits in a step of a sender.
const STEP: u64 = 64;

/// How many commits of the log begin before the connection's start.
pub(crate) fn commits_before<P: Publishing>(served: &Served<P>) -> u64
    ensures is { result ≡ taken_from served.now }
    ensures within { result ≤ 2 ^ 58 }
{
    match served.start() {
        None => 0,
        Some(start) => Lsn::new(start).commits_before(),
    }
}

/// How many commits the log has up to the last one that was taken for the connection.
pub(crate) fn commits_up_to<P: Publishing>(served: &Served<P>) -> u64
    ensures { result ≡ taken_to served.now }
{
    commits_before(served) + served.taken().len() as u64
}

/// How many commits the log has up to the last one that was taken for the connection and that its client confirmed.
pub(crate) fn commits_confirmed<P: Publishing>(served: &Served<P>) -> u64
    ensures { result ≡ confirmed_to served.now }
{
    let confirmed = Lsn::new(served.confirmed()).commits_before();
    commits_up_to(served).min(confirmed)
}

/// How many commits the log has up to the last one that counts as sent to the connection's client.
fn commits_sent<P: Publishing>(served: &Served<P>) -> u64
    ensures { result ≡ sent_to served.now }
{
    Lsn::new(served.sent()).commits_before()
}

/// Whether the connection took the commits up to the log's end, if it was finished, and those that count as sent to its
/// client, but for those of a last step.
fn is_complete<P: Publishing>(book: &Book, served: &Served<P>) -> bool
    ensures { MatchBool result (IsComplete (book_log book.now) served.now) (¬ IsComplete (book_log book.now) served.now) }
{
    let taken = commits_up_to(served);
    let sent = commits_sent(served);
    if served.end() == End::Finished && taken != u64::from(book.log_len()) {
        return false;
    }
    if !served.taken().is_empty() && sent < taken {
        return false;
    }
    sent.saturating_sub(taken) <= STEP
}

/// Whether each connection did.
pub(crate) fn are_complete<P: Publishing>(book: &Book, served: &[Served<P>]) -> bool
    ensures { MatchBool result (All (IsComplete (book_log book.now)) served.now)
        (¬ All (IsComplete (book_log book.now)) served.now) }
{
    for one in served {
        if !is_complete(book, one) {
            return false;
        }
    }
    true
}
