//! Publishers that are used in several ways.

ghost use Rattle.std.specs.Prelude.{◌≡◌};
ghost use Rattle.std.specs.Arc.{arc_value};
ghost use Rattle.shard_checker.specs.CheckedView.{checked_view};

use crate::batches::expect_batches;
use crate::cases::{CASES, Case};
use crate::closing::expect_answer;
use crate::faults::expect_faults;
use crate::sharding::{HALVES, HALVES_SPLIT, shards, shards_split};
use crate::sizes::expect_size;
use crate::talks::expect_talk;
use crate::work::{Hold, Work};
use crate::{memory, sockets};
use senders::{Opening, Publisher, Publishing};
use session_tests::accepted;
use shard_checker::Checked;
use std::alloc::Global;
use std::marker::Brand;
use std::net::{Net, TcpListener, TcpStream};
use std::process::Abort;
use std::sync::{Arc, Wait};
use std::test::Fail;
use std::thread::Threads;
use std::time::Clock;

/// How a publisher is used.
#[derive(Clone, Copy, Debug, PartialEq, Eq)]
enum Use {
    Sockets(Hold),
    Memory(Work, Hold),
    Faults,
    Batches,
    Closing(Case),
    Talk,
    /// By so many seats, for so many commits.
    Size(usize, usize),
}

/// A publisher whose log takes 10,000 commits, used so.
fn publish<
    P: Publishing + Sync,
    R: Threads + Wait + Clock + Abort + Net<Listener = TcpListener, Stream = TcpStream> + Sync,
>(
    rt: &R,
    alloc: Global,
    opening: Opening,
    checked: Arc<Checked, Global>,
    used: Use,
) -> Result<(), Fail>
    requires name { opening.name ≡ P.name }
    requires parts { opening.parts ≡ P.parts }
    requires seats { opening.parts ≡ 1000 }
    requires history { opening.history ≡ P.history }
    requires slots { opening.slots ≡ P.slots }
    requires checked { checked_view (arc_value checked) ≡ P.checked }
    requires limit { 10000 ≡ P.limit }
{
    let (publisher, seats) = Publisher::<P>::new(alloc, opening, checked, 10_000)?;
    match used {
        Use::Sockets(hold) => sockets::expect_served(rt, alloc, publisher, seats, hold),
        Use::Memory(work, hold) => {
            memory::expect_served(rt, alloc, publisher, seats, work, hold)
        }
        Use::Faults => expect_faults(rt, alloc, &publisher, seats),
        Use::Batches => expect_batches(rt, alloc, &publisher, seats),
        Use::Closing(case) => expect_answer(rt, alloc, publisher, seats, case),
        Use::Talk => expect_talk(rt, alloc, publisher, seats),
        Use::Size(count, commits) => expect_size(rt, alloc, publisher, seats, count, commits),
    }
}

/// A publisher of the catalog that the text says, used so.
fn expect<
    R: Threads + Wait + Clock + Abort + Net<Listener = TcpListener, Stream = TcpStream> + Sync,
>(rt: &R, alloc: Global, catalog: &str, split: &str, used: Use) -> Result<(), Fail> {
    let checked = accepted(alloc, catalog, &[split])?;
    publish::<Brand, _>(rt, alloc, Opening::new(alloc)?, checked, used)
}

#[test]
fn a_held_sender_holds_nobody_else(rt: HostRuntime) -> Result<(), Fail> {
    expect(
        &rt,
        rt.alloc(),
        HALVES,
        HALVES_SPLIT,
        Use::Sockets(Hold::Gate),
    )
}

#[test]
fn a_held_writer_holds_nobody_else(rt: HostRuntime) -> Result<(), Fail> {
    let used = Use::Memory(Work::Pairs, Hold::Writer);
    expect(&rt, rt.alloc(), HALVES, HALVES_SPLIT, used)
}

#[test]
fn a_slow_client_holds_nobody_else(rt: HostRuntime) -> Result<(), Fail> {
    let alloc = rt.alloc();
    expect(&rt, alloc, HALVES, HALVES_SPLIT, Use::Sockets(Hold::Slow))?;
    let used = Use::Memory(Work::Pairs, Hold::Slow);
    expect(&rt, alloc, HALVES, HALVES_SPLIT, used)
}

#[test]
fn each_of_32_connections_is_served_all(rt: HostRuntime) -> Result<(), Fail> {
    let alloc = rt.alloc();
    let catalog = shards(alloc)?;
    let split = shards_split(alloc)?;
    let used = Use::Memory(Work::Spread, Hold::Nobody);
    expect(&rt, alloc, catalog.as_str(), split.as_str(), used)
}

#[test]
fn readers_and_writers_fail_at_each_byte(rt: HostRuntime) -> Result<(), Fail> {
    expect(&rt, rt.alloc(), HALVES, HALVES_SPLIT, Use::Faults)
}

#[test]
fn commits_that_wait_are_written_at_once(rt: HostRuntime) -> Result<(), Fail> {
    expect(&rt, rt.alloc(), HALVES, HALVES_SPLIT, Use::Batches)
}

#[test]
fn a_publisher_is_closed_where_all_agree(rt: HostRuntime) -> Result<(), Fail> {
    for case in CASES {
        expect(&rt, rt.alloc(), HALVES, HALVES_SPLIT, Use::Closing(*case))?;
    }
    Ok(())
}

#[test]
fn what_clients_report_is_heard_answered_and_kept(rt: HostRuntime) -> Result<(), Fail> {
    expect(&rt, rt.alloc(), HALVES, HALVES_SPLIT, Use::Talk)
}

#[test]
fn publishers_of_all_small_sizes_are_closed(rt: HostRuntime) -> Result<(), Fail> {
    let alloc = rt.alloc();
    for commits in 0..21 {
        expect(&rt, alloc, HALVES, HALVES_SPLIT, Use::Size(3, commits))?;
    }
    for count in 0..9 {
        expect(&rt, alloc, HALVES, HALVES_SPLIT, Use::Size(count, count))?;
    }
    Ok(())
}
