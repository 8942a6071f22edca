//! A session that commits while connections are served.

ghost use Rattle.std.specs.Prelude.{◌≡◌, ◌≤◌, All, map, length, OnOk};
ghost use Rattle.cli.specs.Connections.{IsFilled};
ghost use Rattle.cli.specs.Scripts.{list_view};
ghost use Rattle.cli.specs.Sessions.{AreCommitted};

use crate::commits::commit_and_finish;
use crate::connections::{ConnectionPlace, fill_all};
use senders::{Publisher, Publishing, Seat};
use std::alloc::AllocError;
use std::net::TcpListener;
use std::sync::Wait;
use std::thread::{Threads, join_mut};
use std::time::Clock;
use table_changes::Command;

/// Commits the lists in this thread, while other threads serve a connection for each place of a slice.
fn run_in<'a, P: Publishing + Sync, R: Threads + Wait + Clock + Sync>(
    rt: &'a R,
    publisher: &'a Publisher<P>,
    seat: &'a mut Seat<P>,
    lists: Vec<Vec<Command>>,
    listener: &'a TcpListener,
    places: &'a mut [ConnectionPlace<P>],
) -> Result<(), AllocError>
    requires { length lists.items ≤ 100000 }
    ensures committed { OnOk result (AreCommitted P.checked P.limit 1 (map list_view lists.items) seat.old seat.new) }
    ensures served { All (IsFilled P.checked) places.new }
{
    let mut lists = lists;
    let (_, committed) = join_mut(
        rt,
        &mut ||
            ensures { All (IsFilled P.checked) places.exit.now }
        { fill_all(rt, publisher, listener, places) },
        &mut || -> Result<(), AllocError>
            requires { length lists.items ≤ 100000 }
            ensures { OnOk result (AreCommitted P.checked P.limit 1 (map list_view lists.entry.items)
                seat.entry.now seat.exit.now) }
        { commit_and_finish(rt, publisher, seat, &mut lists) },
    );
    committed
}

/// Commits the lists in this thread, while other threads serve a connection for each place. Returns when all have
/// ended. If no other thread can be started, the lists are committed first, and then the connections are served.
pub fn run_both<P: Publishing + Sync, R: Threads + Wait + Clock + Sync>(
    rt: &R,
    publisher: &Publisher<P>,
    seat: &mut Seat<P>,
    lists: Vec<Vec<Command>>,
    listener: &TcpListener,
    places: &mut Vec<ConnectionPlace<P>>,
) -> Result<(), AllocError>
    requires { length lists.items ≤ 100000 }
    ensures committed { OnOk result (AreCommitted P.checked P.limit 1 (map list_view lists.items) seat.old seat.new) }
    ensures served { All (IsFilled P.checked) places.new.items }
    ensures same { length places.new.items ≡ length places.old.items }
{
    run_in(rt, publisher, seat, lists, listener, places.as_mut_slice())
}
