//! `serve`: the subscribers of a sharding are served over sockets.

ghost use Rattle.std.specs.Prelude.{◌≡◌, ◌≤◌, ◌⊎◌, length, map};
ghost use Rattle.std.specs.Arc.{arc_value};
ghost use Rattle.shard_checker.specs.CheckedView.{checked_view};
ghost use Rattle.commands.specs.Output.{EndsByFault};
ghost use Rattle.commands.specs.Simulate.Limits.{IsLogLimit};
ghost use Rattle.cli.specs.Scripts.{list_view};
ghost use Rattle.cli.specs.Serving.{EndsService, IsAccepted};
ghost use Rattle.cli.specs.Telling.{WritesServeLines, service_of};

use crate::closing::{close_and_tell, served_in};
use crate::connections::open_places;
use crate::listening::listen;
use crate::requests::Service;
use crate::running::run_both;
use crate::script::read_lists;
use commands::{
    Failure, InputFault, Status, Writer, lines_of, three_parts, verdict_of, write_refused,
};
use pub_reader::read_catalog;
use senders::{Opening, Publisher, Publishing};
use shard_checker::Checked;
use std::alloc::Global;
use std::marker::Brand;
use std::net::{Net, TcpListener, TcpStream};
use std::sync::{Arc, Wait};
use std::thread::Threads;
use std::time::Clock;
use table_changes::Command;

/// Serves the connections of a publisher while a session commits the lists, and closes it when all have ended.
fn publish<
    'a,
    P: Publishing + Sync,
    W: Writer,
    R: Threads + Wait + Clock + Eprint + Net<Listener = TcpListener, Stream = TcpStream> + Sync,
>(
    rt: &R,
    alloc: Global,
    opening: Opening,
    checked: Arc<Checked, Global>,
    service: Service,
    lists: Vec<Vec<Command>>,
    writer: &mut W,
) -> Result<Status, Failure<'a>>
    requires name { opening.name ≡ P.name }
    requires parts { opening.parts ≡ P.parts }
    requires seats { opening.parts ≡ 1000 }
    requires history { opening.history ≡ P.history }
    requires slots { opening.slots ≡ P.slots }
    requires checked { checked_view (arc_value checked) ≡ P.checked }
    requires limit { service.limit ≡ P.limit }
    requires within { IsLogLimit service.limit }
    requires few { length lists.items ≤ 100000 }
    ensures { WritesServeLines (service_of service P.checked (map list_view lists.items)) (W.contents writer.old)
        (W.contents writer.new) result }
{
    let subscriptions = checked.catalog().subscriptions.len();
    let mut places = open_places(alloc, service.connections.unwrap_or(subscriptions))?;
    let (mut publisher, mut seats) = Publisher::<P>::new(alloc, opening, checked, service.limit)?;
    publisher.wake_in_batches();
    let Some(mut seat) = seats.seat() else {
        unreachable!()
    };
    let listener = listen(rt, alloc, service.port, writer)?;
    let committed = run_both(rt, &publisher, &mut seat, lists, &listener, &mut places);
    let served = served_in(alloc, places)?;
    committed?;
    close_and_tell(rt, alloc, publisher, seats, seat, served, writer)
}

/// Serves an input: a catalog, the texts of the certificates of its tables, one per line, and a script, with lines `%%`
/// between them. The faults of the input are those of `simulate`, in its order. A step that is not COMMIT is a fault of
/// the script. Sockets are used only if the sharding is accepted.
#[tactic(auto, using(crate::proofs::Causes::quiet))]
pub fn serve_input<
    'a,
    W: Writer,
    R: Threads + Wait + Clock + Eprint + Net<Listener = TcpListener, Stream = TcpStream> + Sync,
>(
    rt: &R,
    alloc: Global,
    service: Service,
    input: &str,
    writer: &mut W,
) -> Result<Status, Failure<'a>>
    requires { IsLogLimit service.limit }
    ensures ends { EndsService service input.now (W.contents writer.old) (W.contents writer.new) result }
    ensures failed { IsAccepted input.now ⊎ EndsByFault (W.has_failed writer.old) (W.has_failed writer.new) result }
{
    let (text, certificates, script) = three_parts(input).ok_or(InputFault::Parts)?;
    let catalog = read_catalog(alloc, text)?;
    let lists = read_lists(alloc, &catalog, script);
    let texts = lines_of(alloc, certificates)?;
    let verdict = verdict_of(alloc, catalog, texts.as_slice())?;
    let lists = lists?;
    match verdict {
        Ok(checked) => {
            let shared = Arc::new(alloc, checked)?;
            publish::<Brand, _, _>(
                rt,
                alloc,
                Opening::new(alloc)?,
                shared,
                service,
                lists,
                writer,
            )
        }
        Err(refusal) => {
            let catalog = read_catalog(alloc, text)?;
            write_refused(alloc, &catalog, refusal, writer)
        }
    }
}
