ghost use Rattle.std.specs.Prelude.{◌≡◌};
ghost use Rattle.std.specs.Arc.{arc_value};
ghost use Rattle.shard_checker.specs.CheckedView.{checked_view};

use crate::calls::{commit, put};
use crate::checks::same;
use crate::sharding::accepted;
use crate::threads::WHOLE;
use publisher_desk::{
    ConnectionState, Opening, Publisher, Publishing, Seat, SenderStep, SlotTask, Viewer,
};
use shard_checker::Checked;
use std::alloc::Global;
use std::marker::Brand;
use std::sync::{Arc, Wait};
use std::test::Fail;
use tables_log::{Book, Lsn, SlotNumber};

/// Counts the slots of a borrowed book.
#[derive(Drop)]
struct Count;

impl SlotTask for Count {
    type Answer = usize;

    ghost did = { λ _ _ _ _ _ _ _. Unit {0} };

    fn use_slots(&mut self, _book: &mut Book, connections: &mut [ConnectionState]) -> usize {
        connections.len()
    }
}

/// Looks up to which position the client of a slot was sent the log.
#[derive(Drop)]
struct SentTo {
    slot: SlotNumber,
}

impl SlotTask for SentTo {
    type Answer = Lsn;

    ghost did = { λ _ _ _ _ _ _ _. Unit {0} };

    fn use_slots(&mut self, _book: &mut Book, connections: &mut [ConnectionState]) -> Lsn {
        match connections.get(self.slot) {
            Some(connection) => connection.sent,
            None => Lsn::new(0),
        }
    }
}

/// Up to which position the client of the slot was sent the log.
fn sent_to<P: Publishing, R: Wait>(rt: &R, publisher: &Publisher<P>, slot: SlotNumber) -> Lsn {
    publisher.with_slots(rt, &mut SentTo { slot })
}

/// A code for a step: the number of its commit, 2,000 and the number of commits that it passes over, or 1,000 and more
/// for the others.
fn code(step: SenderStep) -> u32 {
    match step {
        SenderStep::Entry(entry) => entry.commit().number(),
        SenderStep::Skip(commits) => {
            u32::try_from(commits.len()).map_or(0, |count| count.saturating_add(2_000))
        }
        SenderStep::Reply => 1_000,
        SenderStep::Ended => 1_001,
        SenderStep::Finished => 1_002,
        SenderStep::OutOfMemory => 1_003,
    }
}

/// The code of a step if there is one, or 0.
fn code_now(step: Option<SenderStep>) -> u32 {
    match step {
        Some(step) => code(step),
        None => 0,
    }
}

/// The steps of a sender that reports the only commit, and of one of no slot; what has to be done now, at the commit
/// and after it; and how many slots there are.
fn steps<P: Publishing, R: Wait>(
    rt: &R,
    alloc: Global,
    opening: Opening,
    checked: Arc<Checked, Global>,
) -> Result<((u32, u32, u32), (u32, u32), usize), Fail>
    requires name { opening.name ≡ P.name }
    requires parts { opening.parts ≡ P.parts }
    requires seats { opening.parts ≡ 1000 }
    requires history { opening.history ≡ P.history }
    requires slots { opening.slots ≡ P.slots }
    requires checked { checked_view (arc_value checked) ≡ P.checked }
    requires limit { 2 ≡ P.limit }
{
    let (publisher, mut seats) = Publisher::<P>::new(alloc, opening, checked, 2)?;
    let Some(mut seat) = seats.seat() else {
        return Err(Fail::from("no seat"));
    };
    let commands = vec![in alloc; put(alloc, 1, "a")?]?;
    commit(rt, &publisher, &mut seat, commands)?;
    let mut viewer = Viewer::new();
    let first = code(publisher.next_step(rt, &mut viewer, 0, 1));
    let now = code_now(publisher.step_now(rt, &mut viewer, 0, 1));
    let later = code_now(publisher.step_now(rt, &mut viewer, 0, 2));
    publisher.finish(rt);
    let last = code(publisher.next_step(rt, &mut viewer, 0, 2));
    let beside = code(publisher.next_step(rt, &mut viewer, 1, 1));
    let slots = publisher.with_slots(rt, &mut Count);
    Ok(((first, last, beside), (now, later), slots))
}

#[test]
fn a_sender_gets_its_steps(rt: HostRuntime) -> Result<(), Fail> {
    let alloc = rt.alloc();
    let checked = accepted(alloc, WHOLE, &["o 0"])?;
    let found = steps::<Brand, _>(&rt, alloc, Opening::new(alloc)?, checked)?;
    same(&rt, found, ((1, 1_002, 1_001), (1, 0), 1));
    Ok(())
}

/// A table of numbered rows, of which one subscriber takes those below 100, and another the others.
const HALVES: &str = "CREATE TABLE t (id integer PRIMARY KEY, word text);
CREATE PUBLICATION pa FOR TABLE t WHERE (id < 100);
CREATE PUBLICATION pb FOR TABLE t WHERE (id >= 100);
CREATE SUBSCRIPTION s0 CONNECTION '' PUBLICATION pa;
CREATE SUBSCRIPTION s1 CONNECTION '' PUBLICATION pb;";

/// Makes 70 commits of a row of the first subscriber each, and then one of a row of the second.
fn commit_halves<P: Publishing, R: Wait>(
    rt: &R,
    alloc: Global,
    publisher: &Publisher<P>,
    seat: &mut Seat<P>,
) -> Result<(), Fail> {
    for number in 0..71i64 {
        let key = if number < 70 { number } else { 100 };
        commit(rt, publisher, seat, vec![in alloc; put(alloc, key, "a")?]?)?;
    }
    Ok(())
}

/// The steps of the first subscriber's sender, at the first commit and at the last, and of the second's, which passes
/// over the first 64 commits, and over the six after them; and up to where each client was sent the log after the first
/// of these steps.
fn halves<P: Publishing, R: Wait>(
    rt: &R,
    alloc: Global,
    opening: Opening,
    checked: Arc<Checked, Global>,
) -> Result<((u32, u32, u32), (u32, u32, u32), (Lsn, Lsn)), Fail>
    requires name { opening.name ≡ P.name }
    requires parts { opening.parts ≡ P.parts }
    requires seats { opening.parts ≡ 1000 }
    requires history { opening.history ≡ P.history }
    requires slots { opening.slots ≡ P.slots }
    requires checked { checked_view (arc_value checked) ≡ P.checked }
    requires limit { 71 ≡ P.limit }
{
    let (publisher, mut seats) = Publisher::<P>::new(alloc, opening, checked, 71)?;
    let Some(mut seat) = seats.seat() else {
        return Err(Fail::from("no seat"));
    };
    commit_halves(rt, alloc, &publisher, &mut seat)?;
    let mut viewers = (Viewer::new(), Viewer::new());
    let first = code(publisher.next_step(rt, &mut viewers.0, 0, 1));
    let one = sent_to(rt, &publisher, 0);
    let last = code(publisher.next_step(rt, &mut viewers.0, 0, 71));
    let later = code_now(publisher.step_now(rt, &mut viewers.0, 0, 72));
    let many = code(publisher.next_step(rt, &mut viewers.1, 1, 1));
    let other = sent_to(rt, &publisher, 1);
    let few = code(publisher.next_step(rt, &mut viewers.1, 1, 65));
    let own = code(publisher.next_step(rt, &mut viewers.1, 1, 71));
    Ok(((first, last, later), (many, few, own), (one, other)))
}

#[test]
fn a_sender_passes_over_what_others_get(rt: HostRuntime) -> Result<(), Fail> {
    let alloc = rt.alloc();
    let checked = accepted(alloc, HALVES, &["s 0 s 1 e 0 o 0 n 1 s 1 o 1 e 0 n 1 n 0"])?;
    let found = halves::<Brand, _>(&rt, alloc, Opening::new(alloc)?, checked)?;
    let wanted = (
        (1, 2_001, 0),
        (2_064, 2_006, 71),
        (Lsn::end_of_commit(1), Lsn::end_of_commit(64)),
    );
    same(&rt, found, wanted);
    Ok(())
}
