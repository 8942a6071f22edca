ghost use Rattle.std.specs.Prelude.{◌≡◌};
ghost use Rattle.std.specs.Arc.{arc_value};
ghost use Rattle.shard_checker.specs.CheckedView.{checked_view};

use crate::checks::same;
use crate::sharding::accepted;
use crate::threads::WHOLE;
use publisher_desk::{Opening, Publisher, Publishing};
use shard_checker::Checked;
use std::alloc::Global;
use std::marker::Brand;
use std::sync::Arc;
use std::test::Fail;

/// How many of 1,001 sessions get a seat, up to the first that gets none.
fn seated<P: Publishing>(
    alloc: Global,
    opening: Opening,
    checked: Arc<Checked, Global>,
) -> Result<u32, Fail>
    requires name { opening.name ≡ P.name }
    requires parts { opening.parts ≡ P.parts }
    requires seats { opening.parts ≡ 1000 }
    requires history { opening.history ≡ P.history }
    requires slots { opening.slots ≡ P.slots }
    requires checked { checked_view (arc_value checked) ≡ P.checked }
    requires limit { 1 ≡ P.limit }
{
    let (_publisher, mut seats) = Publisher::<P>::new(alloc, opening, checked, 1)?;
    for count in 0..1_001 {
        if seats.seat().is_none() {
            return Ok(count);
        }
    }
    Ok(1_001)
}

#[test]
fn a_thousand_sessions_have_seats(rt: HostRuntime) -> Result<(), Fail> {
    let alloc = rt.alloc();
    let checked = accepted(alloc, WHOLE, &["o 0"])?;
    let count = seated::<Brand>(alloc, Opening::new(alloc)?, checked)?;
    same(&rt, count, 1_000);
    Ok(())
}
