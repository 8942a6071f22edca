//! The state of an ear.

ghost use Rattle.std.specs.Prelude.{◌≡◌};
ghost use Rattle.copy_both.specs.Phases as spec;
ghost use Rattle.copy_both.specs.Sessions.{reported_result};

use crate::hearing::Hearing;
use crate::link_fault::LinkFault;

/// The state of an ear: it hears frames; or it hears no more; or it is lost, and so has released its slot.
#[derive(Clone, Copy)]
pub(crate) enum Phase {
    Open,
    Closed,
    Lost,
}

/// The state of an ear that heard this.
pub(crate) fn phase_after(heard: &Result<Hearing, LinkFault>) -> Phase
    ensures { result ≡ spec.phase_after (reported_result heard.now) }
{
    match heard {
        Ok(Hearing { ended: None, .. }) => Phase::Open,
        Ok(Hearing { ended: Some(_), .. }) | Err(_) => Phase::Closed,
    }
}
