//! Seats that no session has yet.

ghost use Rattle.std.specs.Prelude.{◌≡◌};

use crate::naming::Publishing;
use crate::opening::SEATS;
use crate::seat::Seat;
use std::alloc::Global;
use std::marker::Model;
use std::sync::ledger::Share;

/// The seats of a publisher that no session has yet, with a part of the ledger for each. Contracts see their number.
/// They are not part of the publisher, so that a session that shares it has no part of the ledger other than its own
/// seat's.
#[derive(Drop)]
pub struct Seats<P: Publishing> {
    pub(crate) alloc: Global,
    pub(crate) left: u64,
    pub(crate) share: Share<P>,
}

impl<P: Publishing> Model for Seats<P> {
    ghost use Rattle.std.specs.Prelude.{ℕ, ◌≡◌};
    ghost use Rattle.publisher_desk.specs.Seats.{AreFree};

    ghost Value = { ℕ };

    ghost view = { λ s. s.left };

    ghost invariant = { λ s. AreFree s.left s.share.parts s.share.amount };
}

impl<P: Publishing> Seats<P> {
    ghost use Rattle.std.specs.Prelude.{◌≡◌, ◌+◌, ◌<◌, IfSome, IfNone, IsSome, ◌↔◌};
    ghost use Rattle.publisher_desk.specs.Seats.{empty_seat};

    /// All seats, of a share that has a part for each.
    pub(crate) fn new(alloc: Global, share: Share<P>) -> Seats<P>
        requires parts { share.parts ≡ 1000 }
        requires amount { share.amount ≡ 0 }
        ensures { result ≡ 1000 }
    {
        Seats {
            alloc,
            left: SEATS,
            share,
        }
    }

    /// A seat for one more session, while there is one.
    pub fn seat(&mut self) -> Option<Seat<P>>
        ensures some { IsSome result ↔ (0 < self.old) }
        ensures left { IfSome result (λ seat. self.new + 1 ≡ self.old) }
        ensures none { IfNone result (self.new ≡ self.old) }
        ensures new { IfSome result (λ seat. seat ≡ empty_seat) }
    {
        let Seats { alloc, left, share } = self;
        if *left == 0 {
            return None;
        }
        *left -= 1;
        Some(Seat::new(*alloc, share.split_off(1, 0)))
    }
}
