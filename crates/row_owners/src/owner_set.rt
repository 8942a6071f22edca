//! Sets of subscribers.

use pub_catalog::SubscriberNumber;

/// A set of subscribers, by their numbers from 0 to 31.
#[derive(Clone, Copy, Debug)]
pub struct OwnerSet {
    bits: u32,
}

impl OwnerSet {
    ghost use Rattle.std.specs.Prelude.{◌≡◌, ◌<◌, ◌==◌, ◌&&◌, ◌||◌, ℕ, false};
    ghost use Rattle.row_owners.specs.Owners.{OwnedWhere, owned};

    /// The empty set.
    #[tactic(auto, using(crate::proofs::BitLemmas::none_owned))]
    pub fn none() -> OwnerSet
        ensures { OwnedWhere result (λ subscriber. false) }
    {
        OwnerSet { bits: 0 }
    }

    /// Puts the subscriber into the set if `is_there`.
    #[tactic(auto, using(crate::proofs::BitLemmas::put_owned, crate::proofs::BitLemmas::kept_owned))]
    pub fn put(&mut self, subscriber: SubscriberNumber, is_there: bool)
        requires { subscriber < 32 }
        ensures { OwnedWhere self.new (λ other. owned self.old other || ((other == subscriber) && is_there)) }
    {
        if is_there {
            self.bits |= 1u32 << subscriber;
        }
    }

    /// Puts the subscribers of another set into the set.
    #[tactic(auto, using(crate::proofs::BitLemmas::both_owned))]
    pub fn join(&mut self, other: OwnerSet)
        ensures { (subscriber : ℕ) → owned self.new subscriber ≡ (owned self.old subscriber || owned other subscriber) }
    {
        self.bits |= other.bits;
    }

    /// Whether the set has the subscriber.
    #[tactic(auto, using(crate::proofs::BitLemmas::bit_tested))]
    pub fn has(self, subscriber: SubscriberNumber) -> bool
        requires { subscriber < 32 }
        ensures { result ≡ owned self subscriber }
    {
        (self.bits >> subscriber) & 1 == 1
    }
}
