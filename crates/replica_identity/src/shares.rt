//! The shares of subscribers.

ghost use Rattle.std.specs.Prelude.{◌≡◌, true};
ghost use Rattle.replica_identity.specs.Shares.{share_view, is_nothing};

use crate::share::Share;
use filter_tree::TableNumber;
use pub_catalog::SubscriberNumber;

/// What each subscriber gets of each table, both by their numbers from 0 in the catalog.
#[derive(Debug, Drop)]
pub struct Plan {
    shares: Vec<Vec<Share>>,
    nothing: Share,
    ghost no_share: { is_nothing (share_view nothing) ≡ true },
}

impl Plan {
    ghost use Rattle.std.specs.Prelude.{◌≡◌, map};
    ghost use Rattle.replica_identity.specs.Plans.{share_at, plan_view};
    ghost use Rattle.replica_identity.specs.Shares.{share_view};

    /// A plan of these shares: a list for each subscriber, with its share of each table.
    pub(crate) fn new(shares: Vec<Vec<Share>>) -> Plan
        ensures { plan_view result ≡ map (λ of_one. map share_view of_one.items) shares.items }
    {
        Plan {
            shares,
            nothing: Share::Nothing,
        }
    }

    /// What a subscriber gets of a table, by their numbers from 0 in the catalog. It is nothing for tables and
    /// subscribers that the catalog does not have.
    #[tactic(auto, using(crate::proofs::PlanLemmas::past_the_plan))]
    pub fn share(&self, subscriber: SubscriberNumber, table: TableNumber) -> &Share
        ensures { share_view result.now ≡ share_at (plan_view self.now) subscriber table }
    {
        match self.shares.get(subscriber) {
            None => &self.nothing,
            Some(shares) => match shares.get(table) {
                None => &self.nothing,
                Some(share) => share,
            },
        }
    }
}
