//! Catalogs whose sharding is known to be sound.

ghost use Rattle.std.specs.Prelude.{◌≡◌};
ghost use Rattle.pub_catalog.specs.CatalogView.{catalog_view};
ghost use Rattle.replica_identity.specs.Plans.{plan_of, plan_view};
ghost use Rattle.shard_checker.specs.Sound.{IsSound};

use pub_catalog::Catalog;
use replica_identity::Plan;

/// A catalog and its own plan that the check accepted. Whoever holds one knows that the catalog's sharding is sound. It
/// also has what the laws about changes of tables require, as `catalog` says. Like each catalog it is within its
/// limits, and its publications and subscriptions each have their own name.
///
/// PostgreSQL 15, "Logical Replication", 31.3 Row Filters.
#[derive(Drop)]
pub struct Checked {
    catalog: Catalog,
    plan: Plan,
    ghost own: { ∥ plan_view plan ≡ plan_of (catalog_view catalog) ∥₁ },
    ghost sound: { ∥ IsSound (catalog_view catalog) ∥₁ },
}

impl Checked {
    ghost use Rattle.std.specs.Prelude.{◌≡◌};
    ghost use Rattle.pub_catalog.specs.CatalogLimits.{IsLimited};
    ghost use Rattle.pub_catalog.specs.CatalogNames.{IsNamedCatalog};
    ghost use Rattle.pub_catalog.specs.CatalogView.{catalog_view};
    ghost use Rattle.replica_identity.specs.Plans.{TakesWhatPasses, plan_of, plan_view};
    ghost use Rattle.table_changes.specs.Standing.{Covered, KeepsApart, DividesRows};
    ghost use Rattle.shard_checker.specs.CheckedView.{checked_of, checked_view, setting_in};
    ghost use Rattle.shard_checker.specs.Sound.{IsSound};

    /// A catalog whose sharding is sound, with its plan.
    pub(crate) fn new(catalog: Catalog, plan: Plan) -> Checked
        requires own { plan_view plan ≡ plan_of (catalog_view catalog) }
        requires sound { IsSound (catalog_view catalog) }
        ensures { checked_view result ≡ checked_of catalog plan }
    {
        Checked { catalog, plan }
    }

    /// The catalog. It is within its limits (`limits`), its publications and subscriptions each have their own name
    /// (`names`), and its sharding is sound. In the setting that it makes with its plan a row's replica identity
    /// determines who gets the row (`covered`), commands that are accepted leave no two rows of a table with the same
    /// identity (`apart`), and each row that fits its table passes to exactly one subscriber (`divided`).
    #[tactic(auto, using(crate::proofs::LimitFacts::checked_limited))]
    pub fn catalog(&self) -> &Catalog
        ensures shows { catalog_view result.now ≡ (checked_view self.now).catalog }
        ensures limits { IsLimited (checked_view self.now).catalog }
        ensures names { IsNamedCatalog (checked_view self.now).catalog }
        ensures sound { IsSound (catalog_view result.now) }
        ensures covered { Covered (setting_in (checked_view self.now)) }
        ensures apart { KeepsApart (setting_in (checked_view self.now)) }
        ensures divided { DividesRows (setting_in (checked_view self.now)) }
    {
        &self.catalog
    }

    /// The catalog's own plan: each subscriber's share of a table takes the rows that pass to it.
    pub fn plan(&self) -> &Plan
        ensures shows { plan_view result.now ≡ (checked_view self.now).plan }
        ensures own { plan_view result.now ≡ plan_of (checked_view self.now).catalog }
        ensures passes { TakesWhatPasses (checked_view self.now).catalog (plan_view result.now) }
    {
        &self.plan
    }
}
