//! The check of a whole catalog by the texts of its certificates.

ghost use Rattle.std.specs.Prelude.{◌≡◌, OnOk, IfOk, None};
ghost use Rattle.filter_tree.specs.Memory.{NeedsMemoryOnlyIf};
ghost use Rattle.pub_catalog.specs.CatalogView.{catalog_view};
ghost use Rattle.replica_identity.specs.Plans.{plan_of, plan_view};
ghost use Rattle.replica_identity.specs.Setting.{setting_of};
ghost use Rattle.table_changes.specs.Standing.{Covered, KeepsApart, DividesRows};
ghost use Rattle.split_cert.specs.Text.{certificate_of};
ghost use Rattle.shard_checker.specs.CatalogRefusal.{declared_refusal, sharding_refusal};
ghost use Rattle.shard_checker.specs.CatalogTruth.{ShardingIsWrong};
ghost use Rattle.shard_checker.specs.Checks.{Checks};
ghost use Rattle.shard_checker.specs.CheckedView.{checked_of, checked_view};
ghost use Rattle.shard_checker.specs.Emptiness.{IsEmptiness, EmptyTest};
ghost use Rattle.shard_checker.specs.Sound.{IsSound};
ghost use Rattle.shard_checker.specs.Texts as spec;
ghost use Rattle.shard_checker.specs.Candidates.{is_empty};

use crate::checked::Checked;
use crate::error::CheckError;
use crate::sharding::check_given;
use crate::text_error::TextError;
use pub_catalog::Catalog;
use replica_identity::Plan;
use split_cert::NodeReader;
use std::alloc::Global;

/// Reads the text of this line to its end.
#[tactic(auto, using(crate::proofs::TextLemmas::reads))]
fn read_text(line: usize, text: &str) -> Result<(), TextError>
    ensures { spec.FindsText (spec.fault_at line (certificate_of text.now)) result }
{
    match NodeReader::new(text).finish() {
        Ok(()) => Ok(()),
        Err(fault) => Err(TextError::Text(line, fault)),
    }
}

/// Reads each text to its end, up to the first that has a fault.
fn read_texts(texts: &[&str]) -> Result<(), TextError>
    ensures { spec.FindsText (spec.text_fault 1 (spec.texts_view texts.now)) result }
{
    for (number, text) in texts.iter().enumerate() {
        read_text(number + 1, *text)?;
    }
    Ok(())
}

/// Checks a sharding by texts, if all of them are read.
fn check_texts(
    alloc: Global,
    catalog: &Catalog,
    plan: &Plan,
    texts: &[&str],
) -> Result<(), CheckError>
    ensures exact { spec.text_fault 1 (spec.texts_view texts.now) ≡ None
        → Checks (sharding_refusal is_empty (catalog_view catalog.now) (plan_view plan.now)
        (spec.trees_in (spec.texts_view texts.now))) result }
    ensures memory { NeedsMemoryOnlyIf CheckError.OutOfMemory
        (declared_refusal (catalog_view catalog.now) ≡ None) result }
{
    check_given(alloc, catalog, plan, texts)?;
    Ok(())
}

/// Checks that the sharding of the catalog is sound, as `check` does, by the texts of the certificates. It builds no
/// tree of a text. The plan is the catalog's own.
///
/// # Errors
///
/// The first text that `read_in` does not read, with its line, counted from 1, and its fault; if all are read, what
/// `check` returns for the certificates (`read`). So each text is read to its end before a node of any text is checked.
/// Out of memory is `Check(OutOfMemory)`, and comes only if all texts are read. What a refusal says about what it names
/// is true (`wrong`). On an error the catalog and the plan are dropped.
///
/// PostgreSQL 15, "Logical Replication", 31.3 Row Filters.
#[tactic(auto, using(crate::proofs::StandingLemmas::standing))]
pub fn check_text(
    alloc: Global,
    catalog: Catalog,
    plan: Plan,
    texts: &[&str],
) -> Result<Checked, TextError>
    requires { plan_view plan ≡ plan_of (catalog_view catalog) }
    ensures sound { OnOk result (IsSound (catalog_view catalog)) }
    ensures covered { OnOk result (Covered (setting_of (catalog_view catalog) (plan_view plan))) }
    ensures apart { OnOk result (KeepsApart (setting_of (catalog_view catalog) (plan_view plan))) }
    ensures divided { OnOk result (DividesRows (setting_of (catalog_view catalog) (plan_view plan))) }
    ensures kept { IfOk result (λ checked. checked_view checked ≡ checked_of catalog plan) }
    ensures exact { (test : EmptyTest) → IsEmptiness test → spec.ChecksText
        (spec.text_refusal test (catalog_view catalog) (plan_view plan) (spec.texts_view texts.now)) result }
    ensures read { spec.AreRead (spec.texts_view texts.now) result }
    ensures memory { spec.TextNeedsMemoryOnlyIf (declared_refusal (catalog_view catalog) ≡ None) result }
    ensures wrong { spec.IfTextRefused result (ShardingIsWrong (catalog_view catalog) (plan_view plan)
        (spec.trees_in (spec.texts_view texts.now))) }
{
    read_texts(texts)?;
    check_texts(alloc, &catalog, &plan, texts)?;
    Ok(Checked::new(catalog, plan))
}
