//! The check of a table's certificate.

ghost use Rattle.std.specs.Prelude.{List, [], OnOk};
ghost use Rattle.filter_tree.specs.Datum.{Datum};
ghost use Rattle.split_cert.specs.Where.{tree_view};
ghost use Rattle.shard_checker.specs.Checks.{Checks, IfRefused};
ghost use Rattle.shard_checker.specs.Emptiness.{IsEmptiness, EmptyTest};
ghost use Rattle.shard_checker.specs.Owners.{shares_view, HasOneOwner};
ghost use Rattle.shard_checker.specs.WalkInvariants.{Prepared};
ghost use Rattle.shard_checker.specs.Refusal as spec;
ghost use Rattle.shard_checker.specs.Rows.{IsTyped};
ghost use Rattle.shard_checker.specs.Refusal.{subject_view};
ghost use Rattle.shard_checker.specs.Candidates.{is_empty};
ghost use Rattle.shard_checker.specs.Truth.{CertificateIsWrong};
ghost use Rattle.shard_checker.specs.Walking.{walk, nodes_refusal};

use crate::candidate_sets::CandidateSets;
use crate::error::CheckError;
use crate::formulas::formulas_of;
use crate::numbering::{numbered_atoms, numbered_terms};
use crate::source::Source;
use crate::subject::Subject;
use crate::walk::{begin, check_waiting};
use filter_tree::{Table, TableNumber};
use replica_identity::Share;
use split_cert::Cert;
use std::alloc::{Allocator, Global};

/// Checks the certificate of a table whose atoms and terms are numbered.
#[tactic(auto, using(crate::proofs::WalkLemmas::wholes))]
fn check_subject<'a, A: Allocator, C: Source>(
    alloc: Global,
    subject: &Subject<'a, A>,
    cert: &C,
) -> Result<(), CheckError>
    requires { Prepared subject.now }
    ensures { Checks (walk is_empty (subject_view subject.now) (C.nodes cert.now) (Some []) 0) result }
{
    let mut walk = begin(alloc, subject)?;
    cert.visit(subject, &mut walk)?;
    check_waiting(subject, &mut walk)?;
    Ok(())
}

/// Checks the certificate of the table with this number.
pub fn check_table<A: Allocator, C: Source>(
    alloc: Global,
    number: TableNumber,
    table: &Table,
    shares: &[&Share<A>],
    cert: &C,
) -> Result<(), CheckError>
    ensures { Checks
        (nodes_refusal is_empty number table.now (shares_view shares.now) (C.nodes cert.now)) result }
{
    let atoms = numbered_atoms(alloc, shares)?;
    let terms = numbered_terms(alloc, shares)?;
    let formulas = formulas_of(alloc, &atoms, shares)?;
    let candidates = CandidateSets::new(alloc, table.columns.as_slice(), &atoms, &terms)?;
    let subject = Subject {
        table: number,
        columns: table.columns.as_slice(),
        shares,
        atoms: &atoms,
        terms: &terms,
        formulas: &formulas,
        candidates: &candidates,
    };
    check_subject(alloc, &subject, cert)
}

/// Checks a tree that is the certificate of the table of number 0.
#[tactic(auto, using(crate::proofs::NodeLemmas::tree_by_nodes))]
fn check_tree<A: Allocator, B: Allocator>(
    alloc: Global,
    table: &Table,
    shares: &[&Share<A>],
    cert: &Cert<B>,
) -> Result<(), CheckError>
    ensures { Checks
        (spec.first_refusal is_empty 0 table.now (shares_view shares.now) (tree_view cert.now)) result }
{
    check_table(alloc, 0, table, shares, cert)?;
    Ok(())
}

/// Checks that each row that may be in the table, with texts of any length, is taken by exactly one of the shares, as
/// the certificate says. Any certificate can be checked. Its depth uses stack.
///
/// Atoms and terms are numbered from 0 in the order in which they first appear in the shares' filters, share by share;
/// `IS NULL` of a column counts as an appearance of that column. Subscribers are the shares' numbers.
///
/// # Errors
///
/// The error of the first node, in the order in which a certificate is written, that says something that is not true,
/// with 0 as the table's number; or `OutOfMemory`.
#[tactic(auto, using(crate::proofs::Rules::verdicts_of_one))]
pub fn check_one<A: Allocator, B: Allocator>(
    alloc: Global,
    table: &Table,
    shares: &[&Share<A>],
    cert: &Cert<B>,
) -> Result<(), CheckError>
    ensures sound { OnOk result
        ((row : List Datum) → IsTyped table.now.columns row → HasOneOwner (shares_view shares.now) row) }
    ensures exact { (test : EmptyTest) → IsEmptiness test →
        Checks (spec.first_refusal test 0 table.now (shares_view shares.now) (tree_view cert.now)) result }
    ensures wrong { IfRefused result (CertificateIsWrong 0 table.now (shares_view shares.now) (tree_view cert.now)) }
{
    check_tree(alloc, table, shares, cert)
}
