//! IN and its list of literals.

ghost use Rattle.std.specs.Prelude.{◌≡◌, ◌∷◌, ◌≤◌, MatchOption, OnOk, length, map};
ghost use Rattle.std.specs.List.{insert};
ghost use Rattle.filter_tree.specs.Shape.{expr_view};
ghost use Rattle.filter_tree.specs.Values.{constant_view};
ghost use Rattle.sql_reader.specs.ParsingContracts.{to_read, Answers, Reads};
ghost use Rattle.sql_reader.specs.Ascending.{ascending, constant_cmp, constant_rank, inserted_in_order, ListsAscend};
ghost use Rattle.sql_reader.specs.Memberships as spec;
ghost use Rattle.sql_reader.specs.Operands.{verdict_map, operand_view, part_view};
ghost use Rattle.sql_reader.specs.Written.{as_filter};

use crate::error::{ErrorKind, Limit, ReadError};
use crate::item::Item;
use crate::membership::MembershipWord;
use crate::operand::{Operand, Part};
use crate::reader::Reader;
use crate::subject::{beside, formed, subject_of};
use crate::word::Keyword;
use filter_tree::{Atom, ColType, Filter, Literal};
use sql_tokens::Operator;
use std::alloc::{AllocError, Global};
use std::cmp::Ordering;
use std::collections::VecDeque;

/// How many entries a list may have.
const MAX_ENTRIES: usize = 100;

/// Whether this token begins an operand, or is NULL or CASE instead.
fn begins_operand(item: Option<Item>) -> bool
    ensures { result ≡ spec.begins_operand item }
{
    match item {
        Some(
            Item::Operator(Operator::Minus)
            | Item::Number(_)
            | Item::Text
            | Item::Open
            | Item::Keyword(Keyword::True | Keyword::False | Keyword::Null),
        ) => true,
        Some(item) => item.is_name(),
        None => false,
    }
}

/// Refuses one more entry after the first and this number of others, if that is one too many.
#[tactic(auto, unfolding(crate::specs::Memberships::room_in_list))]
pub fn room_in_list(r: &Reader<'_>, others: usize) -> Result<(), ReadError>
    ensures { Reads (λ u. u) (spec.room_in_list others (to_read r.now)) result (to_read r.now) }
{
    if others < MAX_ENTRIES - 1 {
        return Ok(());
    }
    if begins_operand(r.item()) {
        return Err(r.refused(ErrorKind::TooMany(Limit::InList)));
    }
    Err(r.refusal("a literal"))
}

/// The rank of a literal's kind in the order.
fn rank(literal: &Literal) -> u8
    ensures { result ≡ constant_rank (constant_view literal.now) }
{
    match literal {
        Literal::Int(_) => 1,
        Literal::Bool(_) => 2,
        Literal::Text(_) => 3,
    }
}

/// The order of the values of two literals.
fn literal_cmp(one: &Literal, other: &Literal) -> Ordering
    ensures { result ≡ constant_cmp (constant_view one.now) (constant_view other.now) }
{
    let kinds = rank(one).cmp(&rank(other));
    match (one, other) {
        (Literal::Int(number), Literal::Int(other_number)) => number.cmp(other_number),
        (Literal::Bool(truth), Literal::Bool(other_truth)) => truth.cmp(other_truth),
        (Literal::Text(text), Literal::Text(other_text)) => text.as_str().cmp(other_text.as_str()),
        (Literal::Int(_) | Literal::Bool(_) | Literal::Text(_), _) => kinds,
    }
}

/// Where to put a literal into an ordered list, if the list does not have it.
fn place_of(literals: &[Literal], literal: &Literal) -> Option<usize>
    ensures { MatchOption result
        (inserted_in_order (map constant_view literals.now) (constant_view literal.now)
        ≡ map constant_view literals.now) (λ index. (index ≤ length literals.now)
        × (inserted_in_order (map constant_view literals.now) (constant_view literal.now)
        ≡ insert (map constant_view literals.now) index (constant_view literal.now))) }
{
    for (index, held) in literals.iter().enumerate() {
        match literal_cmp(literal, held) {
            Ordering::Less => return Some(index),
            Ordering::Equal => return None,
            Ordering::Greater => {}
        }
    }
    Some(literals.len())
}

/// Puts a literal into its place in an ordered list, unless the list has it.
#[tactic(auto, using(crate::proofs::Placing::map_insert))]
fn put(literals: &mut Vec<Literal>, literal: Literal) -> Result<(), AllocError>
    ensures { OnOk result (map constant_view literals.new.items
        ≡ inserted_in_order (map constant_view literals.old.items) (constant_view literal)) }
{
    if let Some(index) = place_of(literals, &literal) {
        literals.insert(index, literal)?;
    }
    Ok(())
}

/// The literals of a list in ascending order, each once, if they all fit.
fn literals_of(
    alloc: Global,
    place: usize,
    kind: ColType,
    first: Literal,
    mut others: VecDeque<Operand>,
) -> Result<Vec<Literal>, ReadError>
    ensures { Answers (λ literals. map constant_view literals.items)
        (verdict_map (λ constants. ascending (constant_view first ∷ constants))
        (spec.all_beside place kind (map operand_view others.items))) result }
{
    let mut literals = Vec::new(alloc);
    put(&mut literals, first)?;
    while let Some(operand) = others.pop_front() {
        put(&mut literals, beside(place, kind, operand)?)?;
    }
    Ok(literals)
}

#[tactic(auto, unfolding(crate::specs::Memberships::among))]
fn among(
    alloc: Global,
    place: usize,
    left: Operand,
    first: Operand,
    others: VecDeque<Operand>,
) -> Result<Filter, ReadError>
    ensures { Answers expr_view (spec.among as_filter place (operand_view left) (operand_view first)
        (map operand_view others.items)) result }
{
    let subject = subject_of(place, left)?;
    let literal = beside(place, subject.kind, first)?;
    let literals = literals_of(alloc, place, subject.kind, literal, others)?;
    Ok(Filter::Atom(Atom::In(subject.term, literals)))
}

/// IN, after its list was read.
pub fn among_part(
    alloc: Global,
    word: MembershipWord,
    left: Part,
    first: Part,
    others: VecDeque<Operand>,
) -> Result<Part, ReadError>
    ensures { Answers part_view (spec.among_part as_filter word (part_view left) (operand_view first.operand)
        (map operand_view others.items)) result }
{
    let start = left.place;
    let filter = among(alloc, word.place, left.operand, first.operand, others)?;
    Ok(formed(alloc, word.is_negated, start, filter)?)
}

/// A law: a function without an effect whose contract states it. The constants of an IN list that was read ascend, and
/// are those of the list as it was written.
#[tactic(auto, using(crate::proofs::AscendingLemmas::lists_ascend_law))]
pub fn lists_ascend()
    ensures { ListsAscend }
{}
