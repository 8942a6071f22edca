//! The values that are tried for the terms of a table. Atoms do not distinguish other values of a term from these, so
//! these are enough.

ghost use Rattle.std.specs.Prelude.{◌≡◌, ◌++◌, ◌∷◌, [], ◌+ℤ◌, pos, None, Some, flat_map, map, IfOk, OnOk};
ghost use Rattle.std.specs.Option.{option_map};
ghost use Rattle.filter_tree.specs.Datum.{Number};
ghost use Rattle.filter_tree.specs.Shape.{atom_view, atoms_view};
ghost use Rattle.filter_tree.specs.Values.{constant_view};
ghost use Rattle.shard_checker.specs.Candidates as spec;
ghost use Rattle.shard_checker.specs.Candidates.{candidates_view, tried_view};

use crate::domain::{Range, kind_at, range_of};
use crate::facts::is_declared;
use crate::values::is_about;
use filter_tree::{Atom, ColType, Column, Literal, Term};
use std::alloc::{AllocError, Allocator, Global};

/// A value that is not null.
#[derive(Clone, Copy)]
pub enum Tried<'a> {
    Int(i64),
    Bool(bool),
    Text(&'a str),
    /// A text that differs from each constant that atoms name.
    OtherText,
}

/// A value that a term may have; `None` is null.
#[derive(Clone, Copy)]
pub struct Candidate<'a> {
    pub term: Term,
    pub value: Option<Tried<'a>>,
}

/// Adds a value of the term.
fn add<'a>(
    candidates: &mut Vec<Candidate<'a>>,
    term: Term,
    value: Option<Tried<'a>>,
) -> Result<(), AllocError>
    ensures { OnOk result (candidates_view candidates.new.items
        ≡ candidates_view candidates.old.items ++ spec.candidate term (option_map tried_view value.entry) ∷ []) }
{
    candidates.push(Candidate { term, value })?;
    Ok(())
}

/// Adds the number, if it is in the range.
fn add_number(
    candidates: &mut Vec<Candidate<'_>>,
    range: Range,
    term: Term,
    number: i64,
) -> Result<(), AllocError>
    ensures { OnOk result (candidates_view candidates.new.items
        ≡ candidates_view candidates.old.items ++ spec.number_in range term number) }
{
    if range.least <= number && number <= range.greatest {
        add(candidates, term, Some(Tried::Int(number)))?;
    }
    Ok(())
}

/// Adds the next number, if it is in the range.
fn add_next(
    candidates: &mut Vec<Candidate<'_>>,
    range: Range,
    term: Term,
    number: i64,
) -> Result<(), AllocError>
    ensures { OnOk result (candidates_view candidates.new.items
        ≡ candidates_view candidates.old.items ++ spec.number_in range term (number +ℤ pos 1)) }
{
    if number < range.greatest {
        add_number(candidates, range, term, number + 1)?;
    }
    Ok(())
}

/// Adds the number and the next one, if they are in the range.
fn add_nearby(
    candidates: &mut Vec<Candidate<'_>>,
    range: Range,
    term: Term,
    number: i64,
) -> Result<(), AllocError>
    ensures { OnOk result (candidates_view candidates.new.items
        ≡ candidates_view candidates.old.items ++ spec.numbers_nearby range term number) }
{
    add_number(candidates, range, term, number)?;
    add_next(candidates, range, term, number)?;
    Ok(())
}

/// Adds what is tried for a term if an atom names the number; the term's column has this type.
fn add_named(
    candidates: &mut Vec<Candidate<'_>>,
    kind: ColType,
    term: Term,
    number: i64,
) -> Result<(), AllocError>
    ensures { OnOk result (candidates_view candidates.new.items
        ≡ candidates_view candidates.old.items ++ spec.named_by kind term (Number number)) }
{
    match kind {
        ColType::SmallInt | ColType::Integer | ColType::BigInt => {
            add_nearby(candidates, range_of(kind, term), term, number)?;
        }
        ColType::Boolean | ColType::Text => {}
    }
    Ok(())
}

/// Adds what is tried if an atom names the constant.
fn add_constant<'a, A: Allocator>(
    candidates: &mut Vec<Candidate<'a>>,
    kind: ColType,
    term: Term,
    constant: &'a Literal<A>,
) -> Result<(), AllocError>
    ensures { OnOk result (candidates_view candidates.new.items
        ≡ candidates_view candidates.old.items ++ spec.named_by kind term (constant_view constant.now)) }
{
    match (kind, constant) {
        (_, Literal::Int(number)) => add_named(candidates, kind, term, *number)?,
        (ColType::Text, Literal::Text(text)) => {
            add(candidates, term, Some(Tried::Text(text.as_str())))?;
        }
        (_, Literal::Bool(_) | Literal::Text(_)) => {}
    }
    Ok(())
}

/// Adds what is tried if an atom names the constants.
fn add_constants<'a, A: Allocator>(
    candidates: &mut Vec<Candidate<'a>>,
    kind: ColType,
    term: Term,
    constants: &'a [Literal<A>],
) -> Result<(), AllocError>
    ensures { OnOk result (candidates_view candidates.new.items ≡ candidates_view candidates.old.items
        ++ flat_map (spec.named_by kind term) (map constant_view constants.now)) }
{
    for constant in constants {
        add_constant(candidates, kind, term, constant)?;
    }
    Ok(())
}

/// Adds what is tried if an atom names the two numbers.
fn add_ends(
    candidates: &mut Vec<Candidate<'_>>,
    kind: ColType,
    term: Term,
    low: i64,
    high: i64,
) -> Result<(), AllocError>
    ensures { OnOk result (candidates_view candidates.new.items ≡ candidates_view candidates.old.items
        ++ flat_map (spec.named_by kind term) (Number low ∷ Number high ∷ [])) }
{
    add_named(candidates, kind, term, low)?;
    add_named(candidates, kind, term, high)?;
    Ok(())
}

/// Adds what is tried because of the constants of the atom.
fn add_constants_of<'a, A: Allocator>(
    candidates: &mut Vec<Candidate<'a>>,
    kind: ColType,
    term: Term,
    atom: &'a Atom<A>,
) -> Result<(), AllocError>
    ensures { OnOk result (candidates_view candidates.new.items ≡ candidates_view candidates.old.items
        ++ flat_map (spec.named_by kind term) (spec.constants_of (atom_view atom.now))) }
{
    match atom {
        Atom::Cmp(_, _, constant) | Atom::Distinct(_, constant) => {
            add_constant(candidates, kind, term, constant)?;
        }
        Atom::IsNull(_) => {}
        Atom::In(_, constants) => add_constants(candidates, kind, term, constants)?,
        Atom::Between(_, low, high) => add_ends(candidates, kind, term, *low, *high)?,
    }
    Ok(())
}

/// Adds what is tried for the term because of the atom.
fn add_atom<'a, A: Allocator>(
    candidates: &mut Vec<Candidate<'a>>,
    kind: ColType,
    term: Term,
    atom: &'a Atom<A>,
) -> Result<(), AllocError>
    ensures { OnOk result (candidates_view candidates.new.items
        ≡ candidates_view candidates.old.items ++ spec.named_in kind term (atom_view atom.now)) }
{
    if is_about(term, atom) {
        add_constants_of(candidates, kind, term, atom)?;
    }
    Ok(())
}

/// Adds what is tried for the term because of the atoms.
fn add_atoms<'a, A: Allocator>(
    candidates: &mut Vec<Candidate<'a>>,
    kind: ColType,
    term: Term,
    atoms: &[&'a Atom<A>],
) -> Result<(), AllocError>
    ensures { OnOk result (candidates_view candidates.new.items ≡ candidates_view candidates.old.items
        ++ flat_map (spec.named_in kind term) (atoms_view atoms.now)) }
{
    for atom in atoms {
        add_atom(candidates, kind, term, *atom)?;
    }
    Ok(())
}

/// Adds what is tried for the term whatever atoms there are.
fn add_first(
    candidates: &mut Vec<Candidate<'_>>,
    kind: ColType,
    term: Term,
) -> Result<(), AllocError>
    ensures { OnOk result (candidates_view candidates.new.items
        ≡ candidates_view candidates.old.items ++ spec.always_tried kind term) }
{
    match kind {
        ColType::SmallInt | ColType::Integer | ColType::BigInt => {
            let range = range_of(kind, term);
            add_number(candidates, range, term, range.least)?;
        }
        ColType::Boolean => {
            add(candidates, term, Some(Tried::Bool(true)))?;
            add(candidates, term, Some(Tried::Bool(false)))?;
        }
        ColType::Text => add(candidates, term, Some(Tried::OtherText))?,
    }
    Ok(())
}

/// Adds null, unless the term's column is declared NOT NULL.
fn add_null(
    candidates: &mut Vec<Candidate<'_>>,
    columns: &[Column],
    term: Term,
) -> Result<(), AllocError>
    ensures { OnOk result (candidates_view candidates.new.items
        ≡ candidates_view candidates.old.items ++ spec.null_of columns.now term) }
{
    if !is_declared(columns, term.column()) {
        add(candidates, term, None)?;
    }
    Ok(())
}

/// Adds what is tried for the term.
fn add_term<'a, A: Allocator>(
    candidates: &mut Vec<Candidate<'a>>,
    columns: &[Column],
    atoms: &[&'a Atom<A>],
    term: Term,
) -> Result<(), AllocError>
    ensures { OnOk result (candidates_view candidates.new.items ≡ candidates_view candidates.old.items
        ++ spec.candidates_of columns.now (atoms_view atoms.now) term) }
{
    let kind = kind_at(columns, term.column());
    add_null(candidates, columns, term)?;
    add_first(candidates, kind, term)?;
    add_atoms(candidates, kind, term, atoms)?;
    Ok(())
}

/// What is tried for the terms. The only error is out of memory.
pub fn candidates_in<'a, A: Allocator>(
    alloc: Global,
    columns: &[Column],
    atoms: &[&'a Atom<A>],
    terms: &[Term],
) -> Result<Vec<Candidate<'a>>, AllocError>
    ensures { IfOk result (λ candidates. candidates_view candidates.items
        ≡ spec.candidates_in columns.now (atoms_view atoms.now) terms.now) }
{
    let mut candidates = Vec::new(alloc);
    for term in terms {
        add_term(&mut candidates, columns, atoms, *term)?;
    }
    Ok(candidates)
}
