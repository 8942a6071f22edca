//! Texts, lists, rows and tuples, and what they show.

use crate::checks::{holds, same};
use filter_tree::{
    Atom, Filter, Items, Literal, Op, Row, Term, Text, Tri, Value, add_atom, add_atoms,
    add_distinct, eval,
};
use pgoutput_msgs::{Cell, Tuple};
use std::alloc::{AllocError, Global};
use std::test::Fail;

/// The row (7, NULL).
fn row(alloc: Global) -> Result<Row, AllocError> {
    Ok(Row::from_values(vec![in alloc; Value::Int(7), Value::Null]?))
}

#[test]
fn a_text_shows_its_bytes(rt: HostRuntime) -> Result<(), Fail> {
    let text = Text::new(String::from_str(rt.alloc(), "né")?);
    same(
        &rt,
        (text.as_str(), text.len(), text.is_empty()),
        ("né", 3, false),
    );
    same(&rt, text.as_bytes(), [110, 195, 169].as_slice());
    same(&rt, text.into_string().as_str(), "né");
    Ok(())
}

#[test]
fn items_show_their_elements(rt: HostRuntime) -> Result<(), Fail> {
    let mut items = Items::from_vec(vec![in rt.alloc(); 4, 5]?);
    same(
        &rt,
        (items.len(), items.is_empty(), items.get(1), items.get(2)),
        (2, false, Some(&5), None),
    );
    same(&rt, items.as_slice(), [4, 5].as_slice());
    items.push(6)?;
    same(&rt, items.into_vec().as_slice(), [4, 5, 6].as_slice());
    Ok(())
}

#[test]
fn a_row_shows_its_values(rt: HostRuntime) -> Result<(), Fail> {
    let row = row(rt.alloc())?;
    same(
        &rt,
        (row.len(), row.is_empty(), row.values().len()),
        (2, false, 2),
    );
    holds(&rt, matches!(row.get(0), Some(Value::Int(7))));
    holds(&rt, row.get(2).is_none());
    same(&rt, row.into_values().len(), 2);
    Ok(())
}

#[test]
fn a_tuple_shows_its_cells(rt: HostRuntime) -> Result<(), Fail> {
    let tuple = Tuple::from_cells(vec![in rt.alloc(); Cell::Null]?);
    let found = (tuple.len(), tuple.is_empty(), tuple.cells().len());
    same(&rt, found, (1, false, 1));
    same(&rt, tuple.into_cells().len(), 1);
    Ok(())
}

#[test]
fn lists_have_each_item_once(rt: HostRuntime) -> Result<(), Fail> {
    let mut columns: Vec<usize> = Vec::new(rt.alloc());
    for column in [3, 1, 3, 2, 1, 3] {
        add_distinct(&mut columns, column)?;
    }
    same(&rt, columns.as_slice(), [3, 1, 2].as_slice());
    Ok(())
}

#[test]
fn lists_have_each_atom_once(rt: HostRuntime) -> Result<(), Fail> {
    let null: Filter = Filter::Atom(Atom::IsNull(1));
    let other: Atom = Atom::IsNull(2);
    let mut atoms = Vec::new(rt.alloc());
    add_atom(&mut atoms, &other)?;
    add_atoms(&mut atoms, &null)?;
    add_atom(&mut atoms, &other)?;
    same(&rt, atoms.len(), 2);
    same(&rt, atoms[0].term(), Term::Col(2));
    same(&rt, atoms[1].term(), Term::Col(1));
    Ok(())
}

/// No filter that is parsed divides by zero. Here the remainder is the number itself.
#[test]
fn a_number_is_left_by_zero(rt: HostRuntime) -> Result<(), Fail> {
    let filter: Filter = Filter::Atom(Atom::Cmp(Term::Mod(0, 0), Op::Eq, Literal::Int(7)));
    same(&rt, eval(&filter, &row(rt.alloc())?), Tri::True);
    Ok(())
}
