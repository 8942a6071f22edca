//! Calls on filters: their values, their possible values, and their contents.

use crate::cells::{count, row};
use crate::desk::Desk;
use crate::escapes::unescaped;
use crate::rows::refusal;
use anyhow::{Context, Result, bail};
use filter_tree::{
    Atom, Column, Filter, Row, Tri, atoms_of, columns_of, copy_in, eval, possible, terms_of,
};
use sql_reader::{Item, ReadError, Reader, read_filter};
use std::alloc::Global;

/// The filter at the start of a text that ends it with `);`.
fn ended_filter(alloc: Global, text: &str, columns: &[Column]) -> Result<Filter, ReadError> {
    let mut reader = Reader::new(text);
    let filter = read_filter(&mut reader, alloc, columns)?;
    reader.expect(Item::Close, "`)`")?;
    reader.expect(Item::Semicolon, "`;`")?;
    Ok(filter)
}

/// Reads a filter of the first table, and puts it on the desk.
fn read(desk: &mut Desk, text: &str) -> Result<String> {
    let alloc = desk.alloc;
    let columns = desk.table(0)?.columns.as_slice();
    match ended_filter(alloc, text, columns) {
        Ok(filter) => {
            desk.filter = Some(filter);
            Ok(String::from_str(alloc, "ok")?)
        }
        Err(error) => refusal(alloc, &error),
    }
}

/// The value of the filter for the row.
fn says(filter: &Filter, row: &Row) -> Tri {
    eval(filter, row)
}

/// The value of the filter for the row, and that of a copy of the filter if it is different.
fn evaluated(desk: &Desk, given: &str) -> Result<String> {
    let row = row(desk.alloc, given)?;
    let filter = desk.filter()?;
    let said = says(filter, &row);
    let of_copy = says(&copy_in(desk.alloc, filter)?, &row);
    if said != of_copy {
        return Ok(format!(in desk.alloc; "{said:?}, and {of_copy:?} of a copy")?);
    }
    Ok(format!(in desk.alloc; "{said:?}")?)
}

/// Replaces the filter with a copy.
fn copy(desk: &mut Desk) -> Result<String> {
    let copy = copy_in(desk.alloc, desk.filter()?)?;
    desk.filter = Some(copy);
    Ok(String::from_str(desk.alloc, "ok")?)
}

/// Makes the filter's atoms those of paths from now on.
fn keep(desk: &mut Desk) -> Result<String> {
    desk.path = desk.filter.take();
    Ok(String::from_str(desk.alloc, "ok")?)
}

fn tri(word: &str) -> Result<Tri> {
    Ok(match word {
        "True" => Tri::True,
        "False" => Tri::False,
        "Null" => Tri::Null,
        _ => bail!("there is no such truth value"),
    })
}

/// The path of these entries, each an atom's number, a colon and a truth value.
fn path<'a>(alloc: Global, atoms: &[&'a Atom], given: &str) -> Result<Vec<(&'a Atom, Tri)>> {
    let mut path = Vec::new(alloc);
    for entry in given.split(" ") {
        if let Some((number, word)) = entry.split_once(":") {
            let atom = *atoms.get(count(number)?).context("there is no such atom")?;
            path.push((atom, tri(word)?))?;
        }
    }
    Ok(path)
}

/// The possible values of the filter on a path.
fn possibilities(desk: &Desk, given: &str) -> Result<String> {
    let alloc = desk.alloc;
    let filter = desk.path.as_ref().context("there is no filter of paths")?;
    let atoms = atoms_of(alloc, filter)?;
    let path = path(alloc, atoms.as_slice(), given)?;
    let mask = possible(desk.filter()?, path.as_slice());
    let mut answer = String::new(alloc);
    for (word, is_there) in [
        ("True ", mask.truth),
        ("False ", mask.falsity),
        ("Null ", mask.null),
    ] {
        if is_there {
            answer.push_str(word)?;
        }
    }
    Ok(String::from_str(alloc, answer.as_str().trim_end())?)
}

/// The filter's terms, each once.
fn terms(desk: &Desk) -> Result<String> {
    let terms = terms_of(desk.alloc, desk.filter()?)?;
    Ok(format!(in desk.alloc; "{:?}", terms.as_slice())?)
}

/// The filter's columns, each once.
fn columns(desk: &Desk) -> Result<String> {
    let columns = columns_of(desk.alloc, desk.filter()?)?;
    Ok(format!(in desk.alloc; "{:?}", columns.as_slice())?)
}

/// The filter's atoms, each once.
fn atoms(desk: &Desk) -> Result<String> {
    let atoms = atoms_of(desk.alloc, desk.filter()?)?;
    Ok(format!(in desk.alloc; "{:?}", atoms.as_slice())?)
}

/// The answer to a call on the parts of the filter.
fn answer_of_parts(desk: &Desk, call: &str) -> Result<Option<String>> {
    Ok(Some(match call {
        "tree" => format!(in desk.alloc; "{:?}", desk.filter()?)?,
        "terms" => terms(desk)?,
        "columns" => columns(desk)?,
        "atoms" => atoms(desk)?,
        _ => return Ok(None),
    }))
}

/// The answer to the call.
pub fn answer(desk: &mut Desk, call: &str, rest: &str) -> Result<Option<String>> {
    let alloc = desk.alloc;
    Ok(Some(match call {
        "read" => read(desk, unescaped(alloc, rest)?.as_str())?,
        "eval" => evaluated(desk, rest)?,
        "copy" => copy(desk)?,
        "keep" => keep(desk)?,
        "possible" => possibilities(desk, rest)?,
        _ => return answer_of_parts(desk, call),
    }))
}
