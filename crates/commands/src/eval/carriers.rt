//! What the publications of a catalog carry of a table, which is looked for once for all of its rows.

ghost use Rattle.std.specs.Prelude.{◌≡◌, ◌++◌, [], IfOk, OnOk, find, map};
ghost use Rattle.std.specs.List.{cons_option, list_any};
ghost use Rattle.std.specs.Option.{option_copied, option_map};
ghost use Rattle.commands.specs.Eval.Carriers as spec;

use filter_tree::{Filter, TableNumber};
use pub_catalog::{Entry, Publication};
use std::alloc::{AllocError, Global};

/// A publication that carries a table: its name, and its filter of the table's rows. With no filter it carries all.
#[derive(Clone, Copy)]
pub struct Carrier<'a> {
    pub name: &'a str,
    pub filter: Option<&'a Filter>,
}

/// Whether some entry for a table has no filter.
fn carries_all(entries: &[Entry], table: TableNumber) -> bool
    ensures { result ≡ list_any (spec.is_whole table) entries.now }
{
    entries
        .iter()
        .any(|entry| entry.table == table && entry.filter.is_none())
}

fn entry_for(entries: &[Entry], table: TableNumber) -> Option<&Entry>
    ensures { option_copied result ≡ find (spec.is_entry_for table) entries.now }
{
    entries.iter().find(|entry| entry.table == table)
}

/// What a publication carries of a table; `None` if it does not carry it.
fn carrier_in(publication: &Publication, table: TableNumber) -> Option<Carrier<'_>>
    ensures { option_map spec.carrier_view result ≡ spec.carried_by table publication.now }
{
    let name = publication.name.as_str();
    let entries = publication.entries.as_slice();
    if carries_all(entries, table) {
        return Some(Carrier { name, filter: None });
    }
    match entry_for(entries, table) {
        None => None,
        Some(entry) => match &entry.filter {
            None => None,
            Some(filter) => Some(Carrier {
                name,
                filter: Some(filter),
            }),
        },
    }
}

fn add_carrier<'a>(
    carriers: &mut Vec<Carrier<'a>>,
    publication: &'a Publication,
    table: TableNumber,
) -> Result<(), AllocError>
    ensures { OnOk result (map spec.carrier_view carriers.new.items ≡ map spec.carrier_view carriers.old.items ++
        cons_option (spec.carried_by table publication.now) []) }
{
    match carrier_in(publication, table) {
        None => Ok(()),
        Some(carrier) => {
            carriers.push(carrier)?;
            Ok(())
        }
    }
}

/// The publications that carry a table, in their order. The only error is out of memory.
pub fn carriers_of(
    alloc: Global,
    publications: &[Publication],
    table: TableNumber,
) -> Result<Vec<Carrier<'_>>, AllocError>
    ensures { IfOk result (λ carriers. map spec.carrier_view carriers.items ≡ spec.carriers_of table publications.now) }
{
    let mut carriers = Vec::new(alloc);
    for publication in publications {
        add_carrier(&mut carriers, publication, table)?;
    }
    Ok(carriers)
}
