//! The receipts and the readings of all seats, in the order of their numbers.

ghost use Rattle.std.specs.Prelude.{◌≡◌, ◌++◌, map, IfOk, OnOk};
ghost use Rattle.std.specs.List.Sorted.{IsPermutation, IsNonDecreasingBy};
ghost use Rattle.senders.specs.Gathering.{receipts_in, readings_in, all_receipts, all_readings};

use publisher_desk::{Note, Publishing, Reading, Receipt, Seat};
use std::alloc::{AllocError, Global};

/// Adds the receipts among the notes.
fn add_receipts<'a>(receipts: &mut Vec<&'a Receipt>, notes: &'a [Note]) -> Result<(), AllocError>
    ensures { OnOk result (map (λ receipt. receipt.now) receipts.new.items
        ≡ map (λ receipt. receipt.now) receipts.old.items ++ receipts_in notes.now) }
{
    for note in notes {
        if let Note::Committed(receipt) = note {
            receipts.push(receipt)?;
        }
    }
    Ok(())
}

/// Adds the readings among the notes.
fn add_readings<'a>(readings: &mut Vec<&'a Reading>, notes: &'a [Note]) -> Result<(), AllocError>
    ensures { OnOk result (map (λ reading. reading.now) readings.new.items
        ≡ map (λ reading. reading.now) readings.old.items ++ readings_in notes.now) }
{
    for note in notes {
        if let Note::Looked(reading) = note {
            readings.push(reading)?;
        }
    }
    Ok(())
}

/// The receipts of all seats, seat by seat. The only error is out of memory.
pub(crate) fn receipts_of<P: Publishing>(
    alloc: Global,
    seats: &[Seat<P>],
) -> Result<Vec<&Receipt>, AllocError>
    ensures { IfOk result (λ receipts. map (λ receipt. receipt.now) receipts.items ≡ all_receipts seats.now) }
{
    let mut receipts = Vec::new(alloc);
    for seat in seats {
        add_receipts(&mut receipts, seat.notes())?;
    }
    Ok(receipts)
}

/// The readings of all seats, seat by seat. The only error is out of memory.
pub(crate) fn readings_of<P: Publishing>(
    alloc: Global,
    seats: &[Seat<P>],
) -> Result<Vec<&Reading>, AllocError>
    ensures { IfOk result (λ readings. map (λ reading. reading.now) readings.items ≡ all_readings seats.now) }
{
    let mut readings = Vec::new(alloc);
    for seat in seats {
        add_readings(&mut readings, seat.notes())?;
    }
    Ok(readings)
}

/// Puts the receipts into the order of their numbers.
pub(crate) fn sort_receipts(receipts: &mut Vec<&Receipt>)
    ensures all { IsPermutation (map (λ receipt. receipt.now) receipts.old.items)
        (map (λ receipt. receipt.now) receipts.new.items) }
    ensures sorted { IsNonDecreasingBy (λ receipt. receipt.number) (map (λ receipt. receipt.now) receipts.new.items) }
{
    receipts.sort_unstable_by_key(|receipt| receipt.number());
}

/// Puts the readings into the order of their numbers.
pub(crate) fn sort_readings(readings: &mut Vec<&Reading>)
    ensures all { IsPermutation (map (λ reading. reading.now) readings.old.items)
        (map (λ reading. reading.now) readings.new.items) }
    ensures sorted { IsNonDecreasingBy (λ reading. reading.now.number) readings.new.items }
{
    readings.sort_unstable_by_key(|reading| reading.number);
}
