//! Finds the interval between constants that contains a number. Nothing is proved of the result: the caller tests it.

use filter_tree::Value;
use std::alloc::{AllocError, Global};

/// The maximum number of bins.
const MAX_BINS: usize = 1_024;

/// The number of bins for each interval.
const BINS_PER_INTERVAL: usize = 4;

/// Adjacent intervals that cover all numbers. Each interval starts at an entry of `lows`, and ends before the next
/// entry. The numbers from `first` on are divided into bins of equal width, which is a power of two. Each bin stores
/// the first and the last interval that it overlaps.
#[derive(Drop)]
pub struct IntervalIndex {
    lows: Vec<i64>,
    first: i64,
    shift: u32,
    bins: Vec<(u16, u16)>,
}

/// Adds the start of an interval, unless the last interval starts there.
fn add_low(lows: &mut Vec<i64>, low: i64) -> Result<(), AllocError> {
    if lows.last() != Some(&low) {
        lows.push(low)?;
    }
    Ok(())
}

/// The starts of the intervals. Each constant that is a number has an interval of its own.
fn lows_of(alloc: Global, bounds: &[Value]) -> Result<Vec<i64>, AllocError> {
    let mut lows = Vec::new(alloc);
    lows.push(i64::MIN)?;
    for bound in bounds {
        if let Value::Int(number) = bound {
            add_low(&mut lows, *number)?;
            if let Some(next) = number.checked_add(1) {
                add_low(&mut lows, next)?;
            }
        }
    }
    Ok(lows)
}

/// The interval from `first` to `last` that contains the number, by binary search.
fn search(lows: &[i64], first: usize, last: usize, number: i64) -> usize {
    let mut first = first;
    let mut last = last;
    while first < last {
        let middle = last - (last - first) / 2;
        match lows.get(middle) {
            Some(low) if *low <= number => first = middle,
            _ => last = middle - 1,
        }
    }
    first
}

/// The least exponent of a bin width that gives fewer bins than the limit.
fn shift_of(numbers: u64, limit: u64) -> u32 {
    for shift in 0..63u32 {
        if numbers.wrapping_shr(shift) < limit {
            return shift;
        }
    }
    63
}

/// The number of an interval in the form that bins store.
fn short(interval: usize) -> u16 {
    u16::try_from(interval).unwrap_or(u16::MAX)
}

/// A number of bins, the first of which starts at `first`.
fn bins_of(
    alloc: Global,
    lows: &[i64],
    first: i64,
    shift: u32,
    count: u64,
) -> Result<Vec<(u16, u16)>, AllocError> {
    let width = 1i64.wrapping_shl(shift);
    let end = lows.len().saturating_sub(1);
    let mut bins = Vec::new(alloc);
    let mut start = first;
    for _ in 0..count {
        let next = start.saturating_add(width);
        let one = search(lows, 0, end, start);
        let other = search(lows, one, end, next.saturating_sub(1));
        bins.push((short(one), short(other)))?;
        start = next;
    }
    Ok(bins)
}

impl IntervalIndex {
    /// The index of the intervals between these constants, which are in ascending order.
    pub fn new(alloc: Global, bounds: &[Value]) -> Result<IntervalIndex, AllocError> {
        let lows = lows_of(alloc, bounds)?;
        let first = lows.get(1).copied().unwrap_or(i64::MAX);
        let last = lows.last().copied().unwrap_or(i64::MAX);
        let numbers = last.abs_diff(first);
        let limit = lows.len().saturating_mul(BINS_PER_INTERVAL).min(MAX_BINS);
        let shift = shift_of(numbers, limit as u64);
        let count = numbers.wrapping_shr(shift).saturating_add(1);
        let bins = bins_of(alloc, &lows, first, shift, count)?;
        Ok(IntervalIndex {
            lows,
            first,
            shift,
            bins,
        })
    }

    /// The number of intervals.
    pub fn len(&self) -> usize {
        self.lows.len()
    }

    /// The interval that contains the number.
    pub fn find(&self, number: i64) -> usize {
        if number < self.first {
            return 0;
        }
        let bin = number.abs_diff(self.first).wrapping_shr(self.shift);
        match self.bins.get(bin as usize) {
            Some((first, last)) if first == last => usize::from(*first),
            Some((first, last)) => search(
                &self.lows,
                usize::from(*first),
                usize::from(*last),
                number,
            ),
            None => self.lows.len().saturating_sub(1),
        }
    }

    /// The first and the last number of an interval.
    pub fn ends(&self, interval: usize) -> Option<(i64, i64)> {
        let low = *self.lows.get(interval)?;
        match self.lows.get(interval.saturating_add(1)) {
            None => Some((low, i64::MAX)),
            Some(next) => Some((low, next.saturating_sub(1))),
        }
    }
}
