//! Sets of numbers, as bits.

ghost use Rattle.std.specs.Prelude.{◌≡◌, ◌==◌, ◌<◌, ◌/◌, ℕ, ◌||◌, ◌&&◌, false, length, nat_lt, IfOk, OnOk};
ghost use Rattle.shard_checker.specs.BitSets as spec;

use std::alloc::{AllocError, Global};

/// How many bits a word has.
const WORD: usize = 64;

/// A set of numbers, in which each number is one bit; there are no numbers past the last word.
#[derive(Drop)]
pub struct BitSet {
    words: Vec<u64>,
}

/// Sets the bit of the number; a word for the number exists.
fn set_bit(words: &mut [u64], number: usize)
    requires { number / 64 < length words.old }
    ensures { (other : ℕ) → spec.has_bit words.new other ≡ (spec.has_bit words.old other || (other == number)) }
{
    words[number / WORD] |= 1u64 << (number % WORD);
}

impl BitSet {
    /// The empty set.
    pub fn new(alloc: Global) -> BitSet
        ensures { (number : ℕ) → spec.has result number ≡ false }
    {
        BitSet {
            words: Vec::new(alloc),
        }
    }

    /// Makes room for a number.
    fn grow(&mut self, number: usize) -> Result<(), AllocError>
        ensures room { OnOk result (spec.HasRoom self.new number) }
        ensures same { OnOk result ((other : ℕ) → spec.has self.new other ≡ spec.has self.old other) }
    {
        let wanted = number / WORD + 1;
        if self.words.len() < wanted {
            self.words.resize(wanted, 0)?;
        }
        Ok(())
    }

    /// Puts the number into the set if `is_there`.
    pub fn put(&mut self, number: usize, is_there: bool) -> Result<(), AllocError>
        ensures { OnOk result (spec.Puts self.old self.new number is_there) }
    {
        if is_there {
            self.grow(number)?;
            set_bit(&mut self.words, number);
        }
        Ok(())
    }

    /// The numbers below this one.
    pub fn below(alloc: Global, count: usize) -> Result<BitSet, AllocError>
        ensures { IfOk result (λ set. (number : ℕ) → spec.has set number ≡ nat_lt number count) }
    {
        let mut set = BitSet::new(alloc);
        for number in 0..count {
            set.put(number, true)?;
        }
        Ok(set)
    }

    /// The numbers that both sets have.
    pub fn both(&self, alloc: Global, other: &BitSet) -> Result<BitSet, AllocError>
        ensures { IfOk result (λ set. (number : ℕ) →
            spec.has set number ≡ (spec.has self.now number && spec.has other.now number)) }
    {
        let count = self.words.len().min(other.words.len());
        let mut words = Vec::with_capacity(alloc, count)?;
        for index in 0..count {
            words.push(self.words[index] & other.words[index])?;
        }
        Ok(BitSet { words })
    }

    /// Whether some number is in both sets.
    pub fn meets(&self, other: &BitSet) -> bool
        ensures { spec.TellsMeeting self.now other.now result }
    {
        for index in 0..self.words.len().min(other.words.len()) {
            if self.words[index] & other.words[index] != 0 {
                return true;
            }
        }
        false
    }
}
