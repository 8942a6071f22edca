//! Numbers in decimal.

ghost use Rattle.std.specs.Prelude.{◌≡◌, ◌^◌, ◌&&◌, if◌then◌else◌, nat_lt, Some, None};
ghost use Rattle.std.specs.Str.{all_ascii_digits};
ghost use Rattle.split_cert.specs.Numbers as spec;

/// The number that digits write, or `None` if a byte is not a digit or the number is above 4294967295.
#[tactic(auto, using(crate::proofs::NumberLemmas::digit_turns), unfolding(crate::specs::Numbers::number_from))]
fn value_of(digits: &[u8]) -> Option<u32>
    ensures { let number = spec.number_from 0 digits.now in
        result ≡ (if all_ascii_digits digits.now && nat_lt number (2 ^ 32) then Some number else None) }
{
    let mut value: u32 = 0;
    for byte in digits {
        if !byte.is_ascii_digit() {
            return None;
        }
        let digit = u32::from(*byte - b'0');
        value = value.checked_mul(10)?.checked_add(digit)?;
    }
    Some(value)
}

/// The number of which a word is the decimal text, if it is at most 4294967295.
#[tactic(auto, using(crate::proofs::NumberLemmas::numbers))]
pub(crate) fn number_of(word: &[u8]) -> Option<u32>
    ensures { result ≡ spec.word_number word.now }
{
    let has_leading_zero = 1 < word.len() && word[0] == b'0';
    if word.is_empty() || has_leading_zero {
        return None;
    }
    value_of(word)
}
