//! Lists of sets of truth values.

ghost use Rattle.std.specs.Prelude.{◌≡◌, slice_set};
ghost use Rattle.shard_checker.specs.Steps as spec;

use filter_tree::Mask;

/// The set of no truth values.
const NONE: Mask = Mask {
    truth: false,
    falsity: false,
    null: false,
};

/// The set at a number; empty past the end.
pub fn mask_at(masks: &[Mask], number: usize) -> Mask
    ensures { result ≡ spec.mask_in masks.now number }
{
    match masks.get(number) {
        None => NONE,
        Some(mask) => *mask,
    }
}

/// Puts the set in the place with this number, if there is one.
pub fn put(masks: &mut [Mask], number: usize, mask: Mask)
    ensures { masks.new ≡ slice_set masks.old number mask }
{
    if number < masks.len() {
        masks[number] = mask;
    }
}
