//! The truth values that atoms may have, by the atoms' numbers.

use filter_tree::{Mask, Tri};

/// All three truth values.
pub const ANY: Mask = Mask {
    truth: true,
    falsity: true,
    null: true,
};

/// True and false.
pub const NOT_NULL: Mask = Mask {
    truth: true,
    falsity: true,
    null: false,
};

/// The truth value of a set that has only one.
pub fn settled(mask: Mask) -> Option<Tri> {
    match (mask.truth, mask.falsity, mask.null) {
        (true, false, false) => Some(Tri::True),
        (false, true, false) => Some(Tri::False),
        (false, false, true) => Some(Tri::Null),
        _ => None,
    }
}

/// Whether the set has only one truth value.
pub fn is_settled(mask: Mask) -> bool {
    (mask.truth ^ mask.falsity ^ mask.null) & !(mask.truth & mask.falsity & mask.null)
}

/// Whether the sets have a value in common.
pub fn meets(one: Mask, other: Mask) -> bool {
    (one.truth & other.truth) | (one.falsity & other.falsity) | (one.null & other.null)
}

/// Whether each value of the first set is in the second.
pub fn is_within(one: Mask, other: Mask) -> bool {
    !((one.truth & !other.truth) | (one.falsity & !other.falsity) | (one.null & !other.null))
}

/// The set at a number; past the end all values.
pub fn mask_at(masks: &[Mask], number: usize) -> Mask {
    masks.get(number).copied().unwrap_or(ANY)
}

/// The truth value of the atom with this number, if it is settled.
pub fn value_at(masks: &[Mask], number: usize) -> Option<Tri> {
    settled(mask_at(masks, number))
}

/// Puts a value in the place with this number, if there is such a place.
pub fn put<T: Copy>(items: &mut [T], number: usize, item: T) {
    if let Some(place) = items.get_mut(number) {
        *place = item;
    }
}
