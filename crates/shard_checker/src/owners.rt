//! What the sets of truth values of the shares' filters say about the shares.

ghost use Rattle.std.specs.Prelude.{◌≡◌, ◌<◌, ◌&&◌, ◌==◌, not, map};
ghost use Rattle.shard_checker.specs.Owners as spec;
ghost use Rattle.shard_checker.specs.LeafMasks.{all_at};
ghost use Rattle.shard_checker.specs.Steps.{mask_in, second_among};

use crate::leaf_masks::{LeafMasks, mask_at_leaf};
use filter_tree::Mask;
use pub_catalog::SubscriberNumber;

/// Whether the set has only true.
pub fn is_surely_true(mask: Mask) -> bool
    ensures { result ≡ spec.is_surely_true mask }
{
    mask.truth && !mask.falsity && !mask.null
}

fn is_second(owner: SubscriberNumber, number: SubscriberNumber, mask: Mask) -> bool
    ensures { result ≡ (not (number == owner) && mask.truth) }
{
    number != owner && mask.truth
}

/// The least number of a share, other than the owner's, that may take a row at a leaf: the share's filter may be true.
/// The roots give the number of the filter's step.
pub fn second_owner(
    owner: SubscriberNumber,
    roots: &[usize],
    masks: &[LeafMasks],
    leaf: usize,
) -> Option<SubscriberNumber>
    requires { leaf < 64 }
    ensures { result ≡ second_among owner 0 (map (mask_in (all_at leaf masks.now)) roots.now) }
{
    for (number, root) in roots.iter().enumerate() {
        if is_second(owner, number, mask_at_leaf(masks, *root, leaf)) {
            return Some(number);
        }
    }
    None
}
