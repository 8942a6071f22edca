//! Laws of what threads may do with a publisher.

use crate::naming::Publishing;
use crate::publisher::Publisher;

/// Takes what threads may share.
fn is_shared<T: Sync>(_value: &T) {}

/// A law, and no code: threads may share a publisher.
pub fn threads_share_publishers<P: Publishing + Sync>(publisher: &Publisher<P>) {
    is_shared(publisher);
}
