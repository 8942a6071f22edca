use std::alloc::{Allocator, Global};

/// The most nodes of a certificate that is read.
pub const MAX_NODES: usize = 1_000_000;

/// The most splits on a path from the root in a certificate that is read.
pub const MAX_SPLITS: usize = 64;

/// A certificate of a table: why each row passes the filter of exactly one subscriber. Atoms, terms and subscribers are
/// identified by their numbers, from 0.
///
/// `drop` walks down the tree by recursion: its stack grows with the splits on a path, of which a certificate that is
/// read has at most 64.
#[derive(Debug, Drop)]
pub enum Cert<A: Allocator = Global> {
    /// This atom distinguishes rows by its value; the certificates for the rows where it is true, false and null
    /// follow.
    Split(u32, Box<Cert<A>, A>, Box<Cert<A>, A>, Box<Cert<A>, A>),
    /// Each row here passes the filter of this subscriber, and of no other.
    Owner(u32),
    /// No row is here: what the path says about this term leaves it no value.
    Empty(u32),
    /// No row is here: on the path this atom is null, which it never is.
    NeverNull(u32),
}
