//! The tree that is looked for, in which equal parts are stored once.

use crate::stop::Stop;
use bumpalo::Bump;
use split_cert::{Cert, MAX_NODES, MAX_SPLITS};
use std::alloc::{AllocError, Global};
use std::collections::BTreeMap;

/// A part of the tree, from a node down. Other parts are identified by their places, and come before it.
#[derive(Clone, Copy)]
pub enum Shape {
    /// A split by an atom, and the parts for it being true, false and null.
    Split(usize, usize, usize, usize),
    Owner(usize),
    Empty(usize),
    NeverNull(usize),
    /// A leaf with rows that no share takes, or that several take.
    Broken,
}

#[derive(Clone, Copy)]
struct Part {
    shape: Shape,
    /// How many nodes it has in the whole tree.
    nodes: usize,
    is_broken: bool,
}

/// What counts as the part at a place where there is none.
const BROKEN: Part = Part {
    shape: Shape::Broken,
    nodes: 1,
    is_broken: true,
};

/// The parts that were made, and which of them have a key.
#[derive(Drop)]
pub struct Parts {
    list: Vec<Part>,
    keyed: BTreeMap<Vec<u64>, usize>,
}

/// The number of an atom, a term or a share, as a certificate has it.
fn index(place: usize) -> Result<u32, Stop> {
    match u32::try_from(place) {
        Ok(number) => Ok(number),
        Err(_) => Err(Stop::TooLarge),
    }
}

impl Parts {
    pub fn new(alloc: Global) -> Parts {
        Parts {
            list: Vec::new(alloc),
            keyed: BTreeMap::new(alloc),
        }
    }

    fn part(&self, place: usize) -> Part {
        self.list.get(place).copied().unwrap_or(BROKEN)
    }

    fn nodes(&self, place: usize) -> usize {
        self.part(place).nodes
    }

    /// Whether the part has a leaf that is broken.
    pub fn is_broken(&self, place: usize) -> bool {
        self.part(place).is_broken
    }

    fn nodes_of(&self, shape: Shape) -> usize {
        match shape {
            Shape::Split(_, if_true, if_false, if_null) => self
                .nodes(if_true)
                .saturating_add(self.nodes(if_false))
                .saturating_add(self.nodes(if_null))
                .saturating_add(1),
            Shape::Owner(_) | Shape::Empty(_) | Shape::NeverNull(_) | Shape::Broken => 1,
        }
    }

    fn makes_broken(&self, shape: Shape) -> bool {
        match shape {
            Shape::Split(_, if_true, if_false, if_null) => {
                self.is_broken(if_true) || self.is_broken(if_false) || self.is_broken(if_null)
            }
            Shape::Owner(_) | Shape::Empty(_) | Shape::NeverNull(_) => false,
            Shape::Broken => true,
        }
    }

    /// Adds a part, and returns its place.
    pub fn add(&mut self, shape: Shape) -> Result<usize, AllocError> {
        let place = self.list.len();
        let part = Part {
            shape,
            nodes: self.nodes_of(shape),
            is_broken: self.makes_broken(shape),
        };
        self.list.push(part)?;
        Ok(place)
    }

    /// The place of the part with this key, if there is one.
    pub fn with_key(&self, key: &Vec<u64>) -> Option<usize> {
        self.keyed.get(key).copied()
    }

    /// Keeps the part under this key, unless it is broken: for a broken part a row is looked for each time.
    pub fn keep(&mut self, key: Vec<u64>, place: usize) -> Result<(), AllocError> {
        if !self.is_broken(place) {
            let _ = self.keyed.insert(key, place)?;
        }
        Ok(())
    }

    /// The certificate whose root is the part at this place.
    pub fn certificate<'b>(&self, arena: &'b Bump, root: usize) -> Result<Cert<&'b Bump>, Stop> {
        if self.nodes(root) > MAX_NODES {
            return Err(Stop::TooLarge);
        }
        self.tree(arena, root, MAX_SPLITS)
    }

    #[cycle(tree)]
    fn tree<'b>(
        &self,
        arena: &'b Bump,
        place: usize,
        may_split: usize,
    ) -> Result<Cert<&'b Bump>, Stop> {
        match self.part(place).shape {
            Shape::Split(atom, if_true, if_false, if_null) => {
                if may_split == 0 {
                    return Err(Stop::TooLarge);
                }
                let if_true = self.branch(arena, if_true, may_split - 1)?;
                let if_false = self.branch(arena, if_false, may_split - 1)?;
                let if_null = self.branch(arena, if_null, may_split - 1)?;
                Ok(Cert::Split(index(atom)?, if_true, if_false, if_null))
            }
            Shape::Owner(share) => Ok(Cert::Owner(index(share)?)),
            Shape::Empty(term) => Ok(Cert::Empty(index(term)?)),
            Shape::NeverNull(atom) => Ok(Cert::NeverNull(index(atom)?)),
            Shape::Broken => Err(Stop::TooLong),
        }
    }

    #[cycle(tree)]
    fn branch<'b>(
        &self,
        arena: &'b Bump,
        place: usize,
        may_split: usize,
    ) -> Result<Box<Cert<&'b Bump>, &'b Bump>, Stop> {
        let cert = self.tree(arena, place, may_split)?;
        Ok(Box::new(arena, cert)?)
    }
}
