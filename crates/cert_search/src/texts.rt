//! The texts that atoms name, which have numbers.

use filter_tree::{Atom, Literal};
use std::alloc::{AllocError, Allocator, Global};
use std::collections::BTreeMap;

/// The texts that atoms name, each once. Their numbers are their places in the list, and one more number is that of
/// every other text.
#[derive(Drop)]
pub struct Texts<'a> {
    /// The texts that an atom names outside a list, and then the texts of lists, each in the order of first appearance.
    pub list: Vec<&'a str>,
    /// How many texts are named outside a list.
    pub alone: usize,
    places: BTreeMap<&'a str, usize>,
}

/// The number of a text, by its place in the list.
pub fn number(count: usize) -> i64 {
    i64::try_from(count).unwrap_or(i64::MAX)
}

impl<'a> Texts<'a> {
    /// The texts that these atoms name.
    pub fn new<A: Allocator>(
        alloc: Global,
        atoms: &[&'a Atom<A>],
    ) -> Result<Texts<'a>, AllocError> {
        let mut texts = Texts {
            list: Vec::new(alloc),
            alone: 0,
            places: BTreeMap::new(alloc),
        };
        texts.add_all_alone(atoms)?;
        texts.alone = texts.list.len();
        texts.add_all_lists(atoms)?;
        Ok(texts)
    }

    fn add_all_alone<A: Allocator>(&mut self, atoms: &[&'a Atom<A>]) -> Result<(), AllocError> {
        for atom in atoms {
            match *atom {
                Atom::Cmp(_, _, literal) | Atom::Distinct(_, literal) => self.add(literal)?,
                Atom::IsNull(_) | Atom::In(..) | Atom::Between(..) => {}
            }
        }
        Ok(())
    }

    fn add_all_lists<A: Allocator>(&mut self, atoms: &[&'a Atom<A>]) -> Result<(), AllocError> {
        for atom in atoms {
            if let Atom::In(_, literals) = *atom {
                self.add_list(literals)?;
            }
        }
        Ok(())
    }

    fn add_list<A: Allocator>(&mut self, literals: &'a [Literal<A>]) -> Result<(), AllocError> {
        for literal in literals {
            self.add(literal)?;
        }
        Ok(())
    }

    /// Adds a constant that is a text, unless it was added before.
    fn add<A: Allocator>(&mut self, literal: &'a Literal<A>) -> Result<(), AllocError> {
        if let Literal::Text(text) = literal {
            let text = text.as_str();
            if self.places.get(&text).is_none() {
                let _ = self.places.insert(text, self.list.len())?;
                self.list.push(text)?;
            }
        }
        Ok(())
    }

    /// The number of the text.
    pub fn number_of(&self, text: &'a str) -> i64 {
        match self.places.get(&text) {
            Some(place) => number(*place),
            None => self.unnamed(),
        }
    }

    /// The number of every text that no atom names.
    pub fn unnamed(&self) -> i64 {
        number(self.list.len())
    }

    /// Whether an atom names the text.
    pub fn is_named(&self, text: &str) -> bool {
        for named in &self.list {
            if *named == text {
                return true;
            }
        }
        false
    }

    /// The text with this number, if an atom names it.
    pub fn text(&self, number: i64) -> Option<&'a str> {
        let place = usize::try_from(number).ok()?;
        self.list.get(place).copied()
    }
}
