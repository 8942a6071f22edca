//! Lists of constants in which a value is found at once.

ghost use Rattle.std.specs.Prelude.{◌≡◌, false, map, Option, IfOk, OnOk};
ghost use Rattle.filter_tree.specs.Datum.{Constant, Number, Truth, Bytes};
ghost use Rattle.filter_tree.specs.Values.{constant_view};
ghost use Rattle.shard_checker.specs.Candidates.{tried_view};
ghost use Rattle.shard_checker.specs.Members as spec;

use crate::candidates::Tried;
use filter_tree::Literal;
use std::alloc::{AllocError, Allocator, Global};
use std::collections::HashSet;

/// The constants of a list, by their types.
#[derive(Drop)]
pub struct Members<'a> {
    numbers: HashSet<i64>,
    texts: HashSet<&'a str>,
    has_true: bool,
    has_false: bool,
}

impl<'a> Members<'a> {
    /// No constants.
    pub fn new(alloc: Global) -> Members<'a>
        ensures { (value : Option Constant) → spec.has result value ≡ false }
    {
        Members {
            numbers: HashSet::new(alloc),
            texts: HashSet::new(alloc),
            has_true: false,
            has_false: false,
        }
    }

    fn add_number(&mut self, number: i64) -> Result<(), AllocError>
        ensures { OnOk result (spec.Adds self.old self.new (Number number)) }
    {
        self.numbers.insert(number)?;
        Ok(())
    }

    fn add_truth(&mut self, truth: bool)
        ensures { spec.Adds self.old self.new (Truth truth) }
    {
        if truth {
            self.has_true = true;
        } else {
            self.has_false = true;
        }
    }

    fn add_text(&mut self, text: &'a str) -> Result<(), AllocError>
        ensures { OnOk result (spec.Adds self.old self.new (Bytes text.entry.now)) }
    {
        self.texts.insert(text)?;
        Ok(())
    }

    /// Adds a constant.
    fn add<A: Allocator>(&mut self, constant: &'a Literal<A>) -> Result<(), AllocError>
        ensures { OnOk result (spec.Adds self.old self.new (constant_view constant.now)) }
    {
        match constant {
            Literal::Int(number) => self.add_number(*number),
            Literal::Bool(truth) => {
                self.add_truth(*truth);
                Ok(())
            }
            Literal::Text(text) => self.add_text(text.as_str()),
        }
    }

    /// The constants of a list. The only error is out of memory.
    pub fn of_list<A: Allocator>(
        alloc: Global,
        constants: &'a [Literal<A>],
    ) -> Result<Members<'a>, AllocError>
        ensures { IfOk result (λ members. spec.AreMembers (map constant_view constants.now) members) }
    {
        let mut members = Members::new(alloc);
        for constant in constants {
            members.add(constant)?;
        }
        Ok(members)
    }

    /// Whether the value is one of the constants.
    pub fn has(&self, value: Tried<'_>) -> bool
        ensures { result ≡ spec.has self.now (tried_view value.entry) }
    {
        match value {
            Tried::Int(number) => self.numbers.contains(&number),
            Tried::Bool(truth) => { if truth { self.has_true } else { self.has_false } }
            Tried::Text(text) => self.texts.contains(&text),
            Tried::OtherText => false,
        }
    }
}
