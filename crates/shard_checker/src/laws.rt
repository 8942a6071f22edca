//! A law about nodes.

ghost use Rattle.shard_checker.specs.Emptiness.{EmptinessIsDecidable};

/// A law about what makes a node `Empty` right: a function without an effect whose contract states it. Some test holds
/// exactly for the terms for which what is known on the path leaves no value, not even null. `check` and `check_one`
/// return the result that each such test gives.
#[tactic(auto, using(crate::proofs::EmptyLemmas::is_decidable))]
pub fn emptiness_is_decidable()
    ensures { EmptinessIsDecidable }
{}
