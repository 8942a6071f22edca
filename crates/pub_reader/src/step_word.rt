//! The words that begin the steps of a script.

ghost use Rattle.std.specs.Prelude.{◌≡◌};
ghost use Rattle.sql_reader.specs.ParsingContracts.{TakesSome, to_read};
ghost use Rattle.pub_reader.specs.Steps as spec;

use sql_reader::{ErrorKind, Item, Limit, ReadError, Reader, same_word};

/// How many steps a script may have.
const MAX_STEPS: usize = 100_000;

/// The word that begins a step.
#[derive(Clone, Copy)]
pub enum StepWord {
    Commit,
    Open,
    Hear,
    Take,
    Keep,
    Deliver,
    Report,
    Lose,
    Pump,
    View,
}

/// The word of a step that a word spells, in upper or lower case.
#[tactic(auto, unfolding(crate::specs::Steps::step_word))]
fn step_word(word: &str) -> Option<StepWord>
    ensures { result ≡ spec.step_word word.now }
{
    if same_word(word, "commit") {
        Some(StepWord::Commit)
    } else if same_word(word, "open") {
        Some(StepWord::Open)
    } else if same_word(word, "hear") {
        Some(StepWord::Hear)
    } else if same_word(word, "take") {
        Some(StepWord::Take)
    } else if same_word(word, "keep") {
        Some(StepWord::Keep)
    } else if same_word(word, "deliver") {
        Some(StepWord::Deliver)
    } else if same_word(word, "report") {
        Some(StepWord::Report)
    } else if same_word(word, "lose") {
        Some(StepWord::Lose)
    } else if same_word(word, "pump") {
        Some(StepWord::Pump)
    } else if same_word(word, "view") {
        Some(StepWord::View)
    } else {
        None
    }
}

/// The word of a step, if it is ahead.
#[tactic(auto, unfolding(crate::specs::Steps::step_ahead))]
fn step_ahead(r: &Reader<'_>) -> Option<StepWord>
    ensures { result ≡ spec.step_ahead (to_read r.now) }
{
    match r.item() {
        Some(Item::Word) => step_word(r.written()),
        _ => None,
    }
}

/// Reads the word of a step, before which there are `count` steps.
#[tactic(auto, using(crate::proofs::StepWords::rest_of_step_is_fewer), unfolding(crate::specs::Steps::counted_word))]
pub fn counted_word(r: &mut Reader<'_>, count: usize) -> Result<StepWord, ReadError>
    ensures { TakesSome (λ word. word) (spec.counted_word count) r.old result r.new }
{
    match step_ahead(r) {
        None => Err(r.refusal(
            "COMMIT, OPEN, HEAR, TAKE, KEEP, DELIVER, REPORT, LOSE, PUMP or VIEW",
        )),
        Some(word) => {
            if count >= MAX_STEPS {
                return Err(r.refused(ErrorKind::TooMany(Limit::Steps)));
            }
            r.advance();
            Ok(word)
        }
    }
}
