//! Answers within the limit that is written, and looks at what fewer and more levels change.
use crate::notation::answer::Answer;
use crate::notation::both;
use crate::notation::unanswered::Unanswered;
use cedar_evaluator::evaluator::EvaluationError;
use std::alloc::Global;

/// More levels than any expression of a row has.
const MANY: usize = 2000;

/// What an outcome says was too few: levels, where it is the recursion limit, memory, or nothing.
#[derive(Clone, Copy)]
pub enum Shortage {
    Levels,
    Memory,
    Nothing,
}

/// What is asked of what is evaluated.
pub trait Asked {
    /// What it comes to.
    type Ending: Drop;

    /// What it comes to within so many levels.
    fn outcome(&self, alloc: Global, limit: usize) -> Self::Ending;

    /// What it says was too few.
    fn met(&self, outcome: &Self::Ending) -> Shortage;

    /// Whether the two are equal.
    fn are_equal(&self, left: &Self::Ending, right: &Self::Ending) -> bool;

    /// Writes what is asked of it.
    fn put(&self, answer: &mut Answer, outcome: &Self::Ending);
}

/// Answers within the limit that is written, or within the fewest levels where none is. Within one level less than the
/// fewest it comes to the recursion limit, and within them to the same as within many: else that is the answer.
pub fn answer_within<A: Asked>(answer: &mut Answer, asked: &A, limit_text: &str) {
    match fewest_levels(answer.alloc, asked) {
        Ok(fewest) => {
            let limit = if limit_text.is_empty() {
                fewest
            } else {
                answer.limit(limit_text)
            };
            put_within(answer, asked, limit);
        }
        Err(why) => answer.fail(why),
    }
}

/// Answers within so many levels.
pub fn put_within<A: Asked>(answer: &mut Answer, asked: &A, limit: usize) {
    let outcome = asked.outcome(answer.alloc, limit);
    asked.put(answer, &outcome);
    drop(outcome);
}

// The least limit that is not met.
fn fewest_levels<A: Asked>(alloc: Global, asked: &A) -> Result<usize, Unanswered> {
    for limit in 0..MANY {
        let outcome = asked.outcome(alloc, limit);
        let met = asked.met(&outcome);
        let found = match met {
            Shortage::Nothing => is_settled(alloc, asked, &outcome),
            Shortage::Levels => Ok(false),
            Shortage::Memory => Err(Unanswered::Memory),
        };
        drop(outcome);
        if found? {
            return Ok(limit);
        }
    }
    Err(Unanswered::Unreadable("it takes too many levels"))
}

// Whether many levels make the same of it; it is refused if not.
fn is_settled<A: Asked>(alloc: Global, asked: &A, outcome: &A::Ending) -> Result<bool, Unanswered> {
    let other = asked.outcome(alloc, MANY);
    let texts = both(
        text_of(alloc, asked, outcome),
        text_of(alloc, asked, &other),
    );
    let are_equal = asked.are_equal(outcome, &other);
    drop(other);
    let (text, other) = texts?;
    if are_equal && text.as_str() == other.as_str() {
        Ok(true)
    } else {
        Err(Unanswered::Unreadable("the limit changes the answer"))
    }
}

fn text_of<A: Asked>(alloc: Global, asked: &A, outcome: &A::Ending) -> Result<String, Unanswered> {
    let mut answer = Answer::new(alloc);
    asked.put(&mut answer, outcome);
    answer.finish()
}

/// What this error says was too few.
pub fn met_by(error: &EvaluationError) -> Shortage {
    match error {
        EvaluationError::RecursionLimit(_) => Shortage::Levels,
        EvaluationError::Memory(_) => Shortage::Memory,
        _ => Shortage::Nothing,
    }
}

/// What this outcome says was too few.
pub fn met_in<T>(outcome: &Result<T, EvaluationError>) -> Shortage {
    match outcome {
        Ok(_) => Shortage::Nothing,
        Err(error) => met_by(error),
    }
}
