//! What answers have in common: places, copies, and what is asked for.
use crate::notation::answer::Answer;
use crate::notation::expressions::expression;
use crate::notation::unanswered::Unanswered;
use cedar_errors::evaluator::err::EvaluationError;
use cedar_layers::expressions::{Expr, Loc};
use std::alloc::AllocError;
use std::fmt;
use std::hash::{FoldHasher, Hash, Hasher};

/// More levels than any policy of a row has.
pub const LIMIT: usize = 1000;

/// The limit that is written so.
pub fn limit(written: &str) -> Result<usize, Unanswered> {
    if written.is_empty() {
        Ok(LIMIT)
    } else {
        Ok(written.parse::<usize>()?)
    }
}

/// Whether what was made is equal to this.
pub fn is_equal<T: PartialEq + Drop>(
    made: Result<T, AllocError>,
    other: &T,
) -> Result<bool, AllocError> {
    match made {
        Ok(made) => Ok(made == *other),
        Err(error) => Err(error),
    }
}

/// Whether the two are equal, in either order.
pub fn are_equal<T: PartialEq + Drop>(
    left: Result<T, Unanswered>,
    right: Result<T, Unanswered>,
) -> Result<bool, Unanswered> {
    let (left, right) = (left?, right?);
    let is_equal = left == right;
    if is_equal == (right == left) {
        Ok(is_equal)
    } else {
        Err(Unanswered::Unreadable("equality has no order"))
    }
}

/// What the hasher makes of it.
pub fn hash_of<T: Hash>(hashed: &T) -> u64 {
    let mut hasher = FoldHasher::default();
    hashed.hash(&mut hasher);
    hasher.finish()
}

/// A place as text: `at 1-2`, or `nowhere`.
#[derive(Clone, Copy)]
pub struct Place<'a>(pub Option<&'a Loc>);

impl fmt::Display for Place<'_> {
    fn fmt<W: fmt::Write>(&self, f: &mut fmt::Formatter<W>) -> fmt::Result {
        match self.0 {
            Some(place) => write!(f, "at {}-{}", place.start, place.end),
            None => f.write_str("nowhere"),
        }
    }
}

/// Where the error stands. Running out of memory stands nowhere.
pub fn put_error_place(answer: &mut Answer, error: &EvaluationError) {
    if matches!(error, EvaluationError::Memory(_)) {
        answer.lack_memory();
    } else {
        answer.put("error ");
        answer.show(&Place(error.source_loc()));
    }
}

/// The copy, where it stands, and whether it is equal to what it was made from.
pub fn put_same<T: fmt::Display + PartialEq>(
    answer: &mut Answer,
    copy: &T,
    original: &T,
    place: Option<&Loc>,
) {
    let is_same = copy == original;
    answer.show(copy);
    answer.put(", ");
    answer.show(&Place(place));
    answer.put(", the same ");
    answer.show(&is_same);
}

/// The text that is wanted, where the expression that it writes is this one, else what this one prints as.
pub fn put_wanted(answer: &mut Answer, expr: &Expr, want: &str) {
    match expression(answer.alloc, want) {
        Ok(wanted) => if wanted == *expr {
            answer.put(want);
        } else {
            answer.show(expr);
        },
        Err(why) => answer.fail(why),
    }
}
