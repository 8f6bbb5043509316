//! What the text of a policy shows: `never` that it never applies, or `may apply`; `errs` that it errs wherever its scope
//! holds, or `may not err`; the attribute that it tests `late`, after it read it, or `in time`.
use crate::answer::{Answer, Unanswered};
use cedar_layers::policies::Policy;
use cedar_unsatisfiable::{always_errs, is_unsatisfiable, late_test};

/// Answers of the policy whether it never applies.
pub fn put_never(answer: &mut Answer, policy: &Policy) {
    match is_unsatisfiable(answer.alloc, policy) {
        Ok(true) => answer.put("never"),
        Ok(false) => answer.put("may apply"),
        Err(_) => answer.fail(Unanswered::Memory),
    }
}

/// Whether it errs wherever its scope holds.
pub fn put_errs(answer: &mut Answer, policy: &Policy) {
    match always_errs(answer.alloc, policy) {
        Ok(true) => answer.put("errs"),
        Ok(false) => answer.put("may not err"),
        Err(_) => answer.fail(Unanswered::Memory),
    }
}

/// Which attribute it tests after it read it.
pub fn put_late(answer: &mut Answer, policy: &Policy) {
    match late_test(answer.alloc, policy) {
        Ok(Some(name)) => {
            answer.put("late ");
            answer.put(name.as_str());
            drop(name);
        }
        Ok(None) => answer.put("in time"),
        Err(_) => answer.fail(Unanswered::Memory),
    }
}
