//! Sets: elements, parts and common elements.
ghost use Rattle.cedar_model.specs.Terms.{contains_operator, contains_all_operator, contains_any_operator};
ghost use Rattle.cedar_model.specs.Settings.{Setting};
ghost use Rattle.cedar_model.specs.Operators.{binary_answer};
ghost use Rattle.cedar_errors.specs.Answers.{Answers};

use crate::typed::{bool_value, get_as_set};
use cedar_errors::evaluator::err::EvaluationError;
use cedar_layers::expressions::Value;
use std::alloc::Global;

/// `a.contains(b)`: whether the set has an element that equals the value. A type error where it is no set.
#[tactic(auto, unfolding(cedar_model::specs::Operators::binary_answer, cedar_model::specs::Operators::expecting))]
pub fn contains(alloc: Global, a: &Value, b: &Value) -> Result<Value, EvaluationError>
    ensures { (s : Setting) → Answers result (binary_answer s contains_operator a.now.what b.now.what) }
{
    let set = get_as_set(alloc, a)?;
    Ok(bool_value(set.contains(b)))
}

/// `a.containsAll(b)`: whether each element of the second set is one of the first. A type error where one, the left
/// first, is no set.
#[tactic(auto, unfolding(cedar_model::specs::Operators::binary_answer, cedar_model::specs::Operators::expecting))]
pub fn contains_all(alloc: Global, a: &Value, b: &Value) -> Result<Value, EvaluationError>
    ensures { (s : Setting) → Answers result (binary_answer s contains_all_operator a.now.what b.now.what) }
{
    let all = get_as_set(alloc, a)?;
    let some = get_as_set(alloc, b)?;
    Ok(bool_value(some.is_subset(all)))
}

/// `a.containsAny(b)`: whether the sets have an element in common. A type error where one, the left first, is no set.
#[tactic(auto, unfolding(cedar_model::specs::Operators::binary_answer, cedar_model::specs::Operators::expecting))]
pub fn contains_any(alloc: Global, a: &Value, b: &Value) -> Result<Value, EvaluationError>
    ensures { (s : Setting) → Answers result (binary_answer s contains_any_operator a.now.what b.now.what) }
{
    let all = get_as_set(alloc, a)?;
    let some = get_as_set(alloc, b)?;
    Ok(bool_value(!some.is_disjoint(all)))
}
