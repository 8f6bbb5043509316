//! What a policy's condition decides. A scope whose parts compare entities that are at hand is decided at once, by
//! reference.
ghost use Rattle.std.specs.Prelude.{◌≡◌, ◌≢◌, ℕ, ◌≤◌, suc, true, false, Some, IfOk, IfSome};
ghost use Rattle.cedar_model.specs.Terms.{Term, bool_literal, entity_literal, literal, variable, both, binary, is_of_type};
ghost use Rattle.cedar_model.specs.Values.{plain_represented};
ghost use Rattle.cedar_model.specs.Failures.{out_of_memory, answers_bool, answers_value};
ghost use Rattle.cedar_model.specs.Responses.{errs_with, decided};
ghost use Rattle.cedar_model.specs.Shapes.{has_unknown};
ghost use Rattle.cedar_model.specs.Rules.{joined};
ghost use Rattle.cedar_names.specs.Names.{uid_name, type_text};
ghost use Rattle.cedar_names.specs.Leaves.{literal_view, variable_view, slot_view, binary_view};
ghost use Rattle.cedar_expressions.specs.View.{view, expr_loc};
ghost use Rattle.cedar_values.specs.Residuals.{partial_loc};
ghost use Rattle.cedar_errors.specs.Answers.{partial_answer, AnswersWith};
ghost use Rattle.cedar_model.specs.World.{Slots};
ghost use Rattle.cedar_layers.specs.Policies.{policy_view, policy_location, slots_view};
ghost use Rattle.cedar_interpreter.specs.Settings.{given_for};
ghost use Rattle.cedar_evaluator.specs.Decisions.{partly_decided, PartlyDecidesBy, IfLeaves};
ghost use Rattle.cedar_evaluator.specs.Evaluations.{IsPromisedOf};
ghost use Rattle.cedar_evaluator.specs.Direct.{scope_term, AnswersFrom, IsTold, IsAtHand, IsComparison};

use crate::evaluator::{Evaluator, decided_by};
use cedar_errors::evaluator::err::EvaluationError;
use cedar_interpreter::{Evaluation, Known, entity_at_hand};
use cedar_layers::expressions::{
    BinaryOp, EntityType, EntityUID, Expr, ExprKind, Literal, Loc, PartialValue, SlotEnv, SlotId,
    Var,
};
use cedar_layers::policies::Policy;
use cedar_operators::partial::connectives::{Connective, joined_right};
use either::{Either, Left};
use std::alloc::Global;

impl<'e, 'f> Evaluator<'e, 'f> {
    // What the policy's condition decides: by its scope, where that is decided at once, and then by its clause alone;
    // else by its parts one after another. A scope is decided with five levels, and the condition has one more.
    pub(crate) fn decide_condition(
        &self,
        alloc: Global,
        policy: &Policy,
    ) -> Result<Either<bool, Expr>, EvaluationError>
        ensures decides { PartlyDecidesBy (IsPromisedOf self.now policy.now) result }
        ensures place { IfLeaves result (λ e. expr_loc e ≡ policy_location policy.now) }
        ensures unknown { IfLeaves result (λ e. has_unknown (view e) ≡ true) }
    {
        if self.limit < 6 {
            return self.decide_whole(alloc, policy);
        }
        match self.direct_scope(policy) {
            Some(true) => self.decide_by_clause(alloc, policy),
            Some(false) => Ok(Left(false)),
            None => self.decide_by_parts(alloc, policy),
        }
    }

    // The same by the whole condition.
    fn decide_whole(
        &self,
        alloc: Global,
        policy: &Policy,
    ) -> Result<Either<bool, Expr>, EvaluationError>
        ensures decides { PartlyDecidesBy (IsPromisedOf self.now policy.now) result }
        ensures place { IfLeaves result (λ e. expr_loc e ≡ policy_location policy.now) }
        ensures unknown { IfLeaves result (λ e. has_unknown (view e) ≡ true) }
    {
        let condition = policy.condition(alloc)?;
        decided_by(
            alloc,
            self.partial_interpret(alloc, &condition, policy.env()),
        )
    }

    // The same by the clause, which has a level less, beside a scope that is decided to be true.
    fn decide_by_clause(
        &self,
        alloc: Global,
        policy: &Policy,
    ) -> Result<Either<bool, Expr>, EvaluationError>
        requires { 6 ≤ self.now.limit }
        ensures decides { AnswersFrom self.now (policy_view policy.now).slots 5 (scope_term (policy_view policy.now))
            (answers_bool true) → PartlyDecidesBy (IsPromisedOf self.now policy.now) result }
        ensures place { IfLeaves result (λ e. expr_loc e ≡ policy_location policy.now) }
        ensures unknown { IfLeaves result (λ e. has_unknown (view e) ≡ true) }
    {
        let clause = policy.when_clause();
        let slots = policy.env();
        match self.direct_part(clause, slots) {
            Some(is_true) => Ok(Left(is_true)),
            None => {
                let evaluation = Evaluation {
                    given: &self.given,
                    slots,
                };
                let answer = evaluation.interpret(alloc, clause, self.limit - 1);
                beside_true(alloc, answer, policy.loc())
            }
        }
    }

    // Whether the scope is true, where that is decided at once: `(principal && action) && resource`. The resource is
    // asked first: where it is false, and neither of the others can err, they need not be asked.
    fn direct_scope(&self, policy: &Policy) -> Option<bool>
        ensures { IfSome result (λ b. AnswersFrom self.now (policy_view policy.now).slots 5
            (scope_term (policy_view policy.now)) (answers_bool b)) }
    {
        let slots = policy.env();
        let resource = self.direct_part(policy.resource_constraint(), slots);
        if is_false(resource) {
            if self.is_told(policy.principal_constraint(), slots) {
                if self.is_told(policy.action_constraint(), slots) {
                    return Some(false);
                }
            }
        }
        let principal = self.direct_part(policy.principal_constraint(), slots);
        match self.direct_conjunction(principal, policy.action_constraint(), slots) {
            Some(true) => resource,
            Some(false) => Some(false),
            None => None,
        }
    }

    // Whether the part is a boolean whatever entities stand for the variables: a literal, or a comparison of a variable,
    // whose entity is at hand, with an entity.
    fn is_told(&self, e: &Expr, slots: &SlotEnv) -> bool
        ensures { result ≡ true → IsTold self.now (slots_view slots.now) (view e.now) }
    {
        match e.expr_kind() {
            ExprKind::Lit(literal) => bool_in_literal(literal).is_some(),
            ExprKind::BinaryApp { op, arg1, arg2 } => self.is_told_comparison(
                *op, arg1, arg2, slots,
            ),
            _ => false,
        }
    }

    // The same of a comparison.
    fn is_told_comparison(&self, op: BinaryOp, left: &Expr, right: &Expr, slots: &SlotEnv) -> bool
        ensures { result ≡ true → IsTold self.now (slots_view slots.now)
            (binary (binary_view op) (view left.now) (view right.now)) }
    {
        match left.expr_kind() {
            ExprKind::Var(var) => {
                if compares(op) {
                    if self.is_at_hand(*var) {
                        return self.entity(right, slots).is_some();
                    }
                }
                false
            }
            _ => false,
        }
    }

    // Whether the variable stands for an entity of which it is known what the store has.
    fn is_at_hand(&self, var: Var) -> bool
        ensures { result ≡ true → IsAtHand self.now (variable_view var) }
    {
        match self.given.known.known_for(var) {
            Known::Stored(_) => true,
            Known::Lacking => true,
            Known::Nothing => false,
        }
    }

    // The same of a conjunction, whose left side is decided to be this.
    fn direct_conjunction(&self, left: Option<bool>, right: &Expr, slots: &SlotEnv) -> Option<bool>
        ensures { (k : ℕ) (t : Term) → 3 ≤ k →
            IfSome left (λ b. AnswersFrom self.now (slots_view slots.now) k t (answers_bool b)) →
            IfSome result (λ b. AnswersFrom self.now (slots_view slots.now) (suc k) (both t (view right.now))
            (answers_bool b)) }
    {
        match left {
            Some(true) => self.direct_part(right, slots),
            Some(false) => Some(false),
            None => None,
        }
    }

    // The same of a test, and of two that are joined, as `principal is User && principal in Group::"g"`.
    pub(crate) fn direct_part(&self, e: &Expr, slots: &SlotEnv) -> Option<bool>
        ensures { IfSome result (λ b. AnswersFrom self.now (slots_view slots.now) 3 (view e.now) (answers_bool b)) }
    {
        match e.expr_kind() {
            ExprKind::And { left, right } => self.direct_pair(left, right, slots),
            _ => self.direct_test(e, slots),
        }
    }

    // The same of two tests that are joined.
    fn direct_pair(&self, left: &Expr, right: &Expr, slots: &SlotEnv) -> Option<bool>
        ensures { IfSome result (λ b. AnswersFrom self.now (slots_view slots.now) 3
            (both (view left.now) (view right.now)) (answers_bool b)) }
    {
        match self.direct_test(left, slots) {
            Some(true) => self.direct_test(right, slots),
            Some(false) => Some(false),
            None => None,
        }
    }

    // The same of a boolean, of a comparison of a variable, and of a test of an entity's type.
    fn direct_test(&self, e: &Expr, slots: &SlotEnv) -> Option<bool>
        ensures { IfSome result (λ b. AnswersFrom self.now (slots_view slots.now) 2 (view e.now) (answers_bool b)) }
    {
        match e.expr_kind() {
            ExprKind::Lit(literal) => bool_in_literal(literal),
            ExprKind::BinaryApp { op, arg1, arg2 } => self.direct_comparison(
                *op, arg1, arg2, slots,
            ),
            ExprKind::Is { expr, entity_type } => self.direct_type_test(expr, entity_type, slots),
            _ => None,
        }
    }

    // The same of a test of an entity's type.
    fn direct_type_test(&self, e: &Expr, entity_type: &EntityType, slots: &SlotEnv) -> Option<bool>
        ensures { IfSome result (λ b. AnswersFrom self.now (slots_view slots.now) 2
            (is_of_type (view e.now) (type_text entity_type.now)) (answers_bool b)) }
    {
        match self.entity(e, slots) {
            Some(uid) => Some(uid.entity_type() == entity_type),
            None => None,
        }
    }

    // The same of a comparison of a variable that stands for an entity.
    fn direct_comparison(
        &self,
        op: BinaryOp,
        left: &Expr,
        right: &Expr,
        slots: &SlotEnv,
    ) -> Option<bool>
        ensures { IfSome result (λ b. AnswersFrom self.now (slots_view slots.now) 2
            (binary (binary_view op) (view left.now) (view right.now)) (answers_bool b)) }
    {
        match left.expr_kind() {
            ExprKind::Var(var) => match self.entity(right, slots) {
                Some(other) => self.direct_relation(op, *var, other),
                None => None,
            },
            _ => None,
        }
    }

    // The same of a variable beside an entity.
    fn direct_relation(&self, op: BinaryOp, var: Var, other: &EntityUID) -> Option<bool>
        ensures { (slots : Slots) (t : Term) → AnswersFrom self.now slots 1 t (answers_value (plain_represented
            (entity_literal (uid_name other.now)))) → IfSome result (λ b. AnswersFrom self.now slots 2
            (binary (binary_view op) (variable (variable_view var)) t) (answers_bool b)) }
    {
        match entity_at_hand(self.given.given_for(var)) {
            Some(uid) => match op {
                BinaryOp::Eq => Some(uid == other),
                BinaryOp::In => self.given.known.is_in(var, uid, other),
                _ => None,
            },
            None => None,
        }
    }

    // The entity of a literal, of a slot, and of a variable that stands for one that is known.
    fn entity<'x>(&'x self, e: &'x Expr, slots: &'x SlotEnv) -> Option<&'x EntityUID>
        ensures { IfSome result (λ u. AnswersFrom self.now (slots_view slots.now) 1 (view e.now)
            (answers_value (plain_represented (entity_literal (uid_name u.now))))) }
    {
        match e.expr_kind() {
            ExprKind::Lit(literal) => entity_in_literal(literal),
            ExprKind::Slot(slot) => entity_in_slot(slots, *slot),
            ExprKind::Var(var) => entity_at_hand(self.given.given_for(*var)),
            _ => None,
        }
    }
}

// Whether it is told to be false.
fn is_false(told: Option<bool>) -> bool
    ensures { result ≡ true → told ≡ Some false }
{
    match told {
        Some(b) => !b,
        None => false,
    }
}

// Whether it is `==` or `in`.
fn compares(op: BinaryOp) -> bool
    ensures { result ≡ true → IsComparison (binary_view op) }
{
    match op {
        BinaryOp::Eq => true,
        BinaryOp::In => true,
        _ => false,
    }
}

// The entity that fills the slot.
fn entity_in_slot(slots: &SlotEnv, slot: SlotId) -> Option<&EntityUID>
    ensures { IfSome result (λ u. slots_view slots.now (slot_view slot) ≡ Some (uid_name u.now)) }
{
    slots.get(&slot)
}

// The boolean that the literal is.
fn bool_in_literal(value: &Literal) -> Option<bool>
    ensures { IfSome result (λ b. literal_view value.now ≡ bool_literal b) }
{
    match value {
        Literal::Bool(b) => Some(*b),
        Literal::Long(_) => None,
        Literal::String(_) => None,
        Literal::EntityUID(_) => None,
    }
}

// The entity that the literal is.
fn entity_in_literal(value: &Literal) -> Option<&EntityUID>
    ensures { IfSome result (λ u. literal_view value.now ≡ entity_literal (uid_name u.now)) }
{
    match value {
        Literal::Bool(_) => None,
        Literal::Long(_) => None,
        Literal::String(_) => None,
        Literal::EntityUID(uid) => Some(uid),
    }
}

// What is decided by this answer of the clause beside a true scope, at this location.
#[tactic(auto, unfolding(cedar_model::specs::Responses::decided))]
fn beside_true(
    alloc: Global,
    answer: Result<PartialValue, EvaluationError>,
    loc: Option<Loc>,
) -> Result<Either<bool, Expr>, EvaluationError>
    ensures decides { partly_decided result ≢ errs_with out_of_memory →
        partly_decided result ≡ decided (joined (both (literal (bool_literal true))) (partial_answer answer)) }
    ensures place { IfLeaves result (λ e. expr_loc e ≡ loc) }
    ensures unknown { IfLeaves result (λ e. has_unknown (view e) ≡ true) }
{
    decided_by(alloc, joined_to_true(alloc, answer, loc))
}

// What the right side of `true && ..` answered, as the answer of the whole, at this location.
#[tactic(auto, unfolding(cedar_model::specs::Rules::joined))]
pub(crate) fn joined_to_true(
    alloc: Global,
    answer: Result<PartialValue, EvaluationError>,
    loc: Option<Loc>,
) -> Result<PartialValue, EvaluationError>
    ensures answer { AnswersWith result (joined (both (literal (bool_literal true))) (partial_answer answer)) }
    ensures place { IfOk result (λ p. partial_loc p ≡ loc) }
{
    match answer {
        Ok(part) => answer_at(joined_right(alloc, Connective::And, part), loc),
        Err(error) => Err(error.with_enclosing_loc(loc)),
    }
}

// The answer at this location; an error, if it has none.
pub(crate) fn answer_at(
    answer: Result<PartialValue, EvaluationError>,
    loc: Option<Loc>,
) -> Result<PartialValue, EvaluationError>
    ensures answer { partial_answer result ≡ partial_answer answer }
    ensures place { IfOk result (λ p. partial_loc p ≡ loc) }
{
    match answer {
        Ok(part) => Ok(part.with_maybe_source_loc(loc)),
        Err(error) => Err(error.with_enclosing_loc(loc)),
    }
}
