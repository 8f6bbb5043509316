//! How each kind of expression starts: with its answer, or with its first part.
ghost use Rattle.std.specs.Prelude.{◌≡◌, ℕ, IfOk};
ghost use Rattle.std.specs.Rc.{rc_str_bytes};
ghost use Rattle.cedar_model.specs.Terms as Terms;
ghost use Rattle.cedar_model.specs.Failures.{fails, slot_is_unlinked};
ghost use Rattle.cedar_model.specs.Operators.{slot_answer};
ghost use Rattle.cedar_names.specs.Names.{type_text};
ghost use Rattle.cedar_names.specs.Leaves.{literal_view, variable_view, slot_view};
ghost use Rattle.cedar_names.specs.Leaves.{unary_view, binary_view, pattern_view};
ghost use Rattle.cedar_expressions.specs.View.{view, terms_view, fields_view, extended_has_of, call_of, expr_loc};
ghost use Rattle.cedar_expressions.specs.Readers.{unknown_term};
ghost use Rattle.cedar_layers.specs.Policies.{slots_view};
ghost use Rattle.cedar_interpreter.specs.Tasks.{Gives};
ghost use Rattle.cedar_interpreter.specs.Continuations.{StartsIn, StartsAt};
ghost use Rattle.cedar_interpreter.specs.Parts.{IsTaken, IsNextPart};
ghost use Rattle.cedar_interpreter.specs.Elements.{IsPartTaken, NextStands, SetNext};

use crate::answers::{answer_part, answer_result, loc_of, or_out_of_memory, wait};
use crate::direct::literal_value;
use crate::evaluation::Evaluation;
use crate::frame::{Frame, Next, Pending, SharedExpr, Task};
use crate::stopped::Stopped;
use crate::stored::begin_unknown_mapped;
use cedar_errors::evaluator::err::{EvaluationError, evaluation_errors};
use cedar_expressions::{Expr, ExprKind};
use cedar_frames::Transition;
use cedar_layers::expressions::SlotEnv;
use cedar_names::{
    BinaryOp, EntityType, FirstRest, Literal, Name, Pattern, SlotId, Type, UnaryOp, Unknown, Var,
};
use cedar_operators::partial::connectives::Connective;
use cedar_operators::partial::unary::{is_of_part, like_of_part};
use cedar_restricted::{NextPart, PartsFrame};
use cedar_values::{PartialValue, Value, ValueKind};
use evaluation_errors::UnlinkedSlotError;
use std::alloc::{AllocError, Global};
use std::collections::BTreeMap;
use std::rc::{Rc, RcStr};

impl<'e, 'g, 'f> Evaluation<'e, 'g, 'f> {
    // Looks at an expression, which is that of the whole: answers it, or waits for its first part.
    #[tactic(auto, using(cedar_expressions::proofs::Levels::levels))]
    pub(crate) fn begin(&self, alloc: Global, whole: &SharedExpr, e: &Expr, levels: usize) -> Next
        ensures starts { StartsIn self.now levels whole.now (view e.now) result }
        ensures elements { NextStands e.now result }
    {
        match e.expr_kind() {
            ExprKind::Lit(value) => self.begin_literal(alloc, whole, value),
            ExprKind::Var(var) => self.begin_variable(alloc, whole, *var),
            ExprKind::Slot(slot) => self.begin_slot(alloc, whole, *slot),
            ExprKind::Unknown(unknown) => self.begin_unknown(alloc, whole, e, unknown),
            ExprKind::If {
                test_expr,
                then_expr,
                else_expr,
            } => self.begin_if(whole, test_expr, then_expr, else_expr),
            ExprKind::And { left, right } => self.begin_and_or(whole, Connective::And, left, right),
            ExprKind::Or { left, right } => self.begin_and_or(whole, Connective::Or, left, right),
            ExprKind::UnaryApp { op, arg } => self.begin_unary(whole, *op, arg),
            ExprKind::BinaryApp { op, arg1, arg2 } => {
                self.begin_binary(alloc, whole, *op, arg1, arg2, levels)
            }
            ExprKind::ExtensionFunctionApp { fn_name, args } => {
                self.begin_call(alloc, whole, fn_name, args)
            }
            ExprKind::GetAttr { expr, attr } => {
                self.begin_attribute(alloc, whole, expr, attr, levels)
            }
            ExprKind::HasAttr { expr, attr } => { self.begin_has(alloc, whole, expr, attr, levels) }
            ExprKind::ExtHasAttr { expr, attrs } => {
                self.begin_extended_has(alloc, whole, expr, attrs, levels)
            }
            ExprKind::Like { expr, pattern } => {
                self.begin_like(alloc, whole, expr, pattern, levels)
            }
            ExprKind::Is { expr, entity_type } => {
                self.begin_is(alloc, whole, expr, entity_type, levels)
            }
            ExprKind::Set(parts) => self.begin_set(alloc, whole, parts),
            ExprKind::Record(pairs) => self.begin_record(alloc, whole, pairs),
        }
    }

    fn begin_literal(&self, alloc: Global, whole: &SharedExpr, value: &Literal) -> Next
        ensures { StartsAt self.now whole.now (Terms.literal (literal_view value.now)) result }
    {
        match literal_value(value) {
            Some(value) => answer_part(alloc, whole, PartialValue::Value(value)),
            None => Transition::Done(Err(Stopped::Memory)),
        }
    }

    fn begin_variable(&self, alloc: Global, whole: &SharedExpr, var: Var) -> Next
        ensures { (levels : ℕ) → StartsIn self.now levels whole.now (Terms.variable (variable_view var)) result }
    {
        match self.given.given_for(var).clone() {
            Ok(part) => answer_part(alloc, whole, part),
            Err(_) => Transition::Done(Err(Stopped::Memory)),
        }
    }

    fn begin_slot(&self, alloc: Global, whole: &SharedExpr, slot: SlotId) -> Next
        ensures { StartsAt self.now whole.now (Terms.slot (slot_view slot)) result }
    {
        or_out_of_memory(slot_answer(alloc, whole, self.slots, slot))
    }

    fn begin_unknown(&self, alloc: Global, whole: &SharedExpr, e: &Expr, unknown: &Unknown) -> Next
        requires { view e.now ≡ unknown_term unknown.now }
        ensures { StartsAt self.now whole.now (view e.now) result }
    {
        or_out_of_memory(begin_unknown_mapped(alloc, whole, &self.given.mapper, e, unknown))
    }

    fn begin_unary(&self, whole: &SharedExpr, op: UnaryOp, arg: &SharedExpr) -> Next
        ensures { StartsAt self.now whole.now (Terms.unary (unary_view op) (view arg.now.value)) result }
    {
        wait(whole, arg, Pending::Unary(op))
    }

    fn begin_binary(
        &self,
        alloc: Global,
        whole: &SharedExpr,
        op: BinaryOp,
        left: &SharedExpr,
        right: &SharedExpr,
        levels: usize,
    ) -> Next
        ensures { StartsIn self.now levels whole.now
            (Terms.binary (binary_view op) (view left.now.value) (view right.now.value)) result }
    {
        match self.direct_answer(alloc, left, levels) {
            Some(direct) => self.resume_binary_left(alloc, whole, op, right, direct, levels),
            None => self.wait_for_binary(whole, op, left, right),
        }
    }

    fn wait_for_binary(
        &self,
        whole: &SharedExpr,
        op: BinaryOp,
        left: &SharedExpr,
        right: &SharedExpr,
    ) -> Next
        ensures { StartsAt self.now whole.now
            (Terms.binary (binary_view op) (view left.now.value) (view right.now.value)) result }
    {
        match right.clone() {
            Ok(right) => wait(whole, left, Pending::BinaryLeft { op, right }),
            Err(_) => Transition::Done(Err(Stopped::Memory)),
        }
    }

    fn begin_attribute(
        &self,
        alloc: Global,
        whole: &SharedExpr,
        expr: &SharedExpr,
        attr: &RcStr,
        levels: usize,
    ) -> Next
        ensures { StartsIn self.now levels whole.now
            (Terms.get_attribute (view expr.now.value) (rc_str_bytes attr.now)) result }
    {
        match self.direct_answer(alloc, expr, levels) {
            Some(direct) => self.resume_attribute(alloc, whole, attr, direct),
            None => self.wait_for_attribute(whole, expr, attr),
        }
    }

    fn wait_for_attribute(&self, whole: &SharedExpr, expr: &SharedExpr, attr: &RcStr) -> Next
        ensures { StartsAt self.now whole.now
            (Terms.get_attribute (view expr.now.value) (rc_str_bytes attr.now)) result }
    {
        match attr.clone() {
            Ok(attr) => wait(whole, expr, Pending::GetAttr(attr)),
            Err(_) => Transition::Done(Err(Stopped::Memory)),
        }
    }

    fn begin_has(
        &self,
        alloc: Global,
        whole: &SharedExpr,
        expr: &SharedExpr,
        attr: &RcStr,
        levels: usize,
    ) -> Next
        ensures { StartsIn self.now levels whole.now
            (Terms.has_attribute (view expr.now.value) (rc_str_bytes attr.now)) result }
    {
        match self.direct_answer(alloc, expr, levels) {
            Some(direct) => self.resume_has(alloc, whole, attr, direct),
            None => self.wait_for_has(whole, expr, attr),
        }
    }

    fn wait_for_has(&self, whole: &SharedExpr, expr: &SharedExpr, attr: &RcStr) -> Next
        ensures { StartsAt self.now whole.now
            (Terms.has_attribute (view expr.now.value) (rc_str_bytes attr.now)) result }
    {
        match attr.clone() {
            Ok(attr) => wait(whole, expr, Pending::HasAttr(attr)),
            Err(_) => Transition::Done(Err(Stopped::Memory)),
        }
    }

    fn begin_extended_has(
        &self,
        alloc: Global,
        whole: &SharedExpr,
        expr: &SharedExpr,
        attrs: &Rc<FirstRest<RcStr>>,
        levels: usize,
    ) -> Next
        ensures { StartsIn self.now levels whole.now (extended_has_of (view expr.now.value) attrs.now.value) result }
    {
        match self.direct_answer(alloc, expr, levels) {
            Some(direct) => self.resume_extended_has(alloc, whole, attrs, direct),
            None => self.wait_for_extended_has(whole, expr, attrs),
        }
    }

    fn wait_for_extended_has(
        &self,
        whole: &SharedExpr,
        expr: &SharedExpr,
        attrs: &Rc<FirstRest<RcStr>>,
    ) -> Next
        ensures { StartsAt self.now whole.now (extended_has_of (view expr.now.value) attrs.now.value) result }
    {
        match attrs.clone() {
            Ok(attrs) => wait(whole, expr, Pending::ExtHasAttr(attrs)),
            Err(_) => Transition::Done(Err(Stopped::Memory)),
        }
    }

    fn begin_like(
        &self,
        alloc: Global,
        whole: &SharedExpr,
        expr: &SharedExpr,
        pattern: &Pattern,
        levels: usize,
    ) -> Next
        ensures { StartsIn self.now levels whole.now
            (Terms.like (view expr.now.value) (pattern_view pattern.now)) result }
    {
        match self.direct_value(alloc, expr, levels) {
            Some(direct) => {
                answer_result(
                    alloc,
                    whole,
                    like_of_part(alloc, PartialValue::Value(direct), pattern),
                )
            }
            None => self.wait_for_like(alloc, whole, expr, pattern),
        }
    }

    fn wait_for_like(
        &self,
        alloc: Global,
        whole: &SharedExpr,
        expr: &SharedExpr,
        pattern: &Pattern,
    ) -> Next
        ensures { StartsAt self.now whole.now (Terms.like (view expr.now.value) (pattern_view pattern.now)) result }
    {
        match boxed_pattern(alloc, pattern) {
            Ok(pattern) => wait(whole, expr, Pending::Like(pattern)),
            Err(_) => Transition::Done(Err(Stopped::Memory)),
        }
    }

    fn begin_is(
        &self,
        alloc: Global,
        whole: &SharedExpr,
        expr: &SharedExpr,
        entity_type: &EntityType,
        levels: usize,
    ) -> Next
        ensures { StartsIn self.now levels whole.now
            (Terms.is_of_type (view expr.now.value) (type_text entity_type.now)) result }
    {
        match self.direct_value(alloc, expr, levels) {
            Some(direct) => {
                answer_result(
                    alloc,
                    whole,
                    is_of_part(alloc, PartialValue::Value(direct), entity_type),
                )
            }
            None => self.wait_for_is(alloc, whole, expr, entity_type),
        }
    }

    fn wait_for_is(
        &self,
        alloc: Global,
        whole: &SharedExpr,
        expr: &SharedExpr,
        entity_type: &EntityType,
    ) -> Next
        ensures { StartsAt self.now whole.now
            (Terms.is_of_type (view expr.now.value) (type_text entity_type.now)) result }
    {
        match boxed_type(alloc, entity_type) {
            Ok(entity_type) => wait(whole, expr, Pending::Is(entity_type)),
            Err(_) => Transition::Done(Err(Stopped::Memory)),
        }
    }

    fn begin_set(&self, alloc: Global, whole: &SharedExpr, parts: &Rc<Vec<Expr>>) -> Next
        ensures starts { StartsAt self.now whole.now (Terms.set_of (terms_view parts.now.value.items)) result }
        ensures elements { SetNext parts.now.value.items result }
    {
        let next = PartsFrame::set(alloc, self.given.extensions, parts, loc_of(whole));
        first_part(alloc, whole, next)
    }

    fn begin_record(&self, alloc: Global, whole: &SharedExpr, pairs: &BTreeMap<RcStr, Expr>) -> Next
        ensures { StartsAt self.now whole.now (Terms.record_of (fields_view pairs.now.entries)) result }
    {
        let next = PartsFrame::record(alloc, self.given.extensions, pairs, loc_of(whole));
        first_part(alloc, whole, next)
    }

    fn begin_call(
        &self,
        alloc: Global,
        whole: &SharedExpr,
        fn_name: &Name,
        args: &Rc<Vec<Expr>>,
    ) -> Next
        ensures { StartsAt self.now whole.now (call_of fn_name.now args.now.value.items) result }
    {
        let next = PartsFrame::call(alloc, self.given.extensions, fn_name, args, loc_of(whole));
        first_part(alloc, whole, next)
    }
}

// A copy of the pattern in a box.
fn boxed_pattern(alloc: Global, pattern: &Pattern) -> Result<Box<Pattern>, AllocError>
    ensures { IfOk result (λ p. pattern_view p.value ≡ pattern_view pattern.now) }
{
    Ok(Box::new(alloc, pattern.clone()?)?)
}

// A copy of the entity type in a box.
fn boxed_type(alloc: Global, entity_type: &EntityType) -> Result<Box<EntityType>, AllocError>
    ensures { IfOk result (λ t. type_text t.value ≡ type_text entity_type.now) }
{
    Ok(Box::new(alloc, entity_type.clone()?)?)
}

// The entity that the slot is linked to.
#[tactic(auto, unfolding(cedar_model::specs::Operators::slot_answer))]
fn slot_answer(
    alloc: Global,
    whole: &SharedExpr,
    slots: &SlotEnv,
    slot: SlotId,
) -> Result<Next, AllocError>
    ensures { IfOk result (λ n. Gives (expr_loc whole.now.value) n
        (slot_answer (slot_view slot) (slots_view slots.now (slot_view slot)))) }
{
    match slots.get(&slot) {
        Some(uid) => {
            let uid = Rc::new(alloc, uid.clone()?)?;
            let value = Value::new(ValueKind::Lit(Literal::EntityUID(uid)), None);
            Ok(answer_part(alloc, whole, PartialValue::Value(value)))
        }
        None => Ok(refuse_unlinked_slot(alloc, whole, slot)),
    }
}

// That the slot is linked to no entity.
#[cold]
#[inline(never)]
fn refuse_unlinked_slot(alloc: Global, whole: &SharedExpr, slot: SlotId) -> Next
    ensures { Gives (expr_loc whole.now.value) result (fails (slot_is_unlinked (slot_view slot))) }
{
    let error = EvaluationError::UnlinkedSlot(UnlinkedSlotError {
        slot,
        source_loc: None,
    });
    Transition::Done(Err(Stopped::of(alloc, error, loc_of(whole))))
}

// What comes first of a set, a record or a call.
fn first_part(alloc: Global, whole: &SharedExpr, next: NextPart) -> Next
    ensures taken { IsTaken (expr_loc whole.now.value) next result }
    ensures same { IsPartTaken next result }
{
    match whole.clone() {
        Ok(whole) => next_of_parts(alloc, whole, next),
        Err(_) => Transition::Done(Err(Stopped::Memory)),
    }
}

// What comes next of a set, a record or a call.
pub(crate) fn next_of_parts(alloc: Global, whole: SharedExpr, next: NextPart) -> Next
    ensures taken { IsTaken (expr_loc whole.value) next result }
    ensures same { IsPartTaken next result }
{
    match next {
        Transition::Done(Ok(part)) => answer_part(alloc, &whole, part),
        Transition::Done(Err(error)) => Transition::Done(Err(Stopped::of(
            alloc,
            error,
            loc_of(&whole),
        ))),
        Transition::Wait(frame, part) => or_out_of_memory(next_part(alloc, whole, frame, part)),
    }
}

// A set, a record or a call waits for this part.
fn next_part(
    alloc: Global,
    whole: SharedExpr,
    frame: PartsFrame,
    part: Expr,
) -> Result<Next, AllocError>
    ensures { IfOk result (IsNextPart (expr_loc whole.value) frame part) }
{
    let part = Rc::new(alloc, part)?;
    let task = Task::Parts(Box::new(alloc, frame)?);
    Ok(Transition::Wait(Frame { whole, task }, part))
}
