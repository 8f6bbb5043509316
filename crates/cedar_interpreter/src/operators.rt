//! Operators of one and of two operands, `like`, `is`, attributes and `has`, once their parts have answered.
ghost use Rattle.std.specs.Prelude.{◌≡◌, true, false, None, Some, IfSome};
ghost use Rattle.std.specs.Rc.{rc_str_bytes};
ghost use Rattle.cedar_model.specs.Terms.{unary, extended_has};
ghost use Rattle.cedar_model.specs.Operators.{unary_answer, path_answer};
ghost use Rattle.cedar_model.specs.Rules as Rules;
ghost use Rattle.cedar_model.specs.Rules.{on_part};
ghost use Rattle.cedar_model.specs.Settings.{RequestPart, look_up};
ghost use Rattle.cedar_names.specs.Names.{uid_name};
ghost use Rattle.cedar_interpreter.specs.Known.{within};
ghost use Rattle.cedar_names.specs.Leaves.{unary_view, binary_view, texts_view};
ghost use Rattle.cedar_model.specs.Failures.{answers, answers_bool};
ghost use Rattle.cedar_expressions.specs.View.{view, expr_loc};
ghost use Rattle.cedar_values.specs.Residuals.{partial_view, residual_term};
ghost use Rattle.cedar_layers.specs.Stores.{store_view};
ghost use Rattle.cedar_operators.specs.StoredResiduals.{on_path_of};
ghost use Rattle.cedar_interpreter.specs.Reads.{resolved_in, part_residual};
ghost use Rattle.cedar_interpreter.specs.Settings.{resolution_view, evaluation_setting};
ghost use Rattle.cedar_interpreter.specs.Tasks.{Gives, IsPassed, IsWalkedOn};
ghost use Rattle.cedar_interpreter.specs.Continuations.{ContinuesIn, ContinuesAt};
ghost use Rattle.cedar_interpreter.specs.Endings.{boxed_answer};
ghost use Rattle.cedar_interpreter.specs.declared.frame.Pending.TheVariants as pendings;

use crate::answers::{answer_result_in, known_bool, put_at, taken_out, wait};
use crate::at_hand::entity_at_hand;
use crate::evaluation::Evaluation;
use crate::frame::{Frame, Next, Pending, SharedExpr, Task};
use crate::stopped::Stopped;
use crate::stored::stored_in;
use cedar_expressions::Expr;
use cedar_frames::Transition;
use cedar_names::{BinaryOp, EntityType, EntityUID, FirstRest, Pattern, UnaryOp, Var};
use cedar_operators::partial::attributes::{
    Projected, attribute_of_part, extended_has_of_part, has_of_part,
};
use cedar_operators::partial::binary::binary_of_parts;
use cedar_operators::partial::unary::{is_of_part, like_of_part, unary_of_part};
use cedar_operators::stored_residuals::OnPath;
use cedar_operators::typed::bool_part;
use cedar_values::{PartialValue, ResidualExpr};
use std::alloc::Global;
use std::mem;
use std::rc::{Rc, RcStr};

impl<'e, 'g, 'f> Evaluation<'e, 'g, 'f> {
    // An operator on its one operand.
    pub(crate) fn resume_unary(
        &self,
        alloc: Global,
        whole: &SharedExpr,
        op: UnaryOp,
        mut operand: Box<PartialValue>,
    ) -> Next
        ensures { ContinuesAt self.now whole.now (pendings.Unary op) (boxed_answer operand) result }
    {
        if negate_bool(op, &mut operand) {
            put_at(whole, operand)
        } else {
            self.resume_unary_other(alloc, whole, op, operand)
        }
    }

    // The same of any operator and operand.
    #[inline(never)]
    fn resume_unary_other(
        &self,
        alloc: Global,
        whole: &SharedExpr,
        op: UnaryOp,
        mut operand: Box<PartialValue>,
    ) -> Next
        ensures { ContinuesAt self.now whole.now (pendings.Unary op) (boxed_answer operand) result }
    {
        let part = taken_out(&mut operand);
        answer_result_in(alloc, whole, operand, unary_of_part(alloc, op, part, None))
    }

    // The right operand, after the left one.
    pub(crate) fn resume_binary_left(
        &self,
        alloc: Global,
        whole: &SharedExpr,
        op: BinaryOp,
        right: &SharedExpr,
        left: Box<PartialValue>,
        levels: usize,
    ) -> Next
        ensures { ContinuesIn self.now levels whole.now (pendings.BinaryLeft op right.now) (boxed_answer left) result }
    {
        match self.direct_value(alloc, right, levels) {
            Some(right) => self.apply_binary(alloc, whole, op, left, PartialValue::Value(right)),
            None => wait(whole, right, Pending::BinaryRight { op, left }),
        }
    }

    // An operator on its two operands.
    pub(crate) fn resume_binary_right(
        &self,
        alloc: Global,
        whole: &SharedExpr,
        op: BinaryOp,
        left: Box<PartialValue>,
        right: Box<PartialValue>,
    ) -> Next
        ensures { ContinuesAt self.now whole.now (pendings.BinaryRight op left) (boxed_answer right) result }
    {
        self.apply_binary(alloc, whole, op, left, Box::into_inner(right))
    }

    // The same. With deep resolution a stored residual that they read is evaluated.
    pub(crate) fn apply_binary(
        &self,
        alloc: Global,
        whole: &SharedExpr,
        op: BinaryOp,
        left: Box<PartialValue>,
        right: PartialValue,
    ) -> Next
        ensures { ContinuesAt self.now whole.now (pendings.BinaryRight op left) (answers (partial_view right)) result }
    {
        match self.operands_residual(op, &left, &right) {
            Some(tag) => {
                drop((left, right));
                read_again(alloc, whole, tag)
            }
            None => self.apply_binary_stored(alloc, whole, op, left, right),
        }
    }

    // What the operator answers, where a stored residual answers itself.
    fn apply_binary_stored(
        &self,
        alloc: Global,
        whole: &SharedExpr,
        op: BinaryOp,
        mut left: Box<PartialValue>,
        right: PartialValue,
    ) -> Next
        ensures { (r : RequestPart) → Gives (expr_loc whole.now.value) result (Rules.binary_of_parts
            (evaluation_setting r self.now) (binary_view op) (partial_view left.value) (partial_view right)) }
    {
        match self.principal_within(op, &left, &right) {
            Some(is_in) => {
                drop(right);
                drop(mem::replace(&mut *left, bool_part(is_in)));
                put_at(whole, left)
            }
            None => self.apply_binary_parts(alloc, whole, op, left, right),
        }
    }

    // The same of any operands.
    fn apply_binary_parts(
        &self,
        alloc: Global,
        whole: &SharedExpr,
        op: BinaryOp,
        mut left: Box<PartialValue>,
        right: PartialValue,
    ) -> Next
        ensures { (r : RequestPart) → Gives (expr_loc whole.now.value) result (Rules.binary_of_parts
            (evaluation_setting r self.now) (binary_view op) (partial_view left.value) (partial_view right)) }
    {
        let left_part = taken_out(&mut left);
        let entities = self.given.entities;
        let extensions = self.given.extensions;
        answer_result_in(
            alloc,
            whole,
            left,
            binary_of_parts(alloc, entities, extensions, op, left_part, right, None),
        )
    }

    // What `in` answers of the principal and an entity, where the principal's entity is at hand.
    fn principal_within(
        &self,
        op: BinaryOp,
        left: &PartialValue,
        right: &PartialValue,
    ) -> Option<bool>
        ensures { IfSome result (λ b. (r : RequestPart) → Rules.binary_of_parts (evaluation_setting r self.now)
            (binary_view op) (partial_view left.now) (partial_view right.now) ≡ answers_bool b) }
    {
        match op {
            BinaryOp::In => match entity_at_hand(left) {
                Some(uid) => match entity_at_hand(right) {
                    Some(other) => self.is_principal_in(uid, other),
                    None => None,
                },
                None => None,
            },
            _ => None,
        }
    }

    // Whether the first entity is the second or in it, where the first is the principal and at hand.
    fn is_principal_in(&self, uid: &EntityUID, other: &EntityUID) -> Option<bool>
        ensures { IfSome result (λ b. within (look_up (store_view self.now.given.now.entities.now) (uid_name uid.now))
            (uid_name uid.now) (uid_name other.now) ≡ Some b) }
    {
        match entity_at_hand(&self.given.principal) {
            Some(principal) => {
                if principal == uid {
                    self.given.known.is_in(Var::Principal, uid, other)
                } else {
                    None
                }
            }
            None => None,
        }
    }

    // The attribute; with deep resolution a stored residual is evaluated.
    pub(crate) fn resume_attribute(
        &self,
        alloc: Global,
        whole: &SharedExpr,
        attr: &RcStr,
        container: Box<PartialValue>,
    ) -> Next
        ensures { ContinuesAt self.now whole.now (pendings.GetAttr attr.now) (boxed_answer container) result }
    {
        match self.attribute_residual(&container, attr) {
            Some(residual) => {
                drop(container);
                read_again(alloc, whole, residual)
            }
            None => self.resume_attribute_stored(alloc, whole, attr, container),
        }
    }

    // The attribute, where a stored residual answers itself; that of a projectable record is evaluated again.
    fn resume_attribute_stored(
        &self,
        alloc: Global,
        whole: &SharedExpr,
        attr: &RcStr,
        mut container: Box<PartialValue>,
    ) -> Next
        requires { resolved_in (resolution_view self.now.given.now.resolution)
            (part_residual (store_view self.now.given.now.entities.now) (partial_view container.value)
            (rc_str_bytes attr.now)) ≡ None }
        ensures { ContinuesAt self.now whole.now (pendings.GetAttr attr.now) (boxed_answer container) result }
    {
        let part = taken_out(&mut container);
        match attribute_of_part(alloc, self.given.entities, part, attr, None) {
            Projected::Answer(answer) => {
                stored_in(alloc, whole, &self.given.mapper, container, answer)
            }
            Projected::Attribute(part) => evaluate_projected(alloc, whole, part),
        }
    }

    // Whether there is the attribute.
    pub(crate) fn resume_has(
        &self,
        alloc: Global,
        whole: &SharedExpr,
        attr: &RcStr,
        mut container: Box<PartialValue>,
    ) -> Next
        ensures { ContinuesAt self.now whole.now (pendings.HasAttr attr.now) (boxed_answer container) result }
    {
        let part = taken_out(&mut container);
        answer_result_in(
            alloc,
            whole,
            container,
            has_of_part(alloc, self.given.entities, part, attr),
        )
    }

    // Whether there are the attributes, one in the other. With deep resolution a stored residual before the last of
    // them is evaluated.
    pub(crate) fn resume_extended_has(
        &self,
        alloc: Global,
        whole: &SharedExpr,
        attrs: &Rc<FirstRest<RcStr>>,
        container: Box<PartialValue>,
    ) -> Next
        ensures { ContinuesAt self.now whole.now (pendings.ExtHasAttr attrs.now) (boxed_answer container) result }
    {
        match self.path_residual(alloc, &container, attrs) {
            Ok(read) => match read {
                Some(read) => {
                    drop(container);
                    walk_again(whole, read)
                }
                None => self.resume_extended_has_stored(alloc, whole, attrs, container),
            },
            Err(_) => Transition::Done(Err(Stopped::Memory)),
        }
    }

    // Whether there are the attributes, where a stored residual answers itself.
    fn resume_extended_has_stored(
        &self,
        alloc: Global,
        whole: &SharedExpr,
        attrs: &FirstRest<RcStr>,
        mut container: Box<PartialValue>,
    ) -> Next
        ensures { Gives (expr_loc whole.now.value) result (on_part
            (λ v. path_answer (store_view self.now.given.now.entities.now) v (rc_str_bytes attrs.now.first)
            (texts_view attrs.now.rest.items))
            (λ q. extended_has q (rc_str_bytes attrs.now.first) (texts_view attrs.now.rest.items))
            (boxed_answer container)) }
    {
        let part = taken_out(&mut container);
        answer_result_in(
            alloc,
            whole,
            container,
            extended_has_of_part(alloc, self.given.entities, part, attrs),
        )
    }

    // Whether the text matches.
    pub(crate) fn resume_like(
        &self,
        alloc: Global,
        whole: &SharedExpr,
        pattern: &Box<Pattern>,
        mut text: Box<PartialValue>,
    ) -> Next
        ensures { ContinuesAt self.now whole.now (pendings.Like pattern.now) (boxed_answer text) result }
    {
        let part = taken_out(&mut text);
        answer_result_in(alloc, whole, text, like_of_part(alloc, part, pattern))
    }

    // Whether the entity is of the type.
    pub(crate) fn resume_is(
        &self,
        alloc: Global,
        whole: &SharedExpr,
        entity_type: &Box<EntityType>,
        mut entity: Box<PartialValue>,
    ) -> Next
        ensures { ContinuesAt self.now whole.now (pendings.Is entity_type.now) (boxed_answer entity) result }
    {
        let part = taken_out(&mut entity);
        answer_result_in(alloc, whole, entity, is_of_part(alloc, part, entity_type))
    }
}

// A stored residual is evaluated, and is the answer.
#[cold]
#[inline(never)]
fn read_again(alloc: Global, whole: &SharedExpr, residual: &ResidualExpr) -> Next
    ensures { IsPassed (expr_loc whole.now.value) (residual_term residual.now) result }
{
    match residual.as_expr().clone() {
        Ok(part) => evaluate_projected(alloc, whole, part),
        Err(_) => Transition::Done(Err(Stopped::Memory)),
    }
}

// A stored residual is evaluated, and then tested for the attributes after it.
#[cold]
#[inline(never)]
fn walk_again(whole: &SharedExpr, read: OnPath) -> Next
    ensures { IsWalkedOn (expr_loc whole.now.value) (on_path_of read) result }
{
    let (part, attrs) = read;
    match whole.clone() {
        Ok(whole) => {
            let task = Task::Other(Pending::ExtHasAttr(attrs));
            Transition::Wait(Frame { whole, task }, part)
        }
        Err(_) => Transition::Done(Err(Stopped::Memory)),
    }
}

// A part of a record is evaluated again, and is the answer.
#[cold]
#[inline(never)]
fn evaluate_projected(alloc: Global, whole: &SharedExpr, part: Expr) -> Next
    ensures { IsPassed (expr_loc whole.now.value) (view part) result }
{
    match whole.clone() {
        Ok(whole) => match Rc::new(alloc, part) {
            Ok(part) => {
                let task = Task::Other(Pending::Passed);
                Transition::Wait(Frame { whole, task }, part)
            }
            Err(_) => Transition::Done(Err(Stopped::Memory)),
        },
        Err(_) => Transition::Done(Err(Stopped::Memory)),
    }
}

// Negates a boolean where the operator is `!`. Anything else stays.
fn negate_bool(op: UnaryOp, part: &mut PartialValue) -> bool
    ensures negated { result ≡ true → answers (partial_view part.new)
        ≡ on_part (unary_answer (unary_view op)) (unary (unary_view op)) (answers (partial_view part.old)) }
    ensures same { result ≡ false → part.new ≡ part.old }
{
    match op {
        UnaryOp::Not => match known_bool(part) {
            Some(b) => {
                drop(mem::replace(part, bool_part(!b)));
                true
            }
            None => false,
        },
        UnaryOp::Neg => false,
        UnaryOp::IsEmpty => false,
    }
}
