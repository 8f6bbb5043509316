//! How each kind of restricted expression starts: with its answer, or with its first part.
ghost use Rattle.std.specs.Prelude.{◌≡◌, ℕ, ◌+◌, ◌^◌, true, false, option_map, IfOk};
ghost use Rattle.std.specs.Rc.{rc_str_bytes};
ghost use Rattle.cedar_model.specs.Terms as Terms;
ghost use Rattle.cedar_model.specs.Failures.{answers, value, residual};
ghost use Rattle.cedar_model.specs.Shapes.{is_restricted, has_unknown};
ghost use Rattle.cedar_model.specs.Values.{plain_represented};
ghost use Rattle.cedar_names.specs.Names.{name_text};
ghost use Rattle.cedar_names.specs.Leaves.{literal_view, type_view};
ghost use Rattle.cedar_expressions.specs.View.{view, terms_view, fields_view, expr_loc};
ghost use Rattle.cedar_values.specs.Residuals.{partial_loc};
ghost use Rattle.cedar_frames.specs.Frames.{Below};
ghost use Rattle.cedar_restricted.specs.Evaluations.{AnswersWith};

use crate::machine::Restricted;
use crate::parts::{NextPart, PartsFrame};
use cedar_errors::evaluator::err::{EvaluationError, evaluation_errors};
use cedar_expressions::{Expr, ExprKind};
use cedar_frames::Transition;
use cedar_names::{Literal, Loc, Name, Unknown};
use cedar_values::{PartialValue, ResidualExpr, Value, ValueKind};
use evaluation_errors::NonValueError;
use std::alloc::Global;
use std::collections::BTreeMap;
use std::rc::{Rc, RcStr};

impl<'x, 'f> Restricted<'x, 'f> {
    ghost use Rattle.cedar_extensions.specs.Extensions.{extensions_view, calls_of};
    ghost use Rattle.cedar_restricted.specs.Frames.{Leads, left_of};
    ghost use Rattle.cedar_restricted.specs.Elements.{SetLeads, StepStands};

    // Looks at an expression: a literal is its value, an unknown is left, and the others have parts.
    pub(crate) fn first(&self, alloc: Global, e: &Expr) -> NextPart
        ensures right { (k : ℕ) → Leads (extensions_view self.now.extensions.now)
            (calls_of self.now.extensions.now) k e.now result }
        ensures elements { StepStands e.now result }
        ensures below { Below left_of (2 ^ 64 + 1) result }
    {
        match e.expr_kind() {
            ExprKind::Lit(value) => self.begin_literal(e, value),
            ExprKind::Unknown(unknown) => self.begin_unknown(e, unknown),
            ExprKind::Set(parts) => self.begin_set(alloc, e, parts),
            ExprKind::Record(pairs) => self.begin_record(alloc, e, pairs),
            ExprKind::ExtensionFunctionApp { fn_name, args } => self.begin_call(
                alloc, e, fn_name, args,
            ),
            ExprKind::Var(_) => self.refuse_kind(e),
            ExprKind::Slot(_) => self.refuse_kind(e),
            ExprKind::If {
                test_expr: _,
                then_expr: _,
                else_expr: _,
            } => self.refuse_kind(e),
            ExprKind::And { left: _, right: _ } => self.refuse_kind(e),
            ExprKind::Or { left: _, right: _ } => self.refuse_kind(e),
            ExprKind::UnaryApp { op: _, arg: _ } => self.refuse_kind(e),
            ExprKind::BinaryApp {
                op: _,
                arg1: _,
                arg2: _,
            } => self.refuse_kind(e),
            ExprKind::GetAttr { expr: _, attr: _ } => self.refuse_kind(e),
            ExprKind::HasAttr { expr: _, attr: _ } => self.refuse_kind(e),
            ExprKind::ExtHasAttr { expr: _, attrs: _ } => self.refuse_kind(e),
            ExprKind::Like {
                expr: _,
                pattern: _,
            } => self.refuse_kind(e),
            ExprKind::Is {
                expr: _,
                entity_type: _,
            } => self.refuse_kind(e),
        }
    }

    fn begin_literal(&self, e: &Expr, value: &Literal) -> NextPart
        requires { view e.now ≡ Terms.literal (literal_view value.now) }
        ensures { (k : ℕ) → Leads (extensions_view self.now.extensions.now)
            (calls_of self.now.extensions.now) k e.now result }
    {
        Transition::Done(literal_part(value, e.source_loc().copied()))
    }

    fn begin_unknown(&self, e: &Expr, unknown: &Unknown) -> NextPart
        requires { view e.now ≡
            Terms.unknown (rc_str_bytes unknown.now.name) (option_map type_view unknown.now.type_annotation) }
        ensures { (k : ℕ) → Leads (extensions_view self.now.extensions.now)
            (calls_of self.now.extensions.now) k e.now result }
    {
        Transition::Done(residual_of(e))
    }

    fn begin_set(&self, alloc: Global, e: &Expr, parts: &Rc<Vec<Expr>>) -> NextPart
        requires { view e.now ≡ Terms.set_of (terms_view parts.now.value.items) }
        ensures right { (k : ℕ) → Leads (extensions_view self.now.extensions.now)
            (calls_of self.now.extensions.now) k e.now result }
        ensures elements { SetLeads parts.now.value.items result }
    {
        PartsFrame::set(alloc, self.extensions, parts, e.source_loc().copied())
    }

    fn begin_record(&self, alloc: Global, e: &Expr, pairs: &BTreeMap<RcStr, Expr>) -> NextPart
        requires { view e.now ≡ Terms.record_of (fields_view pairs.now.entries) }
        ensures { (k : ℕ) → Leads (extensions_view self.now.extensions.now)
            (calls_of self.now.extensions.now) k e.now result }
    {
        PartsFrame::record(alloc, self.extensions, pairs, e.source_loc().copied())
    }

    fn begin_call(&self, alloc: Global, e: &Expr, fn_name: &Name, args: &Rc<Vec<Expr>>) -> NextPart
        requires { view e.now ≡ Terms.call (name_text fn_name.now) (terms_view args.now.value.items) }
        ensures { (k : ℕ) → Leads (extensions_view self.now.extensions.now)
            (calls_of self.now.extensions.now) k e.now result }
    {
        PartsFrame::call(
            alloc,
            self.extensions,
            fn_name,
            args,
            e.source_loc().copied(),
        )
    }

    // The error that this expression is left. No part of a restricted expression comes here.
    #[cold]
    #[inline(never)]
    fn refuse_kind(&self, e: &Expr) -> NextPart
        requires { is_restricted (view e.now) ≡ false }
        ensures { (k : ℕ) → Leads (extensions_view self.now.extensions.now)
            (calls_of self.now.extensions.now) k e.now result }
    {
        match e.clone() {
            Ok(expr) => {
                let source_loc: Option<Loc> = expr.source_loc().copied();
                Transition::Done(Err(EvaluationError::NonValue(NonValueError { expr, source_loc })))
            }
            Err(error) => Transition::Done(Err(EvaluationError::Memory(error))),
        }
    }
}

// The value of the literal, as a part, at this location.
fn literal_part(literal: &Literal, loc: Option<Loc>) -> Result<PartialValue, EvaluationError>
    ensures answer { AnswersWith result (answers (value (plain_represented (literal_view literal.now)))) }
    ensures place { IfOk result (λ p. partial_loc p ≡ loc) }
{
    let literal = literal.clone()?;
    Ok(PartialValue::Value(Value::new(ValueKind::Lit(literal), loc)))
}

// The expression as it is.
fn residual_of(e: &Expr) -> Result<PartialValue, EvaluationError>
    requires { has_unknown (view e.now) ≡ true }
    ensures answer { AnswersWith result (answers (residual (view e.now))) }
    ensures place { IfOk result (λ p. partial_loc p ≡ expr_loc e.now) }
{
    let expr = e.clone()?;
    Ok(PartialValue::Residual(ResidualExpr::new(expr)))
}
