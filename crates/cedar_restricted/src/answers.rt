//! The answers of parts so far.
ghost use Rattle.std.specs.Prelude.{◌≡◌, ◌++◌, ◌∷◌, [], suc, true, List, length, map, IfOk};
ghost use Rattle.cedar_model.specs.Failures as model;
ghost use Rattle.cedar_model.specs.Shapes.{have_unknown};
ghost use Rattle.cedar_model.specs.Sets.{represented_values_of};
ghost use Rattle.cedar_model.specs.Values.{expressions_of};
ghost use Rattle.cedar_expressions.specs.View.{view, terms_view, expr_loc};
ghost use Rattle.cedar_values.specs.Residuals.{partial_view, partial_loc, residual_term, residual_loc};
ghost use Rattle.cedar_values.specs.Sound.{whats};
ghost use mathlib.Core.Bool.{Bool-set};

mod adding;

use adding::{mixed_with, values_with};
use cedar_expressions::Expr;
use cedar_values::{PartialValue, ResidualExpr, Value};
use std::alloc::{AllocError, Global};

/// The answers of parts, in order.
#[derive(Drop)]
pub enum Answers {
    /// Values alone.
    Values(Vec<Value>),
    /// Residuals, and values that are written as expressions.
    Mixed(Mixed),
}

/// Expressions of which one or more hold an unknown.
#[derive(Drop)]
pub struct Mixed {
    exprs: Vec<Expr>,
    ghost unknown: { have_unknown (terms_view exprs.items) ≡ true } by { Bool-set _ _ },
}

impl Answers {
    ghost use Rattle.cedar_restricted.specs.Parts.{count, Are, answered_locs};
    ghost use Rattle.cedar_restricted.specs.Elements.{AreWith};

    /// How many there are.
    pub fn len(&self) -> usize
        ensures { result ≡ count self.now }
    {
        match self {
            Answers::Values(values) => values.len(),
            Answers::Mixed(mixed) => mixed.exprs.len(),
        }
    }

    /// These and one more. Refuses only if out of memory.
    pub fn with(self, alloc: Global, answer: PartialValue) -> Result<Answers, AllocError>
        ensures count { IfOk result (λ a. count a ≡ suc (count self)) }
        ensures answers { IfOk result
            (λ a. (ps : List model.PartialValue) → Are self ps → Are a (ps ++ partial_view answer ∷ [])) }
        ensures values { IfOk result (λ a. AreWith self answer a) }
        ensures places { IfOk result (λ a. answered_locs a ≡ answered_locs self ++ partial_loc answer ∷ []) }
    {
        match self {
            Answers::Values(values) => values_with(alloc, values, answer),
            Answers::Mixed(mixed) => mixed_with(alloc, mixed, answer),
        }
    }
}

impl Mixed {
    /// The expressions, in order.
    pub fn into_exprs(self) -> Vec<Expr>
        ensures exprs { result ≡ self.exprs }
        ensures unknown { have_unknown (terms_view result.items) ≡ true }
    {
        self.exprs
    }

    // These and one more.
    fn with(self, expr: Expr) -> Result<Mixed, AllocError>
        ensures { IfOk result (λ m. m.exprs.items ≡ self.exprs.items ++ expr ∷ []) }
    {
        let mut exprs = self.exprs;
        exprs.push(expr)?;
        Ok(Mixed { exprs })
    }
}

fn with_value(mut values: Vec<Value>, value: Value) -> Result<Vec<Value>, AllocError>
    ensures { IfOk result (λ v. v.items ≡ values.items ++ value ∷ []) }
{
    values.push(value)?;
    Ok(values)
}

// The expressions, and the first residual behind them.
fn first_residual(mut exprs: Vec<Expr>, residual: ResidualExpr) -> Result<Mixed, AllocError>
    ensures exprs { IfOk result
        (λ m. (e : Expr) × (m.exprs.items ≡ exprs.items ++ e ∷ []) × (view e ≡ residual_term residual)) }
    ensures places { IfOk result
        (λ m. map expr_loc m.exprs.items ≡ map expr_loc exprs.items ++ residual_loc residual ∷ []) }
{
    exprs.push(residual.into_expr())?;
    Ok(Mixed { exprs })
}

// The values as expressions.
fn exprs_of(alloc: Global, values: &[Value]) -> Result<Vec<Expr>, AllocError>
    ensures terms { IfOk result (λ v. terms_view v.items ≡ expressions_of (represented_values_of (whats values.now))) }
    ensures length { IfOk result (λ v. length v.items ≡ length values.now) }
    ensures places { IfOk result (λ v. map expr_loc v.items ≡ map (λ v. v.loc) values.now) }
{
    let mut exprs: Vec<Expr> = Vec::new(alloc);
    'values: for value in values {
        exprs.push(value.to_expr(alloc)?)?;
    }
    Ok(exprs)
}
