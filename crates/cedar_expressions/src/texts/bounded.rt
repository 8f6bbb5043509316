//! How expressions print, also under a bound on the parts that sets and records show.
ghost use Rattle.std.specs.Prelude.{Some, None, refl};
ghost use Rattle.cedar_expressions.specs.View.{view};
ghost use Rattle.cedar_names.specs.Texts.{shown};

use super::expressions::show;
use crate::expr::Expr;
use cedar_names::BoundedDisplay;
use std::fmt;
use std::fmt::Write;

/// The expression in Cedar's syntax: a part that is an if, infix, `!`, `-`, has, like or is expression stands in
/// parentheses, unless it is an argument, a set's element or a record's value. An unknown shows its name alone.
impl fmt::Display for Expr {
    ghost output = { λ e. Some (shown None (view e)) };

    fn fmt<W: fmt::Write>(&self, f: &mut fmt::Formatter<W>) -> fmt::Result {
        show(self, None, f)
    }
}

impl BoundedDisplay for Expr {
    ghost bounded_output = { λ e n. shown n (view e) };

    ghost unbounded = { λ e. refl };

    fn fmt<W: fmt::Write>(&self, f: &mut W, n: Option<usize>) -> fmt::Result {
        f.write(Bounded {
            expr: self,
            bound: n,
        })
    }
}

/// An expression with a bound on its sets and records.
#[derive(Drop)]
struct Bounded<'a> {
    expr: &'a Expr,
    bound: Option<usize>,
}

impl fmt::Display for Bounded<'_> {
    ghost output = { λ b. Some (shown b.bound (view b.expr.now)) };

    fn fmt<W: fmt::Write>(&self, f: &mut fmt::Formatter<W>) -> fmt::Result {
        show(self.expr, self.bound, f)
    }
}
