#![tactic(auto, using(crate::proofs::Levels::levels))]
//! Expressions of parts that are there already, for the crates above.
ghost use Rattle.std.specs.Prelude.{◌≡◌, None};
ghost use Rattle.cedar_model.specs.Terms.{both, call};
ghost use Rattle.cedar_names.specs.Names.{name_text};
ghost use Rattle.cedar_expressions.specs.View.{view, expr_loc, expr_kind_of, terms_view};

use super::{Expr, ExprKind};
use cedar_names::Name;
use std::rc::Rc;

impl Expr {
    ghost use Rattle.cedar_expressions.specs.declared.expr.ExprKind.{And, ExtensionFunctionApp};

    /// `left && right`, of parts that may be shared.
    pub fn and_shared(left: Rc<Expr>, right: Rc<Expr>) -> Expr
        ensures view { view result ≡ both (view left.value) (view right.value) }
        ensures kind { expr_kind_of result ≡ And left right }
        ensures loc { expr_loc result ≡ None }
    {
        Expr::of_kind(ExprKind::And { left, right })
    }

    /// A call of this function on arguments that may be shared.
    pub fn call_shared(fn_name: Name, args: Rc<Vec<Expr>>) -> Expr
        ensures view { view result ≡ call (name_text fn_name) (terms_view args.value.items) }
        ensures kind { expr_kind_of result ≡ ExtensionFunctionApp fn_name args }
        ensures loc { expr_loc result ≡ None }
    {
        Expr::of_kind(ExprKind::ExtensionFunctionApp { fn_name, args })
    }
}
