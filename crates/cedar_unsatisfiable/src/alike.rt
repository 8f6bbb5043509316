//! Policies that say the same.
ghost use Rattle.std.specs.Prelude.{◌≡◌};
ghost use Rattle.cedar_layers.specs.Policies.{policy_view, effect_view};
ghost use Rattle.cedar_names.specs.Equality.{term_eq};
ghost use Rattle.cedar_expressions.specs.View.{view};
ghost use Rattle.cedar_unsatisfiable.specs.Alike.{say_the_same, effect_eq};

use cedar_expressions::Expr;
use cedar_layers::policies::{Effect, Policy};

/// Whether the two policies say the same: they have one effect, one scope and one condition, by their terms. Their ids,
/// annotations and places may differ.
pub fn say_the_same(first: &Policy, second: &Policy) -> bool
    ensures { result ≡ say_the_same (policy_view first.now) (policy_view second.now) }
{
    is_effect(first.effect(), second.effect())
        && (is_expr(first.principal_constraint(), second.principal_constraint())
            && (is_expr(first.action_constraint(), second.action_constraint())
                && (is_expr(first.resource_constraint(), second.resource_constraint())
                    && is_expr(first.when_clause(), second.when_clause()))))
}

fn is_effect(first: Effect, second: Effect) -> bool
    ensures { result ≡ effect_eq (effect_view first) (effect_view second) }
{
    match first {
        Effect::Permit => match second {
            Effect::Permit => true,
            Effect::Forbid => false,
        },
        Effect::Forbid => match second {
            Effect::Permit => false,
            Effect::Forbid => true,
        },
    }
}

fn is_expr(first: &Expr, second: &Expr) -> bool
    ensures { result ≡ term_eq (view first.now) (view second.now) }
{
    first == second
}
