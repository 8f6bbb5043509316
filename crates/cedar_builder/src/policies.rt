#![tactic(auto, using(crate::proofs::Building::building, crate::proofs::Saying::saying))]
//! Policies in the making.
ghost use Rattle.std.specs.Prelude.{◌≡◌, IfOk, None, Some, option_map};
ghost use Rattle.cedar_model.specs.Policies.{permit, forbid};
ghost use Rattle.cedar_model.specs.Terms.{unary, not_operator};
ghost use Rattle.cedar_model.specs.Responses.{truth};
ghost use Rattle.cedar_expressions.specs.View.{view};
ghost use Rattle.cedar_layers.specs.Policies.{policy_view, policy_location, effect_view};
ghost use Rattle.cedar_builder.specs.Building.{term_of, term_in, of_two};
ghost use Rattle.cedar_builder.specs.Saying.{said, said_in, parts_said, Says, SaysIn, nothing_said};
ghost use Rattle.cedar_builder.specs.Saying.{with_clause, joined, condition_said, policy_said};

mod annotations;
mod scopes;

use crate::expressions::ExprBuilder;
use cedar_expressions::Expr;
use cedar_fallible::pair_of;
use cedar_layers::policies::{Annotations, Effect, Policy, PolicyID};
use cedar_names::{Literal, SlotEnv};
use std::alloc::{AllocError, Global};
use std::marker::Model;
use std::rc::RcStr;

/// A policy in the making: what was said so far, or that memory ran out on the way.
#[derive(Drop)]
pub struct PolicyBuilder {
    alloc: Global,
    parts: Result<PolicyParts, AllocError>,
}

impl Model for PolicyBuilder {
    ghost use Rattle.std.specs.Coded.{codes};
    ghost use Rattle.std_collections.specs.Layout.BTreeMap.{btree_map_code};
    ghost use Rattle.cedar_expressions.specs.contracts.expr.Expr as expressions;
    ghost use Rattle.cedar_builder.specs.PolicyFields.{PolicyFields};

    ghost Value = { PolicyFields };

    ghost coded = { Prim.hlevel (codes, btree_map_code, expressions.the_row.coded) };

    ghost view = { λ a. record { parts = a.parts } };
}

// What was said of a policy. Where no clause was said, it has no condition.
#[derive(Drop)]
struct PolicyParts {
    effect: Effect,
    id: PolicyID,
    annotations: Annotations,
    principal: Expr,
    action: Expr,
    resource: Expr,
    condition: Option<Expr>,
}

/// A policy of this id that permits: `permit(principal, action, resource);`, until more is said.
pub fn permit(alloc: Global, id: &str) -> PolicyBuilder
    ensures { Says result (Some (nothing_said permit id.now)) }
{
    begin_policy(alloc, Effect::Permit, id)
}

/// A policy of this id that forbids: `forbid(principal, action, resource);`, until more is said.
pub fn forbid(alloc: Global, id: &str) -> PolicyBuilder
    ensures { Says result (Some (nothing_said forbid id.now)) }
{
    begin_policy(alloc, Effect::Forbid, id)
}

fn begin_policy(alloc: Global, effect: Effect, id: &str) -> PolicyBuilder
    ensures { Says result (Some (nothing_said (effect_view effect) id.now)) }
{
    PolicyBuilder {
        alloc,
        parts: first_parts(alloc, effect, id),
    }
}

fn first_parts(alloc: Global, effect: Effect, id: &str) -> Result<PolicyParts, AllocError>
    ensures { SaysIn result (Some (nothing_said (effect_view effect) id.now)) }
{
    let id = PolicyID::from_string(RcStr::from_str(alloc, id)?);
    Ok(PolicyParts {
        effect,
        id,
        annotations: Annotations::new(alloc),
        principal: any(),
        action: any(),
        resource: any(),
        condition: None,
    })
}

// `true`
fn any() -> Expr
    ensures { view result ≡ truth }
{
    Expr::val(Literal::Bool(true))
}

impl PolicyBuilder {
    /// The policy with this clause more: `when { condition }`. Clauses are joined by `&&` in the order in which they
    /// are said, the first two first.
    pub fn when(self, condition: ExprBuilder) -> PolicyBuilder
        ensures { Says result (of_two with_clause (said self) (term_of condition)) }
    {
        let PolicyBuilder { alloc, parts } = self;
        PolicyBuilder {
            alloc,
            parts: with_condition(alloc, parts, condition.built),
        }
    }

    /// The policy with this clause more: `unless { condition }`, which is `when { !condition }`.
    pub fn unless(self, condition: ExprBuilder) -> PolicyBuilder
        ensures { Says result (of_two with_clause (said self) (option_map (unary not_operator) (term_of condition))) }
    {
        self.when(condition.not())
    }

    /// The policy that was said, at no known location. Refuses only if out of memory, here or on the way.
    pub fn policy(self) -> Result<Policy, AllocError>
        ensures view { IfOk result (λ p. option_map policy_said (said self) ≡ Some (policy_view p)) }
        ensures loc { IfOk result (λ p. policy_location p ≡ None) }
    {
        let PolicyBuilder { alloc, parts } = self;
        let parts = parts?;
        let policy = policy_of(alloc, parts)?;
        Ok(policy)
    }
}

fn policy_of(alloc: Global, parts: PolicyParts) -> Result<Policy, AllocError>
    ensures view { IfOk result (λ p. policy_view p ≡ policy_said (parts_said parts)) }
    ensures loc { IfOk result (λ p. policy_location p ≡ None) }
{
    let PolicyParts {
        effect,
        id,
        annotations,
        principal,
        action,
        resource,
        condition,
    } = parts;
    let when = condition_or_true(condition);
    let env = SlotEnv::new(alloc);
    let policy = Policy::new(
        alloc,
        effect,
        id,
        annotations,
        principal,
        action,
        resource,
        when,
        env,
    )?;
    Ok(policy)
}

fn condition_or_true(condition: Option<Expr>) -> Expr
    ensures { view result ≡ condition_said (option_map view condition) }
{
    match condition {
        Some(condition) => condition,
        None => any(),
    }
}

fn with_condition(
    alloc: Global,
    parts: Result<PolicyParts, AllocError>,
    clause: Result<Expr, AllocError>,
) -> Result<PolicyParts, AllocError>
    ensures { SaysIn result (of_two with_clause (said_in parts) (term_in clause)) }
{
    let (parts, clause) = pair_of(parts, clause)?;
    let PolicyParts {
        effect,
        id,
        annotations,
        principal,
        action,
        resource,
        condition,
    } = parts;
    match join_conditions(alloc, condition, clause) {
        Ok(condition) => Ok(PolicyParts {
            effect,
            id,
            annotations,
            principal,
            action,
            resource,
            condition: Some(condition),
        }),
        Err(error) => Err(error),
    }
}

// The conditions so far and this one.
fn join_conditions(alloc: Global, condition: Option<Expr>, clause: Expr) -> Result<Expr, AllocError>
    ensures { IfOk result (λ e. view e ≡ joined (option_map view condition) (view clause)) }
{
    match condition {
        Some(condition) => Expr::and(alloc, condition, clause),
        None => Ok(clause),
    }
}
