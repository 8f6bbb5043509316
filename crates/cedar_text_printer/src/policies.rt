//! Policies and sets of policies in Cedar's syntax.
ghost use Rattle.std.specs.Prelude.{◌≡◌, true, false, ◌++◌, IfOk, string_bytes, flat_map, map};
ghost use Rattle.std.specs.Fmt.{WritesOnOk};
ghost use Rattle.std.specs.Rc.{rc_str_bytes};
ghost use Rattle.cedar_names.specs.Leaves.{variable_view};
ghost use Rattle.cedar_expressions.specs.View.{view};
ghost use Rattle.cedar_layers.specs.Policies.{slots_view, policy_view, annotations_view, effect_view};
ghost use Rattle.cedar_layers.specs.PolicySets.{policies_view};
ghost use Rattle.cedar_text_printer.specs.Policies as texts;

use crate::escapes::write_text;
use crate::expressions::write_expr;
use crate::scopes::{is_scope, is_true, write_scope};
use cedar_expressions::Expr;
use cedar_layers::policies::{Annotations, Effect, Policy, PolicySet};
use cedar_names::{SlotEnv, Var};
use std::alloc::{AllocError, Global};
use std::fmt;
use std::fmt::Display;
use std::rc::RcStr;

/// The policy in Cedar's syntax: each annotation on a line of its own, the effect, the scope, and each clause on a line
/// of its own. A slot that is linked to an entity is written as that entity. Refuses only if out of memory.
pub fn policy_to_cedar(alloc: Global, policy: &Policy) -> Result<String, AllocError>
    ensures { IfOk result (λ t. string_bytes t ≡ texts.policy_text (policy_view policy.now)) }
{
    format!(in alloc; "{}", Written { policy })
}

/// The policies in Cedar's syntax, in their order, with an empty line between two. Refuses only if out of memory.
pub fn policies_to_cedar(alloc: Global, policies: &PolicySet) -> Result<String, AllocError>
    ensures { IfOk result (λ t. string_bytes t ≡ texts.policies_text true (policies_view policies.now)) }
{
    format!(in alloc; "{}", AllWritten { policies })
}

#[derive(Drop)]
struct Written<'a> {
    policy: &'a Policy,
}

impl fmt::Display for Written<'_> {
    ghost use Rattle.std.specs.Prelude.{Some};

    ghost output = { λ w. Some (texts.policy_text (policy_view w.policy.now)) };

    fn fmt<W: fmt::Write>(&self, f: &mut fmt::Formatter<W>) -> fmt::Result {
        write_policy(self.policy, f)
    }
}

#[derive(Drop)]
struct AllWritten<'a> {
    policies: &'a PolicySet,
}

impl fmt::Display for AllWritten<'_> {
    ghost use Rattle.std.specs.Prelude.{Some};

    ghost output = { λ w. Some (texts.policies_text true (policies_view w.policies.now)) };

    fn fmt<W: fmt::Write>(&self, f: &mut fmt::Formatter<W>) -> fmt::Result {
        write_policies(self.policies, f)
    }
}

fn write_policies<W: fmt::Write>(policies: &PolicySet, f: &mut fmt::Formatter<W>) -> fmt::Result
    ensures { WritesOnOk W.write_str_gives f.old result (texts.policies_text true (policies_view policies.now)) f.new }
{
    let mut is_first = true;
    'policies: for policy in policies.policies() {
        write_next(policy, is_first, f)?;
        is_first = false;
    }
    Ok(())
}

fn write_next<W: fmt::Write>(
    policy: &Policy,
    is_first: bool,
    f: &mut fmt::Formatter<W>,
) -> fmt::Result
    ensures { WritesOnOk W.write_str_gives f.old result
        (texts.separator is_first ++ texts.policy_text (policy_view policy.now)) f.new }
{
    f.write_str(separator(is_first))?;
    write_policy(policy, f)
}

/// What stands before a policy.
fn separator(is_first: bool) -> &'static str
    ensures { result.now ≡ texts.separator is_first }
{
    if is_first { "" } else { "\n\n" }
}

fn write_policy<W: fmt::Write>(policy: &Policy, f: &mut fmt::Formatter<W>) -> fmt::Result
    ensures { WritesOnOk W.write_str_gives f.old result (texts.policy_text (policy_view policy.now)) f.new }
{
    write_notes(policy, f)?;
    write_effect(policy, f)?;
    write_head(policy, f)?;
    write_clauses(policy, f)?;
    f.write_str(";")
}

/// Writes the annotations, each on a line of its own.
fn write_notes<W: fmt::Write>(policy: &Policy, f: &mut fmt::Formatter<W>) -> fmt::Result
    ensures { WritesOnOk W.write_str_gives f.old result
        (flat_map texts.annotation_text (policy_view policy.now).annotations) f.new }
{
    write_annotations(policy.annotations_rc(), f)
}

fn write_annotations<W: fmt::Write>(
    annotations: &Annotations,
    f: &mut fmt::Formatter<W>,
) -> fmt::Result
    ensures { WritesOnOk W.write_str_gives f.old result
        (flat_map texts.annotation_text (annotations_view annotations.now)) f.new }
{
    'annotations: for (key, value) in annotations.0.iter() {
        write_annotation(key, value, f)?;
    }
    Ok(())
}

fn write_annotation<W: fmt::Write>(
    key: &RcStr,
    value: &RcStr,
    f: &mut fmt::Formatter<W>,
) -> fmt::Result
    ensures { WritesOnOk W.write_str_gives f.old result
        (texts.annotation_text (rc_str_bytes key.now, rc_str_bytes value.now)) f.new }
{
    f.write_str("@")?;
    f.write_str(key.as_str())?;
    f.write_str("(")?;
    write_text(value.as_str(), f)?;
    f.write_str(")\n")
}

fn write_effect<W: fmt::Write>(policy: &Policy, f: &mut fmt::Formatter<W>) -> fmt::Result
    ensures { WritesOnOk W.write_str_gives f.old result (texts.effect_text (policy_view policy.now).effect) f.new }
{
    f.write_str(effect_text(policy.effect()))
}

/// The effect, as a policy begins with it.
pub fn effect_text(effect: Effect) -> &'static str
    ensures { result.now ≡ texts.effect_text (effect_view effect) }
{
    match effect {
        Effect::Permit => "permit",
        Effect::Forbid => "forbid",
    }
}

fn principal_stands(policy: &Policy) -> bool
    ensures { result ≡ texts.principal_stands (policy_view policy.now) }
{
    is_scope(policy.env(), Var::Principal, policy.principal_constraint())
}

fn action_stands(policy: &Policy) -> bool
    ensures { result ≡ texts.action_stands (policy_view policy.now) }
{
    principal_stands(policy) && is_scope(policy.env(), Var::Action, policy.action_constraint())
}

fn resource_stands(policy: &Policy) -> bool
    ensures { result ≡ texts.resource_stands (policy_view policy.now) }
{
    action_stands(policy) && is_scope(policy.env(), Var::Resource, policy.resource_constraint())
}

/// Writes `(principal, action, resource)`, with the constraints that stand there.
fn write_head<W: fmt::Write>(policy: &Policy, f: &mut fmt::Formatter<W>) -> fmt::Result
    ensures { WritesOnOk W.write_str_gives f.old result (texts.head_text (policy_view policy.now)) f.new }
{
    f.write_str("(")?;
    write_principal(policy, f)?;
    f.write_str(", ")?;
    write_action(policy, f)?;
    f.write_str(", ")?;
    write_resource(policy, f)?;
    f.write_str(")")
}

fn write_principal<W: fmt::Write>(policy: &Policy, f: &mut fmt::Formatter<W>) -> fmt::Result
    ensures { WritesOnOk W.write_str_gives f.old result (texts.principal_text (policy_view policy.now)) f.new }
{
    let constraint = policy.principal_constraint();
    write_place(
        principal_stands(policy),
        policy.env(),
        Var::Principal,
        constraint,
        f,
    )
}

fn write_action<W: fmt::Write>(policy: &Policy, f: &mut fmt::Formatter<W>) -> fmt::Result
    ensures { WritesOnOk W.write_str_gives f.old result (texts.action_text (policy_view policy.now)) f.new }
{
    let constraint = policy.action_constraint();
    write_place(
        action_stands(policy),
        policy.env(),
        Var::Action,
        constraint,
        f,
    )
}

fn write_resource<W: fmt::Write>(policy: &Policy, f: &mut fmt::Formatter<W>) -> fmt::Result
    ensures { WritesOnOk W.write_str_gives f.old result (texts.resource_text (policy_view policy.now)) f.new }
{
    let constraint = policy.resource_constraint();
    write_place(
        resource_stands(policy),
        policy.env(),
        Var::Resource,
        constraint,
        f,
    )
}

/// Writes a variable of the scope, with the constraint on it where that stands there.
fn write_place<W: fmt::Write>(
    stands: bool,
    slots: &SlotEnv,
    var: Var,
    constraint: &Expr,
    f: &mut fmt::Formatter<W>,
) -> fmt::Result
    ensures { WritesOnOk W.write_str_gives f.old result
        (texts.place_text stands (slots_view slots.now) (variable_view var) (view constraint.now)) f.new }
{
    if stands {
        write_scope(slots, var, constraint, f)
    } else {
        var.fmt(f)
    }
}

/// Writes the clauses: what does not stand in the scope, and the policy's own.
fn write_clauses<W: fmt::Write>(policy: &Policy, f: &mut fmt::Formatter<W>) -> fmt::Result
    ensures { WritesOnOk W.write_str_gives f.old result (texts.clauses_text (policy_view policy.now)) f.new }
{
    write_principal_clause(policy, f)?;
    write_action_clause(policy, f)?;
    write_resource_clause(policy, f)?;
    write_own_clause(policy, f)
}

fn write_principal_clause<W: fmt::Write>(policy: &Policy, f: &mut fmt::Formatter<W>) -> fmt::Result
    ensures { WritesOnOk W.write_str_gives f.old result (texts.principal_clause (policy_view policy.now)) f.new }
{
    let constraint = policy.principal_constraint();
    write_clause(principal_stands(policy), policy.env(), constraint, f)
}

fn write_action_clause<W: fmt::Write>(policy: &Policy, f: &mut fmt::Formatter<W>) -> fmt::Result
    ensures { WritesOnOk W.write_str_gives f.old result (texts.action_clause (policy_view policy.now)) f.new }
{
    let constraint = policy.action_constraint();
    write_clause(action_stands(policy), policy.env(), constraint, f)
}

fn write_resource_clause<W: fmt::Write>(policy: &Policy, f: &mut fmt::Formatter<W>) -> fmt::Result
    ensures { WritesOnOk W.write_str_gives f.old result (texts.resource_clause (policy_view policy.now)) f.new }
{
    let constraint = policy.resource_constraint();
    write_clause(resource_stands(policy), policy.env(), constraint, f)
}

fn write_own_clause<W: fmt::Write>(policy: &Policy, f: &mut fmt::Formatter<W>) -> fmt::Result
    ensures { WritesOnOk W.write_str_gives f.old result (texts.own_clause (policy_view policy.now)) f.new }
{
    write_clause(false, policy.env(), policy.when_clause(), f)
}

/// Writes a clause, unless it stands in the scope or is `true`.
fn write_clause<W: fmt::Write>(
    stands: bool,
    slots: &SlotEnv,
    constraint: &Expr,
    f: &mut fmt::Formatter<W>,
) -> fmt::Result
    ensures { WritesOnOk W.write_str_gives f.old result
        (texts.clause_text stands (slots_view slots.now) (view constraint.now)) f.new }
{
    if stands || is_true(constraint) {
        f.write_str("")
    } else {
        write_when(slots, constraint, f)
    }
}

fn write_when<W: fmt::Write>(
    slots: &SlotEnv,
    condition: &Expr,
    f: &mut fmt::Formatter<W>,
) -> fmt::Result
    ensures { WritesOnOk W.write_str_gives f.old result
        (texts.when_text (slots_view slots.now) (view condition.now)) f.new }
{
    f.write_str("\nwhen { ")?;
    write_expr(condition, slots, f)?;
    f.write_str(" }")
}
