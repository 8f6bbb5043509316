//! The policies of the rows.
ghost use Rattle.std.specs.Prelude.{◌≡◌, None, IfOk, [], ◌∷◌};
ghost use Rattle.cedar_layers.specs.Policies.{policy_view, policy_id_text, first_repeated};
ghost use Rattle.cedar_example_rows.specs.Ids.{ids_of, id_one, ids_to_two, ids_to_three, ids_to_four, ids_from_zero, chain_ids};

use crate::conditions::{
    attribute, attribute_is, of_a_and_b, of_c_and_d, of_even_number, of_one_in_g, of_wrong_sum,
    truth, unknown,
};
use crate::rows::Row;
use cedar_fallible::pair_of;
use cedar_layers::expressions::{Expr, SlotEnv};
use cedar_layers::policies::{Annotations, Effect, Policy, PolicyID};
use std::alloc::{AllocError, Global};
use std::rc::RcStr;

/// The policies of the row, in order. No two have one id.
pub fn policies_of(alloc: Global, row: Row) -> Result<Vec<Policy>, AllocError>
    ensures { IfOk result (λ v. first_repeated (ids_of v.items) ≡ None) }
{
    match row {
        Row::Empty => Ok(Vec::new(alloc)),
        Row::Skip2 => skipped_permit(alloc),
        Row::Skip3 => skipped_forbid(alloc),
        Row::Skip4 => forbidden(alloc),
        Row::Residual => forbidden_in_context(alloc),
        Row::StepFalse => forbidden_by_test(alloc),
        Row::StepTrue => forbidden_by_test(alloc),
        Row::Early => never_permitted(alloc),
        Row::Chain => chained(alloc),
        Row::Kept => permitted_when(alloc, of_wrong_sum(alloc)?),
        Row::NonBool => permitted_when(alloc, unknown(alloc, "r")?),
        Row::Stored => permitted_when(alloc, of_even_number(alloc)?),
        Row::Strict3 => skipped_forbid(alloc),
        Row::StrictResidual => forbidden_in_context(alloc),
        Row::Deep => permitted_when(alloc, of_one_in_g(alloc)?),
    }
}

fn skipped_permit(alloc: Global) -> Result<Vec<Policy>, AllocError>
    ensures { IfOk result (λ v. ids_of v.items ≡ ids_to_two) }
{
    let mut policies: Vec<Policy> = Vec::new(alloc);
    policies.push(always(alloc, Effect::Permit, "1")?)?;
    policies.push(when_bad_is_two(alloc, Effect::Permit, "2")?)?;
    Ok(policies)
}

fn skipped_forbid(alloc: Global) -> Result<Vec<Policy>, AllocError>
    ensures { IfOk result (λ v. ids_of v.items ≡ ids_to_three) }
{
    let mut policies = skipped_permit(alloc)?;
    policies.push(when_bad_is_two(alloc, Effect::Forbid, "3")?)?;
    Ok(policies)
}

fn forbidden(alloc: Global) -> Result<Vec<Policy>, AllocError>
    ensures { IfOk result (λ v. ids_of v.items ≡ ids_to_four) }
{
    let mut policies = skipped_forbid(alloc)?;
    policies.push(always(alloc, Effect::Forbid, "4")?)?;
    Ok(policies)
}

fn forbidden_in_context(alloc: Global) -> Result<Vec<Policy>, AllocError>
    ensures { IfOk result (λ v. ids_of v.items ≡ ids_from_zero) }
{
    let mut policies: Vec<Policy> = Vec::new(alloc);
    policies.push(always(alloc, Effect::Permit, "0")?)?;
    policies.push(when_test(alloc, Effect::Forbid, "1")?)?;
    Ok(policies)
}

fn forbidden_by_test(alloc: Global) -> Result<Vec<Policy>, AllocError>
    ensures { IfOk result (λ v. ids_of v.items ≡ ids_to_two) }
{
    let mut policies: Vec<Policy> = Vec::new(alloc);
    policies.push(always(alloc, Effect::Permit, "1")?)?;
    policies.push(when_unknown(alloc, Effect::Forbid, "2", "test")?)?;
    Ok(policies)
}

fn never_permitted(alloc: Global) -> Result<Vec<Policy>, AllocError>
    ensures { IfOk result (λ v. ids_of v.items ≡ ids_to_two) }
{
    let mut policies: Vec<Policy> = Vec::new(alloc);
    policies.push(when(alloc, Effect::Permit, "1", truth(false))?)?;
    policies.push(when_unknown(alloc, Effect::Forbid, "2", "a")?)?;
    Ok(policies)
}

fn chained(alloc: Global) -> Result<Vec<Policy>, AllocError>
    ensures { IfOk result (λ v. ids_of v.items ≡ chain_ids) }
{
    let mut policies: Vec<Policy> = Vec::new(alloc);
    policies.push(when_a_and_b(alloc, Effect::Permit, "policy0")?)?;
    policies.push(when_c_and_d(alloc, Effect::Forbid, "policy1")?)?;
    Ok(policies)
}

// 1 permits on this condition.
fn permitted_when(alloc: Global, condition: Expr) -> Result<Vec<Policy>, AllocError>
    ensures { IfOk result (λ v. ids_of v.items ≡ id_one) }
{
    let mut policies: Vec<Policy> = Vec::new(alloc);
    policies.push(when(alloc, Effect::Permit, "1", condition)?)?;
    Ok(policies)
}

// A policy that applies to all requests.
fn always(alloc: Global, effect: Effect, id: &str) -> Result<Policy, AllocError>
    ensures { IfOk result (λ p. (policy_view p).id ≡ id.now) }
{
    when(alloc, effect, id, truth(true))
}

// A policy that applies when `context.bad == 2`.
fn when_bad_is_two(alloc: Global, effect: Effect, id: &str) -> Result<Policy, AllocError>
    ensures { IfOk result (λ p. (policy_view p).id ≡ id.now) }
{
    when(alloc, effect, id, attribute_is(alloc, "bad", 2)?)
}

// A policy that applies when `context.test`.
fn when_test(alloc: Global, effect: Effect, id: &str) -> Result<Policy, AllocError>
    ensures { IfOk result (λ p. (policy_view p).id ≡ id.now) }
{
    when(alloc, effect, id, attribute(alloc, "test")?)
}

// A policy that applies when this is true, which is not known.
fn when_unknown(alloc: Global, effect: Effect, id: &str, name: &str) -> Result<Policy, AllocError>
    ensures { IfOk result (λ p. (policy_view p).id ≡ id.now) }
{
    when(alloc, effect, id, unknown(alloc, name)?)
}

// A policy that applies when `principal == NS::"a" && resource == NS::"b"`.
fn when_a_and_b(alloc: Global, effect: Effect, id: &str) -> Result<Policy, AllocError>
    ensures { IfOk result (λ p. (policy_view p).id ≡ id.now) }
{
    when(alloc, effect, id, of_a_and_b(alloc)?)
}

// A policy that applies when `context.c && context.d == 10`.
fn when_c_and_d(alloc: Global, effect: Effect, id: &str) -> Result<Policy, AllocError>
    ensures { IfOk result (λ p. (policy_view p).id ≡ id.now) }
{
    when(alloc, effect, id, of_c_and_d(alloc)?)
}

// A policy that applies on this condition.
fn when(alloc: Global, effect: Effect, id: &str, condition: Expr) -> Result<Policy, AllocError>
    ensures { IfOk result (λ p. (policy_view p).id ≡ id.now) }
{
    let (id, condition) = pair_of(RcStr::from_str(alloc, id), Ok(condition))?;
    policy(alloc, effect, PolicyID::from_string(id), condition)
}

// A policy with no constraint on its scope.
fn policy(alloc: Global, effect: Effect, id: PolicyID, when: Expr) -> Result<Policy, AllocError>
    ensures { IfOk result (λ p. (policy_view p).id ≡ policy_id_text id) }
{
    Policy::new(
        alloc,
        effect,
        id,
        Annotations::new(alloc),
        truth(true),
        truth(true),
        truth(true),
        when,
        SlotEnv::new(alloc),
    )
}
