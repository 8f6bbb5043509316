#![tactic(auto, using(cedar_json_writer::proofs::Trees::trees), unfolding(cedar_model::specs::Responses::clause_of))]
//! What is reported of policies.
ghost use Rattle.std.specs.Prelude.{◌≡◌, [], ◌∷◌, ◌++◌, map, IfOk, OnOk};
ghost use Rattle.json.specs.Json.{string};
ghost use Rattle.cedar_model.specs.Terms.{literal, bool_literal};
ghost use Rattle.cedar_expressions.specs.View.{view};
ghost use Rattle.cedar_layers.specs.Policies.{policy_view, policy_when, effect_view};
ghost use Rattle.cedar_authorizer.specs.responses.Rows as rows;
ghost use Rattle.cedar_json_writer.specs.Trees.{json_view};
ghost use Rattle.cedar_response_json.specs.Responses.{row_json, rows_json, reported_json, false_word};

use crate::objects::object_of_three;
use cedar_authorizer::authorizer::{ErrorState, PartialResponse};
use cedar_expressions::Expr;
use cedar_fallible::beside;
use cedar_json_writer::{JsonValue, put_item, text_to_json};
use cedar_layers::policies::{Annotations, Effect, Policy, PolicyID};
use cedar_names::Literal;
use cedar_policy_json_writer::policy_to_json;
use indexmap::IndexMap;
use std::alloc::{AllocError, Global};
use std::rc::Rc;

/// What is reported of each policy, in the order of the six maps.
pub(crate) fn policies_to_json(
    alloc: Global,
    response: &PartialResponse,
) -> Result<JsonValue, AllocError>
    ensures { IfOk result (λ j. json_view j ≡ rows_json (rows.rows_view response.now)) }
{
    let mut items: Vec<JsonValue> = Vec::new(alloc);
    put_trues(
        alloc,
        Effect::Permit,
        &response.satisfied_permits,
        &mut items,
    )?;
    put_falses(alloc, Effect::Permit, &response.false_permits, &mut items)?;
    put_residuals(
        alloc,
        Effect::Permit,
        &response.residual_permits,
        &mut items,
    )?;
    put_trues(
        alloc,
        Effect::Forbid,
        &response.satisfied_forbids,
        &mut items,
    )?;
    put_falses(alloc, Effect::Forbid, &response.false_forbids, &mut items)?;
    put_residuals(
        alloc,
        Effect::Forbid,
        &response.residual_forbids,
        &mut items,
    )?;
    Ok(JsonValue::Array(items))
}

// ---- the three maps of an effect

fn put_trues(
    alloc: Global,
    effect: Effect,
    trues: &IndexMap<PolicyID, Rc<Annotations>>,
    items: &mut Vec<JsonValue>,
) -> Result<(), AllocError>
    ensures { OnOk result (map json_view items.new.items ≡ map json_view items.old.items
        ++ map row_json (rows.rows_in (rows.true_rows (effect_view effect) trues.now.entries))) }
{
    'trues: for (id, annotations) in trues {
        put_true(alloc, effect, id, annotations, items)?;
    }
    Ok(())
}

fn put_falses(
    alloc: Global,
    effect: Effect,
    falses: &IndexMap<PolicyID, (ErrorState, Rc<Annotations>)>,
    items: &mut Vec<JsonValue>,
) -> Result<(), AllocError>
    ensures { OnOk result (map json_view items.new.items ≡ map json_view items.old.items
        ++ map row_json (rows.rows_in (rows.false_rows (effect_view effect) falses.now.entries))) }
{
    'falses: for (id, state) in falses {
        put_false(alloc, effect, id, state, items)?;
    }
    Ok(())
}

fn put_residuals(
    alloc: Global,
    effect: Effect,
    residuals: &IndexMap<PolicyID, (Rc<Expr>, Rc<Annotations>)>,
    items: &mut Vec<JsonValue>,
) -> Result<(), AllocError>
    ensures { OnOk result (map json_view items.new.items ≡ map json_view items.old.items
        ++ map row_json (rows.rows_in (rows.residual_rows (effect_view effect) residuals.now.entries))) }
{
    'residuals: for (id, residual) in residuals {
        put_residual(alloc, effect, id, residual, items)?;
    }
    Ok(())
}

// ---- one policy

fn put_true(
    alloc: Global,
    effect: Effect,
    id: &PolicyID,
    annotations: &Rc<Annotations>,
    items: &mut Vec<JsonValue>,
) -> Result<(), AllocError>
    ensures { OnOk result (map json_view items.new.items ≡ map json_view items.old.items
        ++ row_json (rows.located_true (effect_view effect) (id.now, annotations.now)).row ∷ []) }
{
    let clause = truth(alloc, true)?;
    put_reported(alloc, effect, id, "satisfied", clause, annotations, items)?;
    Ok(())
}

fn put_false(
    alloc: Global,
    effect: Effect,
    id: &PolicyID,
    state: &(ErrorState, Rc<Annotations>),
    items: &mut Vec<JsonValue>,
) -> Result<(), AllocError>
    ensures { OnOk result (map json_view items.new.items ≡ map json_view items.old.items
        ++ row_json (rows.located_false (effect_view effect) (id.now, state.now)).row ∷ []) }
{
    let clause = truth(alloc, false)?;
    put_reported(
        alloc,
        effect,
        id,
        false_word(state.0),
        clause,
        &state.1,
        items,
    )?;
    Ok(())
}

fn put_residual(
    alloc: Global,
    effect: Effect,
    id: &PolicyID,
    residual: &(Rc<Expr>, Rc<Annotations>),
    items: &mut Vec<JsonValue>,
) -> Result<(), AllocError>
    ensures { OnOk result (map json_view items.new.items ≡ map json_view items.old.items
        ++ row_json (rows.located_residual (effect_view effect) (id.now, residual.now)).row ∷ []) }
{
    let clause = residual.0.clone()?;
    put_reported(alloc, effect, id, "residual", clause, &residual.1, items)?;
    Ok(())
}

// The word of a policy that is not satisfied.
fn false_word(state: ErrorState) -> &'static str
    ensures { result.now ≡ false_word (rows.is_error state) }
{
    match state {
        ErrorState::NoError => "unsatisfied",
        ErrorState::Error => "erring",
    }
}

fn truth(alloc: Global, is_true: bool) -> Result<Rc<Expr>, AllocError>
    ensures { IfOk result (λ e. view e.value ≡ literal (bool_literal is_true)) }
{
    Ok(Rc::new(alloc, Expr::val(Literal::Bool(is_true)))?)
}

// The policy of this clause, reported by this word.
fn put_reported(
    alloc: Global,
    effect: Effect,
    id: &PolicyID,
    word: &str,
    clause: Rc<Expr>,
    annotations: &Rc<Annotations>,
    items: &mut Vec<JsonValue>,
) -> Result<(), AllocError>
    ensures { OnOk result (map json_view items.new.items ≡ map json_view items.old.items
        ++ reported_json word.now (policy_when effect id.now annotations.now.value clause.value) ∷ []) }
{
    match made(alloc, effect, id, clause, annotations) {
        Ok(policy) => {
            let put = put_policy(alloc, word, &policy, items);
            drop(policy);
            put
        }
        Err(error) => Err(error),
    }
}

fn made(
    alloc: Global,
    effect: Effect,
    id: &PolicyID,
    clause: Rc<Expr>,
    annotations: &Rc<Annotations>,
) -> Result<Policy, AllocError>
    ensures { IfOk result
        (λ p. policy_view p ≡ policy_when effect id.now annotations.now.value clause.value) }
{
    let (clause, id) = beside(clause, id.clone())?;
    let ((clause, id), annotations) = beside((clause, id), annotations.clone())?;
    Policy::from_when_clause_annos(alloc, effect, clause, id, None, annotations)
}

fn put_policy(
    alloc: Global,
    word: &str,
    policy: &Policy,
    items: &mut Vec<JsonValue>,
) -> Result<(), AllocError>
    ensures { OnOk result (map json_view items.new.items
        ≡ map json_view items.old.items ++ reported_json word.now (policy_view policy.now) ∷ []) }
{
    let item = policy_item(alloc, word, policy)?;
    put_item(item, items)?;
    Ok(())
}

fn policy_item(alloc: Global, word: &str, policy: &Policy) -> Result<JsonValue, AllocError>
    ensures { IfOk result (λ j. json_view j ≡ reported_json word.now (policy_view policy.now)) }
{
    let id = id_to_json(alloc, policy)?;
    let word = text_to_json(alloc, word)?;
    let policy = policy_to_json(alloc, policy)?;
    object_of_three(alloc, "id", id, "reported", word, "policy", policy)
}

fn id_to_json(alloc: Global, policy: &Policy) -> Result<JsonValue, AllocError>
    ensures { IfOk result (λ j. json_view j ≡ string (policy_view policy.now).id) }
{
    let text = policy.id().to_string(alloc)?;
    text_to_json(alloc, text.as_str())
}
