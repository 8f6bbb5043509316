//! Steps: a partial answer, taken further by values for unknowns and perhaps another store.
ghost use Rattle.std.specs.Prelude.{◌≡◌, ◌++◌, ◌∷◌, [], true, false, List, Ok, Err, Some};
ghost use Rattle.std.specs.Prelude.{IfOk, IfErr, IfSome, OnOk, is_some, map};
ghost use Rattle.std.specs.Rc.{rc_str_bytes};
ghost use Rattle.cedar_model.specs.Chains.{has_limit, is_limit};
ghost use Rattle.cedar_model.specs.Failures.{failure_kind};
ghost use Rattle.cedar_extensions.specs.Extensions.{extensions_view, calls_of};
ghost use Rattle.cedar_layers.specs.Stores.{store_view};
ghost use Rattle.cedar_requests.specs.Contexts.{context_values};
ghost use Rattle.cedar_requests.specs.Substitutions.{values_for};
ghost use Rattle.cedar_authorizer.specs.Configured.{configuration};
ghost use Rattle.cedar_authorizer.specs.responses.Responses.{error_view, errors_view};
ghost use Rattle.cedar_authorizer.specs.Steps.{response_said, step_by, IsStep};
ghost use Rattle.cedar_model.specs.Outcomes.{has_text};
ghost use Rattle.cedar_cli.specs.Steps.{step_map, with_value, with_values, values_in, AreValuesSaid};
ghost use Rattle.cedar_cli.specs.Steps.{is_part, is_open, some_open, entities_lacked};
ghost use Rattle.cedar_unknowns.specs.Themselves.{entity_values};
ghost use Rattle.cedar_cli.specs.Stages.{last_in, response_or};
ghost use Rattle.cedar_cli.specs.Inputs.{IsOwnStore, IsInput, AreInputs, store_or, AddsTaken, IsTakenBy, AreAllTaken};
ghost use Rattle.cedar_cli.specs.Inputs.{IsIdle, IsHalted, IsMemory};
ghost use Rattle.cedar_cli.specs.Reasons.{IsToldFor, IsStoreUnread};
ghost use Rattle.cedar_cli.specs.Stopped.{AreValuesUnread, IsStepUnread, IsOneUnread, IsAnother, GivesAnother};
ghost use Rattle.cedar_cli.specs.Stopped.{AreStopped};

use crate::asked::{Source, Step};
use crate::left::open_names;
use crate::limits::push_limit;
use crate::reading::context_of;
use crate::refusal::{Refusal, refuse_with_line};
use crate::stores::{Given, Store, store_of};
use crate::warnings::{push_idle_step, push_strays};
use cedar_policy_core::ast::{Context, Expr, Unknowns, Value};
use cedar_policy_core::authorizer::{
    AuthorizationError, Authorizer, PartialResponse, ReauthorizationError,
};
use cedar_policy_core::extensions::Extensions;
use std::alloc::{AllocError, Global};
use std::collections::{BTreeMap, BTreeSet, HashMap};
use std::rc::RcStr;

/// What a step takes: which it is of them, counted from 1, its files, and what stands in these.
#[derive(Drop)]
pub(crate) struct StepInput<'t> {
    number: usize,
    step: Step<'t>,
    values: Context,
    store: Option<Store>,
}

/// A step, which it is of them, counted from 1, and the response that it makes of the one before; none where it is not
/// taken.
#[derive(Drop)]
pub struct Taken<'t> {
    /// Which it is of the steps, counted from 1.
    pub number: usize,
    /// The step.
    pub step: Step<'t>,
    /// The response behind it, if it is taken.
    pub response: Option<PartialResponse>,
}

// The store that a step is taken over: its own, or else the one before.
fn store_after<'e>(own: &'e Option<Store>, before: &'e Store) -> &'e Store
    ensures { result.now ≡ store_or own.now before.now }
{
    match own {
        Some(store) => store,
        None => before,
    }
}

/// What the steps take, in their order.
pub(crate) fn step_inputs<'t>(
    alloc: Global,
    steps: &[Step<'t>],
    extensions: &Extensions<'_>,
    warnings: &mut String,
) -> Result<Vec<StepInput<'t>>, Refusal>
    ensures read { IfOk result (λ v.
        AreInputs (extensions_view extensions.now) (calls_of extensions.now) steps.now v.items) }
    ensures refused { IfErr result (IsToldFor
        (IsOneUnread (extensions_view extensions.now) (calls_of extensions.now) steps.now)) }
{
    let mut inputs: Vec<StepInput<'t>> = Vec::new(alloc);
    'steps: for step in steps {
        put_input(alloc, step, extensions, &mut inputs, warnings)?;
    }
    Ok(inputs)
}

fn put_input<'t>(
    alloc: Global,
    step: &Step<'t>,
    extensions: &Extensions<'_>,
    inputs: &mut Vec<StepInput<'t>>,
    warnings: &mut String,
) -> Result<(), Refusal>
    ensures put { (ss : List _)
        → AreInputs (extensions_view extensions.now) (calls_of extensions.now) ss inputs.old.items
        → OnOk result (AreInputs (extensions_view extensions.now) (calls_of extensions.now) (ss ++ step.now ∷ [])
        inputs.new.items) }
    ensures refused { IfErr result (IsToldFor
        (IsStepUnread (extensions_view extensions.now) (calls_of extensions.now) step.now)) }
{
    let number = inputs.len().saturating_add(1);
    let input = step_input(alloc, number, *step, extensions, warnings)?;
    inputs.push(input)?;
    Ok(())
}

fn step_input<'t>(
    alloc: Global,
    number: usize,
    step: Step<'t>,
    extensions: &Extensions<'_>,
    warnings: &mut String,
) -> Result<StepInput<'t>, Refusal>
    ensures step { IfOk result (λ i. i.step ≡ step.entry) }
    ensures input { IfOk result (IsInput (extensions_view extensions.now) (calls_of extensions.now)) }
    ensures refused { IfErr result (IsToldFor
        (IsStepUnread (extensions_view extensions.now) (calls_of extensions.now) step.entry)) }
{
    let values = step_values(alloc, step.values, extensions)?;
    match step_store(alloc, step, extensions, warnings) {
        Ok(store) => Ok(StepInput {
            number,
            step,
            values,
            store,
        }),
        Err(refusal) => {
            drop(values);
            Err(refusal)
        }
    }
}

fn step_store(
    alloc: Global,
    step: Step<'_>,
    extensions: &Extensions<'_>,
    warnings: &mut String,
) -> Result<Option<Store>, Refusal>
    ensures own { IfOk result (IsOwnStore (extensions_view extensions.now) (calls_of extensions.now)
        step.entry.entities step.entry.is_partial) }
    ensures refused { IfErr result (IsToldFor (IsStoreUnread (extensions_view extensions.now) (calls_of extensions.now)
        step.entry.entities step.entry.max_ancestors)) }
{
    match step.entities {
        Some(source) => {
            let given = Given {
                source,
                is_partial: step.is_partial,
                max_ancestors: step.max_ancestors,
            };
            Ok(Some(store_of(alloc, given, extensions, warnings)?))
        }
        None => Ok(None),
    }
}

// The values that the text writes, under the names of unknowns.
fn step_values(
    alloc: Global,
    source: Source<'_>,
    extensions: &Extensions<'_>,
) -> Result<Context, Refusal>
    ensures said { IfOk result
        (AreValuesSaid (extensions_view extensions.now) (calls_of extensions.now) source.entry.text.now) }
    ensures refused { IfErr result (IsToldFor
        (AreValuesUnread (extensions_view extensions.now) (calls_of extensions.now) source.entry)) }
{
    let context = context_of(alloc, source, extensions)?;
    known_values(alloc, source, context)
}

fn known_values(alloc: Global, source: Source<'_>, context: Context) -> Result<Context, Refusal>
    ensures same { IfOk result (λ c. c ≡ context) }
    ensures known { IfOk result (λ c. is_some (context_values c) ≡ true) }
    ensures refused { IfErr result (IsToldFor (is_some (context_values context) ≡ false)) }
{
    if is_known(&context) {
        return Ok(context);
    }
    let refusal = not_known(alloc, source, &context);
    drop(context);
    Err(refusal)
}

fn is_known(context: &Context) -> bool
    ensures { result ≡ is_some (context_values context.now) }
{
    match context.as_value() {
        Some(_) => true,
        None => false,
    }
}

// The refusal of values of which one holds an unknown.
#[cold]
fn not_known(alloc: Global, source: Source<'_>, context: &Context) -> Refusal {
    let name = source.name;
    match first_unknown(context) {
        Some(key) => {
            refuse_with_line(
                alloc,
                format!(in alloc; "{name}: the value of `{key}` holds an unknown"),
            )
        }
        None => refuse_with_line(alloc, format!(in alloc; "{name}: a value holds an unknown")),
    }
}

fn first_unknown(context: &Context) -> Option<&str> {
    match context.as_residual() {
        Some(pairs) => first_unknown_of(pairs),
        None => None,
    }
}

fn first_unknown_of(pairs: &BTreeMap<RcStr, Expr>) -> Option<&str> {
    'pairs: for (key, expr) in pairs.iter() {
        if expr.has_unknown() {
            return Some(key.as_str());
        }
    }
    None
}

/// Puts each step in turn behind those that are there, with what follows by it of the response before.
pub(crate) fn take_all<'t>(
    alloc: Global,
    authorizer: &Authorizer<'_>,
    limit: Option<usize>,
    first: &PartialResponse,
    store: &Store,
    inputs: &[StepInput<'t>],
    later: &mut Vec<Taken<'t>>,
    warnings: &mut String,
) -> Result<(), Refusal>
    ensures taken { (ss : List _)
        → AreInputs (configuration authorizer.now).extensions (configuration authorizer.now).calls ss inputs.now
        → later.old.items ≡ []
        → OnOk result (AreAllTaken (configuration authorizer.now) first.now store.now.entities ss later.new.items) }
    ensures stopped { (ss : List _)
        → AreInputs (configuration authorizer.now).extensions (configuration authorizer.now).calls ss inputs.now
        → later.old.items ≡ []
        → IfErr result
        (IsToldFor (AreStopped (configuration authorizer.now) first.now store.now.entities ss)) }
{
    let mut store = store;
    'inputs: for input in inputs {
        store = store_after(&input.store, store);
        let last = last_of(first, later);
        let response = take(alloc, authorizer, limit, last, input, store, warnings)?;
        put_taken(input, response, later)?;
    }
    Ok(())
}

/// The last of these responses.
pub(crate) fn last_of<'r>(first: &'r PartialResponse, later: &'r [Taken<'_>]) -> &'r PartialResponse
    ensures { result.now ≡ last_in first.now later.now }
{
    let mut last = first;
    'later: for taken in later {
        last = response_after(&taken.response, last);
    }
    last
}

/// The response behind a step: its own, or else the one before.
pub(crate) fn response_after<'r>(
    own: &'r Option<PartialResponse>,
    before: &'r PartialResponse,
) -> &'r PartialResponse
    ensures { result.now ≡ response_or own.now before.now }
{
    match own {
        Some(response) => response,
        None => before,
    }
}

fn put_taken<'t>(
    input: &StepInput<'t>,
    response: Option<PartialResponse>,
    later: &mut Vec<Taken<'t>>,
) -> Result<(), AllocError>
    ensures { OnOk result (AddsTaken input.now.step response later.old.items later.new.items) }
{
    let taken = Taken {
        number: input.number,
        step: input.step,
        response,
    };
    match later.push(taken) {
        Ok(()) => Ok(()),
        Err(_) => Err(AllocError),
    }
}

// One step from the response, none where it names no unknown and brings no entities. None is taken where a policy met
// the limit of levels: what it decides is not known then.
fn take(
    alloc: Global,
    authorizer: &Authorizer<'_>,
    limit: Option<usize>,
    response: &PartialResponse,
    input: &StepInput<'_>,
    store: &Store,
    warnings: &mut String,
) -> Result<Option<PartialResponse>, Refusal>
    ensures taken { IfOk result
        (IsTakenBy (configuration authorizer.now) input.now store.now.entities response.now) }
    ensures halted { IfErr result
        (IsToldFor (IsHalted (configuration authorizer.now) input.now store.now.entities response.now)) }
{
    if has_met_limit(&response.errors) {
        return Err(past_limit(alloc, input.step.values.name, limit));
    }
    if tell_whether_idle(alloc, response, input, warnings)? {
        return Ok(None);
    }
    Ok(Some(take_values(alloc, authorizer, response, input, store)?))
}

fn take_values(
    alloc: Global,
    authorizer: &Authorizer<'_>,
    response: &PartialResponse,
    input: &StepInput<'_>,
    store: &Store,
) -> Result<PartialResponse, Refusal>
    ensures step { IfOk result (λ n. IsStep (configuration authorizer.now)
        (step_map input.now.values response.now, store_view store.now.entities) (response_said response.now) (Ok n)) }
    ensures halted { IfErr result
        (IsToldFor (IsHalted (configuration authorizer.now) input.now store.now.entities response.now)) }
{
    let values = values_beside(alloc, response, input)?;
    let next = take_over(alloc, authorizer, response, input, &values, store);
    drop(values);
    next
}

fn take_over(
    alloc: Global,
    authorizer: &Authorizer<'_>,
    response: &PartialResponse,
    input: &StepInput<'_>,
    values: &HashMap<RcStr, Value>,
    store: &Store,
) -> Result<PartialResponse, Refusal>
    ensures step { IfOk result (λ n. IsStep (configuration authorizer.now)
        (step_by values.now store.now.entities) (response_said response.now) (Ok n)) }
    ensures refused { IfErr result (IsToldFor ((e : _) × IsStep (configuration authorizer.now)
        (step_by values.now store.now.entities) (response_said response.now) (Err e))) }
{
    match response.reauthorize(alloc, values, authorizer, &store.entities) {
        Ok(next) => Ok(next),
        Err(error) => Err(not_taken(alloc, input.step.values.name, error)),
    }
}

// Tells which names of the step are none of unknowns that the response leaves open, and whether the step changes
// nothing: it names none of these, and brings no entities.
fn tell_whether_idle(
    alloc: Global,
    response: &PartialResponse,
    input: &StepInput<'_>,
    warnings: &mut String,
) -> Result<bool, AllocError>
    ensures { IfOk result (λ b. b ≡ true → IsIdle input.now response.now) }
{
    let open = open_names(alloc, response)?;
    let is_idle = input.store.is_none() && !names_one(&input.values, &open);
    let told = tell_names(alloc, input, &open, is_idle, warnings);
    drop(open);
    told?;
    Ok(is_idle)
}

// Whether one of the names is open.
fn names_one(values: &Context, names: &[RcStr]) -> bool
    ensures { result ≡ some_open (map rc_str_bytes names.now) (values_in values.now) }
{
    match values.as_value() {
        Some(pairs) => has_open_key(pairs, names),
        None => false,
    }
}

fn has_open_key(pairs: &BTreeMap<RcStr, Value>, names: &[RcStr]) -> bool
    ensures { result ≡ some_open (map rc_str_bytes names.now) pairs.now.entries }
{
    'keys: for (key, _) in pairs.iter() {
        if is_open(names, key) {
            return true;
        }
    }
    false
}

// Whether the name is one of these or a part of a request: a value for a part that is known is refused.
fn is_open(names: &[RcStr], name: &RcStr) -> bool
    ensures { result ≡ is_open (map rc_str_bytes names.now) (rc_str_bytes name.now) }
{
    has_name(names, name) || is_part(name.as_str())
}

fn has_name(names: &[RcStr], name: &RcStr) -> bool
    ensures { result ≡ has_text (rc_str_bytes name.now) (map rc_str_bytes names.now) }
{
    'names: for other in names {
        if name == other {
            return true;
        }
    }
    false
}

fn is_part(name: &str) -> bool
    ensures { result ≡ is_part name.now }
{
    name == "principal" || name == "action" || name == "resource" || name == "context"
}

fn tell_names(
    alloc: Global,
    input: &StepInput<'_>,
    open: &[RcStr],
    is_idle: bool,
    warnings: &mut String,
) -> Result<(), AllocError> {
    let strays = strays_of(alloc, &input.values, open)?;
    let pushed = push_strays(alloc, input.number, input.step.values, &strays, warnings);
    drop(strays);
    pushed?;
    if is_idle {
        push_idle_step(alloc, input.number, input.step.values, warnings)?;
    }
    Ok(())
}

// The other names, in order.
fn strays_of(
    alloc: Global,
    values: &Context,
    open: &[RcStr],
) -> Result<BTreeSet<RcStr>, AllocError> {
    let mut strays: BTreeSet<RcStr> = BTreeSet::new(alloc);
    if let Some(pairs) = values.as_value() {
        'keys: for (key, _) in pairs.iter() {
            if !is_open(open, key) {
                let name: RcStr = key.clone()?;
                drop(strays.insert(name)?);
            }
        }
    }
    Ok(strays)
}

// The values of the step, and each entity that the stores lacked for itself. Refused where the step gives another value
// for one of these.
fn values_beside(
    alloc: Global,
    response: &PartialResponse,
    input: &StepInput<'_>,
) -> Result<HashMap<RcStr, Value>, Refusal>
    ensures values { IfOk result (λ m. values_for m.entries ≡ step_map input.now.values response.now) }
    ensures another { IfErr result (IsToldFor
        (GivesAnother (entity_values (entities_lacked response.now)) (values_in input.now.values))) }
{
    let mut values = response.entity_values(alloc)?;
    match put_values(alloc, input, &mut values) {
        Ok(()) => Ok(values),
        Err(refusal) => {
            drop(values);
            Err(refusal)
        }
    }
}

fn put_values(
    alloc: Global,
    input: &StepInput<'_>,
    values: &mut HashMap<RcStr, Value>,
) -> Result<(), Refusal>
    ensures put { OnOk result (values_for values.new.entries
        ≡ with_values (values_in input.now.values) (values_for values.old.entries)) }
    ensures another { IfErr result (IsToldFor
        (GivesAnother (values_for values.old.entries) (values_in input.now.values))) }
{
    match input.values.as_value() {
        Some(pairs) => put_pairs(alloc, input.step.values.name, pairs, values),
        None => Ok(()),
    }
}

fn put_pairs(
    alloc: Global,
    source: &str,
    pairs: &BTreeMap<RcStr, Value>,
    values: &mut HashMap<RcStr, Value>,
) -> Result<(), Refusal>
    ensures put { OnOk result (values_for values.new.entries
        ≡ with_values pairs.now.entries (values_for values.old.entries)) }
    ensures another { IfErr result (IsToldFor (GivesAnother (values_for values.old.entries) pairs.now.entries)) }
{
    match first_another(pairs, values) {
        Some(name) => Err(another_entity(alloc, source, name)),
        None => {
            put_each(pairs, values)?;
            Ok(())
        }
    }
}

// The first name that the map has another value for.
fn first_another<'p>(
    pairs: &'p BTreeMap<RcStr, Value>,
    values: &HashMap<RcStr, Value>,
) -> Option<&'p RcStr>
    ensures { IfSome result (λ name. GivesAnother (values_for values.now.entries) pairs.now.entries) }
{
    'pairs: for (name, value) in pairs.iter() {
        if is_another(values, name, value) {
            return Some(name);
        }
    }
    None
}

fn put_each(
    pairs: &BTreeMap<RcStr, Value>,
    values: &mut HashMap<RcStr, Value>,
) -> Result<(), AllocError>
    ensures { OnOk result (values_for values.new.entries
        ≡ with_values pairs.now.entries (values_for values.old.entries)) }
{
    'pairs: for (name, value) in pairs.iter() {
        put_value(name, value, values)?;
    }
    Ok(())
}

// Whether the map has another value under the name.
fn is_another(values: &HashMap<RcStr, Value>, name: &RcStr, value: &Value) -> bool
    ensures { result ≡ true → IsAnother (values_for values.now.entries (rc_str_bytes name.now)) value.now.what }
{
    match values.get(name) {
        Some(other) => other != value,
        None => false,
    }
}

fn put_value(key: &RcStr, value: &Value, map: &mut HashMap<RcStr, Value>) -> Result<(), AllocError>
    ensures { OnOk result (values_for map.new.entries
        ≡ with_value (rc_str_bytes key.now, value.now.what) (values_for map.old.entries)) }
{
    let key: RcStr = key.clone()?;
    let value: Value = value.clone()?;
    match map.insert(key, value) {
        Ok(replaced) => {
            drop(replaced);
            Ok(())
        }
        Err(_) => Err(AllocError),
    }
}

#[cold]
fn another_entity(alloc: Global, source: &str, name: &RcStr) -> Refusal {
    refuse_with_line(
        alloc,
        format!(in alloc;
            "{source}: `{name}` stands for that entity, and the step gives another value for it"
        ),
    )
}

#[cold]
fn past_limit(alloc: Global, source: &str, limit: Option<usize>) -> Refusal {
    refuse_with_line(alloc, past_limit_line(alloc, source, limit))
}

fn past_limit_line(
    alloc: Global,
    source: &str,
    limit: Option<usize>,
) -> Result<String, AllocError> {
    let mut line = format!(in alloc;
        "{source}: the step is not taken: a policy met the limit of levels before it"
    )?;
    push_limit(alloc, limit, &mut line)?;
    Ok(line)
}

#[cold]
fn not_taken(alloc: Global, name: &str, error: ReauthorizationError) -> Refusal
    ensures { IsToldFor (¬ IsMemory error) result }
{
    match error {
        ReauthorizationError::Memory(_) => Refusal::Memory,
        other => {
            let line = format!(in alloc; "{name}: the step is refused: {other}");
            drop(other);
            refuse_with_line(alloc, line)
        }
    }
}

// Whether the recursion limit is among these errors.
fn has_met_limit(errors: &[AuthorizationError]) -> bool
    ensures { result ≡ has_limit (errors_view errors.now) }
{
    'errors: for error in errors {
        if is_recursion_limit(error) {
            return true;
        }
    }
    false
}

fn is_recursion_limit(error: &AuthorizationError) -> bool
    ensures { result ≡ is_limit (failure_kind (error_view error.now).1) }
{
    let AuthorizationError::PolicyEvaluationError { id: _, error } = error;
    error.is_recursion_limit()
}
