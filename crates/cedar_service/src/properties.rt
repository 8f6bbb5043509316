//! Properties that an evaluation brings, as attributes beside those that are stored.
ghost use Rattle.std.specs.Prelude.{◌≡◌, ◌∷◌, [], Bool, true, false, Some, None, IfOk, IfErr, codes, option_map, is_some};
ghost use Rattle.json.specs.Value.{value_view};
ghost use Rattle.cedar_model.specs.Settings.{known_context};
ghost use Rattle.cedar_extensions.specs.Extensions.{extensions_view, calls_of};
ghost use Rattle.cedar_names.specs.Names.{uid_name};
ghost use Rattle.cedar_values.specs.Sound.{whats_at};
ghost use Rattle.cedar_layers.specs.Stores.{store_view};
ghost use Rattle.cedar_requests.specs.Contexts.{context_view};
ghost use Rattle.cedar_endpoints.specs.Asked.{evaluation_view, named_view};
ghost use Rattle.cedar_service.specs.Brought.{laid_or};
ghost use Rattle.cedar_service.specs.Faults.{IsFaultBelow, IsToldAs};
ghost use Rattle.cedar_service.specs.Properties.{AreAttributesOf, IsLaidOver, IsLaidAs, IsUnlaid, IsAskedOver, AreUnlaid};
ghost use Rattle.cedar_service.specs.Properties.{IsNamedAs, IsActionNamed, IsWithProperties, AreWrongProperties};
ghost use Rattle.cedar_service.specs.Properties.{AreWrongOfNamed, IsAskedWithAction, IsActionUnlaid, AreNoAttributes};
ghost use Rattle.cedar_service.specs.Properties.{is_empty, AreLaid, AreWrong, is_stored};
ghost use Rattle.cedar_service.specs.Ways.{ways_view, are_taken};
ghost use Rattle.cedar_service.specs.Properties.{IsNotKnown, AreTaken, IsOfAttributes, HasOneMore};

use crate::contexts::context_in;
use crate::faults::{Refusal, refuse, refuse_at_key, refuse_below};
use crate::names::{action_of, entity_of};
use crate::ways::{RequestProperties, Ways};
use cedar_endpoints::{Evaluation, Named};
use cedar_extensions::Extensions;
use cedar_fallible::add_last;
use cedar_layers::expressions::Value as CedarValue;
use cedar_layers::policies::{Entities, Entity};
use cedar_names::EntityUID;
use cedar_overlay::{AttributesError, with_attributes};
use cedar_requests::Context;
use json::Value;
use std::alloc::{AllocError, Global};
use std::collections::{BTreeMap, BTreeSet};
use std::rc::RcStr;

// Values under their names.
type Attributes = BTreeMap<RcStr, CedarValue>;

/// The store with the properties of the evaluation, if it has some: those of the subject, then those of the action,
/// then those of the resource, each as attributes of its entity. An entity that is not stored is added with these
/// alone. Properties without a member are none. Refuses the first of these: properties of an entity of which none are
/// taken, such as are no record of known values, and, unless they win, one of the name of an attribute that the entity
/// has.
pub(crate) fn laid_over(
    alloc: Global,
    stored: &Entities,
    question: &Evaluation<'_, '_>,
    ways: Ways<'_>,
    extensions: &Extensions<'_>,
) -> Result<Option<Entities>, Refusal>
    ensures laid { IfOk result (λ o. IsAskedOver (extensions_view extensions.now) (calls_of extensions.now)
        (ways_view ways.entry) stored.now (evaluation_view question.now) (laid_or stored.now o)) }
    ensures refused { IfErr result (IsToldAs (AreUnlaid (extensions_view extensions.now) (calls_of extensions.now)
        (ways_view ways.entry) stored.now (evaluation_view question.now))) }
{
    match with_named(
        alloc,
        stored,
        None,
        question.subject,
        "$.subject.type",
        question.properties.subject,
        "$.subject.properties",
        ways.properties,
        extensions,
    ) {
        Ok(laid) => with_action(alloc, stored, laid, question, ways, extensions),
        Err(refusal) => Err(refusal),
    }
}

// The same of the action, then of the resource, over what was laid over the store, if something was.
fn with_action(
    alloc: Global,
    stored: &Entities,
    laid: Option<Entities>,
    question: &Evaluation<'_, '_>,
    ways: Ways<'_>,
    extensions: &Extensions<'_>,
) -> Result<Option<Entities>, Refusal>
    ensures laid { IfOk result (λ o. IsAskedWithAction (extensions_view extensions.now) (calls_of extensions.now)
        (ways_view ways.entry) (laid_or stored.now laid) (evaluation_view question.now) (laid_or stored.now o)) }
    ensures refused { IfErr result (IsToldAs (IsActionUnlaid (extensions_view extensions.now) (calls_of extensions.now)
        (ways_view ways.entry) (laid_or stored.now laid) (evaluation_view question.now))) }
{
    match with_properties_of_action(
        alloc,
        stored,
        laid,
        question.action,
        question.properties.action,
        ways,
        extensions,
    ) {
        Ok(laid) => with_named(
            alloc,
            stored,
            laid,
            question.resource,
            "$.resource.type",
            question.properties.resource,
            "$.resource.properties",
            ways.properties,
            extensions,
        ),
        Err(refusal) => Err(refusal),
    }
}

// ---- a part

fn with_properties_of_action(
    alloc: Global,
    stored: &Entities,
    laid: Option<Entities>,
    name: &str,
    given: Option<&Value<'_>>,
    ways: Ways<'_>,
    extensions: &Extensions<'_>,
) -> Result<Option<Entities>, Refusal>
    ensures laid { IfOk result (λ o. IsWithProperties (extensions_view extensions.now) (calls_of extensions.now)
        ways.entry.properties (laid_or stored.now laid) (IsActionNamed ways.entry.action_type.now name.now)
        (option_map (λ v. value_view v.now) given.entry)
        (laid_or stored.now o)) }
    ensures refused { IfErr result (IsToldAs (AreWrongProperties (extensions_view extensions.now)
        (calls_of extensions.now) ways.entry.properties (laid_or stored.now laid)
        (IsActionNamed ways.entry.action_type.now name.now)
        (option_map (λ v. value_view v.now) given.entry)
        (codes "$.action.properties"))) }
{
    match given {
        Some(given) => if is_empty(given) {
            Ok(laid)
        } else {
            lay_action(alloc, stored, laid, name, given, ways, extensions)
        },
        None => Ok(laid),
    }
}

// Whether it is an object without a member.
fn is_empty(value: &Value<'_>) -> bool
    ensures { result ≡ is_empty (value_view value.now) }
{
    match value {
        Value::Null => false,
        Value::Bool(_) => false,
        Value::Number(_) => false,
        Value::String(_) => false,
        Value::Array(_) => false,
        Value::Object(members) => members.as_slice().is_empty(),
    }
}

fn lay_action(
    alloc: Global,
    stored: &Entities,
    laid: Option<Entities>,
    name: &str,
    given: &Value<'_>,
    ways: Ways<'_>,
    extensions: &Extensions<'_>,
) -> Result<Option<Entities>, Refusal>
    ensures laid { IfOk result (λ o. AreLaid (extensions_view extensions.now) (calls_of extensions.now)
        ways.entry.properties (laid_or stored.now laid) (IsActionNamed ways.entry.action_type.now name.now)
        (value_view given.now) (laid_or stored.now o)) }
    ensures refused { IfErr result (IsToldAs (AreWrong (extensions_view extensions.now)
        (calls_of extensions.now) ways.entry.properties (laid_or stored.now laid)
        (IsActionNamed ways.entry.action_type.now name.now) (value_view given.now)
        (codes "$.action.properties"))) }
{
    match action_of(alloc, ways.action_type, name) {
        Ok(uid) => lay_over(
            alloc,
            stored,
            laid,
            uid,
            given,
            "$.action.properties",
            ways.properties,
            extensions,
        ),
        Err(AllocError) => {
            drop(laid);
            Err(Refusal::Memory)
        }
    }
}

// Of the entity of this type and this id, whose type stands at that path.
fn with_named(
    alloc: Global,
    stored: &Entities,
    laid: Option<Entities>,
    named: Named<'_>,
    type_path: &str,
    given: Option<&Value<'_>>,
    path: &str,
    claims: RequestProperties,
    extensions: &Extensions<'_>,
) -> Result<Option<Entities>, Refusal>
    ensures laid { IfOk result (λ o. IsWithProperties (extensions_view extensions.now) (calls_of extensions.now)
        claims (laid_or stored.now laid) (IsNamedAs (named_view named.entry))
        (option_map (λ v. value_view v.now) given.entry) (laid_or stored.now o)) }
    ensures refused { IfErr result (IsToldAs (AreWrongOfNamed (extensions_view extensions.now) (calls_of extensions.now)
        claims (laid_or stored.now laid) (named_view named.entry) type_path.now
        (option_map (λ v. value_view v.now) given.entry) path.now)) }
{
    match given {
        Some(given) => if is_empty(given) {
            Ok(laid)
        } else {
            lay_named(
                alloc, stored, laid, named, type_path, given, path, claims, extensions,
            )
        },
        None => Ok(laid),
    }
}

fn lay_named(
    alloc: Global,
    stored: &Entities,
    laid: Option<Entities>,
    named: Named<'_>,
    type_path: &str,
    given: &Value<'_>,
    path: &str,
    claims: RequestProperties,
    extensions: &Extensions<'_>,
) -> Result<Option<Entities>, Refusal>
    requires { is_empty (value_view given.now) ≡ false }
    ensures laid { IfOk result (λ o. AreLaid (extensions_view extensions.now) (calls_of extensions.now)
        claims (laid_or stored.now laid) (IsNamedAs (named_view named.entry)) (value_view given.now)
        (laid_or stored.now o)) }
    ensures refused { IfErr result (IsToldAs (AreWrongOfNamed (extensions_view extensions.now) (calls_of extensions.now)
        claims (laid_or stored.now laid) (named_view named.entry) type_path.now (Some (value_view given.now))
        path.now)) }
{
    match entity_of(alloc, named, type_path) {
        Ok(uid) => lay_over(alloc, stored, laid, uid, given, path, claims, extensions),
        Err(refusal) => {
            drop(laid);
            Err(refusal)
        }
    }
}

// ---- an entity

// The store, or what was laid over it, with these attributes of this entity.
fn lay_over(
    alloc: Global,
    stored: &Entities,
    laid: Option<Entities>,
    uid: EntityUID,
    given: &Value<'_>,
    path: &str,
    claims: RequestProperties,
    extensions: &Extensions<'_>,
) -> Result<Option<Entities>, Refusal>
    ensures laid { IfOk result (λ o. IsLaidAs (extensions_view extensions.now) (calls_of extensions.now)
        claims (laid_or stored.now laid) (uid_name uid) (value_view given.now) (laid_or stored.now o)) }
    ensures refused { IfErr result (IsToldAs (IsUnlaid (extensions_view extensions.now) (calls_of extensions.now)
        claims (laid_or stored.now laid) (uid_name uid) (value_view given.now) path.now)) }
{
    let made = lay(
        alloc,
        store_of(stored, &laid),
        uid,
        given,
        path,
        claims,
        extensions,
    );
    drop(laid);
    match made {
        Ok(store) => Ok(Some(store)),
        Err(refusal) => Err(refusal),
    }
}

// What was laid over the store, if something was; else the store.
fn store_of<'s>(stored: &'s Entities, laid: &'s Option<Entities>) -> &'s Entities
    ensures { result.now ≡ laid_or stored.now laid.now }
{
    match laid {
        Some(store) => store,
        None => stored,
    }
}

fn lay(
    alloc: Global,
    store: &Entities,
    uid: EntityUID,
    given: &Value<'_>,
    path: &str,
    claims: RequestProperties,
    extensions: &Extensions<'_>,
) -> Result<Entities, Refusal>
    ensures laid { IfOk result (IsLaidAs (extensions_view extensions.now) (calls_of extensions.now)
        claims store.now (uid_name uid) (value_view given.now)) }
    ensures refused { IfErr result (IsToldAs (IsUnlaid (extensions_view extensions.now) (calls_of extensions.now)
        claims store.now (uid_name uid) (value_view given.now) path.now)) }
{
    if is_taken(claims, store, &uid) {
        lay_taken(alloc, store, uid, given, path, claims, extensions)
    } else {
        drop(uid);
        Err(refuse(alloc, path, "not taken (--request-properties)"))
    }
}

fn lay_taken(
    alloc: Global,
    store: &Entities,
    uid: EntityUID,
    given: &Value<'_>,
    path: &str,
    claims: RequestProperties,
    extensions: &Extensions<'_>,
) -> Result<Entities, Refusal>
    requires { are_taken claims (is_stored store.now (uid_name uid)) ≡ true }
    ensures laid { IfOk result (IsLaidAs (extensions_view extensions.now) (calls_of extensions.now)
        claims store.now (uid_name uid) (value_view given.now)) }
    ensures refused { IfErr result (IsToldAs (IsUnlaid (extensions_view extensions.now) (calls_of extensions.now)
        claims store.now (uid_name uid) (value_view given.now) path.now)) }
{
    match attributes_of(alloc, given, path, extensions) {
        Ok(attributes) => put(alloc, store, uid, attributes, path, claims.wins()),
        Err(refusal) => {
            drop(uid);
            Err(refusal)
        }
    }
}

// Whether properties are taken of this entity.
fn is_taken(claims: RequestProperties, store: &Entities, uid: &EntityUID) -> bool
    ensures { result ≡ are_taken claims (is_stored store.now (uid_name uid.now)) }
{
    match claims {
        RequestProperties::None => false,
        RequestProperties::Unstored => !is_stored(store, uid),
        RequestProperties::Beside => true,
        RequestProperties::Win => true,
    }
}

// ---- the attributes

// The values that the JSON says under their names. Refuses what says no record, what does not evaluate and what has an
// unknown in it.
fn attributes_of(
    alloc: Global,
    given: &Value<'_>,
    path: &str,
    extensions: &Extensions<'_>,
) -> Result<Attributes, Refusal>
    ensures said { IfOk result (AreAttributesOf (extensions_view extensions.now) (calls_of extensions.now)
        (value_view given.now)) }
    ensures refused { IfErr result (IsToldAs (AreNoAttributes (extensions_view extensions.now) (calls_of extensions.now)
        (value_view given.now) path.now)) }
{
    match context_in(alloc, given, path, extensions) {
        Ok(context) => values_of(alloc, context, path),
        Err(refusal) => Err(refusal),
    }
}

fn values_of(alloc: Global, context: Context, path: &str) -> Result<Attributes, Refusal>
    ensures values { IfOk result (λ m. context_view context ≡ known_context (whats_at m.entries)) }
    ensures refused { IfErr result (IsToldAs (IsNotKnown context path.now)) }
{
    let values = copied_values(alloc, &context, path);
    drop(context);
    values
}

fn copied_values(alloc: Global, context: &Context, path: &str) -> Result<Attributes, Refusal>
    ensures values { IfOk result (λ m. context_view context.now ≡ known_context (whats_at m.entries)) }
    ensures refused { IfErr result (IsToldAs (IsNotKnown context.now path.now)) }
{
    match context.as_value() {
        Some(values) => copied(values),
        None => Err(refuse(alloc, path, "an unknown stands in it")),
    }
}

fn copied(values: &Attributes) -> Result<Attributes, Refusal>
    ensures values { IfOk result (λ m. whats_at m.entries ≡ whats_at values.now.entries) }
    ensures memory { IfErr result (IsToldAs (λ _. ⊥)) }
{
    match values.clone() {
        Ok(copy) => Ok(copy),
        Err(_) => Err(Refusal::Memory),
    }
}

// ---- the store

// The store with these attributes of the entity: beside those that it has, or, where it isn't stored, with these alone.
fn put(
    alloc: Global,
    store: &Entities,
    uid: EntityUID,
    attributes: Attributes,
    path: &str,
    request_wins: bool,
) -> Result<Entities, Refusal>
    ensures laid { IfOk result (IsLaidOver request_wins store.now (uid_name uid) attributes) }
    ensures refused { IfErr result (IsToldAs (AreTaken request_wins store.now (uid_name uid) attributes path.now)) }
{
    if is_stored(store, &uid) {
        put_beside(alloc, store, uid, attributes, path, request_wins)
    } else {
        put_alone(alloc, store, uid, attributes)
    }
}

fn is_stored(store: &Entities, uid: &EntityUID) -> bool
    ensures { result ≡ is_stored store.now (uid_name uid.now) }
{
    match store.get(uid) {
        Some(_) => true,
        None => false,
    }
}

fn put_beside(
    alloc: Global,
    store: &Entities,
    uid: EntityUID,
    attributes: Attributes,
    path: &str,
    request_wins: bool,
) -> Result<Entities, Refusal>
    requires { is_some ((store_view store.now).entity (uid_name uid)) ≡ true }
    ensures laid { IfOk result (IsLaidOver request_wins store.now (uid_name uid) attributes) }
    ensures refused { IfErr result (IsToldAs (AreTaken request_wins store.now (uid_name uid) attributes path.now)) }
{
    match of_one(alloc, uid, attributes) {
        Ok(brought) => match with_attributes(alloc, store, brought, request_wins) {
            Ok(made) => Ok(made),
            Err(error) => {
                let refusal = refuse_attributes(alloc, path, &error);
                drop(error);
                Err(refusal)
            }
        },
        Err(AllocError) => Err(Refusal::Memory),
    }
}

fn of_one(
    alloc: Global,
    uid: EntityUID,
    attributes: Attributes,
) -> Result<BTreeMap<EntityUID, Attributes>, AllocError>
    ensures { IfOk result (λ m. m.entries ≡ (uid, attributes) ∷ []) }
{
    let mut brought: BTreeMap<EntityUID, Attributes> = BTreeMap::new(alloc);
    drop(brought.insert(uid, attributes)?);
    Ok(brought)
}

fn put_alone(
    alloc: Global,
    store: &Entities,
    uid: EntityUID,
    attributes: Attributes,
) -> Result<Entities, Refusal>
    requires { (store_view store.now).entity (uid_name uid) ≡ None }
    ensures laid { (wins : Bool) → IfOk result (IsLaidOver wins store.now (uid_name uid) attributes) }
    ensures memory { IfErr result (IsToldAs (λ _. ⊥)) }
{
    match with_one(alloc, store, uid, attributes) {
        Ok(made) => Ok(made),
        Err(AllocError) => Err(Refusal::Memory),
    }
}

// The store with an entity of these attributes alone.
fn with_one(
    alloc: Global,
    store: &Entities,
    uid: EntityUID,
    attributes: Attributes,
) -> Result<Entities, AllocError>
    ensures { IfOk result (HasOneMore store.now (uid_name uid) attributes) }
{
    let entity = Entity::from_values(
        alloc,
        uid,
        attributes,
        BTreeSet::new(alloc),
        BTreeMap::new(alloc),
    )?;
    let mut more: Vec<Entity> = Vec::new(alloc);
    add_last(&mut more, entity)?;
    store.over(alloc, more)
}

// Why they were not put: at the one that is taken.
#[cold]
fn refuse_attributes(alloc: Global, path: &str, error: &AttributesError) -> Refusal
    ensures reason { IsToldAs (λ _. IsOfAttributes error.now) result }
    ensures fault { IsToldAs (IsFaultBelow path.now) result }
{
    match error {
        AttributesError::Memory(_) => Refusal::Memory,
        AttributesError::NotStored(_) => refuse_below(alloc, path, "not stored"),
        AttributesError::HasAttribute(_, name) => refuse_taken(alloc, path, name, error),
    }
}

fn refuse_taken(alloc: Global, path: &str, name: &RcStr, error: &AttributesError) -> Refusal
    ensures { IsToldAs (IsFaultBelow path.now) result }
{
    match reason_of(alloc, error) {
        Ok(reason) => refuse_at_key(alloc, path, name, reason.as_str()),
        Err(AllocError) => Refusal::Memory,
    }
}

fn reason_of(alloc: Global, error: &AttributesError) -> Result<String, AllocError> {
    format!(in alloc; "{error}")
}
