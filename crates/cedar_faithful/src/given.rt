//! What stores, contexts, requests and maps of values hold, and what functions answer. Each function is a law, and does
//! nothing.
ghost use Rattle.std.specs.Prelude.{◌≡◌, Bool, List, [], Some};
ghost use Rattle.cedar_model.specs.Terms.{Text, EntityName};
ghost use Rattle.cedar_model.specs.Values.{Represented, expression_of};
ghost use Rattle.cedar_model.specs.World as world;
ghost use Rattle.cedar_model.specs.Settings.{ContextPart, known_context, StoredEntity};
ghost use Rattle.cedar_names.specs.declared.names.EntityUID.{EntityUID};
ghost use Rattle.cedar_values.specs.Sound.{Placed, whats_at};
ghost use Rattle.std.specs.declared.alloc.Global.{Global};
ghost use Rattle.std.specs.declared.rc.RcStr.{RcStr};
ghost use Rattle.cedar_model.specs.Agreement.{IsKnown, IsFaithful, IsFaithfulPart, IsFaithfulContext, EachStored};
ghost use Rattle.cedar_model.specs.Agreement.{AnswerFaithfully};
ghost use Rattle.cedar_laws.specs.Faithful.{StoreHoldsNoExtensionValue, ContextHoldsNoExtensionValue};
ghost use Rattle.cedar_laws.specs.Faithful.{MapHoldsNoExtensionValue, AnswerNoExtensionValue, NoneAnswers};
ghost use Rattle.cedar_layers.specs.Stores.{store_view, store_of, stored_entity, last_of_each_name, facts_of_values};
ghost use Rattle.cedar_layers.specs.declared.policies.entities.Entity.{Entity};
ghost use Rattle.cedar_hierarchy.specs.Ancestry.{AreAlike};
ghost use Rattle.cedar_extensions.specs.Extensions.{HasNone, calls_of};
ghost use Rattle.cedar_extensions.specs.Computations.{AreBuiltIn};
ghost use Rattle.cedar_requests.specs.Contexts.{context_view};
ghost use Rattle.cedar_requests.specs.Requests.{request_view};
ghost use Rattle.cedar_requests.specs.Substitutions.{values_for};
ghost use Rattle.cedar_faithful.specs.Held.{EachHoldsNoExtensionValue, EachIsFaithful, FactsAre, MapsEachTo};

use cedar_extensions::Extensions;
use cedar_layers::policies::Entities;
use cedar_requests::{Context, Request};
use cedar_values::Value;
use std::collections::HashMap;
use std::rc::RcStr;

/// The attributes and tags of a store that holds no extension value are faithful.
pub fn stores_are_faithful(entities: &Entities)
    ensures { StoreHoldsNoExtensionValue (store_view entities.now) → (X : world.Extensions) (ans : world.Functions)
        → EachStored (IsFaithfulPart X ans) (store_view entities.now) }
{}

/// A store of entities that hold no extension value holds none: that of `Entities::with`, and one whose entities are
/// those but for their ancestors, as `closed` promises.
pub fn stores_hold_what_entities_hold(entities: &Entities)
    ensures whole { (es : List Entity) (is_partial : Bool) → EachHoldsNoExtensionValue es
        → StoreHoldsNoExtensionValue (store_of es is_partial) }
    ensures alike { (es : List Entity) → EachHoldsNoExtensionValue es
        → ((n : EntityName) → AreAlike (last_of_each_name es n) (stored_entity entities.now n))
        → StoreHoldsNoExtensionValue (store_view entities.now) }
{}

/// A store of entities whose values are faithful has faithful values: that of `Entities::with`, and one whose entities
/// are those but for their ancestors, as `closed` promises.
pub fn stores_keep_faithful_entities(entities: &Entities)
    ensures whole { (X : world.Extensions) (ans : world.Functions) (es : List Entity) (is_partial : Bool)
        → EachIsFaithful X ans es → EachStored (IsFaithfulPart X ans) (store_of es is_partial) }
    ensures alike { (X : world.Extensions) (ans : world.Functions) (es : List Entity) → EachIsFaithful X ans es
        → ((n : EntityName) → AreAlike (last_of_each_name es n) (stored_entity entities.now n))
        → EachStored (IsFaithfulPart X ans) (store_view entities.now) }
{}

/// The values of a context that holds no extension value are faithful.
pub fn contexts_are_faithful(context: &Context)
    ensures { ContextHoldsNoExtensionValue (context_view context.now) → (X : world.Extensions)
        (ans : world.Functions) → IsFaithfulContext X ans (context_view context.now) }
{}

/// So are those of a request's context.
pub fn requests_are_faithful(request: &Request)
    ensures { ContextHoldsNoExtensionValue (request_view request.now).context_part → (X : world.Extensions)
        (ans : world.Functions) → IsFaithfulContext X ans (request_view request.now).context_part }
{}

/// The values of a map that holds no extension value are faithful, and written without unknowns.
pub fn mapped_values_are_faithful(map: &HashMap<RcStr, Value>)
    ensures faithful { MapHoldsNoExtensionValue (values_for map.now.entries) → (X : world.Extensions)
        (ans : world.Functions) (n : Text) (v : Represented) → values_for map.now.entries n ≡ Some v
        → IsFaithful X ans v }
    ensures known { MapHoldsNoExtensionValue (values_for map.now.entries) → (ans : world.Functions) (n : Text)
        (v : Represented) → values_for map.now.entries n ≡ Some v → IsKnown ans (expression_of v) }
{}

/// A map of faithful values has faithful values for unknowns.
pub fn maps_keep_faithful_values(map: &HashMap<RcStr, Value>)
    ensures { (X : world.Extensions) (ans : world.Functions) → MapsEachTo (IsFaithful X ans) map.now.entries
        → (n : Text) (v : Represented) → values_for map.now.entries n ≡ Some v → IsFaithful X ans v }
{}

/// What is made of faithful values is faithful: a context, as `Context::from_values` promises, and the attributes and
/// tags of an entity, as `Entity::from_values` does.
pub fn faithful_values_make_faithful_parts()
    ensures context { (X : world.Extensions) (ans : world.Functions) (c : ContextPart)
        (es : List (RcStr Global × Placed)) → MapsEachTo (IsFaithful X ans) es → c ≡ known_context (whats_at es)
        → IsFaithfulContext X ans c }
    ensures entity { (X : world.Extensions) (ans : world.Functions) (x : StoredEntity) (ancestors : List EntityUID)
        (attrs tags : List (RcStr Global × Placed)) → MapsEachTo (IsFaithful X ans) attrs
        → MapsEachTo (IsFaithful X ans) tags → x ≡ facts_of_values attrs ancestors tags
        → FactsAre (IsFaithfulPart X ans) x }
{}

/// Functions that answer no extension value answer faithfully. Where there is no function none answers, and where each
/// is the built-in `unknown` none answers a value.
pub fn functions_are_faithful(extensions: &Extensions<'_>)
    ensures faithful { AnswerNoExtensionValue (calls_of extensions.now) → (X : world.Extensions)
        (ans : world.Functions) → AnswerFaithfully X ans (calls_of extensions.now) }
    ensures none { HasNone extensions.now → NoneAnswers (calls_of extensions.now) }
    ensures holds_none { HasNone extensions.now → AnswerNoExtensionValue (calls_of extensions.now) }
    ensures built_in { AreBuiltIn extensions.now → AnswerNoExtensionValue (calls_of extensions.now) }
{}
