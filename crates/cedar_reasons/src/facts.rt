//! What may be known of a request and of the entities of a store, fact by fact.
ghost use Rattle.std.specs.Prelude.{◌≡◌, [], ◌∷◌, ◌++◌, option_copied, IfOk, OnOk};
ghost use Rattle.std.specs.Rc.{rc_str_bytes};
ghost use Rattle.cedar_names.specs.Names.{uid_name};
ghost use Rattle.cedar_layers.specs.Stores.{entity_name};
ghost use Rattle.cedar_requests.specs.Requests.{request_view, context_given};
ghost use Rattle.cedar_reasons.specs.Facts.{fact_view, facts_view, is_principal, is_action, is_resource};
ghost use Rattle.cedar_reasons.specs.Facts.{is_context, is_context_value, is_absence, is_entity};
ghost use Rattle.cedar_reasons.specs.Facts.{is_attribute, is_tag, is_same, is_kept, is_one_of};
ghost use Rattle.cedar_reasons.specs.Facts.{lent, facts_of_entity, attribute_facts, tag_facts, of_attribute, of_tag};
ghost use Rattle.cedar_reasons.specs.Facts.{context_facts, no_entity_facts, every_fact};

use crate::contexts::add_context;
use cedar_fallible::add_last;
use cedar_layers::expressions::EntityUID;
use cedar_layers::policies::Entity;
use cedar_requests::{Context, Request};
use std::alloc::{AllocError, Global};
use std::rc::RcStr;

/// A fact of a request and a store.
#[derive(Clone, Copy)]
pub enum Fact<'x> {
    /// Who asks.
    Principal,
    /// What is to be done.
    Action,
    /// What it is to be done with.
    Resource,
    /// That the context is as it is: the names of its attributes.
    Context,
    /// The value of the context's attribute of this name.
    ContextValue(&'x RcStr),
    /// That there is no entity but those of the store.
    NoOtherEntity,
    /// That the entity is as it is stored: its ancestors, and the names of its attributes and tags.
    Entity(&'x EntityUID),
    /// The value of the entity's attribute of this name.
    Attribute(&'x EntityUID, &'x RcStr),
    /// The value of the entity's tag of this name.
    Tag(&'x EntityUID, &'x RcStr),
}

/// Each fact of the request over the store of these entities: those of the request, that there is no other entity, those
/// of the context and each of its values, and then entity by entity what is stored of it, each attribute's value and
/// each tag's. Refuses only if out of memory.
pub fn all_facts<'x>(
    alloc: Global,
    request: &'x Request,
    entities: &[&'x Entity],
) -> Result<Vec<Fact<'x>>, AllocError>
    ensures { IfOk result (λ v. facts_view v.items ≡
        every_fact (request_view request.now).context_part (lent entities.now)) }
{
    let mut facts = request_facts(alloc, request)?;
    'entities: for entity in entities {
        add_entity(&mut facts, entity)?;
    }
    Ok(facts)
}

// Those of the request, and that there is no other entity.
fn request_facts<'x>(alloc: Global, request: &'x Request) -> Result<Vec<Fact<'x>>, AllocError>
    ensures { IfOk result (λ v. facts_view v.items ≡ no_entity_facts (request_view request.now).context_part) }
{
    let mut facts: Vec<Fact<'x>> = Vec::new(alloc);
    add_last(&mut facts, Fact::Principal)?;
    add_last(&mut facts, Fact::Action)?;
    add_last(&mut facts, Fact::Resource)?;
    add_last(&mut facts, Fact::NoOtherEntity)?;
    add_given_context(&mut facts, request.context())?;
    Ok(facts)
}

fn add_given_context<'x>(
    facts: &mut Vec<Fact<'x>>,
    context: Option<&'x Context>,
) -> Result<(), AllocError>
    ensures { OnOk result (facts_view facts.new.items ≡ facts_view facts.old.items
        ++ context_facts (context_given (option_copied context.entry))) }
{
    match context {
        Some(context) => add_context(facts, context),
        None => {
            add_last(facts, Fact::Context)?;
            Ok(())
        }
    }
}

// Puts those of the entity behind the others.
fn add_entity<'x>(facts: &mut Vec<Fact<'x>>, entity: &'x Entity) -> Result<(), AllocError>
    ensures { OnOk result (facts_view facts.new.items ≡ facts_view facts.old.items ++ facts_of_entity entity.now) }
{
    add_last(facts, Fact::Entity(entity.uid()))?;
    add_attributes(facts, entity)?;
    add_tags(facts, entity)?;
    Ok(())
}

fn add_attributes<'x>(facts: &mut Vec<Fact<'x>>, entity: &'x Entity) -> Result<(), AllocError>
    ensures { OnOk result (facts_view facts.new.items ≡ facts_view facts.old.items
        ++ attribute_facts entity.now) }
{
    'names: for name in entity.keys() {
        add_attribute(facts, entity, name)?;
    }
    Ok(())
}

fn add_attribute<'x>(
    facts: &mut Vec<Fact<'x>>,
    entity: &'x Entity,
    name: &'x RcStr,
) -> Result<(), AllocError>
    ensures { OnOk result (facts_view facts.new.items ≡ facts_view facts.old.items
        ++ of_attribute (entity_name entity.now) (rc_str_bytes name.now) ∷ []) }
{
    add_last(facts, Fact::Attribute(entity.uid(), name))?;
    Ok(())
}

fn add_tags<'x>(facts: &mut Vec<Fact<'x>>, entity: &'x Entity) -> Result<(), AllocError>
    ensures { OnOk result (facts_view facts.new.items ≡ facts_view facts.old.items ++ tag_facts entity.now) }
{
    'names: for name in entity.tag_keys() {
        add_tag(facts, entity, name)?;
    }
    Ok(())
}

fn add_tag<'x>(
    facts: &mut Vec<Fact<'x>>,
    entity: &'x Entity,
    name: &'x RcStr,
) -> Result<(), AllocError>
    ensures { OnOk result (facts_view facts.new.items ≡ facts_view facts.old.items
        ++ of_tag (entity_name entity.now) (rc_str_bytes name.now) ∷ []) }
{
    add_last(facts, Fact::Tag(entity.uid(), name))?;
    Ok(())
}

/// Whether the fact is among these.
pub fn is_kept(facts: &[Fact<'_>], wanted: Fact<'_>) -> bool
    ensures { result ≡ is_kept (facts_view facts.now) (fact_view wanted.entry) }
{
    is_one_of(facts, wanted)
}

fn is_one_of(facts: &[Fact<'_>], wanted: Fact<'_>) -> bool
    ensures { result ≡ is_one_of (fact_view wanted.entry) facts.now }
{
    facts.iter().any(|fact| is_same(wanted, *fact))
}

// Whether both are one fact.
fn is_same(wanted: Fact<'_>, fact: Fact<'_>) -> bool
    ensures { result ≡ is_same (fact_view wanted.entry) (fact_view fact.entry) }
{
    match wanted {
        Fact::Principal => is_principal(fact),
        Fact::Action => is_action(fact),
        Fact::Resource => is_resource(fact),
        Fact::Context => is_context(fact),
        Fact::ContextValue(name) => is_context_value(name, fact),
        Fact::NoOtherEntity => is_no_other(fact),
        Fact::Entity(uid) => is_entity(uid, fact),
        Fact::Attribute(uid, name) => is_attribute(uid, name, fact),
        Fact::Tag(uid, name) => is_tag(uid, name, fact),
    }
}

fn is_principal(fact: Fact<'_>) -> bool
    ensures { result ≡ is_principal (fact_view fact.entry) }
{
    match fact {
        Fact::Principal => true,
        Fact::Action => false,
        Fact::Resource => false,
        Fact::Context => false,
        Fact::ContextValue(_) => false,
        Fact::NoOtherEntity => false,
        Fact::Entity(_) => false,
        Fact::Attribute(_, _) => false,
        Fact::Tag(_, _) => false,
    }
}

fn is_action(fact: Fact<'_>) -> bool
    ensures { result ≡ is_action (fact_view fact.entry) }
{
    match fact {
        Fact::Principal => false,
        Fact::Action => true,
        Fact::Resource => false,
        Fact::Context => false,
        Fact::ContextValue(_) => false,
        Fact::NoOtherEntity => false,
        Fact::Entity(_) => false,
        Fact::Attribute(_, _) => false,
        Fact::Tag(_, _) => false,
    }
}

fn is_resource(fact: Fact<'_>) -> bool
    ensures { result ≡ is_resource (fact_view fact.entry) }
{
    match fact {
        Fact::Principal => false,
        Fact::Action => false,
        Fact::Resource => true,
        Fact::Context => false,
        Fact::ContextValue(_) => false,
        Fact::NoOtherEntity => false,
        Fact::Entity(_) => false,
        Fact::Attribute(_, _) => false,
        Fact::Tag(_, _) => false,
    }
}

fn is_context(fact: Fact<'_>) -> bool
    ensures { result ≡ is_context (fact_view fact.entry) }
{
    match fact {
        Fact::Principal => false,
        Fact::Action => false,
        Fact::Resource => false,
        Fact::Context => true,
        Fact::ContextValue(_) => false,
        Fact::NoOtherEntity => false,
        Fact::Entity(_) => false,
        Fact::Attribute(_, _) => false,
        Fact::Tag(_, _) => false,
    }
}

fn is_context_value(name: &RcStr, fact: Fact<'_>) -> bool
    ensures { result ≡ is_context_value (rc_str_bytes name.now) (fact_view fact.entry) }
{
    match fact {
        Fact::Principal => false,
        Fact::Action => false,
        Fact::Resource => false,
        Fact::Context => false,
        Fact::ContextValue(other) => name == other,
        Fact::NoOtherEntity => false,
        Fact::Entity(_) => false,
        Fact::Attribute(_, _) => false,
        Fact::Tag(_, _) => false,
    }
}

fn is_no_other(fact: Fact<'_>) -> bool
    ensures { result ≡ is_absence (fact_view fact.entry) }
{
    match fact {
        Fact::Principal => false,
        Fact::Action => false,
        Fact::Resource => false,
        Fact::Context => false,
        Fact::ContextValue(_) => false,
        Fact::NoOtherEntity => true,
        Fact::Entity(_) => false,
        Fact::Attribute(_, _) => false,
        Fact::Tag(_, _) => false,
    }
}

fn is_entity(uid: &EntityUID, fact: Fact<'_>) -> bool
    ensures { result ≡ is_entity (uid_name uid.now) (fact_view fact.entry) }
{
    match fact {
        Fact::Principal => false,
        Fact::Action => false,
        Fact::Resource => false,
        Fact::Context => false,
        Fact::ContextValue(_) => false,
        Fact::NoOtherEntity => false,
        Fact::Entity(other) => uid == other,
        Fact::Attribute(_, _) => false,
        Fact::Tag(_, _) => false,
    }
}

fn is_attribute(uid: &EntityUID, name: &RcStr, fact: Fact<'_>) -> bool
    ensures { result ≡ is_attribute (uid_name uid.now) (rc_str_bytes name.now) (fact_view fact.entry) }
{
    match fact {
        Fact::Principal => false,
        Fact::Action => false,
        Fact::Resource => false,
        Fact::Context => false,
        Fact::ContextValue(_) => false,
        Fact::NoOtherEntity => false,
        Fact::Entity(_) => false,
        Fact::Attribute(other, other_name) => uid == other && name == other_name,
        Fact::Tag(_, _) => false,
    }
}

fn is_tag(uid: &EntityUID, name: &RcStr, fact: Fact<'_>) -> bool
    ensures { result ≡ is_tag (uid_name uid.now) (rc_str_bytes name.now) (fact_view fact.entry) }
{
    match fact {
        Fact::Principal => false,
        Fact::Action => false,
        Fact::Resource => false,
        Fact::Context => false,
        Fact::ContextValue(_) => false,
        Fact::NoOtherEntity => false,
        Fact::Entity(_) => false,
        Fact::Attribute(_, _) => false,
        Fact::Tag(other, other_name) => uid == other && name == other_name,
    }
}
