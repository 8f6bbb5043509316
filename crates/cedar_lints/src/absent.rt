//! What policies name, and nothing has.
ghost use Rattle.std.specs.Prelude.{◌≡◌, ◌++◌, ◌∷◌, [], option_map, codes, IfOk, OnOk};
ghost use Rattle.std.specs.Bool.{nat_eq};
ghost use Rattle.std.specs.List.{ends_with};
ghost use Rattle.cedar_model.specs.Outcomes.{text_eq};
ghost use Rattle.cedar_names.specs.Leaves.{texts_view};
ghost use Rattle.cedar_names.specs.Names.{type_text, uid_name};
ghost use Rattle.cedar_layers.specs.Policies.{effect_view};
ghost use Rattle.cedar_layers.specs.PolicySets.{stored_policies};
ghost use Rattle.cedar_lints.specs.Absent as specs;
ghost use Rattle.cedar_lints.specs.Absent.{absent_of, absent_names, absent_in, absent_each, sheet_view, extent_view};
ghost use Rattle.cedar_lints.specs.Absent.{mention_key, named_key, is_action_type};
ghost use Rattle.cedar_lints.specs.Keys.{noted, noted_each, nothing};
ghost use Rattle.cedar_lints.specs.Knowing.{known_view};
ghost use Rattle.cedar_lints.specs.Mentions.{mention_view, mentions_seen, named_view};

use crate::keys::{has_key, put_key, put_text};
use crate::knowing::Known;
use crate::mentions::{Mention, Named, push_policy_mentions};
use cedar_fallible::add_last;
use cedar_layers::policies::{Effect, Policy, PolicySet};
use cedar_names::{EntityType, EntityUID};
use std::alloc::{AllocError, Global};
use std::collections::BTreeSet;
use std::rc::RcStr;

/// Which policies are looked at, and what is reported of them.
#[derive(Clone, Copy)]
pub enum Extent {
    /// All policies and templates, and all that they name.
    All,
    /// Those that forbid, where what is absent may allow what is meant to be denied; and of what they name no action by
    /// itself, since many stores describe no actions.
    Forbids,
}

// Those that are noted, and the keys by which each is noted once.
#[derive(Drop)]
struct Sheet<'p> {
    keys: BTreeSet<Vec<RcStr>>,
    items: Vec<Mention<'p>>,
}

/// What these policies and templates name, and is not known: entities, types, and action groups, each once, where it is
/// named first. An entity whose type is not known is reported as its type; a group is not known where no entity that is known
/// is in it, nor is it one itself. Refuses only if out of memory.
pub fn absent_names<'p>(
    alloc: Global,
    extent: Extent,
    policies: &'p PolicySet,
    templates: &'p [Policy],
    known: &Known,
) -> Result<Vec<Mention<'p>>, AllocError>
    ensures { IfOk result (λ v. mentions_seen v.items ≡ absent_names (extent_view extent) (known_view known.now)
        (stored_policies policies.now ++ templates.now)) }
{
    let mut sheet: Sheet<'p> = fresh(alloc);
    note_of_policies(alloc, extent, policies, known, &mut sheet)?;
    note_of_templates(alloc, extent, templates, known, &mut sheet)?;
    Ok(taken(sheet))
}

// Nothing is noted.
fn fresh<'p>(alloc: Global) -> Sheet<'p>
    ensures { sheet_view result ≡ nothing _ }
{
    let keys: BTreeSet<Vec<RcStr>> = BTreeSet::new(alloc);
    let items: Vec<Mention<'p>> = Vec::new(alloc);
    Sheet { keys, items }
}

// What is noted.
fn taken(sheet: Sheet<'_>) -> Vec<Mention<'_>>
    ensures { mentions_seen result.items ≡ (sheet_view sheet.entry).items }
{
    let Sheet { keys: _, items } = sheet;
    items
}

fn note_of_policies<'p>(
    alloc: Global,
    extent: Extent,
    policies: &'p PolicySet,
    known: &Known,
    sheet: &mut Sheet<'p>,
) -> Result<(), AllocError>
    ensures { OnOk result (sheet_view sheet.new ≡ noted_each mention_key (sheet_view sheet.old)
        (absent_each (extent_view extent) (known_view known.now) (stored_policies policies.now))) }
{
    'policies: for policy in policies.policies() {
        note_of_policy(alloc, extent, policy, known, sheet)?;
    }
    Ok(())
}

fn note_of_templates<'p>(
    alloc: Global,
    extent: Extent,
    templates: &'p [Policy],
    known: &Known,
    sheet: &mut Sheet<'p>,
) -> Result<(), AllocError>
    ensures { OnOk result (sheet_view sheet.new ≡ noted_each mention_key (sheet_view sheet.old)
        (absent_each (extent_view extent) (known_view known.now) templates.now)) }
{
    'templates: for template in templates {
        note_of_policy(alloc, extent, template, known, sheet)?;
    }
    Ok(())
}

fn note_of_policy<'p>(
    alloc: Global,
    extent: Extent,
    policy: &'p Policy,
    known: &Known,
    sheet: &mut Sheet<'p>,
) -> Result<(), AllocError>
    ensures { OnOk result (sheet_view sheet.new ≡ noted_each mention_key (sheet_view sheet.old)
        (absent_in (extent_view extent) (known_view known.now) policy.now)) }
{
    if is_looked_at(extent, policy.effect()) {
        note_of_mentions(alloc, extent, policy, known, sheet)
    } else {
        Ok(())
    }
}

fn note_of_mentions<'p>(
    alloc: Global,
    extent: Extent,
    policy: &'p Policy,
    known: &Known,
    sheet: &mut Sheet<'p>,
) -> Result<(), AllocError>
    ensures { OnOk result (sheet_view sheet.new ≡ noted_each mention_key (sheet_view sheet.old)
        (specs.absent_of_policy (extent_view extent) (known_view known.now) policy.now)) }
{
    let mut mentions: Vec<Mention<'p>> = Vec::new(alloc);
    push_policy_mentions(policy, &mut mentions)?;
    note_each(alloc, extent, &mentions, known, sheet)?;
    Ok(())
}

fn is_looked_at(extent: Extent, effect: Effect) -> bool
    ensures { result ≡ specs.is_looked_at (extent_view extent) (effect_view effect) }
{
    match extent {
        Extent::All => true,
        Extent::Forbids => forbids(effect),
    }
}

fn forbids(effect: Effect) -> bool
    ensures { result ≡ specs.forbids (effect_view effect) }
{
    match effect {
        Effect::Forbid => true,
        Effect::Permit => false,
    }
}

fn note_each<'p>(
    alloc: Global,
    extent: Extent,
    mentions: &[Mention<'p>],
    known: &Known,
    sheet: &mut Sheet<'p>,
) -> Result<(), AllocError>
    ensures { OnOk result (sheet_view sheet.new ≡ noted_each mention_key (sheet_view sheet.old)
        (specs.absent_of_each (extent_view extent) (known_view known.now) (mentions_seen mentions.now))) }
{
    'mentions: for mention in mentions {
        note_if_absent(alloc, extent, *mention, known, sheet)?;
    }
    Ok(())
}

fn note_if_absent<'p>(
    alloc: Global,
    extent: Extent,
    mention: Mention<'p>,
    known: &Known,
    sheet: &mut Sheet<'p>,
) -> Result<(), AllocError>
    ensures { OnOk result (sheet_view sheet.new ≡ noted_each mention_key (sheet_view sheet.old)
        (specs.reported (extent_view extent) (absent_of (known_view known.now) (mention_view mention.entry)))) }
{
    match absent_of(mention, known) {
        Some(absent) => note_if_reported(alloc, extent, absent, sheet),
        None => Ok(()),
    }
}

fn note_if_reported<'p>(
    alloc: Global,
    extent: Extent,
    absent: Mention<'p>,
    sheet: &mut Sheet<'p>,
) -> Result<(), AllocError>
    ensures { OnOk result (sheet_view sheet.new ≡ noted_each mention_key (sheet_view sheet.old)
        (specs.reported_of (extent_view extent) (mention_view absent.entry))) }
{
    if is_reported(extent, absent.named) {
        note(alloc, absent, sheet)
    } else {
        Ok(())
    }
}

// What is named, if it is not known; of an entity whose type is not known the type.
fn absent_of<'p>(mention: Mention<'p>, known: &Known) -> Option<Mention<'p>>
    ensures { option_map mention_view result ≡ absent_of (known_view known.now) (mention_view mention.entry) }
{
    match mention.named {
        Named::Entity(uid) => absent_entity(mention, uid, known),
        Named::EntityType(ty) => absent_type(mention, ty, known),
        Named::Group(uid) => absent_group(mention, uid, known),
    }
}

fn absent_type<'p>(mention: Mention<'p>, ty: &EntityType, known: &Known) -> Option<Mention<'p>>
    ensures { option_map mention_view result
        ≡ specs.absent_type (known_view known.now) (mention_view mention.entry) (type_text ty.now) }
{
    if known.has_type(ty) {
        None
    } else {
        Some(mention)
    }
}

fn absent_entity<'p>(mention: Mention<'p>, uid: &'p EntityUID, known: &Known) -> Option<Mention<'p>>
    ensures { option_map mention_view result
        ≡ specs.absent_entity (known_view known.now) (mention_view mention.entry) uid.now }
{
    if !known.has_type(uid.entity_type()) {
        Some(Mention {
            named: Named::EntityType(uid.entity_type()),
            place: mention.place,
        })
    } else if known.has_entity(uid) {
        None
    } else {
        Some(mention)
    }
}

fn absent_group<'p>(mention: Mention<'p>, uid: &EntityUID, known: &Known) -> Option<Mention<'p>>
    ensures { option_map mention_view result
        ≡ specs.absent_group (known_view known.now) (mention_view mention.entry) (uid_name uid.now) }
{
    if known.has_entity(uid) {
        None
    } else {
        Some(mention)
    }
}

fn is_reported(extent: Extent, named: Named<'_>) -> bool
    ensures { result ≡ specs.is_reported (extent_view extent) (named_view named.entry) }
{
    match extent {
        Extent::All => true,
        Extent::Forbids => !is_action(named),
    }
}

// Whether it is an action by itself.
fn is_action(named: Named<'_>) -> bool
    ensures { result ≡ specs.is_action (named_view named.entry) }
{
    match named {
        Named::Entity(uid) => is_action_type(uid.entity_type()),
        Named::EntityType(_) => false,
        Named::Group(_) => false,
    }
}

// Whether entities of the type are actions: the last part of its name is `Action`.
fn is_action_type(ty: &EntityType) -> bool
    ensures { result ≡ is_action_type (type_text ty.now) }
{
    let text = ty.text().as_str();
    is_action_alone(text) || ends_in_action(text)
}

fn is_action_alone(text: &str) -> bool
    ensures { result ≡ text_eq text.now (codes "Action") }
{
    text == "Action"
}

fn ends_in_action(text: &str) -> bool
    ensures { result ≡ ends_with nat_eq text.now (codes "::Action") }
{
    text.ends_with("::Action")
}

// Notes it, unless it is noted.
fn note<'p>(alloc: Global, absent: Mention<'p>, sheet: &mut Sheet<'p>) -> Result<(), AllocError>
    ensures { OnOk result
        (sheet_view sheet.new ≡ noted mention_key (sheet_view sheet.old) (mention_view absent.entry)) }
{
    let key = key_of(alloc, absent.named)?;
    if has_key(&sheet.keys, &key) {
        Ok(())
    } else {
        put_key(&mut sheet.keys, key)?;
        add_last(&mut sheet.items, absent)?;
        Ok(())
    }
}

fn key_of(alloc: Global, named: Named<'_>) -> Result<Vec<RcStr>, AllocError>
    ensures { IfOk result (λ k. texts_view k.items ≡ named_key (named_view named.entry)) }
{
    match named {
        Named::Entity(uid) => key_of_entity(alloc, "entity", uid),
        Named::EntityType(ty) => key_of_type(alloc, ty),
        Named::Group(uid) => key_of_entity(alloc, "group", uid),
    }
}

fn key_of_type(alloc: Global, ty: &EntityType) -> Result<Vec<RcStr>, AllocError>
    ensures { IfOk result (λ k. texts_view k.items ≡ codes "type" ∷ type_text ty.now ∷ []) }
{
    let mut key = key_beginning(alloc, "type")?;
    put_text(ty.text(), &mut key)?;
    Ok(key)
}

// What it is named as, its type and its id.
fn key_of_entity(alloc: Global, what: &str, uid: &EntityUID) -> Result<Vec<RcStr>, AllocError>
    ensures { IfOk result (λ k. texts_view k.items
        ≡ what.now ∷ (uid_name uid.now).type_name ∷ (uid_name uid.now).id ∷ []) }
{
    let mut key = key_beginning(alloc, what)?;
    put_text(uid.entity_type().text(), &mut key)?;
    put_text(uid.eid(), &mut key)?;
    Ok(key)
}

fn key_beginning(alloc: Global, what: &str) -> Result<Vec<RcStr>, AllocError>
    ensures { IfOk result (λ k. texts_view k.items ≡ what.now ∷ []) }
{
    let mut key: Vec<RcStr> = Vec::new(alloc);
    key.push(RcStr::from_str(alloc, what)?)?;
    Ok(key)
}
