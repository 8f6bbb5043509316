//! What is left open in a partial response.
ghost use Rattle.std.specs.Prelude.{◌≡◌, ◌++◌, ◌∷◌, [], map, IfOk, OnOk};
ghost use Rattle.std.specs.Rc.{rc_str_bytes};
ghost use Rattle.cedar_model.specs.Settings.{printed_entity};
ghost use Rattle.cedar_names.specs.Names.{uid_name};
ghost use Rattle.cedar_unknowns.specs.Occurrences.{asked, asked_each};
ghost use Rattle.cedar_cli.specs.Steps.{entities_lacked, names_asked, open_names};

use cedar_policy_core::ast::{EntityUID, Unknown, Unknowns};
use cedar_policy_core::authorizer::PartialResponse;
use std::alloc::{AllocError, Global};
use std::collections::BTreeSet;
use std::rc::RcStr;

/// The names of the unknowns that are left, each once, in the order in which they stand first: the request's, and then
/// those of what is left of the policies.
pub(crate) fn unknown_names(
    alloc: Global,
    response: &PartialResponse,
) -> Result<Vec<RcStr>, AllocError> {
    let unknowns: Vec<Unknown> = response.unknowns(alloc)?;
    let names = names_of(alloc, &unknowns);
    drop(unknowns);
    names
}

fn names_of(alloc: Global, unknowns: &[Unknown]) -> Result<Vec<RcStr>, AllocError> {
    let mut seen: BTreeSet<RcStr> = BTreeSet::new(alloc);
    let mut names: Vec<RcStr> = Vec::new(alloc);
    'unknowns: for unknown in unknowns {
        put_name(&unknown.name, &mut seen, &mut names)?;
    }
    Ok(names)
}

fn put_name(
    name: &RcStr,
    seen: &mut BTreeSet<RcStr>,
    names: &mut Vec<RcStr>,
) -> Result<(), AllocError> {
    if seen.contains(name) {
        return Ok(());
    }
    let copy: RcStr = name.clone()?;
    drop(seen.insert(copy)?);
    let copy: RcStr = name.clone()?;
    names.push(copy)?;
    Ok(())
}

/// The entities that a store lacked, each once.
pub(crate) fn entities_left(
    alloc: Global,
    response: &PartialResponse,
) -> Result<Vec<EntityUID>, AllocError>
    ensures { IfOk result (λ us. map uid_name us.items ≡ entities_lacked response.now) }
{
    response.unknown_entities(alloc)
}

/// The names that a step can give values for: those of the unknowns that are left, and the texts of the entities that a
/// store lacked.
pub(crate) fn open_names(
    alloc: Global,
    response: &PartialResponse,
) -> Result<Vec<RcStr>, AllocError>
    ensures { IfOk result (λ names. map rc_str_bytes names.items ≡ open_names response.now) }
{
    let mut open: Vec<RcStr> = Vec::new(alloc);
    let unknowns: Vec<Unknown> = response.unknowns(alloc)?;
    let pushed = open_unknowns(&unknowns, &mut open);
    drop(unknowns);
    pushed?;
    let entities = entities_left(alloc, response)?;
    let pushed = open_entities(alloc, &entities, &mut open);
    drop(entities);
    pushed?;
    Ok(open)
}

fn open_unknowns(unknowns: &[Unknown], names: &mut Vec<RcStr>) -> Result<(), AllocError>
    ensures { OnOk result (map rc_str_bytes names.new.items
        ≡ map rc_str_bytes names.old.items ++ names_asked (asked_each unknowns.now)) }
{
    'unknowns: for unknown in unknowns {
        open_unknown(unknown, names)?;
    }
    Ok(())
}

fn open_unknown(unknown: &Unknown, names: &mut Vec<RcStr>) -> Result<(), AllocError>
    ensures { OnOk result (map rc_str_bytes names.new.items
        ≡ map rc_str_bytes names.old.items ++ (asked unknown.now).0 ∷ []) }
{
    let name: RcStr = unknown.name.clone()?;
    names.push(name)?;
    Ok(())
}

fn open_entities(
    alloc: Global,
    entities: &[EntityUID],
    names: &mut Vec<RcStr>,
) -> Result<(), AllocError>
    ensures { OnOk result (map rc_str_bytes names.new.items
        ≡ map rc_str_bytes names.old.items ++ map printed_entity (map uid_name entities.now)) }
{
    'entities: for entity in entities {
        open_entity(alloc, entity, names)?;
    }
    Ok(())
}

fn open_entity(alloc: Global, entity: &EntityUID, names: &mut Vec<RcStr>) -> Result<(), AllocError>
    ensures { OnOk result (map rc_str_bytes names.new.items
        ≡ map rc_str_bytes names.old.items ++ printed_entity (uid_name entity.now) ∷ []) }
{
    let name = text_of(alloc, entity)?;
    names.push(name)?;
    Ok(())
}

fn text_of(alloc: Global, entity: &EntityUID) -> Result<RcStr, AllocError>
    ensures { IfOk result (λ t. rc_str_bytes t ≡ printed_entity (uid_name entity.now)) }
{
    Ok(RcStr::from_string(entity.to_string(alloc)?)?)
}
