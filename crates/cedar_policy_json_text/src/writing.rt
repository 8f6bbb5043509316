//! Policies as text, under their ids.
ghost use Rattle.std.specs.Prelude.{IfErr};
ghost use Rattle.cedar_policy_json_text.specs.Kept.{IsOfText};

use crate::errors::PolicyTextError;
use crate::kept::annotated_id;
use crate::names::is_linked;
use crate::paths::another_name;
use crate::placing::placed_with;
use cedar_layers::policies::{Annotations, Policy};
use cedar_names::shared::write_quoted;
use cedar_policy_set_reader::ReadPolicies;
use cedar_text_printer::policy_to_cedar;
use std::alloc::{AllocError, Global};
use std::collections::BTreeMap;
use std::fmt;
use std::rc::RcStr;

/// The policies, and behind them the templates, with an empty line between two.
pub(crate) fn text_of(alloc: Global, set: &ReadPolicies) -> Result<String, PolicyTextError>
    ensures { IfErr result IsOfText }
{
    let mut text = String::new(alloc);
    let mut number: usize = 0;
    'policies: for policy in set.policies.policies() {
        push_policy(alloc, "staticPolicies", policy, number, &mut text)?;
        number = number.saturating_add(1);
    }
    'templates: for template in set.templates.as_slice() {
        push_policy(alloc, "templates", template, number, &mut text)?;
        number = number.saturating_add(1);
    }
    Ok(text)
}

fn push_policy(
    alloc: Global,
    part: &str,
    policy: &Policy,
    number: usize,
    text: &mut String,
) -> Result<(), PolicyTextError>
    ensures { IfErr result IsOfText }
{
    if number > 0 {
        text.push_str("\n")?;
    }
    let written = policy_text(alloc, part, policy, number)?;
    text.push_str(&written)?;
    text.push_str("\n")?;
    Ok(())
}

/// The policy of this number in the text, on lines of its own. It stands in this part of the JSON.
pub(crate) fn policy_text(
    alloc: Global,
    part: &str,
    policy: &Policy,
    number: usize,
) -> Result<String, PolicyTextError>
    ensures { IfErr result IsOfText }
{
    if is_linked(policy) {
        linked_text(alloc, policy)
    } else {
        let name = name_line(alloc, part, policy, number)?;
        let written = policy_to_cedar(alloc, policy)?;
        Ok(format!(in alloc; "{name}{written}")?)
    }
}

// The policy of a link: with its id as its annotation `id`, and its entities in place of slots.
fn linked_text(alloc: Global, policy: &Policy) -> Result<String, PolicyTextError>
    ensures { IfErr result IsOfText }
{
    let annotations = named(alloc, policy)?;
    let placed = placed_with(alloc, policy, annotations)?;
    let written = policy_to_cedar(alloc, &placed);
    drop(placed);
    Ok(written?)
}

// The annotations of the template, and the policy's id in place of its own annotation `id`.
fn named(alloc: Global, policy: &Policy) -> Result<Annotations, AllocError> {
    let mut all: BTreeMap<RcStr, RcStr> = BTreeMap::new(alloc);
    'annotations: for (key, value) in policy.annotations_rc().0.iter() {
        drop(all.insert(key.clone()?, value.clone()?)?);
    }
    let key = RcStr::from_str(alloc, "id")?;
    let id = policy.id().to_string(alloc)?;
    let id = RcStr::from_str(alloc, id.as_str())?;
    drop(all.insert(key, id)?);
    Ok(Annotations(all))
}

// The annotation that names the policy, on a line; nothing, where it needs none.
fn name_line(
    alloc: Global,
    part: &str,
    policy: &Policy,
    number: usize,
) -> Result<String, PolicyTextError>
    ensures { IfErr result IsOfText }
{
    let id = policy.id().to_string(alloc)?;
    let own = format!(in alloc; "policy{number}")?;
    match annotated_id(policy) {
        Some(name) => if name == id.as_str() || own == id {
            Ok(String::new(alloc))
        } else {
            Err(another_name(alloc, part, policy))
        },
        None => if own == id {
            Ok(String::new(alloc))
        } else {
            Ok(format!(in alloc; "@id({})\n", Quoted { text: id.as_str() })?)
        },
    }
}

// A text in quotes.
#[derive(Drop)]
struct Quoted<'a> {
    text: &'a str,
}

impl fmt::Display for Quoted<'_> {
    fn fmt<W: fmt::Write>(&self, f: &mut fmt::Formatter<W>) -> fmt::Result {
        write_quoted(self.text, f)
    }
}
