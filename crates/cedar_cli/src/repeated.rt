//! Policies of which one before says the same.
ghost use Rattle.std.specs.Prelude.{◌≡◌, ◌++◌, ◌∷◌, [], map, IfOk, OnOk, string_bytes, option_copied};
ghost use Rattle.cedar_layers.specs.PolicySets.{stored_policies};
ghost use Rattle.cedar_cli.specs.Strict as specs;
ghost use Rattle.cedar_cli.specs.Strict.{Adds, AreAlike, AreAlikeLines, IsAlikeLine, first_alike};

use crate::places::Places;
use crate::policies::push_name;
use crate::strictness::push_found_line;
use cedar_policy_core::ast::{Policy, PolicySet};
use cedar_policy_core::parser::ParsedPolicies;
use cedar_unsatisfiable::say_the_same;
use std::alloc::{AllocError, Global};

/// Tells of each policy, and of each template, of which one before says the same, and which does first.
pub(crate) fn push_alike(
    alloc: Global,
    places: &Places<'_>,
    parsed: &ParsedPolicies,
    warnings: &mut String,
) -> Result<(), AllocError>
    ensures { OnOk result (Adds (AreAlike places.now.source parsed.now) (string_bytes warnings.old)
        (string_bytes warnings.new)) }
{
    push_alike_policies(alloc, places, &parsed.policies, warnings)?;
    push_alike_templates(alloc, places, &parsed.templates, warnings)?;
    Ok(())
}

fn push_alike_policies(
    alloc: Global,
    places: &Places<'_>,
    policies: &PolicySet,
    warnings: &mut String,
) -> Result<(), AllocError>
    ensures { OnOk result (Adds (AreAlikeLines places.now.source [] (stored_policies policies.now))
        (string_bytes warnings.old) (string_bytes warnings.new)) }
{
    let mut before: Vec<&Policy> = Vec::new(alloc);
    'policies: for policy in policies.policies() {
        push_if_alike(alloc, places, policy, &mut before, warnings)?;
    }
    Ok(())
}

fn push_alike_templates(
    alloc: Global,
    places: &Places<'_>,
    templates: &[Policy],
    warnings: &mut String,
) -> Result<(), AllocError>
    ensures { OnOk result (Adds (AreAlikeLines places.now.source [] templates.now) (string_bytes warnings.old)
        (string_bytes warnings.new)) }
{
    let mut before: Vec<&Policy> = Vec::new(alloc);
    'templates: for template in templates {
        push_if_alike(alloc, places, template, &mut before, warnings)?;
    }
    Ok(())
}

// Tells of the policy if one of those before says the same, and puts it behind them.
fn push_if_alike<'p>(
    alloc: Global,
    places: &Places<'_>,
    policy: &'p Policy,
    before: &mut Vec<&'p Policy>,
    warnings: &mut String,
) -> Result<(), AllocError>
    ensures line { OnOk result ((line : _) × IsAlikeLine (first_alike (map (λ p. p.now) before.old.items) policy.now)
        places.now.source policy.now line × (string_bytes warnings.new ≡ string_bytes warnings.old ++ line)) }
    ensures before { OnOk result
        (map (λ p. p.now) before.new.items ≡ map (λ p. p.now) before.old.items ++ policy.now ∷ []) }
{
    let first = first_alike(before, policy);
    push_alike_line(alloc, places, first, policy, warnings)?;
    before.push(policy)?;
    Ok(())
}

// The first of these that says the same as the policy.
fn first_alike<'p>(before: &[&'p Policy], policy: &Policy) -> Option<&'p Policy>
    ensures { option_copied result ≡ first_alike (map (λ p. p.now) before.now) policy.now }
{
    'policies: for other in before {
        if say_the_same(other, policy) {
            return Some(other);
        }
    }
    None
}

fn push_alike_line(
    alloc: Global,
    places: &Places<'_>,
    first: Option<&Policy>,
    policy: &Policy,
    warnings: &mut String,
) -> Result<(), AllocError>
    ensures { OnOk result ((line : _) × IsAlikeLine (option_copied first.entry) places.now.source policy.now line
        × (string_bytes warnings.new ≡ string_bytes warnings.old ++ line)) }
{
    match first {
        Some(first) => {
            let words = alike_words(alloc, first)?;
            push_found_line(alloc, places, policy, words.as_str(), warnings)
        }
        None => Ok(()),
    }
}

// ` says the same as the policy `..``
fn alike_words(alloc: Global, first: &Policy) -> Result<String, AllocError>
    ensures { IfOk result (λ s. string_bytes s ≡ specs.alike_words first.now) }
{
    let mut words = String::from_str(alloc, " says the same as the policy `")?;
    push_name(alloc, first, &mut words)?;
    words.push_str("`")?;
    Ok(words)
}
