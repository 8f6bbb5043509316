#![tactic(auto)]
//! Sets without the templates that have links.
ghost use Rattle.std.specs.Prelude.{◌≡◌, ◌++◌, ◌∷◌, [], if◌then◌else◌, map, OnOk, IfOk};
ghost use Rattle.cedar_layers.specs.Policies.{policy_view, policy_id_text};
ghost use Rattle.cedar_policy_set_reader.specs.PolicySets.{set_view};
ghost use Rattle.cedar_policy_json_text.specs.Placed as placing;
ghost use Rattle.cedar_template_links.specs.Links.{link_view};

use cedar_layers::policies::{Policy, PolicyID};
use cedar_policy_set_reader::ReadPolicies;
use cedar_template_links::Link;
use std::alloc::{AllocError, Global};

/// The same set without the templates that have links: these decide by their links. Refuses only if out of memory.
pub fn without_linked_templates(
    alloc: Global,
    set: ReadPolicies,
) -> Result<ReadPolicies, AllocError>
    ensures { IfOk result (λ r. set_view r ≡ placing.without_linked (set_view set)) }
{
    let ReadPolicies {
        policies,
        templates,
        links,
    } = set;
    let templates = unlinked(alloc, &links, &templates)?;
    Ok(ReadPolicies {
        policies,
        templates,
        links,
    })
}

fn unlinked(alloc: Global, links: &[Link], templates: &[Policy]) -> Result<Vec<Policy>, AllocError>
    ensures { IfOk result
        (λ ts. map policy_view ts.items ≡ placing.unlinked (map link_view links.now) (map policy_view templates.now)) }
{
    let mut left: Vec<Policy> = Vec::new(alloc);
    'templates: for template in templates {
        put_unlinked(links, template, &mut left)?;
    }
    Ok(left)
}

fn put_unlinked(links: &[Link], template: &Policy, left: &mut Vec<Policy>) -> Result<(), AllocError>
    ensures { OnOk result (map policy_view left.new.items ≡ (if placing.has_link (policy_view template.now).id
        (map link_view links.now) then map policy_view left.old.items
        else map policy_view left.old.items ++ policy_view template.now ∷ [])) }
{
    if has_link(template.id(), links) {
        Ok(())
    } else {
        let copy: Policy = template.clone()?;
        left.push(copy)?;
        Ok(())
    }
}

// Whether one of the links is of the template of this id.
fn has_link(id: &PolicyID, links: &[Link]) -> bool
    ensures { result ≡ placing.has_link (policy_id_text id.now) (map link_view links.now) }
{
    'links: for link in links {
        if *id == link.template_id {
            return true;
        }
    }
    false
}
