#![tactic(auto, using(crate::proofs::Linked::linked_texts))]
//! Policies of a text, with the policies of links.
ghost use Rattle.std.specs.Prelude.{◌≡◌, map, IfOk, IfErr, string_bytes};
ghost use Rattle.cedar_functions.specs.Functions.{knowledge};
ghost use Rattle.cedar_layers.specs.Policies.{policy_view};
ghost use Rattle.cedar_policy_set_reader.specs.PolicySets.{set_view};
ghost use Rattle.cedar_linked_text.specs.LinkedTexts as texts;

use crate::errors::LinkedTextError;
use crate::linking::{Named, all_named};
use cedar_functions::Functions;
use cedar_layers::policies::{PolicySet, PolicySetError};
use cedar_policy_json_text::deciding_set_to_text;
use cedar_policy_set_reader::ReadPolicies;
use cedar_text_parser::{ParsedPolicies, parse_policies};
use std::alloc::Global;

/// The text that decides by the policies of this one and by those of the links of its templates, which the other text
/// lists: `[{"template_id": .., "link_id": .., "args": {"?principal": "User::\"a\"", ..}}]`. It is read as the policies
/// under their names, behind them the policies of the links, and the templates that have no link. Refuses where the
/// policies can't be read (`Unread`), where two are called the same (`Shared`), where the list can't be read or a link
/// makes no policy (`Link`), where a policy has no text (`Text`), or out of memory.
pub fn linked_to_text(
    alloc: Global,
    text: &str,
    links: &str,
    functions: &Functions,
    limit: usize,
) -> Result<String, LinkedTextError>
    ensures text { IfOk result
        (λ t. texts.IsLinkedText (knowledge functions.now) limit text.now links.now (string_bytes t)) }
    ensures refused { IfErr result (texts.IsUnlinked (knowledge functions.now) limit text.now links.now) }
{
    match parse_policies(alloc, text, limit, functions) {
        Ok(parsed) => {
            let linked = link_parsed(alloc, &parsed, links, functions, limit);
            drop(parsed);
            linked
        }
        Err(errors) => Err(LinkedTextError::Unread(errors)),
    }
}

fn link_parsed(
    alloc: Global,
    parsed: &ParsedPolicies,
    links: &str,
    functions: &Functions,
    limit: usize,
) -> Result<String, LinkedTextError>
    ensures text { IfOk result
        (λ t. texts.IsParsedText (knowledge functions.now) limit parsed.now links.now (string_bytes t)) }
    ensures refused { IfErr result (texts.IsParsedRefusal parsed.now links.now) }
{
    match all_named(alloc, parsed, links) {
        Ok(named) => match set_of_named(alloc, named) {
            Ok(set) => match deciding_set_to_text(alloc, set, functions, limit) {
                Ok(text) => Ok(text),
                Err(error) => Err(LinkedTextError::Text(error)),
            },
            Err(error) => Err(error),
        },
        Err(error) => Err(error),
    }
}

// The set of all of them.
fn set_of_named(alloc: Global, named: Named) -> Result<ReadPolicies, LinkedTextError>
    ensures view { IfOk result (λ r. set_view r ≡ texts.named_set named) }
    ensures refused { IfErr result (texts.AreRepeated (map policy_view named.policies.items)) }
{
    let Named {
        policies,
        templates,
        links,
    } = named;
    match PolicySet::try_from_iter(alloc, policies) {
        Ok(policies) => Ok(ReadPolicies {
            policies,
            templates,
            links,
        }),
        Err(PolicySetError::Occupied { id }) => {
            drop((templates, links));
            Err(LinkedTextError::Shared(id))
        }
        Err(PolicySetError::Memory(error)) => {
            drop((templates, links));
            Err(LinkedTextError::Memory(error))
        }
    }
}
