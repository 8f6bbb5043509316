//! Policies of a text as JSON.
ghost use Rattle.std.specs.Prelude.{◌≡◌, ◌++◌, [], map, IfOk, IfErr, codes, string_bytes};
ghost use Rattle.json.specs.Print.{print};
ghost use Rattle.json.specs.Tree.{json_tokens};
ghost use Rattle.cedar_layers.specs.Policies.{policy_view};
ghost use Rattle.cedar_layers.specs.PolicySets.{policies_view};
ghost use Rattle.cedar_policy_json_writer.specs.PolicySets.{policy_set_json};
ghost use Rattle.cedar_cli.specs.Reasons.{IsToldFor, AreUnread};
ghost use Rattle.cedar_cli.specs.Translated.{IsTranslated};

use crate::asked::Source;
use crate::decisions::line_of;
use crate::policies::read_with_unknown;
use crate::refusal::Refusal;
use cedar_policy_core::parser::ParsedPolicies;
use cedar_policy_json_writer::{TemplateLink, policy_set_to_json};
use std::alloc::{AllocError, Global};

/// The policies and templates of the text as Cedar's JSON of policies, on one line: each under its id, `policy0`,
/// `policy1` and so on in the order of the text. Refused where they can't be read, in which the standard functions and
/// `unknown` may be called.
pub fn translate_to_json(alloc: Global, source: Source<'_>) -> Result<String, Refusal>
    ensures translated { IfOk result (λ s. IsTranslated source.entry.text.now (string_bytes s)) }
    ensures refused { IfErr result (IsToldFor (AreUnread source.entry.text.now)) }
{
    let parsed = read_with_unknown(alloc, source)?;
    let line = set_line(alloc, &parsed);
    drop(parsed);
    Ok(line?)
}

fn set_line(alloc: Global, parsed: &ParsedPolicies) -> Result<String, AllocError>
    ensures { IfOk result (λ s. string_bytes s ≡ print (json_tokens (policy_set_json (policies_view parsed.now.policies)
        (map policy_view parsed.now.templates.items) [])) ++ codes "\n") }
{
    let links: Vec<TemplateLink> = Vec::new(alloc);
    let document = policy_set_to_json(
        alloc,
        &parsed.policies,
        parsed.templates.as_slice(),
        links.as_slice(),
    )?;
    let line = line_of(alloc, &document);
    drop(document);
    line
}
