//! Expressions, policies and templates as JSON.
use crate::answer::{Answer, Unanswered};
use crate::given::{LEVELS, why_unparsed};
use crate::links::{read_link, read_links};
use crate::setting::Setting;
use cedar_functions::Functions;
use cedar_json_writer::JsonValue;
use cedar_layers::policies::Policy;
use cedar_policy_json_writer::{
    TemplateLink, expression_to_json, policy_set_to_json, policy_to_json,
};
use cedar_text_parser::{ParsedPolicies, parse_expr};
use std::alloc::{AllocError, Global};

/// Writes the JSON on one line.
pub fn put_json(answer: &mut Answer, json: Result<JsonValue, AllocError>) {
    match json {
        Ok(json) => {
            answer.put_made(json.to_text(answer.alloc));
            drop(json);
        }
        Err(_) => answer.fail(Unanswered::Memory),
    }
}

/// Writes the expression of the text.
pub fn ask_expression(answer: &mut Answer, text: &str) {
    match parse_expr(answer.alloc, text, LEVELS, &Functions::any()) {
        Ok(expr) => {
            put_json(answer, expression_to_json(answer.alloc, &expr));
            drop(expr);
        }
        Err(error) => {
            answer.fail(why_unparsed(&error));
            drop(error);
        }
    }
}

/// Writes the template as the policy of the only link.
pub fn put_linked(answer: &mut Answer, setting: Setting<'_>, template: &Policy) {
    match linked(answer.alloc, setting, template) {
        Ok(policy) => {
            put_json(answer, policy_to_json(answer.alloc, &policy));
            drop(policy);
        }
        Err(why) => answer.fail(why),
    }
}

fn linked(alloc: Global, setting: Setting<'_>, template: &Policy) -> Result<Policy, Unanswered> {
    let TemplateLink {
        template_id: _,
        new_id,
        values,
    } = read_link(alloc, setting.links)?;
    Ok(template.link(alloc, new_id, values)?)
}

/// Writes the policies, the templates and the links of the setting.
pub fn put_policies(answer: &mut Answer, setting: Setting<'_>, parsed: &ParsedPolicies) {
    match read_links(answer.alloc, setting.links) {
        Ok(links) => {
            let (policies, templates) = (&parsed.policies, parsed.templates.as_slice());
            put_json(
                answer,
                policy_set_to_json(answer.alloc, policies, templates, links.as_slice()),
            );
            drop(links);
        }
        Err(why) => answer.fail(why),
    }
}
