//! What is asked of texts.
//!
//! - `explained`: what each policy of the text comes to, the parts that decide it, and what a permit lacks;
//! - `reason`: the facts on which the decision rests; `reason holds`: whether they give it, and none without any one;
//! - `never`: whether the policy's text shows that it never applies; `errs`: whether it shows that the policy errs wherever
//!   its scope holds; `late`: the attribute that it tests after it read it; `same`: of which policies one before says the
//!   same;
//! - `sql`: what is left of the policies, as SQL on rows that stand for the resource;
//! - `json expression`, `json policy`, `json template`: the expression, the only policy or the only template as JSON;
//! - `json linked`: the only template, as the policy of the setting's link; `json policies`: the policies and templates,
//!   and the setting's links;
//! - `read policies`, `read expression`: the policies, or the expression, that JSON says, as text; `read again`: the
//!   policies and templates as text, once more of their JSON.
use crate::answer::{Answer, Unanswered};
use crate::as_json::{ask_expression, put_json, put_linked, put_policies};
use crate::explained::explain_asked;
use crate::from_json::{put_again, put_expression_read, put_text};
use crate::given::{read_policies, read_policy, read_store};
use crate::never::{put_errs, put_late, put_never};
use crate::plans::plan_asked;
use crate::reasons::reason_asked;
use crate::same::put_same;
use crate::setting::Setting;
use cedar_layers::policies::{Policy, PolicySet};
use cedar_policy_json_writer::{policy_to_json, template_to_json};

/// Answers the setting's question on the text.
pub fn ask(answer: &mut Answer, setting: Setting<'_>, text: &str) {
    match setting.question {
        "explained" => ask_policies(answer, setting, text),
        "reason" => ask_policies(answer, setting, text),
        "reason holds" => ask_policies(answer, setting, text),
        "sql" => ask_policies(answer, setting, text),
        "json policies" => ask_policies(answer, setting, text),
        "same" => ask_policies(answer, setting, text),
        "read again" => ask_policies(answer, setting, text),
        "read policies" => put_text(answer, text),
        "read expression" => put_expression_read(answer, text),
        "json expression" => ask_expression(answer, text),
        _ => ask_policy(answer, setting, text),
    }
}

fn ask_policies(answer: &mut Answer, setting: Setting<'_>, text: &str) {
    match read_policies(answer.alloc, text) {
        Ok(parsed) => {
            match setting.question {
                "json policies" => put_policies(answer, setting, &parsed),
                "same" => put_same(answer, &parsed),
                "read again" => put_again(answer, &parsed),
                _ => ask_over_store(answer, setting, &parsed.policies),
            }
            drop(parsed);
        }
        Err(why) => answer.fail(why),
    }
}

fn ask_over_store(answer: &mut Answer, setting: Setting<'_>, policies: &PolicySet) {
    match read_store(answer.alloc, setting.entities) {
        Ok(entities) => {
            match setting.question {
                "sql" => plan_asked(answer, setting, policies, &entities),
                "explained" => explain_asked(answer, setting, policies, &entities),
                _ => reason_asked(answer, setting, policies, &entities),
            }
            drop(entities);
        }
        Err(why) => answer.fail(why),
    }
}

fn ask_policy(answer: &mut Answer, setting: Setting<'_>, text: &str) {
    match read_policy(answer.alloc, text) {
        Ok(policy) => {
            answer_policy(answer, setting, &policy);
            drop(policy);
        }
        Err(why) => answer.fail(why),
    }
}

fn answer_policy(answer: &mut Answer, setting: Setting<'_>, policy: &Policy) {
    match setting.question {
        "never" => put_never(answer, policy),
        "errs" => put_errs(answer, policy),
        "late" => put_late(answer, policy),
        "json policy" => put_json(answer, policy_to_json(answer.alloc, policy)),
        "json template" => put_json(answer, template_to_json(answer.alloc, policy)),
        "json linked" => put_linked(answer, setting, policy),
        _ => answer.fail(Unanswered::Unreadable("no such question")),
    }
}
