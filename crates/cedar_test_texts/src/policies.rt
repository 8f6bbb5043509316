//! Policies: `ID EFFECT @KEY("text") .. PRINCIPAL ACTION RESOURCE CONDITION`, each part as a tree; or where they and
//! their parts stand, `ID PLACE / PLACES / PLACES / PLACES / PLACES`.
use crate::answer::Answer;
use crate::places::put_place;
use crate::questions::{Shown, put_shown};
use cedar_expressions::Expr;
use cedar_layers::policies::{Annotations, Policy, PolicySet};
use cedar_text_printer::effect_text;
use std::rc::RcStr;

/// Writes the policies, and `template` and a template for each of those, with `; ` between them; `none` where there is
/// none.
pub fn put_policies(answer: &mut Answer, shown: Shown, policies: &PolicySet, templates: &[Policy]) {
    'policies: for policy in policies.policies() {
        answer.next();
        put_policy(answer, shown, policy);
    }
    'templates: for template in templates {
        answer.next();
        answer.put("template ");
        put_policy(answer, shown, template);
    }
    answer.put_if_none("none");
}

/// Writes what of the policy is shown.
pub fn put_policy(answer: &mut Answer, shown: Shown, policy: &Policy) {
    answer.show(policy.id());
    answer.put(" ");
    match shown {
        Shown::Tree => {
            answer.put(effect_text(policy.effect()));
            put_annotations(answer, policy.annotations_rc());
            put_parts(answer, " ", shown, policy);
        }
        Shown::Places => {
            put_place(answer, policy.loc().as_ref());
            put_parts(answer, " / ", shown, policy);
        }
    }
}

fn put_parts(answer: &mut Answer, before: &str, shown: Shown, policy: &Policy) {
    put_part(answer, before, shown, policy.principal_constraint());
    put_part(answer, before, shown, policy.action_constraint());
    put_part(answer, before, shown, policy.resource_constraint());
    put_part(answer, before, shown, policy.when_clause());
}

fn put_part(answer: &mut Answer, before: &str, shown: Shown, part: &Expr) {
    answer.put(before);
    put_shown(answer, shown, part);
}

fn put_annotations(answer: &mut Answer, annotations: &Annotations) {
    'annotations: for (key, text) in annotations.0.iter() {
        put_annotation(answer, key, text);
    }
}

fn put_annotation(answer: &mut Answer, key: &RcStr, text: &RcStr) {
    answer.put(" @");
    answer.put(key.as_str());
    answer.put("(");
    answer.put_quoted(text.as_str());
    answer.put(")");
}
