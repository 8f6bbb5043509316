//! Of which policies one before says the same: `policy2 as policy0`, or `none`.
use crate::answer::Answer;
use cedar_layers::policies::{Policy, PolicySet};
use cedar_text_parser::ParsedPolicies;
use cedar_unsatisfiable::say_the_same;

/// Answers of the policies, and behind ` | ` of the templates.
pub fn put_same(answer: &mut Answer, parsed: &ParsedPolicies) {
    put_of_policies(answer, &parsed.policies);
    answer.put(" | ");
    put_of_templates(answer, &parsed.templates);
}

fn put_of_policies(answer: &mut Answer, policies: &PolicySet) {
    let mut is_any = false;
    let mut number: usize = 0;
    'policies: for policy in policies.policies() {
        if put_if_same(answer, policies, policy, number, is_any) {
            is_any = true;
        }
        number = number.saturating_add(1);
    }
    if !is_any {
        answer.put("none");
    }
}

// Compares the policy with as many as stand before it.
fn put_if_same(
    answer: &mut Answer,
    policies: &PolicySet,
    policy: &Policy,
    number: usize,
    is_any: bool,
) -> bool {
    let mut left = number;
    'before: for other in policies.policies() {
        if left == 0 {
            return false;
        }
        if say_the_same(other, policy) {
            put_pair(answer, policy, other, is_any);
            return true;
        }
        left -= 1;
    }
    false
}

fn put_of_templates(answer: &mut Answer, templates: &[Policy]) {
    let mut is_any = false;
    'templates: for i in 0..templates.len() {
        'before: for j in 0..i {
            if say_the_same(&templates[j], &templates[i]) {
                put_pair(answer, &templates[i], &templates[j], is_any);
                is_any = true;
                break 'before;
            }
        }
    }
    if !is_any {
        answer.put("none");
    }
}

fn put_pair(answer: &mut Answer, policy: &Policy, other: &Policy, is_any: bool) {
    if is_any {
        answer.put(", ");
    }
    answer.show(policy.id());
    answer.put(" as ");
    answer.show(other.id());
}
