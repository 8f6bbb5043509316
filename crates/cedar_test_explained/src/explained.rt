//! What each policy came to on a request, and the parts that decide it: `ID EFFECT OUTCOME [TEXT: VALUE, ..]` with the
//! kind of the error where a part has no value; then `lacks ID TEXT: TRUTH` of each part that alone keeps a permit from
//! applying.
use crate::answer::{Answer, Unanswered};
use crate::given::{mode_of, read_entry, read_request};
use crate::setting::Setting;
use cedar_evaluator::evaluator::Evaluator;
use cedar_explain::{ExplainedPolicy, Lack, Part, explain_request, lacking};
use cedar_extensions::Extensions;
use cedar_layers::policies::{Entities, PolicySet};
use cedar_requests::Request;
use cedar_text_printer::effect_text;
use std::alloc::Global;

const NO_LIMIT: Unanswered = Unanswered::Unreadable("a limit is a number");

/// Explains the request of the setting over this store.
pub fn explain_asked(
    answer: &mut Answer,
    setting: Setting<'_>,
    policies: &PolicySet,
    entities: &Entities,
) {
    let extensions = Extensions::all_available();
    match read_asked(answer.alloc, setting) {
        Ok(asked) => explain_asked_by(answer, setting, policies, entities, &extensions, asked),
        Err(why) => answer.fail(why),
    }
}

fn explain_asked_by(
    answer: &mut Answer,
    setting: Setting<'_>,
    policies: &PolicySet,
    entities: &Entities,
    extensions: &Extensions<'_>,
    asked: (Request, usize),
) {
    let (request, limit) = asked;
    match Evaluator::new(answer.alloc, request, entities, extensions, limit) {
        Ok(evaluator) => {
            explain(answer, setting, policies, &evaluator);
            drop(evaluator);
        }
        Err(_) => answer.fail(Unanswered::Memory),
    }
}

fn read_asked(alloc: Global, setting: Setting<'_>) -> Result<(Request, usize), Unanswered> {
    let limit = setting.limit.parse::<usize>().ok().ok_or(NO_LIMIT)?;
    let resource = read_entry(alloc, setting.resource)?;
    let request = read_request(alloc, setting, resource)?;
    Ok((request, limit))
}

fn explain(
    answer: &mut Answer,
    setting: Setting<'_>,
    policies: &PolicySet,
    evaluator: &Evaluator<'_, '_>,
) {
    match explain_request(answer.alloc, evaluator, policies) {
        Ok(explained) => {
            put_policies(answer, explained.as_slice());
            put_lacks(answer, setting, evaluator, explained.as_slice());
            drop(explained);
        }
        Err(_) => answer.fail(Unanswered::Memory),
    }
}

fn put_policies(answer: &mut Answer, explained: &[ExplainedPolicy<'_>]) {
    let mut between = "";
    'policies: for policy in explained {
        answer.put(between);
        put_policy(answer, policy);
        between = "; ";
    }
}

fn put_policy(answer: &mut Answer, policy: &ExplainedPolicy<'_>) {
    answer.show(policy.id());
    answer.put(" ");
    answer.put(effect_text(policy.effect()));
    answer.put(" ");
    let explanation = policy.explanation();
    answer.show_debug(&explanation.outcome());
    put_parts(answer, explanation.parts());
}

fn put_parts(answer: &mut Answer, parts: &[Part]) {
    answer.put(" [");
    let mut between = "";
    'parts: for part in parts {
        answer.put(between);
        put_part(answer, part);
        between = ", ";
    }
    answer.put("]");
}

fn put_part(answer: &mut Answer, part: &Part) {
    answer.put_expression(part.expression());
    answer.put(": ");
    match part.answer() {
        Ok(value) => answer.show(value),
        Err(_) => answer.show_debug(&part.outcome()),
    }
}

fn put_lacks(
    answer: &mut Answer,
    setting: Setting<'_>,
    evaluator: &Evaluator<'_, '_>,
    explained: &[ExplainedPolicy<'_>],
) {
    match lacking(answer.alloc, evaluator, explained, mode_of(setting)) {
        Ok(lacks) => {
            'lacks: for lack in &lacks {
                put_lack(answer, lack);
            }
            drop(lacks);
        }
        Err(_) => answer.fail(Unanswered::Memory),
    }
}

fn put_lack(answer: &mut Answer, lack: &Lack<'_>) {
    answer.put("; lacks ");
    answer.show(lack.policy().id());
    answer.put(" ");
    answer.put_expression(lack.part().expression());
    answer.put(": ");
    answer.show(&lack.truth());
}
