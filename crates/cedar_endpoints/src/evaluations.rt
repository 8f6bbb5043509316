#![tactic(auto, using(crate::proofs::Texts::texts, crate::proofs::Counted::counts))]
//! Decisions of one evaluation, and of several.
ghost use Rattle.std.specs.Prelude.{◌≡◌, ◌∷◌, [], ◌++◌, Ok, Some, IfOk, OnOk, map, option_map, string_bytes};
ghost use Rattle.json.specs.Value.{value_view, items_view};
ghost use Rattle.cedar_endpoints.specs.Asked.{told, evaluation_view, evaluation_of, fault_view};
ghost use Rattle.cedar_endpoints.specs.Replies.{decision_text, error_text, fault_json};
ghost use Rattle.cedar_endpoints.specs.Several.{IsDecided, IsDeniedFor, IsItemOf, IsItemSaid, IsItem, AreItems};
ghost use Rattle.cedar_endpoints.specs.Several.{stops, several_view, joined, list_text, too_many};
ghost use Rattle.cedar_endpoints.specs.Several.{AreListed, AreListedUnless, AreDecided, AreEvaluated};
ghost use Rattle.cedar_endpoints.specs.declared.asked.Keys.TheVariants as keys;

use crate::answers::Status;
use crate::asked::{Evaluation, Fault, Keys, evaluation_of};
use crate::bounds::are_more;
use crate::decider::Decider;
use crate::replies::{Outcome, Reply, decision_text, error_text, fault_json, faulty, reply_of};
use crate::semantics::stops;
use crate::several::{Several, read_several};
use json::Value;
use std::alloc::{AllocError, Global};

/// What is decided for what is said, or 400 for what is wrong. Refuses only if out of memory.
pub(crate) fn decide_said<D: Decider>(
    alloc: Global,
    decider: &D,
    said: Result<Evaluation<'_, '_>, Fault>,
) -> Result<Reply, AllocError>
    ensures { IfOk result (IsDecided (D.decides decider.now) (told evaluation_view said.entry)) }
{
    match said {
        Ok(asked) => decide(alloc, decider, &asked),
        Err(fault) => faulty(alloc, Status::BadRequest, fault),
    }
}

fn decide<D: Decider>(
    alloc: Global,
    decider: &D,
    asked: &Evaluation<'_, '_>,
) -> Result<Reply, AllocError>
    ensures { IfOk result (IsDecided (D.decides decider.now) (Ok (evaluation_view asked.now))) }
{
    let outcome = decider.decide(alloc, asked)?;
    reply_of(alloc, &outcome)
}

/// The decisions of the document's list, or 413 where it has more than so many items; without a list, that of the
/// evaluation that it is. Refuses only if out of memory.
pub(crate) fn evaluate_all<D: Decider>(
    alloc: Global,
    decider: &D,
    most: usize,
    value: &Value<'_>,
) -> Result<Reply, AllocError>
    ensures { IfOk result (AreEvaluated most (D.decides decider.now) (value_view value.now)) }
{
    match read_several(value) {
        Ok(several) => evaluate_listed(alloc, decider, most, value, several),
        Err(fault) => decide_said(alloc, decider, Err(fault)),
    }
}

fn evaluate_listed<'v, 'a, D: Decider>(
    alloc: Global,
    decider: &D,
    most: usize,
    value: &'v Value<'a>,
    several: Option<Several<'v, 'a>>,
) -> Result<Reply, AllocError>
    ensures { IfOk result (AreDecided most (D.decides decider.now) (value_view value.now)
        (Ok (option_map several_view several.entry))) }
{
    match several {
        Some(several) => evaluate_several(alloc, decider, most, value, several),
        None => decide_said(
            alloc,
            decider,
            evaluation_of(Keys::Evaluations, value, None),
        ),
    }
}

// Nothing is decided where there are too many.
fn evaluate_several<'v, 'a, D: Decider>(
    alloc: Global,
    decider: &D,
    most: usize,
    all: &'v Value<'a>,
    several: Several<'v, 'a>,
) -> Result<Reply, AllocError>
    ensures { IfOk result (AreDecided most (D.decides decider.now) (value_view all.now)
        (Ok (Some (several_view several.entry)))) }
{
    if are_more(several.items, most) {
        faulty(alloc, Status::TooLarge, too_many())
    } else {
        evaluate_items(alloc, decider, all, several)
    }
}

fn too_many() -> Fault
    ensures { fault_view result ≡ too_many }
{
    Fault {
        part: ".evaluations",
        member: "",
        reason: "too many (--max-evaluations)",
    }
}

fn evaluate_items<'v, 'a, D: Decider>(
    alloc: Global,
    decider: &D,
    all: &'v Value<'a>,
    several: Several<'v, 'a>,
) -> Result<Reply, AllocError>
    ensures { IfOk result (AreListed (D.decides decider.now) (value_view all.now) (several_view several.entry)) }
{
    let texts = items_of(alloc, decider, all, several)?;
    let items = join_texts(alloc, texts.as_slice())?;
    let body = list_text(alloc, items.as_str())?;
    Ok(Reply {
        status: Status::Ok,
        body,
    })
}

// The texts of the items, up to the first at which it stops.
fn items_of<'v, 'a, D: Decider>(
    alloc: Global,
    decider: &D,
    all: &'v Value<'a>,
    several: Several<'v, 'a>,
) -> Result<Vec<String>, AllocError>
    ensures { IfOk result (λ ts. AreItems (stops several.entry.semantic)
        (IsItem (D.decides decider.now) (value_view all.now))
        (items_view several.entry.items.now.items) (map string_bytes ts.items)) }
{
    let mut texts: Vec<String> = Vec::new(alloc);
    'items: for item in several.items {
        let answer = item_of(alloc, decider, item, all)?;
        let is_allowed = answer.is_allowed;
        push_text(answer, &mut texts)?;
        if stops(several.semantic, is_allowed) {
            return Ok(texts);
        }
    }
    Ok(texts)
}

// ---- an item

// Whether an item is allowed, and the text that says so.
#[derive(Drop)]
struct Answer {
    is_allowed: bool,
    text: String,
}

fn push_text(answer: Answer, texts: &mut Vec<String>) -> Result<(), AllocError>
    ensures { OnOk result (map string_bytes texts.new.items
        ≡ map string_bytes texts.old.items ++ string_bytes answer.text ∷ []) }
{
    let Answer {
        is_allowed: _,
        text,
    } = answer;
    match texts.push(text) {
        Ok(()) => Ok(()),
        Err(_) => Err(AllocError),
    }
}

fn item_of<'v, 'a, D: Decider>(
    alloc: Global,
    decider: &D,
    item: &'v Value<'a>,
    all: &'v Value<'a>,
) -> Result<Answer, AllocError>
    ensures { IfOk result (λ a.
        IsItem (D.decides decider.now) (value_view all.now) (value_view item.now) a.is_allowed (string_bytes a.text)) }
{
    item_said(
        alloc,
        decider,
        evaluation_of(Keys::Evaluation, item, Some(all)),
    )
}

fn item_said<D: Decider>(
    alloc: Global,
    decider: &D,
    said: Result<Evaluation<'_, '_>, Fault>,
) -> Result<Answer, AllocError>
    ensures { IfOk result (λ a. IsItemSaid (D.decides decider.now) (told evaluation_view said.entry)
        a.is_allowed (string_bytes a.text)) }
{
    match said {
        Ok(asked) => item_decided(alloc, decider, &asked),
        Err(fault) => item_at_fault(alloc, fault),
    }
}

fn item_decided<D: Decider>(
    alloc: Global,
    decider: &D,
    asked: &Evaluation<'_, '_>,
) -> Result<Answer, AllocError>
    ensures { IfOk result (λ a. IsItemSaid (D.decides decider.now) (Ok (evaluation_view asked.now))
        a.is_allowed (string_bytes a.text)) }
{
    let outcome = decider.decide(alloc, asked)?;
    item_outcome(alloc, &outcome)
}

fn item_outcome(alloc: Global, outcome: &Outcome) -> Result<Answer, AllocError>
    ensures { IfOk result (λ a. IsItemOf outcome.now a.is_allowed (string_bytes a.text)) }
{
    match outcome {
        Outcome::Decided {
            is_allowed,
            context,
        } => item_text(alloc, *is_allowed, context.as_str()),
        Outcome::Refused { error } => item_denied(alloc, error.as_str()),
        Outcome::TooLarge { error } => item_denied(alloc, error.as_str()),
    }
}

fn item_at_fault(alloc: Global, fault: Fault) -> Result<Answer, AllocError>
    ensures { IfOk result (λ a. IsDeniedFor (fault_json (fault_view fault)) a.is_allowed (string_bytes a.text)) }
{
    let error = fault_json(alloc, fault)?;
    item_denied(alloc, error.as_str())
}

fn item_denied(alloc: Global, error: &str) -> Result<Answer, AllocError>
    ensures { IfOk result (λ a. IsDeniedFor error.now a.is_allowed (string_bytes a.text)) }
{
    let context = error_text(alloc, error)?;
    item_text(alloc, false, context.as_str())
}

fn item_text(alloc: Global, is_allowed: bool, context: &str) -> Result<Answer, AllocError>
    ensures allowed { IfOk result (λ a. a.is_allowed ≡ is_allowed) }
    ensures text { IfOk result (λ a. string_bytes a.text ≡ decision_text is_allowed context.now) }
{
    let text = decision_text(alloc, is_allowed, context)?;
    Ok(Answer { is_allowed, text })
}

// ---- the list

/// The texts, with commas between them. Refuses only if out of memory.
pub(crate) fn join_texts(alloc: Global, texts: &[String]) -> Result<String, AllocError>
    ensures { IfOk result (λ s. string_bytes s ≡ joined (map string_bytes texts.now)) }
{
    texts.join(alloc, ",")
}

fn list_text(alloc: Global, items: &str) -> Result<String, AllocError>
    ensures { IfOk result (λ s. string_bytes s ≡ list_text items.now) }
{
    let open = "{\"evaluations\":[";
    let close = "]}";
    format!(in alloc; "{open}{items}{close}")
}
