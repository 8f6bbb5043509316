#![tactic(auto, using(cedar_json_writer::proofs::Trees::trees))]
//! The explanation of all policies on a request, as JSON.
ghost use Rattle.std.specs.Prelude.{None, IfOk};
ghost use Rattle.cedar_model.specs.Settings.{shallow};
ghost use Rattle.cedar_decisions.specs.Decisions.{mode_view};
ghost use Rattle.cedar_layers.specs.Stores.{store_view};
ghost use Rattle.cedar_extensions.specs.Extensions.{extensions_view, calls_of};
ghost use Rattle.cedar_requests.specs.Requests.{request_view};
ghost use Rattle.cedar_evaluator.specs.Evaluations.{setting_for};
ghost use Rattle.cedar_json_writer.specs.Trees.{json_view};
ghost use Rattle.cedar_explain.specs.Reached.{IsReached};
ghost use Rattle.cedar_explain_printer.specs.Explanations.{IsReachedIn};
ghost use Rattle.cedar_explain_json.specs.Documents.{IsDocument};
ghost use Rattle.cedar_explain_json.specs.Explanations.{IsExplanationJson, IsLackJson};

use crate::lacks::lacks_to_json;
use crate::policies::policies_to_json;
use cedar_evaluator::evaluator::Evaluator;
use cedar_explain::{ExplainedPolicy, Lack, explain_request, lacking};
use cedar_explain_printer::Telling;
use cedar_extensions::Extensions;
use cedar_json_writer::{JsonValue, put_member};
use cedar_layers::policies::{Entities, PolicySet};
use cedar_places::Places;
use cedar_requests::Request;
use std::alloc::{AllocError, Global};
use std::rc::RcStr;

/// Why the policies, which stand in this text, came to what they did on the request, over this store and with these
/// extensions: at `lacks` what `explanation_lines` tells first, and at `policies` each policy, in the order of the set,
/// with the parts that decide it, in the order of evaluation. Beside each part stand its operands, but for literals, each
/// with what it came to by itself; they are left out, as values that are no booleans are, where no values are told.
/// Refuses only if out of memory.
pub fn explanation_to_json(
    alloc: Global,
    text: &str,
    request: Request,
    policies: &PolicySet,
    entities: &Entities,
    extensions: &Extensions<'_>,
    telling: Telling,
) -> Result<JsonValue, AllocError>
    ensures { IfOk result (λ j. IsExplanationJson text.now
        (IsReachedIn (setting_for (request_view request) (store_view entities.now) (extensions_view extensions.now)
        (λ n. None) shallow) (calls_of extensions.now) telling.limit)
        policies.now (mode_view telling.error_handling) telling.has_values (json_view j)) }
{
    let evaluator = Evaluator::new(alloc, request, entities, extensions, telling.limit)?;
    let document = document_by(alloc, text, &evaluator, policies, telling);
    drop(evaluator);
    document
}

fn document_by(
    alloc: Global,
    text: &str,
    evaluator: &Evaluator<'_, '_>,
    policies: &PolicySet,
    telling: Telling,
) -> Result<JsonValue, AllocError>
    ensures { IfOk result (λ j. IsExplanationJson text.now (IsReached evaluator.now) policies.now
        (mode_view telling.error_handling) telling.has_values (json_view j)) }
{
    let explained = explain_request(alloc, evaluator, policies)?;
    let document = document_of(alloc, text, evaluator, &explained, telling);
    drop(explained);
    document
}

// The document of what is explained already.
fn document_of(
    alloc: Global,
    text: &str,
    evaluator: &Evaluator<'_, '_>,
    explained: &[ExplainedPolicy<'_>],
    telling: Telling,
) -> Result<JsonValue, AllocError>
    ensures { IfOk result (λ j. IsLackJson text.now (IsReached evaluator.now) explained.now
        (mode_view telling.error_handling) telling.has_values (json_view j)) }
{
    let lacks = lacking(alloc, evaluator, explained, telling.error_handling)?;
    let document = whole_document(
        alloc,
        text,
        evaluator,
        &lacks,
        explained,
        telling.has_values,
    );
    drop(lacks);
    document
}

fn whole_document(
    alloc: Global,
    text: &str,
    evaluator: &Evaluator<'_, '_>,
    lacks: &[Lack<'_>],
    explained: &[ExplainedPolicy<'_>],
    has_values: bool,
) -> Result<JsonValue, AllocError>
    ensures { IfOk result (λ j. IsDocument text.now has_values (IsReached evaluator.now) lacks.now explained.now
        (json_view j)) }
{
    let places = Places::of(alloc, text)?;
    let mut members: Vec<(RcStr, JsonValue)> = Vec::new(alloc);
    let lacks = lacks_to_json(alloc, &places, lacks)?;
    put_member(alloc, "lacks", lacks, &mut members)?;
    let policies = policies_to_json(alloc, &places, evaluator, explained, has_values)?;
    put_member(alloc, "policies", policies, &mut members)?;
    Ok(JsonValue::Object(members))
}
