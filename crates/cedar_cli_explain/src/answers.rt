//! What policies decide, and why, as one JSON value.
ghost use Rattle.std.specs.Prelude.{◌≡◌, IfOk, IfErr, codes, string_bytes};
ghost use Rattle.cedar_extensions.specs.Extensions.{extensions_view, calls_of};
ghost use Rattle.cedar_json_writer.specs.Trees.{json_view};
ghost use Rattle.cedar_json_lines.specs.Objects.{IsOneMore};
ghost use Rattle.cedar_cli.specs.Reasons.{IsToldFor, IsUnauthorized, IsAskedUnread, IsRequestUnread};
ghost use Rattle.cedar_cli_explain.specs.Explained.{IsExplainedAsJson, IsDecidedBeside, IsExplained, IsExplainedBy};
ghost use Rattle.cedar_cli_explain.specs.Explained.{IsExplainedOver, IsExplainedOf};

use cedar_cli::{
    Asked, Printed, Refusal, Source, Way, authorize, known_store, read_over, text_limit,
    whole_request,
};
use cedar_explain_json::explanation_to_json;
use cedar_explain_printer::Telling;
use cedar_json_lines::with_member;
use cedar_policy_core::ast::{PolicySet, Request};
use cedar_policy_core::entities::Entities;
use cedar_policy_core::entities::json::JsonValue;
use cedar_policy_core::extensions::Extensions;
use cedar_policy_core::extensions::laws::functions_are_computed;
use cedar_policy_core::parser::laws::known_calls_of_policies;
use std::alloc::{AllocError, Global};

/// The policies that are explained, the text that they stand in, in which way they are asked, and whether values are told.
#[derive(Clone, Copy)]
struct Explaining<'p> {
    text: &'p str,
    policies: &'p PolicySet,
    way: Way,
    has_values: bool,
}

/// What the policies decide for the request, as `authorize` prints it as JSON, with one member more: at `explanation` what
/// each policy came to, and the parts that decide it, and what permits lack, as `explanation_to_json` has it. The errors
/// stand in the value; templates, which decide nothing, are told as warnings. Refused as `authorize` is.
pub fn authorize_and_explain_as_json(
    alloc: Global,
    policies: Source<'_>,
    asked: &Asked<'_, '_>,
    way: Way,
    has_values: bool,
) -> Result<Printed, Refusal>
    ensures answered { IfOk result (IsExplainedAsJson policies.entry.text.now asked.now way has_values) }
    ensures refused { IfErr result (IsToldFor (IsUnauthorized policies.entry.text.now asked.now)) }
{
    let explanation = explain(alloc, policies, asked, way, has_values)?;
    let printed = decide_beside(alloc, policies, asked, way, &explanation);
    drop(explanation);
    printed
}

// ---- the decision

fn decide_beside(
    alloc: Global,
    policies: Source<'_>,
    asked: &Asked<'_, '_>,
    way: Way,
    explanation: &JsonValue,
) -> Result<Printed, Refusal>
    ensures answered { IfOk result
        (IsDecidedBeside policies.entry.text.now asked.now way (json_view explanation.now)) }
    ensures refused { IfErr result (IsToldFor (IsUnauthorized policies.entry.text.now asked.now)) }
{
    let way = Way {
        is_json: true,
        ..way
    };
    let decided = authorize(alloc, policies, asked, way)?;
    let printed = put_beside(alloc, decided, explanation)?;
    Ok(printed)
}

fn put_beside(
    alloc: Global,
    decided: Printed,
    explanation: &JsonValue,
) -> Result<Printed, AllocError>
    ensures output { IfOk result (λ p. IsOneMore (string_bytes decided.output) (codes "explanation")
        (json_view explanation.now) (string_bytes p.output)) }
    ensures status { IfOk result (λ p. p.status ≡ decided.status) }
{
    let Printed {
        output,
        warnings,
        status,
    } = decided;
    let beside = with_member(alloc, output.as_str(), "explanation", explanation);
    drop(output);
    let joined = beside?;
    Ok(Printed {
        output: joined,
        warnings,
        status,
    })
}

// ---- the explanation

fn explain(
    alloc: Global,
    policies: Source<'_>,
    asked: &Asked<'_, '_>,
    way: Way,
    has_values: bool,
) -> Result<JsonValue, Refusal>
    ensures answered { IfOk result
        (λ j. IsExplained policies.entry.text.now asked.now way has_values (json_view j)) }
    ensures refused { IfErr result (IsToldFor (IsUnauthorized policies.entry.text.now asked.now)) }
{
    functions_are_computed();
    known_calls_of_policies();
    let extensions = Extensions::all_available();
    let parsed = read_over(alloc, policies, &extensions)?;
    let explaining = Explaining {
        text: policies.text,
        policies: &parsed.policies,
        way,
        has_values,
    };
    let explanation = explain_over_given_store(alloc, explaining, asked, &extensions);
    drop(parsed);
    explanation
}

fn explain_over_given_store(
    alloc: Global,
    explaining: Explaining<'_>,
    asked: &Asked<'_, '_>,
    extensions: &Extensions<'_>,
) -> Result<JsonValue, Refusal>
    ensures answered { IfOk result (λ j. IsExplainedBy (extensions_view extensions.now) (calls_of extensions.now)
        explaining.entry.text.now explaining.entry.policies.now asked.now explaining.entry.way
        explaining.entry.has_values (json_view j)) }
    ensures refused { IfErr result (IsToldFor
        (IsAskedUnread (extensions_view extensions.now) (calls_of extensions.now) asked.now)) }
{
    let mut told = String::new(alloc);
    let store = known_store(alloc, asked, extensions, &mut told)?;
    let explanation = explain_over_store(alloc, explaining, &store.entities, asked, extensions);
    drop((store, told));
    explanation
}

fn explain_over_store(
    alloc: Global,
    explaining: Explaining<'_>,
    entities: &Entities,
    asked: &Asked<'_, '_>,
    extensions: &Extensions<'_>,
) -> Result<JsonValue, Refusal>
    ensures answered { IfOk result (λ j. IsExplainedOver (extensions_view extensions.now) (calls_of extensions.now)
        explaining.entry.text.now explaining.entry.policies.now entities.now asked.now explaining.entry.way
        explaining.entry.has_values (json_view j)) }
    ensures refused { IfErr result (IsToldFor
        (IsRequestUnread (extensions_view extensions.now) (calls_of extensions.now) asked.now)) }
{
    let request = whole_request(alloc, asked, extensions)?;
    let explanation = explain_request(alloc, explaining, request, entities, extensions)?;
    Ok(explanation)
}

fn explain_request(
    alloc: Global,
    explaining: Explaining<'_>,
    request: Request,
    entities: &Entities,
    extensions: &Extensions<'_>,
) -> Result<JsonValue, AllocError>
    ensures { IfOk result (λ j. IsExplainedOf (extensions_view extensions.now) (calls_of extensions.now)
        explaining.entry.text.now explaining.entry.policies.now entities.now request explaining.entry.way
        explaining.entry.has_values (json_view j)) }
{
    let telling = Telling {
        limit: explaining.way.limit.unwrap_or(text_limit()),
        error_handling: explaining.way.error_handling,
        has_values: explaining.has_values,
    };
    explanation_to_json(
        alloc,
        explaining.text,
        request,
        explaining.policies,
        entities,
        extensions,
        telling,
    )
}
