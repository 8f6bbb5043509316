#![tactic(auto, using(cedar_json_writer::proofs::Trees::trees))]
//! Whole partial responses.
ghost use Rattle.std.specs.Prelude.{◌≡◌, [], ◌∷◌, ◌++◌, codes, IfOk, OnOk};
ghost use Rattle.json.specs.Json.{string};
ghost use Rattle.cedar_decisions.specs.Decisions.{mode_view};
ghost use Rattle.cedar_extensions.specs.declared.extensions.Extensions.{Extensions as Handed};
ghost use Rattle.cedar_authorizer.specs.Running.{errors_of, request_of};
ghost use Rattle.cedar_authorizer.specs.responses.Rows.{mode_of, rows_view};
ghost use Rattle.cedar_requests.specs.Requests.{request_view};
ghost use Rattle.cedar_json_writer.specs.Trees.{json_view, members_seen};
ghost use Rattle.cedar_response_json.specs.Extensions.{names_of};
ghost use Rattle.cedar_response_json.specs.Responses.{mode_member, mode_word, names_member, rows_member, IsWritten};
ghost use Rattle.cedar_response_json.specs.Responses.{AddsErrors};

use crate::errors::errors_to_json;
use crate::extensions::extensions_to_json;
use crate::objects::put_text;
use crate::policies::policies_to_json;
use crate::requests::put_request;
use cedar_authorizer::authorizer::{ErrorHandling, PartialResponse};
use cedar_extensions::Extensions;
use cedar_json_writer::{JsonValue, put_member};
use std::alloc::{AllocError, Global};
use std::rc::RcStr;

/// The whole response in JSON: at `errorHandling` how errors are handled; at `extensions` the names of these
/// extensions; at `principal`, `action`, `resource` and `context` what these variables answer, as expressions, an
/// unknown with its type; at `policies` for each policy its id, what is reported of it, and the policy as it is carried
/// on, the permits before the forbids and of each the satisfied ones first; and at `errors` of each error its policy, its
/// kind and what it says. Refuses only if out of memory.
pub fn whole_response_to_json(
    alloc: Global,
    response: &PartialResponse,
    extensions: &Extensions<'_>,
) -> Result<JsonValue, AllocError>
    ensures written { IfOk result (λ j. IsWritten (mode_of response.now) (names_of extensions.now)
        (request_view (request_of response.now)) (rows_view response.now) (errors_of response.now) (json_view j)) }
{
    let mut members: Vec<(RcStr, JsonValue)> = Vec::new(alloc);
    put_mode(alloc, response.error_handling(), &mut members)?;
    put_names(alloc, extensions, &mut members)?;
    put_request(alloc, &response.request, &mut members)?;
    put_policies(alloc, response, &mut members)?;
    put_errors(alloc, response, &mut members)?;
    Ok(JsonValue::Object(members))
}

// How errors are handled.
fn put_mode(
    alloc: Global,
    mode: ErrorHandling,
    members: &mut Vec<(RcStr, JsonValue)>,
) -> Result<(), AllocError>
    ensures { OnOk result
        (members_seen members.new.items ≡ members_seen members.old.items ++ mode_member (mode_view mode) ∷ []) }
{
    put_text(alloc, "errorHandling", mode_word(mode), members)?;
    Ok(())
}

// The word for how errors are handled.
fn mode_word(mode: ErrorHandling) -> &'static str
    ensures { result.now ≡ mode_word (mode_view mode) }
{
    match mode {
        ErrorHandling::Skip => "skip",
        ErrorHandling::ForbidOnError => "forbidOnError",
    }
}

// The names of the extensions.
fn put_names(
    alloc: Global,
    extensions: &Extensions<'_>,
    members: &mut Vec<(RcStr, JsonValue)>,
) -> Result<(), AllocError>
    ensures { OnOk result (members_seen members.new.items
        ≡ members_seen members.old.items ++ names_member (names_of extensions.now) ∷ []) }
{
    let names = extensions_to_json(alloc, extensions)?;
    put_member(alloc, "extensions", names, members)?;
    Ok(())
}

// What is reported of the policies.
fn put_policies(
    alloc: Global,
    response: &PartialResponse,
    members: &mut Vec<(RcStr, JsonValue)>,
) -> Result<(), AllocError>
    ensures { OnOk result (members_seen members.new.items
        ≡ members_seen members.old.items ++ rows_member (rows_view response.now) ∷ []) }
{
    let policies = policies_to_json(alloc, response)?;
    put_member(alloc, "policies", policies, members)?;
    Ok(())
}

// What is told of the errors.
fn put_errors(
    alloc: Global,
    response: &PartialResponse,
    members: &mut Vec<(RcStr, JsonValue)>,
) -> Result<(), AllocError>
    ensures { OnOk result (AddsErrors (errors_of response.now) (members_seen members.old.items)
        (members_seen members.new.items)) }
{
    let errors = errors_to_json(alloc, &response.errors)?;
    put_member(alloc, "errors", errors, members)?;
    Ok(())
}
