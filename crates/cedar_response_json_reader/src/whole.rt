#![tactic(auto, using(crate::proofs::Refused::refusals, crate::proofs::TextLemmas::text_lemmas))]
//! Whole partial responses.
ghost use Rattle.std.specs.Prelude.{◌≡◌, Some, None, Ok, IfOk, IfErr, map, codes, option_map};
ghost use Rattle.std.specs.Option.{option_and_then};
ghost use Rattle.json.specs.Find.{as_str};
ghost use Rattle.json.specs.Value.{value_view};
ghost use Rattle.cedar_decisions.specs.Decisions.{mode_view};
ghost use Rattle.cedar_expressions.specs.View.{view};
ghost use Rattle.cedar_extensions.specs.Extensions.{extensions_view, calls_of};
ghost use Rattle.cedar_functions.specs.Functions.{knowledge};
ghost use Rattle.cedar_policy_json_reader.specs.JsonTexts.{depth_for};
ghost use Rattle.cedar_requests.specs.Requests.{entry_view, request_view};
ghost use Rattle.cedar_authorizer.specs.responses.Responses.{errors_view};
ghost use Rattle.cedar_authorizer.specs.responses.Rows.{mode_of};
ghost use Rattle.cedar_authorizer.specs.Running.{errors_of, request_of, HoldsRows, KeepsSheet};
ghost use Rattle.cedar_response_json.specs.Extensions.{names_of};
ghost use Rattle.cedar_response_json_reader.specs.Refusals.{IsRefusal, both_said};
ghost use Rattle.cedar_response_json_reader.specs.Contexts.{IsWhyNone};
ghost use Rattle.cedar_response_json_reader.specs.Held.{told, IsRequestOf};
ghost use Rattle.cedar_response_json_reader.specs.JsonTexts.{SaysSo, IsTextRefusal};
ghost use Rattle.cedar_response_json_reader.specs.Responses as says;
ghost use Rattle.cedar_response_json_reader.specs.Rows.{held_row, repeated_in};
ghost use Rattle.cedar_response_json_reader.specs.Shapes.{part_at};

use crate::contexts::context_of;
use crate::errors::{ResponseJsonError, ResponseRefusal};
use crate::extensions::extensions_at;
use crate::ids::rows_at;
use crate::reports::Report;
use crate::requests::{context_at, entry_at};
use crate::shapes::{member_at, over_members};
use crate::sheets::sheet_of;
use crate::told::errors_at;
use cedar_authorizer::authorizer::{AuthorizationError, ErrorHandling, PartialResponse};
use cedar_authorizer::responses::Sheet;
use cedar_expressions::Expr;
use cedar_extensions::Extensions;
use cedar_functions::Functions;
use cedar_layers::policies::Policy;
use cedar_names::Var;
use cedar_policy_json_reader::{json_depth, parse_deep_json};
use cedar_requests::{EntityUIDEntry, Request};
use json::{Scratch, Value};
use std::alloc::{AllocError, Global};
use std::rc::Rc;

// Who asks, to do what, with what, and the expression of the context.
type Parts = (EntityUIDEntry, (EntityUIDEntry, (EntityUIDEntry, Expr)));

// What is reported of policies, and what is told of errors.
type Reports = (Vec<(Report, Policy)>, Vec<AuthorizationError>);

/// The response that the JSON text says, as `whole_response_from_json` reads it. `Syntax` where the text is no JSON or
/// nests deeper than `json_depth` of the limit, `Refused` where an object of it has a key twice, with the way to the
/// first such key, and else as `whole_response_from_json` refuses.
pub fn whole_response_from_json_str(
    alloc: Global,
    text: &str,
    extensions: &Extensions<'_>,
    functions: &Functions,
    limit: usize,
) -> Result<PartialResponse, ResponseJsonError>
    ensures said { IfOk result (λ r. SaysSo (depth_for limit) text.now (λ j. says.Reads (extensions_view extensions.now)
        (calls_of extensions.now) limit
        (says.response_said (knowledge functions.now) limit (names_of extensions.now) j) r)) }
    ensures refused { IfErr result (IsTextRefusal (depth_for limit) text.now
        (λ j. says.IsWhyNotRead (extensions_view extensions.now) (calls_of extensions.now) limit
        (says.response_said (knowledge functions.now) limit (names_of extensions.now) j))) }
{
    let mut scratch = Scratch::new(alloc);
    match parse_deep_json(alloc, text, &mut scratch, json_depth(limit)) {
        Ok(value) => match whole_response_from_json(alloc, &value, extensions, functions, limit) {
            Ok(response) => Ok(response),
            Err(error) => Err(error),
        },
        Err(error) => Err(ResponseJsonError::of_policies(error)),
    }
}

/// The response that the JSON value says, with the extensions that it names, which must be these, in their order; within
/// so many levels. Refuses with `Refused`, which holds the path of the part that is refused first, and the reason;
/// `Memory` is out of memory.
pub fn whole_response_from_json(
    alloc: Global,
    json: &Value<'_>,
    extensions: &Extensions<'_>,
    functions: &Functions,
    limit: usize,
) -> Result<PartialResponse, ResponseJsonError>
    ensures said { IfOk result (says.Reads (extensions_view extensions.now) (calls_of extensions.now) limit
        (says.response_said (knowledge functions.now) limit (names_of extensions.now) (value_view json.now))) }
    ensures refused { IfErr result (says.IsWhyNotRead (extensions_view extensions.now) (calls_of extensions.now) limit
        (says.response_said (knowledge functions.now) limit (names_of extensions.now) (value_view json.now))) }
{
    match over_members(json, 8) {
        Some(reason) => Err(ResponseJsonError::refusal(alloc, reason)),
        None => with_members(alloc, json, extensions, functions, limit),
    }
}

fn with_members(
    alloc: Global,
    json: &Value<'_>,
    extensions: &Extensions<'_>,
    functions: &Functions,
    limit: usize,
) -> Result<PartialResponse, ResponseJsonError>
    ensures said { IfOk result (says.Reads (extensions_view extensions.now) (calls_of extensions.now) limit
        (both_said (says.mode_with_names (names_of extensions.now) (value_view json.now))
        (says.request_and_reports (knowledge functions.now) limit (value_view json.now)))) }
    ensures refused { IfErr result (says.IsWhyNotRead (extensions_view extensions.now) (calls_of extensions.now) limit
        (both_said (says.mode_with_names (names_of extensions.now) (value_view json.now))
        (says.request_and_reports (knowledge functions.now) limit (value_view json.now)))) }
{
    match mode_with_names(alloc, json, extensions) {
        Ok(mode) => match request_and_reports(alloc, json, functions, limit) {
            Ok((parts, reports)) => made(alloc, mode, parts, reports, extensions, limit),
            Err(error) => Err(error),
        },
        Err(error) => Err(error),
    }
}

// How errors are handled, where the extensions are these.
fn mode_with_names(
    alloc: Global,
    json: &Value<'_>,
    extensions: &Extensions<'_>,
) -> Result<ErrorHandling, ResponseJsonError>
    ensures said { IfOk result
        (λ r. says.mode_with_names (names_of extensions.now) (value_view json.now) ≡ Ok (mode_view r)) }
    ensures refused { IfErr result (IsRefusal (says.mode_with_names (names_of extensions.now) (value_view json.now))) }
{
    match mode_at(alloc, json) {
        Ok(mode) => match extensions_at(alloc, json, extensions) {
            Ok(_) => Ok(mode),
            Err(error) => Err(error),
        },
        Err(error) => Err(error),
    }
}

fn mode_at(alloc: Global, json: &Value<'_>) -> Result<ErrorHandling, ResponseJsonError>
    ensures said { IfOk result (λ r. part_at (codes "errorHandling") says.mode_said (value_view json.now)
        ≡ Ok (mode_view r)) }
    ensures refused { IfErr result (IsRefusal (part_at (codes "errorHandling") says.mode_said (value_view json.now))) }
{
    match member_at(alloc, json, "errorHandling") {
        Ok(part) => match mode(alloc, part) {
            Ok(mode) => Ok(mode),
            Err(error) => Err(error.under_key(alloc, "errorHandling")),
        },
        Err(error) => Err(error),
    }
}

fn mode(alloc: Global, json: &Value<'_>) -> Result<ErrorHandling, ResponseJsonError>
    ensures said { IfOk result (λ r. says.mode_said (value_view json.now)
        ≡ Ok (mode_view r)) }
    ensures refused { IfErr result (IsRefusal (says.mode_said (value_view json.now))) }
{
    match mode_in(json) {
        Some(mode) => Ok(mode),
        None => Err(ResponseJsonError::refusal(alloc, ResponseRefusal::NotAMode)),
    }
}

fn mode_in(json: &Value<'_>) -> Option<ErrorHandling>
    ensures { option_map mode_view result ≡ option_and_then says.mode_named (as_str (value_view json.now)) }
{
    match json.as_str() {
        Some(word) => mode_named(word),
        None => None,
    }
}

fn mode_named(word: &str) -> Option<ErrorHandling>
    ensures { option_map mode_view result ≡ says.mode_named word.now }
{
    if word == "skip" {
        Some(ErrorHandling::Skip)
    } else if word == "forbidOnError" {
        Some(ErrorHandling::ForbidOnError)
    } else {
        None
    }
}

fn request_and_reports(
    alloc: Global,
    json: &Value<'_>,
    functions: &Functions,
    limit: usize,
) -> Result<(Parts, Reports), ResponseJsonError>
    ensures said { IfOk result (λ r. says.request_and_reports (knowledge functions.now) limit (value_view json.now)
        ≡ Ok (
          (entry_view r.0.0, (entry_view r.0.1.0, (entry_view r.0.1.1.0, view r.0.1.1.1))),
          (map held_row r.1.0.items, errors_view r.1.1.items),
        )) }
    ensures refused { IfErr result
        (IsRefusal (says.request_and_reports (knowledge functions.now) limit (value_view json.now))) }
    ensures apart { IfOk result (λ r. repeated_in r.1.0.items ≡ None) }
{
    match parts(alloc, json, functions, limit) {
        Ok(parts) => match reports(alloc, json, functions, limit) {
            Ok(reports) => Ok((parts, reports)),
            Err(error) => {
                drop(parts);
                Err(error)
            }
        },
        Err(error) => Err(error),
    }
}

fn parts(
    alloc: Global,
    json: &Value<'_>,
    functions: &Functions,
    limit: usize,
) -> Result<Parts, ResponseJsonError>
    ensures said { IfOk result (λ r. says.parts_said (knowledge functions.now) limit (value_view json.now)
        ≡ Ok (entry_view r.0, (entry_view r.1.0, (entry_view r.1.1.0, view r.1.1.1)))) }
    ensures refused { IfErr result (IsRefusal (says.parts_said (knowledge functions.now) limit (value_view json.now))) }
{
    match entry_at(alloc, json, Var::Principal, functions, limit) {
        Ok(principal) => match action_and_others(alloc, json, functions, limit) {
            Ok(others) => Ok((principal, others)),
            Err(error) => {
                drop(principal);
                Err(error)
            }
        },
        Err(error) => Err(error),
    }
}

fn action_and_others(
    alloc: Global,
    json: &Value<'_>,
    functions: &Functions,
    limit: usize,
) -> Result<(EntityUIDEntry, (EntityUIDEntry, Expr)), ResponseJsonError>
    ensures said { IfOk result (λ r. says.action_and_others (knowledge functions.now) limit (value_view json.now)
        ≡ Ok (entry_view r.0, (entry_view r.1.0, view r.1.1))) }
    ensures refused { IfErr result
        (IsRefusal (says.action_and_others (knowledge functions.now) limit (value_view json.now))) }
{
    match entry_at(alloc, json, Var::Action, functions, limit) {
        Ok(action) => match resource_and_context(alloc, json, functions, limit) {
            Ok(others) => Ok((action, others)),
            Err(error) => {
                drop(action);
                Err(error)
            }
        },
        Err(error) => Err(error),
    }
}

fn resource_and_context(
    alloc: Global,
    json: &Value<'_>,
    functions: &Functions,
    limit: usize,
) -> Result<(EntityUIDEntry, Expr), ResponseJsonError>
    ensures said { IfOk result (λ r. says.resource_and_context (knowledge functions.now) limit (value_view json.now)
        ≡ Ok (entry_view r.0, view r.1)) }
    ensures refused { IfErr result
        (IsRefusal (says.resource_and_context (knowledge functions.now) limit (value_view json.now))) }
{
    match entry_at(alloc, json, Var::Resource, functions, limit) {
        Ok(resource) => match context_at(alloc, json, functions, limit) {
            Ok(context) => Ok((resource, context)),
            Err(error) => {
                drop(resource);
                Err(error)
            }
        },
        Err(error) => Err(error),
    }
}

fn reports(
    alloc: Global,
    json: &Value<'_>,
    functions: &Functions,
    limit: usize,
) -> Result<Reports, ResponseJsonError>
    ensures said { IfOk result (λ r. says.reports_said (knowledge functions.now) limit (value_view json.now)
        ≡ Ok (map held_row r.0.items, errors_view r.1.items)) }
    ensures refused { IfErr result
        (IsRefusal (says.reports_said (knowledge functions.now) limit (value_view json.now))) }
    ensures apart { IfOk result (λ r. repeated_in r.0.items ≡ None) }
{
    match rows_at(alloc, json, functions, limit) {
        Ok(rows) => match errors_at(alloc, json) {
            Ok(errors) => Ok((rows, errors)),
            Err(error) => {
                drop(rows);
                Err(error)
            }
        },
        Err(error) => Err(error),
    }
}

// ---- the response of these

fn made(
    alloc: Global,
    mode: ErrorHandling,
    parts: Parts,
    reports: Reports,
    extensions: &Extensions<'_>,
    limit: usize,
) -> Result<PartialResponse, ResponseJsonError>
    requires { repeated_in reports.0.items ≡ None }
    ensures read { IfOk result (says.IsRead (extensions_view extensions.now) (calls_of extensions.now) limit
        (told (mode_view mode) parts reports)) }
    ensures refused { IfErr result
        (IsWhyNone (extensions_view extensions.now) (calls_of extensions.now) limit (view parts.1.1.1)) }
{
    match request_of(alloc, parts, extensions, limit) {
        Ok(request) => match response_to(alloc, mode, request, reports) {
            Ok(response) => Ok(response),
            Err(error) => Err(ResponseJsonError::Memory(error)),
        },
        Err(error) => {
            drop(reports);
            Err(error)
        }
    }
}

fn request_of(
    alloc: Global,
    parts: Parts,
    extensions: &Extensions<'_>,
    limit: usize,
) -> Result<Request, ResponseJsonError>
    ensures request { IfOk result (IsRequestOf (extensions_view extensions.now) (calls_of extensions.now) limit parts) }
    ensures refused { IfErr result
        (IsWhyNone (extensions_view extensions.now) (calls_of extensions.now) limit (view parts.1.1.1)) }
{
    let (principal, (action, (resource, context))) = parts;
    match context_of(alloc, context, extensions, limit) {
        Ok(context) => Ok(Request::new_with_unknowns(principal, action, resource, context)),
        Err(error) => {
            drop(principal);
            drop(action);
            drop(resource);
            Err(error)
        }
    }
}

fn response_to(
    alloc: Global,
    mode: ErrorHandling,
    request: Request,
    reports: Reports,
) -> Result<PartialResponse, AllocError>
    requires { repeated_in reports.0.items ≡ None }
    ensures mode { IfOk result (λ r. mode_of r ≡ mode_view mode) }
    ensures held { IfOk result (HoldsRows (map held_row reports.0.items)) }
    ensures errors { IfOk result (λ r. errors_of r ≡ errors_view reports.1.items) }
    ensures request { IfOk result (λ r. request_of r ≡ request) }
{
    let request = Rc::new(alloc, request)?;
    let (rows, errors) = reports;
    match sheet_of(alloc, &rows, errors) {
        Ok(sheet) => {
            drop(rows);
            response_of(alloc, mode, sheet, request)
        }
        Err(error) => {
            drop(rows);
            drop(request);
            Err(error)
        }
    }
}

// The response of what is noted.
fn response_of(
    alloc: Global,
    mode: ErrorHandling,
    sheet: Sheet,
    request: Rc<Request>,
) -> Result<PartialResponse, AllocError>
    ensures mode { IfOk result (λ r. mode_of r ≡ mode_view mode) }
    ensures kept { IfOk result (λ r. KeepsSheet sheet r) }
    ensures request { IfOk result (λ r. r.request ≡ request) }
{
    PartialResponse::new_in_mode(
        alloc,
        mode,
        sheet.true_permits.into_iter(),
        sheet.false_permits.into_iter(),
        sheet.residual_permits.into_iter(),
        sheet.true_forbids.into_iter(),
        sheet.false_forbids.into_iter(),
        sheet.residual_forbids.into_iter(),
        sheet.errors.into_iter(),
        request,
    )
}
