//! The line of a response, and the response of a line.
ghost use Rattle.std.specs.Prelude.{◌≡◌, List, IfOk, IfErr, string_bytes};
ghost use Rattle.cedar_extensions.specs.Extensions.{extensions_view, calls_of};
ghost use Rattle.cedar_functions.specs.Functions.{these, signatures_of};
ghost use Rattle.cedar_cli.specs.Reasons.{IsToldFor};
ghost use Rattle.cedar_response_json.specs.Extensions.{names_of};
ghost use Rattle.cedar_cli_relays.specs.Saved.{IsLineOf, SaysResponse};
ghost use Rattle.cedar_cli_relays.specs.Unresumed.{IsOfLine, IsLineUnread};

use cedar_cli::{Refusal, Source, line_of, refuse_with_line};
use cedar_policy_core::authorizer::PartialResponse;
use cedar_policy_core::extensions::Extensions;
use cedar_policy_core::parser::Functions;
use cedar_policy_json_reader::json_depth;
use cedar_response_json::whole_response_to_json;
use cedar_response_json_reader::{ResponseJsonError, whole_response_from_json_str};
use std::alloc::{AllocError, Global};

// How many levels an expression of a line may have, as those of a text.
const LEVELS: usize = 4000;

/// The response in JSON, whole, on a line.
pub(crate) fn line_of_response(
    alloc: Global,
    response: &PartialResponse,
    extensions: &Extensions<'_>,
) -> Result<String, AllocError>
    ensures { IfOk result (λ s. IsLineOf (names_of extensions.now) response.now (string_bytes s)) }
{
    let json = whole_response_to_json(alloc, response, extensions)?;
    let line = line_of(alloc, &json);
    drop(json);
    line
}

/// The response that the line says. Refused as `whole_response_from_json_str` refuses it: `NAME: $.path: why`, or that it is
/// no JSON or nests too deep.
pub(crate) fn response_of_line(
    alloc: Global,
    source: Source<'_>,
    extensions: &Extensions<'_>,
) -> Result<PartialResponse, Refusal>
    ensures said { IfOk result (SaysResponse (extensions_view extensions.now) (calls_of extensions.now)
        (names_of extensions.now) (these (signatures_of extensions.now)) source.entry.text.now) }
    ensures refused { IfErr result (IsToldFor (IsLineUnread (extensions_view extensions.now)
        (calls_of extensions.now) (names_of extensions.now) (these (signatures_of extensions.now))
        source.entry.text.now)) }
{
    match Functions::of(alloc, extensions) {
        Ok(functions) => {
            let response = response_said(alloc, source, extensions, &functions);
            drop(functions);
            response
        }
        Err(AllocError) => Err(Refusal::Memory),
    }
}

ghost use Rattle.cedar_functions.specs.Functions.{knowledge};

fn response_said(
    alloc: Global,
    source: Source<'_>,
    extensions: &Extensions<'_>,
    functions: &Functions,
) -> Result<PartialResponse, Refusal>
    ensures said { IfOk result (SaysResponse (extensions_view extensions.now) (calls_of extensions.now)
        (names_of extensions.now) (knowledge functions.now) source.entry.text.now) }
    ensures refused { IfErr result (IsToldFor (IsLineUnread (extensions_view extensions.now)
        (calls_of extensions.now) (names_of extensions.now) (knowledge functions.now) source.entry.text.now)) }
{
    match whole_response_from_json_str(alloc, source.text, extensions, functions, LEVELS) {
        Ok(response) => Ok(response),
        Err(error) => Err(unread_line(alloc, source, error)),
    }
}

#[cold]
fn unread_line(alloc: Global, source: Source<'_>, error: ResponseJsonError) -> Refusal
    ensures { IsToldFor (IsOfLine error) result }
{
    match error {
        ResponseJsonError::Memory(_) => Refusal::Memory,
        ResponseJsonError::Syntax => {
            let (name, most) = (source.name, json_depth(LEVELS));
            let line = format!(in alloc;
                "{name}: not JSON, or more than {most} arrays and objects, one in another"
            );
            refuse_with_line(alloc, line)
        }
        ResponseJsonError::Refused { path, reason } => {
            let name = source.name;
            let line = format!(in alloc; "{name}: {path}: {reason}");
            drop(path);
            refuse_with_line(alloc, line)
        }
    }
}
