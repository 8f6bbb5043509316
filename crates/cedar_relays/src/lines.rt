//! Lines of JSON that take a decision to another machine.
ghost use Rattle.std.specs.Prelude.{IfOk};
ghost use Rattle.cedar_requests.specs.Requests.{request_view};
ghost use Rattle.cedar_authorizer.specs.Running.{errors_of, request_of};
ghost use Rattle.cedar_authorizer.specs.responses.Rows.{mode_of, rows_view};
ghost use Rattle.cedar_json_writer.specs.Trees.{json_view};
ghost use Rattle.cedar_response_json.specs.Extensions.{names_of};
ghost use Rattle.cedar_response_json.specs.Responses.{IsWritten};
ghost use Rattle.cedar_staged.specs.Stages as stages;
ghost use Rattle.cedar_staged.specs.Resumptions as resumptions;

use cedar_extensions::Extensions;
use cedar_json_writer::JsonValue;
use cedar_response_json::whole_response_to_json;
use cedar_staged::{Resumed, Staged};
use std::alloc::{AllocError, Global};

/// The response of the last stage in JSON, whole, with the names of these extensions. Refuses only if out of memory.
pub fn staged_to_json(
    alloc: Global,
    staged: &Staged<'_, '_>,
    extensions: &Extensions<'_>,
) -> Result<JsonValue, AllocError>
    ensures written { IfOk result (λ j. IsWritten (mode_of (stages.response_of staged.now)) (names_of extensions.now)
        (request_view (request_of (stages.response_of staged.now))) (rows_view (stages.response_of staged.now))
        (errors_of (stages.response_of staged.now)) (json_view j)) }
{
    whole_response_to_json(alloc, staged.response(), extensions)
}

/// The same of a decision that was taken further from a response.
pub fn resumed_to_json(
    alloc: Global,
    resumed: &Resumed<'_, '_>,
    extensions: &Extensions<'_>,
) -> Result<JsonValue, AllocError>
    ensures written { IfOk result (λ j. IsWritten (mode_of (resumptions.response_of resumed.now))
        (names_of extensions.now) (request_view (request_of (resumptions.response_of resumed.now)))
        (rows_view (resumptions.response_of resumed.now)) (errors_of (resumptions.response_of resumed.now))
        (json_view j)) }
{
    whole_response_to_json(alloc, resumed.response(), extensions)
}
