//! Contexts.
ghost use Rattle.std.specs.Prelude.{◌≡◌, Ok, IfOk};
ghost use Rattle.cedar_values.specs.Residuals.{partial_term};
ghost use Rattle.cedar_requests.specs.Contexts.{context_part_value};
ghost use Rattle.cedar_json_reader.specs.Said.{said};
ghost use Rattle.cedar_json_writer.specs.ReadBack.{HasJson};
ghost use Rattle.cedar_json_writer.specs.Trees.{json_view};
ghost use Rattle.cedar_json_writer.specs.Written.{written};

use crate::expressions::expr_to_json;
use crate::tree::JsonValue;
use cedar_requests::Context;
use cedar_restricted::RestrictedExpr;
use std::alloc::{AllocError, Global};

/// The context in Cedar's JSON: the object of its values or, where an unknown stands in one, of its restricted
/// expressions. It reads back as `expr_to_json` says. Refuses only if out of memory.
pub fn context_to_json(alloc: Global, context: &Context) -> Result<JsonValue, AllocError>
    ensures written { IfOk result (λ j. json_view j ≡ written (partial_term (context_part_value context.now))) }
    ensures reads_back { IfOk result (λ j. HasJson (partial_term (context_part_value context.now))
        → said (json_view j) ≡ Ok (partial_term (context_part_value context.now))) }
{
    let copy: Context = context.clone()?;
    let record = RestrictedExpr::try_from(copy)?;
    let json = expr_to_json(alloc, record.as_ref());
    drop(record);
    json
}
