//! What contexts, requests and maps of values hold, whatever they are. Each function is a law, and does nothing.
ghost use Rattle.std.specs.Prelude.{◌≡◌, Some, true};
ghost use Rattle.cedar_model.specs.Terms.{Text};
ghost use Rattle.cedar_model.specs.Values.{Represented, expression_of};
ghost use Rattle.cedar_model.specs.Shapes.{is_restricted};
ghost use Rattle.cedar_model.specs.Restricted.{IsSound, IsSoundContext};
ghost use Rattle.cedar_requests.specs.Contexts.{context_view};
ghost use Rattle.cedar_requests.specs.Requests.{request_view};
ghost use Rattle.cedar_requests.specs.Substitutions.{values_for};

use crate::context::Context;
use crate::request::Request;
use cedar_values::Value;
use std::collections::HashMap;
use std::rc::RcStr;

/// The values of a context are sound, and the expressions of a residual restricted.
pub fn contexts_are_sound(context: &Context)
    ensures { IsSoundContext (context_view context.now) }
{}

/// So are those of a request's context.
pub fn requests_are_sound(request: &Request)
    ensures { IsSoundContext (request_view request.now).context_part }
{}

/// Each value that a map has is sound, and is written as a restricted expression.
pub fn mapped_values_are_sound(map: &HashMap<RcStr, Value>)
    ensures sound { (n : Text) (v : Represented) → values_for map.now.entries n ≡ Some v → IsSound v }
    ensures restricted { (n : Text) (v : Represented) → values_for map.now.entries n ≡ Some v →
        is_restricted (expression_of v) ≡ true }
{}
