//! How high contexts are.
ghost use Rattle.std.specs.Prelude.{◌≡◌, None, option_copied};
ghost use Rattle.cedar_requests.specs.Contexts.{context_view, context_values};
ghost use Rattle.cedar_requests.specs.Requests.{context_given, request_view};
ghost use Rattle.cedar_heights.specs.Capped.{capped};
ghost use Rattle.cedar_heights.specs.Limits.{context_height};

use crate::expressions::fields_height;
use crate::values::record_height;
use cedar_requests::{Context, Request};

/// How many levels the request's context has: those of the record that it is; 0 where it is not known.
pub fn request_height(request: &Request) -> usize
    ensures { result ≡ capped (context_height (request_view request.now).context_part) }
{
    given_height(request.context())
}

fn given_height(context: Option<&Context>) -> usize
    ensures { result ≡ capped (context_height (context_given (option_copied context.entry))) }
{
    match context {
        None => 0,
        Some(context) => context_height(context),
    }
}

/// How many levels the context has: those of the record that it is.
pub fn context_height(context: &Context) -> usize
    ensures { result ≡ capped (context_height (context_view context.now)) }
{
    match context.as_value() {
        Some(values) => record_height(values),
        None => residual_height(context),
    }
}

// The same of a context that is not all values.
fn residual_height(context: &Context) -> usize
    requires { None ≡ context_values context.now }
    ensures { result ≡ capped (context_height (context_view context.now)) }
{
    match context.as_residual() {
        Some(parts) => fields_height(parts),
        None => 0,
    }
}
