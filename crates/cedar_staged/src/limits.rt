//! Whether the recursion limit is recorded.
ghost use Rattle.std.specs.Prelude.{◌≡◌};
ghost use Rattle.cedar_model.specs.Chains.{has_limit, is_limit};
ghost use Rattle.cedar_model.specs.Failures.{failure_kind};
ghost use Rattle.cedar_authorizer.specs.responses.Responses.{error_view, errors_view};

use cedar_authorizer::authorizer::AuthorizationError;

/// Whether the recursion limit is among these errors.
pub(crate) fn has_limit(errors: &[AuthorizationError]) -> bool
    ensures { result ≡ has_limit (errors_view errors.now) }
{
    'errors: for error in errors {
        if is_recursion_limit(error) {
            return true;
        }
    }
    false
}

// Whether the policy met the recursion limit.
fn is_recursion_limit(error: &AuthorizationError) -> bool
    ensures { result ≡ is_limit (failure_kind (error_view error.now).1) }
{
    let AuthorizationError::PolicyEvaluationError { id: _, error } = error;
    error.is_recursion_limit()
}
