//! How error states are ordered. Each function is a law, and does nothing.
ghost use Rattle.std.specs.Prelude.{◌≡◌, Some};
ghost use Rattle.cedar_authorizer.specs.declared.responses.partial_response.ErrorState.{ErrorState};
ghost use Rattle.cedar_authorizer.specs.responses.ErrorStates.{order_of_states};

use crate::responses::partial_response::ErrorState;

/// `NoError` comes before `Error`, by either way to compare.
pub fn no_error_comes_first()
    ensures order { (a b : ErrorState) → ⟦<ErrorState as Ord>⟧.cmp a b ≡ order_of_states a b }
    ensures partial_order { (a b : ErrorState)
        → ⟦<ErrorState as PartialOrd>⟧.partial_cmp a b ≡ Some (order_of_states a b) }
{}
