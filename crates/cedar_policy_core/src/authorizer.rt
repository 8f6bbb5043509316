//! The authorizer, what it answers, and why it does not.
pub use cedar_authorizer::authorizer::{
    AuthorizationError, Authorizer, ConcretizationError, Decision, Diagnostics, ErrorHandling,
    ErrorState, EvaluationResponse, PartialResponse, ReauthorizationError, ReportedIds,
    ReportedPolicies, Resolution, Response,
};

/// Why a policy was skipped, and why a response could not be taken further.
pub mod err {
    pub use cedar_authorizer::authorizer::err::{
        AuthorizationError, ConcretizationError, ReauthorizationError,
    };
}

/// How high expressions, values, policies and what is given are, and the limit of levels that suffices for them.
pub mod heights {
    pub use cedar_heights::{
        condition_height, context_height, entities_height, entity_height, expr_height,
        fields_height, laws, levels_for, levels_for_step, mapped_height, policies_height,
        record_height, request_height, residuals_height, value_height,
    };
}

/// What holds of the responses of any two authorizations, of runs, of steps and of chains. Each function is a law, and
/// does nothing.
pub mod laws {
    pub use cedar_authorizer::authorizer::laws::{
        equal_calls_answer_alike, equal_calls_report_alike, equal_steps_report_alike,
        functions_have_one_answer, more_levels_answer_alike, more_levels_report_alike,
        responses_are_stable, steps_make_a_chain,
    };
    pub use cedar_faithful::owed::{
        nothing_is_owed_of_functions, standard_functions_fit_each_world,
    };
    pub use cedar_laws::determinism::{alike_runs_say_the_same, runs_are_alike, runs_are_equal};
    pub use cedar_laws::levels::levels_keep_runs;
    pub use cedar_laws::steps::{chains_go_on, steps_are_alike, steps_are_equal};
    pub use cedar_unknowns::laws::listed_steps_finish;
}

/// Decisions, errors and responses as JSON.
pub mod json {
    pub use cedar_json_writer::{
        decision_to_json, error_to_json, errors_to_json, partial_response_to_json, put_error,
        put_error_within, put_known, response_to_json,
    };
}
