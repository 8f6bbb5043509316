//! Expressions, entities, names and policies of Cedar's text, and where they stand in it.
pub use cedar_functions::{Functions, Known};
pub use cedar_layers::expressions::Loc;
pub use cedar_text_parser::show::{message, show_error};
pub use cedar_text_parser::{
    ParseError, ParsedPolicies, parse_entity_uid, parse_expr, parse_name, parse_policies,
    parse_policy,
};

/// Why a text is not read, where, and how that is shown.
pub mod err {
    pub use cedar_text_lexer::errors::{Expected, ReadError};
    pub use cedar_text_lexer::show::{Position, locate, show_error};
    pub use cedar_text_lexer::tokens::Kind;
}

/// How high what is read is, and which functions it calls. The functions are laws, and do nothing.
pub mod laws {
    pub use cedar_text_parser::laws::{known_calls_stay_known, trees_bound_heights};
    pub use cedar_text_parser::policy_laws::known_calls_of_policies;
}
