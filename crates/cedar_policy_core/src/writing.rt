//! Expressions and policies as Cedar's text, and Cedar's text in one layout.
pub use cedar_text_formatter::{FormatError, format_text, is_formatted};
pub use cedar_text_printer::{policies_to_cedar, policy_to_cedar, to_cedar};

/// Layouts: that there is one, of which the lexer reads the same tokens, and which stays as it is. The functions are
/// laws, and do nothing.
pub mod laws {
    pub use cedar_text_formatter::laws::{
        formatting_again_changes_nothing, layouts_are_determined, tokens_are_kept,
    };
}
