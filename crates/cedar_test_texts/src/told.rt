//! What an error of a text says without the text, as a program tells it that passes errors up.
use crate::answer::Answer;
use cedar_functions::Functions;
use cedar_text_parser::parse_expr;
use std::alloc::Global;

/// Says that the text is read, or else what its error says; an expression has at most three levels.
pub fn ask_told(answer: &mut Answer, text: &str, known: &Functions) {
    match check_expression(answer.alloc, text, known) {
        Ok(()) => answer.put("is read"),
        Err(error) => answer.show(&error),
    }
}

// Whether the text can be read; `?` makes an `anyhow::Error` of the error.
fn check_expression(alloc: Global, text: &str, known: &Functions) -> anyhow::Result<()> {
    let expression = parse_expr(alloc, text, 3, known)?;
    drop(expression);
    Ok(())
}
