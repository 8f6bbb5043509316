//! What is answered to a row that is evaluated in the setting or reads what the setting holds.
//!
//! - of an expression: `value LIMIT`, `place LIMIT`, `elements LIMIT` and `error LIMIT` (what it evaluates to, where
//!   that or its error stands, where each element of a set does, and the error's text; with no limit as many levels as
//!   it needs), `partial LIMIT`, `partial-place LIMIT` and `residual LIMIT` (what it partly evaluates to, where that
//!   stands, and what is left of it, as an expression that is read and compared);
//! - of an operator on values: `operator PLACE`; of the words of an error: `built-error PLACE`;
//! - of an expression: `unknowns` (which unknowns stand in it, each with the type that it is annotated with, and which
//!   entities unknowns stand for);
//! - of the setting: `request` and `entity`, and `extensions` (their names, the types that their functions make, and
//!   those that they overload);
//! - of a name: `function` (how many arguments the stored function takes);
//! - of a name and values: `made-entity` (an entity that is made of values);
//! - of three entities: `made-request` (the request of these in the context of the setting);
//! - of a number: `negations LIMIT`, what `true` evaluates to under so many.
//!
//! Questions on what is written alone are those of `written`.

pub mod deep;
pub mod described;
pub mod documents;
pub mod evaluated;
pub mod operated;
pub mod stored;
pub mod unknowns;

use crate::notation::answer::Answer;
use crate::notation::settings::Setting;
use crate::written;

/// Answers these words, where the answer that is wanted is this one. A question of another kind than those above is
/// handed to `written`.
pub fn ask(
    answer: &mut Answer,
    setting: &Setting<'_, '_>,
    kind: &str,
    argument: &str,
    words: &str,
    want: &str,
) {
    match kind {
        "partial" | "partial-place" | "residual" => evaluated::ask_partly(
            answer, setting, kind, argument, words, want,
        ),
        "operator" => operated::ask(answer, argument, words),
        "built-error" => operated::ask_error(answer, argument, words),
        "request" => stored::ask_request(answer, &setting.request, words),
        "entity" => stored::ask_entity(answer, &setting.entities, words),
        "extensions" => stored::ask_extensions(answer, setting.extensions),
        "function" => stored::ask_function(answer, setting.extensions, words),
        "made-entity" => stored::ask_made_entity(answer, words),
        "made-request" => stored::ask_made_request(answer, &setting.request, words),
        "unknowns" => unknowns::ask(answer, words),
        "negations" => deep::ask(answer, setting, argument, words),
        "value" | "place" | "elements" | "error" => {
            evaluated::ask(answer, setting, kind, argument, words)
        }
        _ => written::ask(answer, setting.extensions, kind, argument, words, want),
    }
}
