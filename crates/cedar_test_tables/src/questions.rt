//! What is answered to a row under the question that is asked of it: of policies, of what is known of them, and of the
//! program of the built-in rows. All other questions are those of `answers` and `written`.
//!
//! - Of the ids of policies: `decide LIMIT`, `decide-texts LIMIT` (the errors' own texts), `decide-copy LIMIT` (whether
//!   a copy is equal), `decide-extensions LIMIT` (the extensions whose functions failed), `decide-json LIMIT` (the
//!   response as JSON), `evaluate LIMIT`, `partly-evaluate LIMIT`, `set`, `set-debug`, `policy` and `condition`;
//! - of `default`, `new` and `setting`: `mode` (how errors are handled by default, by a new authorizer, and by that of
//!   the setting), and `resolution` (what reading a stored residual answers by default, by a new authorizer and a new
//!   evaluator, and by those of the setting);
//! - of the ids of policies and the steps behind them: `chain LIMIT` (what is known after the last step, which is the
//!   same by `authorize_in_steps` and by one `reauthorize` a step), `in-steps LIMIT` and `one-by-one LIMIT` (by the
//!   first, and by the second alone), and, instead of a limit, `get ID`, `request`, `readers`, `unknowns`, `json`,
//!   `whole` (the whole response in JSON) and `mode` (what these answer of it, the last of a copy too);
//! - of the notes that a response is made of and the steps behind them: `made`, `made readers`, `made request`,
//!   `made unknowns`, `made json`, `made mode` and `made get ID`;
//! - of a step: `context-with LIMIT` (the context of the setting with its values);
//! - of the arguments of the program of the built-in rows, `run` and, where no function is stored,
//!   `run-without-functions`; of a row, `step-refused`; of a number of writes, `failing-output memory` and
//!   `failing-output pipe`, the statuses where the writer fails after one less each.
use crate::notation::answer::Answer;
use crate::notation::settings::Setting;
use crate::notation::split_first_word;
use crate::{answers, judged, program, stepped};

/// Answers these words, where the answer that is wanted is this one. The facts are those of the setting.
pub fn ask(
    answer: &mut Answer,
    facts: &str,
    setting: &Setting<'_, '_>,
    question: &str,
    words: &str,
    want: &str,
) {
    let (kind, argument) = split_first_word(question);
    match kind {
        "decide" | "decide-texts" | "decide-copy" | "decide-extensions" | "decide-json" => {
            judged::ask(answer, facts, setting, kind, argument, words)
        }
        "evaluate" | "partly-evaluate" => {
            judged::ask_condition(answer, facts, setting, kind, argument, words)
        }
        "mode" => judged::ask_mode(answer, setting, words),
        "resolution" => judged::ask_resolution(answer, setting, words),
        "set" | "set-debug" => judged::ask_set(answer, facts, kind, words),
        "policy" | "condition" => judged::ask_policy(answer, facts, kind, words),
        "context-with" => stepped::ask_context(answer, setting, argument, words),
        "chain" | "in-steps" | "one-by-one" | "made" => {
            stepped::ask(answer, facts, setting, kind, argument, words)
        }
        "run" | "run-without-functions" | "step-refused" | "failing-output" => {
            program::ask(answer, kind, argument, words)
        }
        _ => answers::ask(answer, setting, kind, argument, words, want),
    }
}
