//! What is answered to a row of what is written in it, where no policy and no store has a part in it: expressions,
//! values, leaves, contexts and restricted expressions.
//!
//! - of an expression: `text`, `cut BOUND` (`all` for no bound), `copy`, `shape`, and `substitute x = VALUE`, which is
//!   answered by an expression;
//! - of a value: `value-text`, `value-cut BOUND`, `value-expression`, `value-type`, `value-copy`, `value-elements`,
//!   `value-kind`, `value-restricted`, `part-text`, `part-cut BOUND`, `part-copy` and `part-expression`;
//! - of two expressions with ` ~ ` between them: `equal` and `alike` (shapes and hashes); of the keys of a record:
//!   `keys`; of two values: `order` and `hashes`; of a leaf: `leaf`;
//! - of a restricted expression: `restricted value LIMIT` and `restricted place LIMIT` (what it partly evaluates to,
//!   and where that stands), `restricted wholly LIMIT`, `restricted copy`, `restricted type`, `restricted read`, and
//!   `restricted shape` of two with ` ~ ` between them; of any expression: `restricted text`, `restricted borrowed` and
//!   `restricted refused` (the feature and the part that may not stand there); of those of a residual:
//!   `restricted residual` (with `refused` before the part that is refused) and `restricted residual-text`; of keys:
//!   `restricted pairs`;
//! - of a name and a type: `together`, whether a function of that name that takes that type can be used beside the
//!   function `make`, which takes a text, and `together in-one` the same in one extension; of keys: `collected`, how
//!   many pairs they make;
//! - of the pairs of a context: `context pairs LIMIT`, `context record LIMIT`, `context converted LIMIT` and
//!   `context residual LIMIT`, and of values under their names `context of`; of an expression:
//!   `context expression LIMIT`.

pub mod contexts;
pub mod expressions;
pub mod leaves;
pub mod restricted;
pub mod together;
pub mod values;

use crate::notation::answer::Answer;
use crate::notation::split_first_word;
use cedar_extensions::Extensions;

/// Answers these words, where the answer that is wanted is this one.
pub fn ask(
    answer: &mut Answer,
    extensions: &Extensions<'_>,
    kind: &str,
    argument: &str,
    words: &str,
    want: &str,
) {
    match kind {
        "restricted" => {
            let (kind, limit) = split_first_word(argument);
            restricted::ask(answer, extensions, kind, limit, words, want);
        }
        "context" => {
            let (kind, limit) = split_first_word(argument);
            contexts::ask(answer, extensions, kind, limit, words);
        }
        "substitute" => expressions::ask_substituted(answer, argument, words, want),
        "leaf" => leaves::ask(answer, words),
        "together" => together::ask(answer, argument, words),
        "collected" => together::ask_collected(answer, words),
        _ => if kind.starts_with("value-") {
            values::ask(answer, kind, argument, words);
        } else if kind.starts_with("part-") {
            values::ask_part(answer, kind, argument, words);
        } else {
            expressions::ask(answer, kind, argument, words);
        },
    }
}
