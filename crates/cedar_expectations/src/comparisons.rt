//! What two answers to each of many requests differ in, line by line.
ghost use Rattle.std.specs.Prelude.{◌≡◌, ◌++◌, ◌||◌, [], false, true, IfOk, OnOk, string_bytes};
ghost use Rattle.cedar_json_writer.specs.Trees.{json_view};
ghost use Rattle.cedar_expectations.specs.Answers.{answer_view};
ghost use Rattle.cedar_expectations.specs.Compared.{comparison_view, compared, nothing, different, line_of, status_of};

use crate::answers::Answer;
use crate::differences::{difference_to_json, is_same};
use cedar_json_writer::JsonValue;
use std::alloc::{AllocError, Global};

/// What is printed of a request, with its end, or nothing; and whether it is refused, or answered differently.
#[derive(Debug, Drop)]
pub struct Comparison {
    pub line: String,
    pub is_refused: bool,
    pub is_different: bool,
}

/// What is printed of requests, one behind the other, whether one is refused, and whether one is answered differently.
#[derive(Debug, Drop)]
pub struct Comparisons {
    pub output: String,
    pub is_any_refused: bool,
    pub is_any_different: bool,
}

/// What differs between the old answer and the new one to the request of this number, as JSON on a line: the number, at
/// `line`, both decisions, and the reasons and the errors that one of them has alone. Nothing is printed where the
/// decisions are the same and each has all reasons and errors of the other. Refuses only if out of memory.
pub fn compare(
    alloc: Global,
    number: usize,
    old: &Answer,
    new: &Answer,
) -> Result<Comparison, AllocError>
    ensures { IfOk result
        (λ c. comparison_view c ≡ compared number (answer_view old.now) (answer_view new.now)) }
{
    if is_same(old, new) {
        Ok(nothing(alloc))
    } else {
        let difference = difference_to_json(alloc, number, old, new)?;
        print_difference(alloc, difference)
    }
}

fn nothing(alloc: Global) -> Comparison
    ensures { comparison_view result ≡ nothing }
{
    Comparison {
        line: String::new(alloc),
        is_refused: false,
        is_different: false,
    }
}

fn print_difference(alloc: Global, difference: JsonValue) -> Result<Comparison, AllocError>
    ensures { IfOk result (λ c. comparison_view c ≡ different (json_view difference)) }
{
    let line = line_to_text(alloc, &difference);
    drop(difference);
    Ok(Comparison {
        line: line?,
        is_refused: false,
        is_different: true,
    })
}

fn line_to_text(alloc: Global, document: &JsonValue) -> Result<String, AllocError>
    ensures { IfOk result (λ s. string_bytes s ≡ line_of (json_view document.now)) }
{
    let mut line = document.to_text(alloc)?;
    line.push_str("\n")?;
    Ok(line)
}

impl Comparisons {
    /// Of no request.
    pub fn none(alloc: Global) -> Comparisons
        ensures output { string_bytes result.output ≡ [] }
        ensures refused { result.is_any_refused ≡ false }
        ensures different { result.is_any_different ≡ false }
    {
        Comparisons {
            output: String::new(alloc),
            is_any_refused: false,
            is_any_different: false,
        }
    }

    /// Puts what is printed of a request behind the others. Refuses only if out of memory.
    pub fn put(&mut self, one: Comparison) -> Result<(), AllocError>
        ensures output { OnOk result (string_bytes self.new.output
            ≡ string_bytes self.old.output ++ string_bytes one.line) }
        ensures refused { OnOk result (self.new.is_any_refused ≡ (self.old.is_any_refused || one.is_refused)) }
        ensures different { OnOk result
            (self.new.is_any_different ≡ (self.old.is_any_different || one.is_different)) }
    {
        let Comparison {
            line,
            is_refused,
            is_different,
        } = one;
        self.is_any_refused = self.is_any_refused || is_refused;
        self.is_any_different = self.is_any_different || is_different;
        let put = self.output.push_str(line.as_str());
        drop(line);
        put
    }

    /// The exit status: 1 where a request is refused, else 2 where one is answered differently, and else 0.
    pub fn status(&self) -> u8
        ensures { result ≡ status_of self.now.is_any_refused self.now.is_any_different }
    {
        if self.is_any_refused {
            1
        } else if self.is_any_different {
            2
        } else {
            0
        }
    }
}
