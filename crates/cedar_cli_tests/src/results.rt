//! What is printed of tests, one behind the other.
ghost use Rattle.std.specs.Prelude.{◌≡◌, ◌++◌, ◌+◌, ◌<◌, [], not, Some, None, IfOk, OnOk};
ghost use Rattle.std.specs.Prelude.{string_bytes, option_map};
ghost use Rattle.cedar_json_writer.specs.Trees.{json_view};
ghost use Rattle.cedar_cli_tests.specs.Tested.{verdict_of, one_if, counts_line, status_of};
ghost use Rattle.cedar_cli_tests.specs.Results.{verdict_view};

use cedar_cli::{Printed, line_of};
use cedar_json_writer::JsonValue;
use cedar_policy_tests::counts_to_json;
use std::alloc::{AllocError, Global};

/// What is printed of a test, with its end, or nothing; and whether it fails.
#[derive(Drop)]
pub(crate) struct Verdict {
    pub(crate) line: String,
    pub(crate) is_failed: bool,
}

/// The verdict that this is told, where the test fails.
pub(crate) fn verdict_of(alloc: Global, told: Option<JsonValue>) -> Result<Verdict, AllocError>
    ensures { IfOk result (λ v. verdict_view v ≡ verdict_of (option_map json_view told)) }
{
    match told {
        Some(told) => failed_with(alloc, told),
        None => Ok(passed(alloc)),
    }
}

fn passed(alloc: Global) -> Verdict
    ensures { verdict_view result ≡ verdict_of None }
{
    Verdict {
        line: String::new(alloc),
        is_failed: false,
    }
}

/// The verdict that the test fails, of which this is told.
pub(crate) fn failed_with(alloc: Global, told: JsonValue) -> Result<Verdict, AllocError>
    ensures { IfOk result (λ v. verdict_view v ≡ verdict_of (Some (json_view told))) }
{
    let line = line_of(alloc, &told);
    drop(told);
    Ok(Verdict {
        line: line?,
        is_failed: true,
    })
}

/// What is printed of tests, one behind the other, and how many pass and fail.
#[derive(Drop)]
pub(crate) struct Results {
    pub(crate) output: String,
    pub(crate) passed: usize,
    pub(crate) failed: usize,
}

impl Results {
    /// Of no test.
    pub(crate) fn none(alloc: Global) -> Results
        ensures output { string_bytes result.output ≡ [] }
        ensures passed { result.passed ≡ 0 }
        ensures failed { result.failed ≡ 0 }
    {
        Results {
            output: String::new(alloc),
            passed: 0,
            failed: 0,
        }
    }

    /// Puts what is printed of a test behind the others.
    pub(crate) fn put(&mut self, one: Verdict) -> Result<(), AllocError>
        requires { self.old.passed + self.old.failed < 18446744073709551615 }
        ensures output { OnOk result (string_bytes self.new.output
            ≡ string_bytes self.old.output ++ string_bytes one.line) }
        ensures passed { OnOk result (self.new.passed ≡ self.old.passed + one_if (not one.is_failed)) }
        ensures failed { OnOk result (self.new.failed ≡ self.old.failed + one_if one.is_failed) }
    {
        let Verdict { line, is_failed } = one;
        self.passed = counted(self.passed, !is_failed);
        self.failed = counted(self.failed, is_failed);
        let put = self.output.push_str(line.as_str());
        drop(line);
        put
    }

    /// All of it, and behind that how many pass and fail. The exit status is 1 where one fails.
    pub(crate) fn print(self, alloc: Global, warnings: String) -> Result<Printed, AllocError>
        ensures output { IfOk result (λ p. string_bytes p.output
            ≡ string_bytes self.output ++ counts_line self.passed self.failed) }
        ensures status { IfOk result (λ p. p.status ≡ status_of self.failed) }
    {
        let Results {
            output,
            passed,
            failed,
        } = self;
        let counts = counts_line(alloc, passed, failed)?;
        let mut output = output;
        output.push_str(counts.as_str())?;
        drop(counts);
        Ok(Printed {
            output,
            warnings,
            status: status_of(failed),
        })
    }
}

fn counted(count: usize, is_one_more: bool) -> usize
    requires { count < 18446744073709551615 }
    ensures { result ≡ count + one_if is_one_more }
{
    if is_one_more { count + 1 } else { count }
}

fn counts_line(alloc: Global, passed: usize, failed: usize) -> Result<String, AllocError>
    ensures { IfOk result (λ s. string_bytes s ≡ counts_line passed failed) }
{
    let counts = counts_to_json(alloc, passed, failed)?;
    let line = line_of(alloc, &counts);
    drop(counts);
    let told = line?;
    Ok(told)
}

fn status_of(failed: usize) -> u8
    ensures { result ≡ status_of failed }
{
    if failed == 0 { 0 } else { 1 }
}
