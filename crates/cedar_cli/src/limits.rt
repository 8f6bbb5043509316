//! How many levels are evaluated, so that no policy that was read meets the limit.
ghost use Rattle.std.specs.Prelude.{◌≡◌};
ghost use Rattle.cedar_cli.specs.Stages.{levels_in};

use crate::refusal::{Refusal, refuse_with_line};
use cedar_policy_core::ast::{Expr, Request};
use cedar_policy_core::authorizer::heights::{expr_height, levels_for, request_height};
use std::alloc::{AllocError, Global};

/// How many levels what is read may have: each operator, call, set or record is one more than its highest part.
pub(crate) const LEVELS: usize = 4000;

/// How many steps are taken: each adds a level to what is left of a policy.
pub(crate) const STEPS: usize = 1000;

/// How many levels the condition of a policy that was read has at most: one more than its clauses.
pub fn text_limit() -> usize
    ensures { result ≡ 4001 }
{
    LEVELS + 1
}

/// How many levels the expression can need for this request, over a store of which the highest attribute or tag has so
/// many.
pub(crate) fn expression_limit(expr: &Expr, request: &Request, stored: usize) -> usize {
    levels_for(expr_height(expr), given_height(request, stored))
}

/// How many levels are evaluated where parts may be unknown: as many as are set or, where none are, as many as there
/// can be, so that no policy meets the limit.
pub fn levels_within(limit: Option<usize>) -> usize
    ensures { result ≡ levels_in limit }
{
    limit.unwrap_or(usize::MAX)
}

// How high what functions answer is at most: a computed datetime is `datetime("1970-01-01").offset(duration("5ms"))`.
const ANSWERED: usize = 3;

// The height of what is given: of the context, of what is stored, and of what functions answer.
fn given_height(request: &Request, stored: usize) -> usize {
    request_height(request).max(stored).max(ANSWERED)
}

/// Puts the option that sets a limit behind the text, and the limit that was set by it.
pub(crate) fn push_limit(
    alloc: Global,
    limit: Option<usize>,
    output: &mut String,
) -> Result<(), AllocError> {
    match limit {
        Some(limit) => output.push_str(format!(in alloc; " (--limit {limit})")?.as_str()),
        None => output.push_str(" (--limit)"),
    }
}

/// The refusal of more steps than are taken.
#[cold]
pub(crate) fn too_many_steps(alloc: Global, steps: usize) -> Refusal {
    refuse_with_line(
        alloc,
        format!(in alloc;
            "--step: {steps} steps, and {STEPS} are taken at most beside a text of {LEVELS} levels: each adds a level"
        ),
    )
}
