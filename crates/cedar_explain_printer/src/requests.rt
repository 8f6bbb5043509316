//! The lines of all policies on a request.
ghost use Rattle.std.specs.Prelude.{◌≡◌, map, None, IfOk};
ghost use Rattle.cedar_model.specs.Settings.{shallow};
ghost use Rattle.cedar_decisions.specs.Decisions.{mode_view};
ghost use Rattle.cedar_layers.specs.Stores.{store_view};
ghost use Rattle.cedar_extensions.specs.Extensions.{extensions_view, calls_of};
ghost use Rattle.cedar_requests.specs.Requests.{request_view};
ghost use Rattle.cedar_evaluator.specs.Evaluations.{setting_for};
ghost use Rattle.cedar_explain.specs.Reached.{IsReached};
ghost use Rattle.cedar_explain_printer.specs.Lines as specs;
ghost use Rattle.cedar_explain_printer.specs.Lines.{line_view};
ghost use Rattle.cedar_explain_printer.specs.Explanations.{IsReachedIn, IsExplanation, IsLackOf};

use crate::lacks::{add_heading, add_lacks};
use crate::lines::Line;
use crate::policies::add_policies;
use cedar_decisions::ErrorHandling;
use cedar_evaluator::evaluator::Evaluator;
use cedar_explain::{ExplainedPolicy, Lack, explain_request, lacking};
use cedar_extensions::Extensions;
use cedar_layers::policies::{Entities, PolicySet};
use cedar_requests::Request;
use std::alloc::{AllocError, Global};

/// In which way it is explained and told.
#[derive(Clone, Copy)]
pub struct Telling {
    /// How many levels deep each part is evaluated.
    pub limit: usize,
    /// How policies that err are handled: with `ForbidOnError` a forbid that errs forbids, so that no permit lacks a part
    /// alone.
    pub error_handling: ErrorHandling,
    /// Whether a value that is no boolean is told, or only that it is none.
    pub has_values: bool,
}

/// Why the policies came to what they did on the request, over this store and with these extensions, line by line: if no
/// policy is a reason, first the parts that alone keep a permit from applying; then each policy in the order of the
/// set, what it came to, and below it the parts that decide it, in the order of evaluation, each with what it came to.
/// Expressions and values stand there as Cedar's text. Refuses only if out of memory.
pub fn explanation_lines(
    alloc: Global,
    request: Request,
    policies: &PolicySet,
    entities: &Entities,
    extensions: &Extensions<'_>,
    telling: Telling,
) -> Result<Vec<Line>, AllocError>
    ensures { IfOk result (λ v. IsExplanation
        (IsReachedIn (setting_for (request_view request) (store_view entities.now) (extensions_view extensions.now)
        (λ n. None) shallow) (calls_of extensions.now) telling.limit)
        policies.now (mode_view telling.error_handling) telling.has_values (map line_view v.items)) }
{
    let evaluator = Evaluator::new(alloc, request, entities, extensions, telling.limit)?;
    let lines = lines_by(alloc, &evaluator, policies, telling);
    drop(evaluator);
    lines
}

fn lines_by(
    alloc: Global,
    evaluator: &Evaluator<'_, '_>,
    policies: &PolicySet,
    telling: Telling,
) -> Result<Vec<Line>, AllocError>
    ensures { IfOk result (λ v. IsExplanation (IsReached evaluator.now) policies.now (mode_view telling.error_handling)
        telling.has_values (map line_view v.items)) }
{
    let explained = explain_request(alloc, evaluator, policies)?;
    let lines = lines_of(alloc, evaluator, &explained, telling);
    drop(explained);
    lines
}

// The lines of what is explained already.
fn lines_of(
    alloc: Global,
    evaluator: &Evaluator<'_, '_>,
    explained: &[ExplainedPolicy<'_>],
    telling: Telling,
) -> Result<Vec<Line>, AllocError>
    ensures { IfOk result (λ v. IsLackOf (IsReached evaluator.now) explained.now (mode_view telling.error_handling)
        telling.has_values (map line_view v.items)) }
{
    let lacks = lacking(alloc, evaluator, explained, telling.error_handling)?;
    let lines = all_lines(alloc, &lacks, explained, telling.has_values);
    drop(lacks);
    lines
}

fn all_lines(
    alloc: Global,
    lacks: &[Lack<'_>],
    explained: &[ExplainedPolicy<'_>],
    has_values: bool,
) -> Result<Vec<Line>, AllocError>
    ensures { IfOk result (λ v. map line_view v.items ≡ specs.all_lines has_values lacks.now explained.now) }
{
    let mut lines: Vec<Line> = Vec::new(alloc);
    add_lacks(alloc, lacks, &mut lines)?;
    add_heading(alloc, "what each policy came to, and why:", &mut lines)?;
    add_policies(alloc, explained, has_values, &mut lines)?;
    Ok(lines)
}
