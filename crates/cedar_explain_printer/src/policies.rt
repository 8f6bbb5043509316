//! The lines of policies.
ghost use Rattle.std.specs.Prelude.{◌≡◌, [], ◌∷◌, ◌++◌, map, flat_map, IfOk, OnOk, string_bytes};
ghost use Rattle.cedar_layers.specs.Policies.{effect_view};
ghost use Rattle.cedar_explain.specs.Outcomes.{answered};
ghost use Rattle.cedar_explain.specs.Views.{part_told, policy_came};
ghost use Rattle.cedar_explain.specs.Requests.{its_view, explanation_of};
ghost use Rattle.cedar_explain_printer.specs.Texts as texts;
ghost use Rattle.cedar_explain_printer.specs.Lines as specs;
ghost use Rattle.cedar_explain_printer.specs.Lines.{line_view};

use crate::lines::{Line, LineKind};
use crate::names::policy_name;
use crate::words::{came_text, other_text, verdict_text};
use cedar_explain::{ExplainedPolicy, Part};
use cedar_fallible::add_last;
use cedar_layers::expressions::Loc;
use cedar_text_printer::{effect_text, to_cedar};
use std::alloc::{AllocError, Global};

// Puts the lines of these policies behind the others.
pub(crate) fn add_policies(
    alloc: Global,
    explained: &[ExplainedPolicy<'_>],
    has_values: bool,
    lines: &mut Vec<Line>,
) -> Result<(), AllocError>
    ensures { OnOk result (map line_view lines.new.items
        ≡ map line_view lines.old.items ++ flat_map (specs.policy_lines has_values) explained.now) }
{
    'policies: for policy in explained {
        add_policy(alloc, policy, has_values, lines)?;
    }
    Ok(())
}

// The line of the policy, and one for each part that decides it.
fn add_policy(
    alloc: Global,
    explained: &ExplainedPolicy<'_>,
    has_values: bool,
    lines: &mut Vec<Line>,
) -> Result<(), AllocError>
    ensures { OnOk result (map line_view lines.new.items
        ≡ map line_view lines.old.items ++ specs.policy_lines has_values explained.now) }
{
    add_head(alloc, explained, lines)?;
    add_parts(alloc, explained.explanation().parts(), has_values, lines)?;
    Ok(())
}

fn add_head(
    alloc: Global,
    explained: &ExplainedPolicy<'_>,
    lines: &mut Vec<Line>,
) -> Result<(), AllocError>
    ensures { OnOk result (map line_view lines.new.items
        ≡ map line_view lines.old.items ++ specs.policy_line explained.now ∷ []) }
{
    let text = policy_text(alloc, explained)?;
    add_line(LineKind::Policy, explained.policy().loc(), text, lines)
}

// `the permit `NAME` applies`
fn policy_text(alloc: Global, explained: &ExplainedPolicy<'_>) -> Result<String, AllocError>
    ensures { IfOk result (λ t. string_bytes t ≡ specs.told_policy explained.now) }
{
    let effect = effect_text(explained.effect());
    let name = policy_name(alloc, explained.policy())?;
    let verdict = verdict_text(alloc, explained.explanation().outcome())?;
    format!(in alloc; "the {effect} `{name}` {verdict}")
}

fn add_parts(
    alloc: Global,
    parts: &[Part],
    has_values: bool,
    lines: &mut Vec<Line>,
) -> Result<(), AllocError>
    ensures { OnOk result (map line_view lines.new.items
        ≡ map line_view lines.old.items ++ map (specs.part_line has_values) parts.now) }
{
    'parts: for part in parts {
        add_part(alloc, part, has_values, lines)?;
    }
    Ok(())
}

fn add_part(
    alloc: Global,
    part: &Part,
    has_values: bool,
    lines: &mut Vec<Line>,
) -> Result<(), AllocError>
    ensures { OnOk result (map line_view lines.new.items
        ≡ map line_view lines.old.items ++ specs.part_line has_values part.now ∷ []) }
{
    let text = part_text(alloc, part, has_values)?;
    add_line(LineKind::Part, part.place().copied(), text, lines)
}

// `false: resource.private`
fn part_text(alloc: Global, part: &Part, has_values: bool) -> Result<String, AllocError>
    ensures { IfOk result (λ t. string_bytes t ≡ texts.part_text has_values (part_told part.now)) }
{
    let other = other_text(alloc, part.answer(), has_values)?;
    let came = came_text(alloc, part.outcome(), other.as_str())?;
    let expression = to_cedar(alloc, part.expression())?;
    format!(in alloc; "{came}: {expression}")
}

// Puts the line behind the others.
pub(crate) fn add_line(
    kind: LineKind,
    place: Option<Loc>,
    text: String,
    lines: &mut Vec<Line>,
) -> Result<(), AllocError>
    ensures { OnOk result (map line_view lines.new.items ≡ map line_view lines.old.items
        ++ (record { kind = kind; place = place; text = string_bytes text }) ∷ []) }
{
    let line = Line { kind, place, text };
    add_last(lines, line)?;
    Ok(())
}
