//! The lines of what permits lack.
ghost use Rattle.std.specs.Prelude.{◌≡◌, [], ◌∷◌, ◌++◌, map, IfOk, OnOk, string_bytes};
ghost use Rattle.cedar_explain_printer.specs.Texts as texts;
ghost use Rattle.cedar_explain_printer.specs.Lines as specs;
ghost use Rattle.cedar_explain_printer.specs.Lines.{line_view};

use crate::lines::{Line, LineKind};
use crate::names::policy_name;
use crate::policies::add_line;
use cedar_explain::Lack;
use cedar_text_printer::to_cedar;
use std::alloc::{AllocError, Global};

// Puts the lines of what permits lack behind the others; none, where they lack nothing by itself.
pub(crate) fn add_lacks(
    alloc: Global,
    lacks: &[Lack<'_>],
    lines: &mut Vec<Line>,
) -> Result<(), AllocError>
    ensures { OnOk result (map line_view lines.new.items
        ≡ map line_view lines.old.items ++ specs.lack_lines lacks.now) }
{
    if lacks.is_empty() {
        Ok(())
    } else {
        add_some_lacks(alloc, lacks, lines)
    }
}

fn add_some_lacks(
    alloc: Global,
    lacks: &[Lack<'_>],
    lines: &mut Vec<Line>,
) -> Result<(), AllocError>
    ensures { OnOk result (map line_view lines.new.items
        ≡ map line_view lines.old.items ++ specs.some_lack_lines lacks.now) }
{
    add_heading(alloc, "what alone keeps a permit from applying:", lines)?;
    add_each_lack(alloc, lacks, lines)?;
    Ok(())
}

fn add_each_lack(alloc: Global, lacks: &[Lack<'_>], lines: &mut Vec<Line>) -> Result<(), AllocError>
    ensures { OnOk result (map line_view lines.new.items
        ≡ map line_view lines.old.items ++ map specs.lack_line lacks.now) }
{
    'lacks: for lack in lacks {
        add_lack(alloc, *lack, lines)?;
    }
    Ok(())
}

fn add_lack(alloc: Global, lack: Lack<'_>, lines: &mut Vec<Line>) -> Result<(), AllocError>
    ensures { OnOk result (map line_view lines.new.items
        ≡ map line_view lines.old.items ++ specs.lack_line lack.entry ∷ []) }
{
    let text = lack_text(alloc, lack)?;
    add_line(LineKind::Policy, lack.part().place().copied(), text, lines)
}

// `the permit `NAME` would apply if this were true: resource.public`
fn lack_text(alloc: Global, lack: Lack<'_>) -> Result<String, AllocError>
    ensures { IfOk result (λ t. string_bytes t ≡ specs.told_lack lack.entry) }
{
    let name = policy_name(alloc, lack.policy())?;
    let truth = truth_text(lack.truth());
    let expression = to_cedar(alloc, lack.part().expression())?;
    format!(in alloc; "the permit `{name}` would apply if this were {truth}: {expression}")
}

fn truth_text(truth: bool) -> &'static str
    ensures { result.now ≡ texts.truth_text truth }
{
    if truth { "true" } else { "false" }
}

// Puts the heading of the lines to come behind the others.
pub(crate) fn add_heading(
    alloc: Global,
    text: &str,
    lines: &mut Vec<Line>,
) -> Result<(), AllocError>
    ensures { OnOk result (map line_view lines.new.items
        ≡ map line_view lines.old.items ++ specs.heading_line text.now ∷ []) }
{
    let text = String::from_str(alloc, text)?;
    add_line(LineKind::Heading, None, text, lines)
}
