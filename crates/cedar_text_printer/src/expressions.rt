//! Expressions in Cedar's syntax.
ghost use Rattle.std.specs.Prelude.{◌≡◌, IfOk, string_bytes};
ghost use Rattle.cedar_model.specs.Agreement.{no_slots};
ghost use Rattle.cedar_expressions.specs.View.{view};
ghost use Rattle.cedar_layers.specs.Policies.{slots_view};
ghost use Rattle.cedar_text_printer.specs.Texts.{written};

mod writing;

use cedar_expressions::Expr;
use cedar_names::SlotEnv;
use std::alloc::{AllocError, Global};
use std::fmt;
pub(crate) use writing::write_expr;

/// The expression in Cedar's syntax. Refuses only if out of memory.
pub fn to_cedar(alloc: Global, expr: &Expr) -> Result<String, AllocError>
    ensures { IfOk result (λ t. string_bytes t ≡ written no_slots (view expr.now)) }
{
    let slots = SlotEnv::new(alloc);
    write_whole(alloc, expr, &slots)
}

fn write_whole(alloc: Global, expr: &Expr, slots: &SlotEnv) -> Result<String, AllocError>
    ensures { IfOk result (λ t. string_bytes t ≡ written (slots_view slots.now) (view expr.now)) }
{
    format!(in alloc; "{}", Linked { expr, slots })
}

/// An expression, with these entities for its slots.
#[derive(Drop)]
struct Linked<'a> {
    expr: &'a Expr,
    slots: &'a SlotEnv,
}

impl fmt::Display for Linked<'_> {
    ghost use Rattle.std.specs.Prelude.{Some};

    ghost output = { λ w. Some (written (slots_view w.slots.now) (view w.expr.now)) };

    fn fmt<W: fmt::Write>(&self, f: &mut fmt::Formatter<W>) -> fmt::Result {
        write_expr(self.expr, self.slots, f)
    }
}
