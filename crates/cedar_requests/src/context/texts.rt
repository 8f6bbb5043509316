//! How contexts print: as the records that they are.
ghost use Rattle.std.specs.Prelude.{◌≡◌, ◌++◌, true, Some, None, codes, refl};
ghost use Rattle.std.specs.Rc.{rc_str_bytes};
ghost use Rattle.std.specs.Fmt.{WritesOnOk};
ghost use Rattle.cedar_model.specs.Terms.{record_of};
ghost use Rattle.cedar_model.specs.Values.{expressions_at};
ghost use Rattle.cedar_names.specs.Texts.{shown, shown_fields, separator, quoted};
ghost use Rattle.cedar_expressions.specs.View.{fields_view};
ghost use Rattle.cedar_values.specs.Sound.{whats_at};
ghost use Rattle.cedar_values.specs.Residuals.{partial_term};
ghost use Rattle.cedar_requests.specs.Contexts.{context_part_value, pairs_terms};

use super::Context;
use super::pairs::ContextPairs;
use cedar_expressions::Expr;
use cedar_names::BoundedDisplay;
use cedar_names::shared::{is_spent, one_less, separator, write_more, write_quoted};
use cedar_values::Value;
use std::collections::BTreeMap;
use std::fmt;
use std::fmt::Write;
use std::rc::RcStr;

/// The text of the record that the context is.
impl fmt::Display for Context {
    ghost output = { λ c. Some (shown None (partial_term (context_part_value c))) };

    fn fmt<W: fmt::Write>(&self, f: &mut fmt::Formatter<W>) -> fmt::Result {
        show(&self.pairs, None, f)
    }
}

impl BoundedDisplay for Context {
    ghost bounded_output = { λ c n. shown n (partial_term (context_part_value c)) };

    ghost unbounded = { λ c. refl };

    fn fmt<W: fmt::Write>(&self, f: &mut W, n: Option<usize>) -> fmt::Result {
        f.write(Bounded {
            context: self,
            bound: n,
        })
    }
}

/// A context with a bound on its sets and records.
#[derive(Drop)]
struct Bounded<'a> {
    context: &'a Context,
    bound: Option<usize>,
}

impl fmt::Display for Bounded<'_> {
    ghost output = { λ b. Some (shown b.bound (partial_term (context_part_value b.context.now))) };

    fn fmt<W: fmt::Write>(&self, f: &mut fmt::Formatter<W>) -> fmt::Result {
        let context = self.context;
        show(&context.pairs, self.bound, f)
    }
}

// Writes the record; with a bound each set and each record shows that many parts, and `..` where it has more.
fn show<W: fmt::Write>(
    pairs: &ContextPairs,
    bound: Option<usize>,
    f: &mut fmt::Formatter<W>,
) -> fmt::Result
    ensures { WritesOnOk W.write_str_gives f.old result (shown bound (record_of (pairs_terms pairs.now))) f.new }
{
    f.write_str("{")?;
    show_pairs(pairs, bound, f)?;
    f.write_str("}")
}

fn show_pairs<W: fmt::Write>(
    pairs: &ContextPairs,
    bound: Option<usize>,
    f: &mut fmt::Formatter<W>,
) -> fmt::Result
    ensures { WritesOnOk W.write_str_gives f.old result (shown_fields bound bound true (pairs_terms pairs.now)) f.new }
{
    match pairs {
        ContextPairs::Values(values) => show_values(values.as_map(), bound, f),
        ContextPairs::Residual(residual) => show_exprs(residual.as_map(), bound, f),
    }
}

fn show_values<W: fmt::Write>(
    pairs: &BTreeMap<RcStr, Value>,
    bound: Option<usize>,
    f: &mut fmt::Formatter<W>,
) -> fmt::Result
    ensures { WritesOnOk W.write_str_gives f.old result
        (shown_fields bound bound true (expressions_at (whats_at pairs.now.entries))) f.new }
{
    let mut left = bound;
    let mut is_first = true;
    'values: for (name, value) in pairs.iter() {
        if is_spent(left) {
            return write_more(is_first, f);
        }
        show_next(name, value, is_first, bound, f)?;
        left = one_less(left);
        is_first = false;
    }
    Ok(())
}

fn show_exprs<W: fmt::Write>(
    pairs: &BTreeMap<RcStr, Expr>,
    bound: Option<usize>,
    f: &mut fmt::Formatter<W>,
) -> fmt::Result
    ensures { WritesOnOk W.write_str_gives f.old result
        (shown_fields bound bound true (fields_view pairs.now.entries)) f.new }
{
    let mut left = bound;
    let mut is_first = true;
    'exprs: for (name, expr) in pairs.iter() {
        if is_spent(left) {
            return write_more(is_first, f);
        }
        show_next(name, expr, is_first, bound, f)?;
        left = one_less(left);
        is_first = false;
    }
    Ok(())
}

// Writes the next attribute.
fn show_next<P: BoundedDisplay, W: fmt::Write>(
    name: &RcStr,
    part: &P,
    is_first: bool,
    bound: Option<usize>,
    f: &mut fmt::Formatter<W>,
) -> fmt::Result
    ensures { WritesOnOk W.write_str_gives f.old result
        (separator is_first ++ (quoted (rc_str_bytes name.now)
        ++ (codes ": " ++ P.bounded_output part.now bound))) f.new }
{
    f.write_str(separator(is_first))?;
    write_quoted(name.as_str(), f)?;
    f.write_str(": ")?;
    show_part(part, bound, f)
}

// Writes a part.
fn show_part<P: BoundedDisplay, W: fmt::Write>(
    part: &P,
    bound: Option<usize>,
    f: &mut fmt::Formatter<W>,
) -> fmt::Result
    ensures { WritesOnOk W.write_str_gives f.old result (P.bounded_output part.now bound) f.new }
{
    BoundedDisplay::fmt(part, f, bound)
}
