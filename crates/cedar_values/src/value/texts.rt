//! How values print: as their expressions.
ghost use Rattle.std.specs.Prelude.{◌≡◌, true, ◌++◌, Some, None, codes, refl};
ghost use Rattle.std.specs.Rc.{rc_str_bytes};
ghost use Rattle.std.specs.Fmt.{WritesOnOk};
ghost use Rattle.cedar_model.specs.Terms.{set_of, record_of};
ghost use Rattle.cedar_model.specs.Values.{expression_of, expressions_of, expressions_at};
ghost use Rattle.cedar_model.specs.Sets.{represented_values_of};
ghost use Rattle.cedar_values.specs.Sound.{whats, whats_at};
ghost use Rattle.cedar_values.specs.Representations.{extension_what};
ghost use Rattle.cedar_values.specs.Kinds.{kind_what};
ghost use Rattle.cedar_names.specs.Texts as text;

use super::{Set, Value, ValueKind};
use crate::extension_value::ExtensionValue;
use cedar_expressions::shared::show_call;
use cedar_names::BoundedDisplay;
use cedar_names::shared::{is_spent, one_less, separator, write_literal, write_more, write_quoted};
use std::collections::BTreeMap;
use std::fmt;
use std::fmt::Write;
use std::rc::RcStr;

/// The text of the value's expression.
impl fmt::Display for Value {
    ghost output = { λ v. Some (text.shown None (expression_of v.what)) };

    fn fmt<W: fmt::Write>(&self, f: &mut fmt::Formatter<W>) -> fmt::Result {
        show_value(self, None, f)
    }
}

impl BoundedDisplay for Value {
    ghost bounded_output = { λ v n. text.shown n (expression_of v.what) };

    ghost unbounded = { λ v. refl };

    fn fmt<W: fmt::Write>(&self, f: &mut W, n: Option<usize>) -> fmt::Result {
        f.write(Bounded {
            value: self,
            bound: n,
        })
    }
}

/// A value with a bound on its sets and records.
#[derive(Drop)]
struct Bounded<'a> {
    value: &'a Value,
    bound: Option<usize>,
}

impl fmt::Display for Bounded<'_> {
    ghost output = { λ b. Some (text.shown b.bound (expression_of b.value.now.what)) };

    fn fmt<W: fmt::Write>(&self, f: &mut fmt::Formatter<W>) -> fmt::Result {
        show_value(self.value, self.bound, f)
    }
}

/// Writes a value; with a bound each set and each record shows that many parts, and `..` where it has more.
#[cycle(show)]
fn show_value<W: fmt::Write>(
    value: &Value,
    bound: Option<usize>,
    f: &mut fmt::Formatter<W>,
) -> fmt::Result
    ensures { WritesOnOk W.write_str_gives f.old result (text.shown bound (expression_of value.now.what)) f.new }
{
    show_kind(&value.value, bound, f)
}

#[cycle(show)]
fn show_kind<W: fmt::Write>(
    kind: &ValueKind,
    bound: Option<usize>,
    f: &mut fmt::Formatter<W>,
) -> fmt::Result
    ensures { WritesOnOk W.write_str_gives f.old result (text.shown bound (expression_of (kind_what kind.now))) f.new }
{
    match kind {
        ValueKind::Lit(literal) => write_literal(literal, f),
        ValueKind::Set(set) => show_set(set, bound, f),
        ValueKind::Record(pairs) => show_record(pairs, bound, f),
        ValueKind::ExtensionValue(value) => show_extension_value(value, bound, f),
    }
}

fn show_extension_value<W: fmt::Write>(
    value: &ExtensionValue,
    bound: Option<usize>,
    f: &mut fmt::Formatter<W>,
) -> fmt::Result
    ensures { WritesOnOk W.write_str_gives f.old result
        (text.shown bound (expression_of (extension_what value.now))) f.new }
{
    show_call(
        value.representation.fn_name(),
        value.representation.args(),
        bound,
        f,
    )
}

#[cycle(show)]
fn show_set<W: fmt::Write>(
    set: &Set,
    bound: Option<usize>,
    f: &mut fmt::Formatter<W>,
) -> fmt::Result
    ensures { WritesOnOk W.write_str_gives f.old result (text.shown bound (set_of (expressions_of set.now.all))) f.new }
{
    f.write_str("[")?;
    show_elements(set.elements.as_slice(), bound, f)?;
    f.write_str("]")
}

#[cycle(show)]
fn show_record<W: fmt::Write>(
    pairs: &BTreeMap<RcStr, Value>,
    bound: Option<usize>,
    f: &mut fmt::Formatter<W>,
) -> fmt::Result
    ensures { WritesOnOk W.write_str_gives f.old result
        (text.shown bound (record_of (expressions_at (whats_at pairs.now.entries)))) f.new }
{
    f.write_str("{")?;
    show_entries(pairs, bound, f)?;
    f.write_str("}")
}

#[cycle(show)]
fn show_elements<W: fmt::Write>(
    elements: &[Value],
    bound: Option<usize>,
    f: &mut fmt::Formatter<W>,
) -> fmt::Result
    ensures { WritesOnOk W.write_str_gives f.old result
        (text.shown_parts bound bound true (expressions_of (represented_values_of (whats elements.now)))) f.new }
{
    let mut left = bound;
    let mut is_first = true;
    'elements: for element in elements {
        if is_spent(left) {
            return write_more(is_first, f);
        }
        show_next(element, is_first, bound, f)?;
        left = one_less(left);
        is_first = false;
    }
    Ok(())
}

#[cycle(show)]
fn show_entries<W: fmt::Write>(
    pairs: &BTreeMap<RcStr, Value>,
    bound: Option<usize>,
    f: &mut fmt::Formatter<W>,
) -> fmt::Result
    ensures { WritesOnOk W.write_str_gives f.old result
        (text.shown_fields bound bound true (expressions_at (whats_at pairs.now.entries))) f.new }
{
    let mut left = bound;
    let mut is_first = true;
    'entries: for (key, value) in pairs.iter() {
        if is_spent(left) {
            return write_more(is_first, f);
        }
        show_next_entry(key, value, is_first, bound, f)?;
        left = one_less(left);
        is_first = false;
    }
    Ok(())
}

#[cycle(show)]
fn show_next<W: fmt::Write>(
    element: &Value,
    is_first: bool,
    bound: Option<usize>,
    f: &mut fmt::Formatter<W>,
) -> fmt::Result
    ensures { WritesOnOk W.write_str_gives f.old result
        (text.separator is_first ++ text.shown bound (expression_of element.now.what)) f.new }
{
    f.write_str(separator(is_first))?;
    show_value(element, bound, f)
}

#[cycle(show)]
fn show_next_entry<W: fmt::Write>(
    key: &RcStr,
    value: &Value,
    is_first: bool,
    bound: Option<usize>,
    f: &mut fmt::Formatter<W>,
) -> fmt::Result
    ensures { WritesOnOk W.write_str_gives f.old result
        (text.separator is_first
        ++ (text.quoted (rc_str_bytes key.now)
        ++ (codes ": " ++ text.shown bound (expression_of value.now.what)))) f.new }
{
    f.write_str(separator(is_first))?;
    write_quoted(key.as_str(), f)?;
    f.write_str(": ")?;
    show_value(value, bound, f)
}
