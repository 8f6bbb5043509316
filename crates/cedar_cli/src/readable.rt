//! Values in JSON that reads back as the same.
ghost use Rattle.std.specs.Prelude.{◌≡◌, ◌++◌, IfOk, codes, string_bytes};
ghost use Rattle.json.specs.Print.{print};
ghost use Rattle.json.specs.Tree.{json_tokens};
ghost use Rattle.cedar_model.specs.Values.{expression_of};
ghost use Rattle.cedar_expressions.specs.View.{view};
ghost use Rattle.cedar_json_reader.specs.Said.{is_reserved_key};
ghost use Rattle.cedar_json_writer.specs.Written.{written};

use crate::asked::Source;
use crate::decisions::line_of;
use crate::faults::syntax_fault;
use crate::refusal::{Refusal, refuse_with_line};
use cedar_policy_core::ast::{Expr, ExprKind, Value};
use cedar_policy_core::entities::json::expr_to_json;
use json::MAX_DEPTH;
use std::alloc::{AllocError, Global};
use std::collections::BTreeMap;
use std::rc::RcStr;

/// The value in Cedar's JSON, on a line. Refused where that would not read back as the same: where a record in it has a
/// key by which JSON says what is no record, or where it has more levels than are read.
pub(crate) fn readable_line(
    alloc: Global,
    source: Source<'_>,
    value: &Value,
) -> Result<String, Refusal>
    ensures { IfOk result (λ s. string_bytes s
        ≡ print (json_tokens (written (expression_of value.now.what))) ++ codes "\n") }
{
    let expr: Expr = value.to_expr(alloc)?;
    let line = readable_line_of(alloc, source, &expr);
    drop(expr);
    line
}

fn readable_line_of(alloc: Global, source: Source<'_>, expr: &Expr) -> Result<String, Refusal>
    ensures { IfOk result (λ s. string_bytes s ≡ print (json_tokens (written (view expr.now))) ++ codes "\n") }
{
    if let Some(key) = reserved_key(expr) {
        return Err(has_reserved_key(alloc, source, key));
    }
    let line = json_line(alloc, expr)?;
    if syntax_fault(alloc, line.as_str())?.start < line.len() {
        return Err(is_too_deep(alloc, source));
    }
    Ok(line)
}

fn json_line(alloc: Global, expr: &Expr) -> Result<String, AllocError>
    ensures { IfOk result (λ s. string_bytes s ≡ print (json_tokens (written (view expr.now))) ++ codes "\n") }
{
    let document = expr_to_json(alloc, expr)?;
    let line = line_of(alloc, &document);
    drop(document);
    line
}

// The first reserved key of a record in the expression that a value is written as, if one has one. The arguments of
// calls in it have none.
#[cycle(keys)]
fn reserved_key(expr: &Expr) -> Option<&str> {
    match expr.expr_kind() {
        ExprKind::Set(parts) => reserved_key_in(parts),
        ExprKind::Record(pairs) => reserved_key_of(pairs),
        _ => None,
    }
}

#[cycle(keys)]
fn reserved_key_in(parts: &[Expr]) -> Option<&str> {
    'parts: for part in parts {
        let found = reserved_key(part);
        if found.is_some() {
            return found;
        }
    }
    None
}

#[cycle(keys)]
fn reserved_key_of(pairs: &BTreeMap<RcStr, Expr>) -> Option<&str> {
    'pairs: for (key, part) in pairs {
        if is_reserved(key.as_str()) {
            return Some(key.as_str());
        }
        let found = reserved_key(part);
        if found.is_some() {
            return found;
        }
    }
    None
}

fn is_reserved(key: &str) -> bool
    ensures { result ≡ is_reserved_key key.now }
{
    key == "__entity" || key == "__extn" || key == "__expr"
}

#[cold]
fn has_reserved_key(alloc: Global, source: Source<'_>, key: &str) -> Refusal {
    let name = source.name;
    refuse_with_line(
        alloc,
        format!(in alloc;
            "{name}: no JSON reads back as the value: a record in it has the key `{key}`, which is reserved there"
        ),
    )
}

#[cold]
fn is_too_deep(alloc: Global, source: Source<'_>) -> Refusal {
    let name = source.name;
    refuse_with_line(
        alloc,
        format!(in alloc;
            "{name}: no JSON reads back as the value: it has more than {MAX_DEPTH} levels there, and no more are read"
        ),
    )
}
