//! Where records stand in a value that look like an entity: their members are exactly `type` and `id`, both texts.
ghost use Rattle.std.specs.Prelude.{◌≡◌, ◌++◌, ◌∷◌, [], OnOk, IfOk};
ghost use Rattle.std.specs.Rc.{rc_str_bytes};
ghost use Rattle.cedar_model.specs.Operators.{represented_at};
ghost use Rattle.cedar_model.specs.Sets.{represented_values_of};
ghost use Rattle.cedar_names.specs.Leaves.{texts_view};
ghost use Rattle.cedar_values.specs.Kinds.{kind_what};
ghost use Rattle.cedar_values.specs.Sound.{whats, whats_at};
ghost use Rattle.cedar_lints.specs.Paths.{alike_below, alike_each, alike_at, alike_record};
ghost use Rattle.cedar_lints.specs.Paths.{is_alike, holds_text, names_seen, paths_view};

use crate::keys::put_text;
use cedar_fallible::add_last;
use cedar_values::{Value, ValueKind, text_in};
use std::alloc::{AllocError, Global};
use std::collections::BTreeMap;
use std::rc::RcStr;

// Puts the paths of the value after the others, each after this path.
#[cycle(walk)]
fn push_paths<'v>(
    alloc: Global,
    value: &'v Value,
    path: &mut Vec<&'v RcStr>,
    found: &mut Vec<Vec<RcStr>>,
) -> Result<(), AllocError>
    ensures path { OnOk result (path.new.items ≡ path.old.items) }
    ensures found { OnOk result (paths_view found.new.items
        ≡ paths_view found.old.items ++ alike_below (names_seen path.old.items) value.now.what) }
{
    push_paths_of_kind(alloc, value.value_kind(), path, found)
}

#[cycle(walk)]
fn push_paths_of_kind<'v>(
    alloc: Global,
    kind: &'v ValueKind,
    path: &mut Vec<&'v RcStr>,
    found: &mut Vec<Vec<RcStr>>,
) -> Result<(), AllocError>
    ensures path { OnOk result (path.new.items ≡ path.old.items) }
    ensures found { OnOk result (paths_view found.new.items
        ≡ paths_view found.old.items ++ alike_below (names_seen path.old.items) (kind_what kind.now)) }
{
    match kind {
        ValueKind::Lit(_) => Ok(()),
        ValueKind::Set(set) => push_paths_of_each(alloc, set.as_slice(), path, found),
        ValueKind::Record(pairs) => push_paths_of_record(alloc, pairs, path, found),
        ValueKind::ExtensionValue(_) => Ok(()),
    }
}

#[cycle(walk)]
fn push_paths_of_each<'v>(
    alloc: Global,
    values: &'v [Value],
    path: &mut Vec<&'v RcStr>,
    found: &mut Vec<Vec<RcStr>>,
) -> Result<(), AllocError>
    ensures path { OnOk result (path.new.items ≡ path.old.items) }
    ensures found { OnOk result (paths_view found.new.items ≡ paths_view found.old.items
        ++ alike_each (names_seen path.old.items) (represented_values_of (whats values.now))) }
{
    'values: for value in values {
        push_paths(alloc, value, path, found)?;
    }
    Ok(())
}

#[cycle(walk)]
fn push_paths_of_record<'v>(
    alloc: Global,
    pairs: &'v BTreeMap<RcStr, Value>,
    path: &mut Vec<&'v RcStr>,
    found: &mut Vec<Vec<RcStr>>,
) -> Result<(), AllocError>
    ensures path { OnOk result (path.new.items ≡ path.old.items) }
    ensures found { OnOk result (paths_view found.new.items ≡ paths_view found.old.items
        ++ alike_record (names_seen path.old.items) (whats_at pairs.now.entries)) }
{
    if is_alike(pairs) {
        push_path(alloc, path.as_slice(), found)
    } else {
        push_paths_at(alloc, pairs, path, found)
    }
}

/// The same of each value of a record, after its name.
#[cycle(walk)]
pub(crate) fn push_paths_at<'v>(
    alloc: Global,
    pairs: &'v BTreeMap<RcStr, Value>,
    path: &mut Vec<&'v RcStr>,
    found: &mut Vec<Vec<RcStr>>,
) -> Result<(), AllocError>
    ensures path { OnOk result (path.new.items ≡ path.old.items) }
    ensures found { OnOk result (paths_view found.new.items ≡ paths_view found.old.items
        ++ alike_at (names_seen path.old.items) (whats_at pairs.now.entries)) }
{
    'pairs: for (name, value) in pairs {
        push_paths_under(alloc, name, value, path, found)?;
    }
    Ok(())
}

/// The same of the value, after this name.
#[cycle(walk)]
pub(crate) fn push_paths_under<'v>(
    alloc: Global,
    name: &'v RcStr,
    value: &'v Value,
    path: &mut Vec<&'v RcStr>,
    found: &mut Vec<Vec<RcStr>>,
) -> Result<(), AllocError>
    ensures path { OnOk result (path.new.items ≡ path.old.items) }
    ensures found { OnOk result (paths_view found.new.items ≡ paths_view found.old.items
        ++ alike_below (names_seen path.old.items ++ rc_str_bytes name.now ∷ []) value.now.what) }
{
    let above = path.as_slice().len();
    path.push(name)?;
    push_paths(alloc, value, path, found)?;
    path.truncate(above);
    Ok(())
}

// Whether the members are exactly `type` and `id`, and both are texts.
#[tactic(auto, using(crate::proofs::Members::members))]
fn is_alike(pairs: &BTreeMap<RcStr, Value>) -> bool
    ensures { result ≡ is_alike (whats_at pairs.now.entries) }
{
    pairs.len() == 2 && holds_text(pairs, "id") && holds_text(pairs, "type")
}

fn holds_text(pairs: &BTreeMap<RcStr, Value>, name: &str) -> bool
    ensures { result ≡ holds_text (represented_at name.now (whats_at pairs.now.entries)) }
{
    match pairs.get(name) {
        Some(value) => text_in(value).is_some(),
        None => false,
    }
}

// Puts the path after the others.
fn push_path(alloc: Global, path: &[&RcStr], found: &mut Vec<Vec<RcStr>>) -> Result<(), AllocError>
    ensures { OnOk result
        (paths_view found.new.items ≡ paths_view found.old.items ++ names_seen path.now ∷ []) }
{
    let names = copied_names(alloc, path)?;
    add_last(found, names)?;
    Ok(())
}

// The same names, whose texts are shared.
fn copied_names(alloc: Global, names: &[&RcStr]) -> Result<Vec<RcStr>, AllocError>
    ensures { IfOk result (λ v. texts_view v.items ≡ names_seen names.now) }
{
    let mut copies: Vec<RcStr> = Vec::new(alloc);
    'names: for name in names {
        put_text(name, &mut copies)?;
    }
    Ok(copies)
}
