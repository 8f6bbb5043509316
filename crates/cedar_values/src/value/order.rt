#![tactic(auto, using(crate::proofs::Order::order_keys))]
//! The order and the equality of values: locations, representations, and the order and repetition of set elements
//! change nothing.
ghost use Rattle.std.specs.Prelude.{◌≡◌};
ghost use Rattle.std.specs.Ordering.{ordering_then};
ghost use Rattle.cedar_model.specs.Keys.{key_cmp, literal_key, entity_key, values_key};
ghost use Rattle.cedar_model.specs.Values.{abstract_values};
ghost use Rattle.cedar_names.specs.Names.{uid_name};
ghost use Rattle.cedar_names.specs.Leaves.{literal_view};
ghost use Rattle.cedar_values.specs.Sound.{Placed};
ghost use Rattle.cedar_values.specs.Kinds.{kind_what};
ghost use Rattle.cedar_values.specs.Compared.{represented_cmp, listed_cmp, entries_cmp};

use super::{Set, Value, ValueKind};
use cedar_names::{EntityUID, Literal};
use std::cmp::Ordering;
use std::collections::BTreeMap;
use std::rc::RcStr;

#[cycle(order)]
fn compare(a: &Value, b: &Value) -> Ordering
    ensures { result ≡ represented_cmp a.now.what b.now.what }
{
    compare_kinds(&a.value, &b.value)
}

#[cycle(order)]
fn compare_kinds(a: &ValueKind, b: &ValueKind) -> Ordering
    ensures { result ≡ represented_cmp (kind_what a.now) (kind_what b.now) }
{
    match a {
        ValueKind::Lit(x) => match b {
            ValueKind::Lit(y) => compare_literals(x, y),
            ValueKind::Set(_) => Ordering::Less,
            ValueKind::Record(_) => Ordering::Less,
            ValueKind::ExtensionValue(_) => Ordering::Less,
        },
        ValueKind::Set(x) => match b {
            ValueKind::Lit(_) => Ordering::Greater,
            ValueKind::Set(y) => compare_sets(x, y),
            ValueKind::Record(_) => Ordering::Less,
            ValueKind::ExtensionValue(_) => Ordering::Less,
        },
        ValueKind::Record(x) => match b {
            ValueKind::Lit(_) => Ordering::Greater,
            ValueKind::Set(_) => Ordering::Greater,
            ValueKind::Record(y) => compare_entries(x, y),
            ValueKind::ExtensionValue(_) => Ordering::Less,
        },
        ValueKind::ExtensionValue(x) => match b {
            ValueKind::Lit(_) => Ordering::Greater,
            ValueKind::Set(_) => Ordering::Greater,
            ValueKind::Record(_) => Ordering::Greater,
            ValueKind::ExtensionValue(y) => x.as_ref().compare(y.as_ref()),
        },
    }
}

#[cycle(order)]
fn compare_sets(a: &Set, b: &Set) -> Ordering
    ensures { result
        ≡ key_cmp (values_key (abstract_values a.now.all)) (values_key (abstract_values b.now.all)) }
{
    compare_elements(a.elements.as_slice(), b.elements.as_slice())
}

#[cycle(order)]
fn compare_elements(a: &[Value], b: &[Value]) -> Ordering
    ensures { result ≡ listed_cmp a.now b.now }
{
    'elements: for i in 0..a.len() {
        if i == b.len() {
            return Ordering::Greater;
        }
        match compare(&a[i], &b[i]) {
            Ordering::Less => return Ordering::Less,
            Ordering::Equal => {}
            Ordering::Greater => return Ordering::Greater,
        }
    }
    if a.len() == b.len() {
        Ordering::Equal
    } else {
        Ordering::Less
    }
}

#[cycle(order)]
fn compare_entries(a: &BTreeMap<RcStr, Value>, b: &BTreeMap<RcStr, Value>) -> Ordering
    ensures { result ≡ entries_cmp a.now.entries b.now.entries }
{
    let mut others = b.iter();
    'entries: for (key, value) in a.iter() {
        let Some((other_key, other)) = others.next() else {
            return Ordering::Greater;
        };
        match key.cmp(other_key) {
            Ordering::Less => return Ordering::Less,
            Ordering::Equal => {}
            Ordering::Greater => return Ordering::Greater,
        }
        match compare(value, other) {
            Ordering::Less => return Ordering::Less,
            Ordering::Equal => {}
            Ordering::Greater => return Ordering::Greater,
        }
    }
    match others.next() {
        None => Ordering::Equal,
        Some(_) => Ordering::Less,
    }
}

fn compare_literals(a: &Literal, b: &Literal) -> Ordering
    ensures { result ≡ key_cmp (literal_key (literal_view a.now)) (literal_key (literal_view b.now)) }
{
    match a {
        Literal::Bool(x) => match b {
            Literal::Bool(y) => x.cmp(y),
            Literal::Long(_) => Ordering::Less,
            Literal::String(_) => Ordering::Less,
            Literal::EntityUID(_) => Ordering::Less,
        },
        Literal::Long(x) => match b {
            Literal::Bool(_) => Ordering::Greater,
            Literal::Long(y) => x.cmp(y),
            Literal::String(_) => Ordering::Less,
            Literal::EntityUID(_) => Ordering::Less,
        },
        Literal::String(x) => match b {
            Literal::Bool(_) => Ordering::Greater,
            Literal::Long(_) => Ordering::Greater,
            Literal::String(y) => x.cmp(y),
            Literal::EntityUID(_) => Ordering::Less,
        },
        Literal::EntityUID(x) => match b {
            Literal::Bool(_) => Ordering::Greater,
            Literal::Long(_) => Ordering::Greater,
            Literal::String(_) => Ordering::Greater,
            Literal::EntityUID(y) => compare_uids(x.as_ref(), y.as_ref()),
        },
    }
}

fn compare_uids(a: &EntityUID, b: &EntityUID) -> Ordering
    ensures { result ≡ key_cmp (entity_key (uid_name a.now)) (entity_key (uid_name b.now)) }
{
    let types = a.entity_type().text().cmp(b.entity_type().text());
    types.then(a.eid().cmp(b.eid()))
}

impl PartialEq for Value {
    ghost use Rattle.cedar_values.specs.Compared.{represented_eq, seen_partial_equivalence};

    ghost eq = { λ v w. represented_eq v.what w.what };

    ghost laws = { seen_partial_equivalence (λ (v : Placed). v.what) };

    fn eq(&self, other: &Value) -> bool {
        compare(self, other).is_eq()
    }
}

impl Eq for Value {
    ghost use Rattle.cedar_values.specs.Compared.{seen_equivalence};

    ghost laws = { seen_equivalence (λ (v : Placed). v.what) };
}

impl Ord for Value {
    ghost use Rattle.std.proofs.Common.{refl};
    ghost use Rattle.cedar_values.specs.Compared.{represented_cmp, seen_total};

    ghost cmp = { λ v w. represented_cmp v.what w.what };

    ghost total = { seen_total (λ (v : Placed). v.what) };

    ghost matches_partial_cmp = { λ v w. refl };

    ghost matches_eq = { λ v w. refl };

    fn cmp(&self, other: &Value) -> Ordering {
        compare(self, other)
    }
}

impl PartialOrd for Value {
    ghost use Rattle.std.specs.Prelude.{Some};
    ghost use Rattle.cedar_values.specs.Compared.{represented_cmp, seen_partial_order};

    ghost partial_cmp = { λ v w. Some (represented_cmp v.what w.what) };

    ghost laws = { seen_partial_order (λ (v : Placed). v.what) };

    fn partial_cmp(&self, other: &Value) -> Option<Ordering> {
        Some(compare(self, other))
    }
}

impl PartialEq for ValueKind {
    ghost use Rattle.cedar_values.specs.Kinds.{kind_what};
    ghost use Rattle.cedar_values.specs.Compared.{represented_eq, seen_partial_equivalence};

    ghost eq = { λ a b. represented_eq (kind_what a) (kind_what b) };

    ghost laws = { seen_partial_equivalence kind_what };

    fn eq(&self, other: &ValueKind) -> bool {
        compare_kinds(self, other).is_eq()
    }
}

impl Eq for ValueKind {
    ghost use Rattle.cedar_values.specs.Kinds.{kind_what};
    ghost use Rattle.cedar_values.specs.Compared.{seen_equivalence};

    ghost laws = { seen_equivalence kind_what };
}

impl Ord for ValueKind {
    ghost use Rattle.cedar_values.specs.Kinds.{kind_what};
    ghost use Rattle.std.proofs.Common.{refl};
    ghost use Rattle.cedar_values.specs.Compared.{represented_cmp, seen_total};

    ghost cmp = { λ a b. represented_cmp (kind_what a) (kind_what b) };

    ghost total = { seen_total kind_what };

    ghost matches_partial_cmp = { λ a b. refl };

    ghost matches_eq = { λ a b. refl };

    fn cmp(&self, other: &ValueKind) -> Ordering {
        compare_kinds(self, other)
    }
}

impl PartialOrd for ValueKind {
    ghost use Rattle.cedar_values.specs.Kinds.{kind_what};
    ghost use Rattle.std.specs.Prelude.{Some};
    ghost use Rattle.cedar_values.specs.Compared.{represented_cmp, seen_partial_order};

    ghost partial_cmp = { λ a b. Some (represented_cmp (kind_what a) (kind_what b)) };

    ghost laws = { seen_partial_order kind_what };

    fn partial_cmp(&self, other: &ValueKind) -> Option<Ordering> {
        Some(compare_kinds(self, other))
    }
}

impl PartialEq for Set {
    ghost use Rattle.cedar_model.specs.Values.{set_represented};
    ghost use Rattle.cedar_values.specs.Sound.{Elements};
    ghost use Rattle.cedar_values.specs.Compared.{represented_eq, seen_partial_equivalence};

    ghost eq = { λ a b. represented_eq (set_represented a.all) (set_represented b.all) };

    ghost laws = { seen_partial_equivalence (λ (s : Elements). set_represented s.all) };

    fn eq(&self, other: &Set) -> bool {
        compare_sets(self, other).is_eq()
    }
}

impl Eq for Set {
    ghost use Rattle.cedar_model.specs.Values.{set_represented};
    ghost use Rattle.cedar_values.specs.Sound.{Elements};
    ghost use Rattle.cedar_values.specs.Compared.{seen_equivalence};

    ghost laws = { seen_equivalence (λ (s : Elements). set_represented s.all) };
}

impl Ord for Set {
    ghost use Rattle.cedar_model.specs.Values.{set_represented};
    ghost use Rattle.cedar_values.specs.Sound.{Elements};
    ghost use Rattle.std.proofs.Common.{refl};
    ghost use Rattle.cedar_values.specs.Compared.{represented_cmp, seen_total};

    ghost cmp = { λ a b. represented_cmp (set_represented a.all) (set_represented b.all) };

    ghost total = { seen_total (λ (s : Elements). set_represented s.all) };

    ghost matches_partial_cmp = { λ a b. refl };

    ghost matches_eq = { λ a b. refl };

    fn cmp(&self, other: &Set) -> Ordering {
        compare_sets(self, other)
    }
}

impl PartialOrd for Set {
    ghost use Rattle.cedar_model.specs.Values.{set_represented};
    ghost use Rattle.cedar_values.specs.Sound.{Elements};
    ghost use Rattle.std.specs.Prelude.{Some};
    ghost use Rattle.cedar_values.specs.Compared.{represented_cmp, seen_partial_order};

    ghost partial_cmp = { λ a b. Some (represented_cmp (set_represented a.all) (set_represented b.all)) };

    ghost laws = { seen_partial_order (λ (s : Elements). set_represented s.all) };

    fn partial_cmp(&self, other: &Set) -> Option<Ordering> {
        Some(compare_sets(self, other))
    }
}
