//! Hashes of values: equal values hash alike.
ghost use Rattle.std.specs.Prelude.{◌≡◌, fold};
ghost use Rattle.cedar_model.specs.Values.{abstract_values, abstract_fields};
ghost use Rattle.cedar_model.specs.Sets.{represented_values_of};
ghost use Rattle.cedar_names.specs.Names.{uid_name};
ghost use Rattle.cedar_names.specs.Leaves.{literal_view};
ghost use Rattle.cedar_values.specs.Sound.{whats, whats_at};
ghost use Rattle.cedar_values.specs.Kinds.{kind_what};
ghost use Rattle.cedar_values.specs.Hashed.{entity_writes, literal_writes, values_writes, value_fields_writes};
ghost use Rattle.cedar_values.specs.Hashed.{represented_writes};

use super::{Set, Value, ValueKind};
use cedar_names::{EntityUID, Literal};
use std::collections::BTreeMap;
use std::hash::{Hash, Hasher};
use std::rc::RcStr;

#[cycle(hashes)]
fn hash_value<H: Hasher>(value: &Value, state: &mut H)
    ensures { state.new ≡ fold H.write state.old (represented_writes value.now.what) }
{
    hash_kind(&value.value, state);
}

#[cycle(hashes)]
fn hash_kind<H: Hasher>(kind: &ValueKind, state: &mut H)
    ensures { state.new ≡ fold H.write state.old (represented_writes (kind_what kind.now)) }
{
    match kind {
        ValueKind::Lit(literal) => hash_literal(literal, state),
        ValueKind::Set(set) => {
            state.write_u8(4);
            hash_set(set, state);
        }
        ValueKind::Record(pairs) => {
            state.write_u8(5);
            hash_entries(pairs, state);
        }
        ValueKind::ExtensionValue(value) => value.as_ref().hash(state),
    }
}

#[cycle(hashes)]
fn hash_set<H: Hasher>(set: &Set, state: &mut H)
    ensures { state.new ≡ fold H.write state.old (values_writes (abstract_values set.now.all)) }
{
    hash_elements(set.elements.as_slice(), state);
}

#[cycle(hashes)]
fn hash_elements<H: Hasher>(elements: &[Value], state: &mut H)
    ensures { state.new
        ≡ fold H.write state.old (values_writes (abstract_values (represented_values_of (whats elements.now)))) }
{
    'elements: for i in 0..elements.len() {
        state.write_u8(1);
        hash_value(&elements[i], state);
    }
    state.write_u8(0);
}

#[cycle(hashes)]
fn hash_entries<H: Hasher>(pairs: &BTreeMap<RcStr, Value>, state: &mut H)
    ensures { state.new
        ≡ fold H.write state.old (value_fields_writes (abstract_fields (whats_at pairs.now.entries))) }
{
    'entries: for (key, value) in pairs.iter() {
        state.write_u8(1);
        key.hash(state);
        hash_value(value, state);
    }
    state.write_u8(0);
}

fn hash_literal<H: Hasher>(literal: &Literal, state: &mut H)
    ensures { state.new ≡ fold H.write state.old (literal_writes (literal_view literal.now)) }
{
    match literal {
        Literal::Bool(b) => {
            state.write_u8(0);
            b.hash(state);
        }
        Literal::Long(n) => {
            state.write_u8(1);
            n.hash(state);
        }
        Literal::String(text) => {
            state.write_u8(2);
            text.hash(state);
        }
        Literal::EntityUID(uid) => {
            state.write_u8(3);
            hash_uid(uid, state);
        }
    }
}

fn hash_uid<H: Hasher>(uid: &EntityUID, state: &mut H)
    ensures { state.new ≡ fold H.write state.old (entity_writes (uid_name uid.now)) }
{
    uid.entity_type().text().hash(state);
    uid.eid().hash(state);
}

impl Hash for Value {
    ghost use Rattle.cedar_values.specs.Hashed.{represented_writes, represented_writes-equal};

    ghost hash_input = { λ v. represented_writes v.what };

    ghost respects_eq = { λ v w. represented_writes-equal v.what w.what };

    fn hash<H: Hasher>(&self, state: &mut H) {
        hash_value(self, state);
    }
}

impl Hash for ValueKind {
    ghost use Rattle.cedar_values.specs.Kinds.{kind_what};
    ghost use Rattle.cedar_values.specs.Hashed.{represented_writes, represented_writes-equal};

    ghost hash_input = { λ k. represented_writes (kind_what k) };

    ghost respects_eq = { λ k l. represented_writes-equal (kind_what k) (kind_what l) };

    fn hash<H: Hasher>(&self, state: &mut H) {
        hash_kind(self, state);
    }
}

impl Hash for Set {
    ghost use Rattle.cedar_model.specs.Values.{set_represented};
    ghost use Rattle.cedar_values.specs.Hashed.{represented_writes, represented_writes-equal};

    ghost hash_input = { λ s. represented_writes (set_represented s.all) };

    ghost respects_eq = { λ s t. represented_writes-equal (set_represented s.all) (set_represented t.all) };

    fn hash<H: Hasher>(&self, state: &mut H) {
        state.write_u8(4);
        hash_set(self, state);
    }
}
