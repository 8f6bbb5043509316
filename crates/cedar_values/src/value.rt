//! Values: literals, sets, records and extension values, each at its place or at none.
ghost use Rattle.std.specs.Prelude.{◌≡◌};

mod hashes;
mod literals;
mod order;
mod readers;
mod sets;
mod texts;
mod written;

use crate::extension_value::ExtensionValue;
use cedar_names::{Literal, Loc, Type};
pub use readers::{entity_in, text_in};
use std::alloc::{AllocError, Global};
use std::collections::BTreeMap;
use std::marker::Model;
use std::rc::{Rc, RcStr};

/// A value, and where it stands in its source, if that is known.
#[cycle(value)]
#[derive(Debug, Drop)]
pub struct Value {
    /// Its kind, with its parts.
    pub value: ValueKind,
    /// Its location.
    pub loc: Option<Loc>,
}

/// The kind of a value, with its parts.
#[cycle(value)]
#[derive(Debug, Drop)]
pub enum ValueKind {
    /// A literal.
    Lit(Literal),
    /// A set.
    Set(Set),
    /// A record: its values under their keys.
    Record(Rc<BTreeMap<RcStr, Value>>),
    /// A value of an extension type.
    ExtensionValue(Rc<ExtensionValue>),
}

/// A set of values: in the order of values, each once.
#[cycle(value)]
#[derive(Debug, Drop)]
pub struct Set {
    elements: Rc<Vec<Value>>,
}

impl Model for Value {
    ghost use Rattle.cedar_values.specs.Sound.{Placed, placed_code};

    ghost Value = { Placed };

    ghost coded = { placed_code };

    ghost use Rattle.cedar_model.specs.Sets.{represented_size};
    ghost use Rattle.cedar_values.specs.Kinds.{placed};

    ghost view = { λ a. placed a.value a.loc };

    ghost size = { λ v. represented_size v.what };

    ghost use Rattle.cedar_values.specs.Sizes.{kind_falls};

    ghost size_decreases = { λ a h. kind_falls a.value };
}

impl Model for Set {
    ghost use Rattle.cedar_values.specs.Sound.{Elements, elements_code};

    ghost Value = { Elements };

    ghost coded = { elements_code };

    ghost use Rattle.cedar_model.specs.Sets.{represented_values_size};
    ghost use Rattle.cedar_values.specs.Sound.{elements_seen, AreStrictlyInOrder};

    ghost view = { λ a. elements_seen a.elements.value.items };

    ghost invariant = { λ a. AreStrictlyInOrder a.elements.value.items };

    ghost size = { λ s. represented_values_size s.all };

    ghost use Rattle.cedar_values.specs.Sizes.{elements_fall};

    ghost size_decreases = { λ a h. elements_fall a.elements.value.items h };
}

impl Value {
    ghost use Rattle.std.specs.Prelude.{◌≡◌, IfOk, option_copied};
    ghost use Rattle.cedar_model.specs.Values.{abstract_value, set_represented, record_represented};
    ghost use Rattle.cedar_model.specs.Sets.{canonical_set};
    ghost use Rattle.cedar_names.specs.Leaves.{type_view};
    ghost use Rattle.cedar_values.specs.Sound.{whats, whats_at, firsts, inside_each, inside_at};
    ghost use Rattle.cedar_values.specs.Kinds.{kind_what, kind_inside};
    ghost use Rattle.cedar_model.specs.Outcomes.{value_type};

    /// The value of this kind with this location, or with none.
    pub fn new(value: ValueKind, loc: Option<Loc>) -> Value
        ensures what { result.what ≡ kind_what value }
        ensures inside { result.inside ≡ kind_inside value }
        ensures loc { result.loc ≡ loc }
    {
        Value { value, loc }
    }

    /// The set of these values, in the order of values, each once: where two are equal, the first stays, with its
    /// representation and its location. Refuses only if out of memory.
    pub fn set(alloc: Global, elements: Vec<Value>, loc: Option<Loc>) -> Result<Value, AllocError>
        ensures what { IfOk result (λ v. v.what ≡ set_represented (canonical_set (whats elements.items))) }
        ensures inside { IfOk result (λ v. v.inside ≡ inside_each (firsts elements.items)) }
        ensures loc { IfOk result (λ v. v.loc ≡ loc) }
    {
        let set = Set::new(alloc, elements)?;
        Ok(Value::new(ValueKind::Set(set), loc))
    }

    /// The record of these values under their keys. Refuses only if out of memory.
    pub fn record(
        alloc: Global,
        pairs: BTreeMap<RcStr, Value>,
        loc: Option<Loc>,
    ) -> Result<Value, AllocError>
        ensures what { IfOk result (λ v. v.what ≡ record_represented (whats_at pairs.entries)) }
        ensures inside { IfOk result (λ v. v.inside ≡ inside_at pairs.entries) }
        ensures loc { IfOk result (λ v. v.loc ≡ loc) }
    {
        let pairs = Rc::new(alloc, pairs)?;
        Ok(Value::new(ValueKind::Record(pairs), loc))
    }

    /// The kind of the value, with its parts.
    pub fn value_kind(&self) -> &ValueKind
        ensures what { kind_what result.now ≡ self.now.what }
        ensures inside { kind_inside result.now ≡ self.now.inside }
    {
        &self.value
    }

    /// Where the value stands in its source, if that is known.
    pub fn source_loc(&self) -> Option<&Loc>
        ensures { option_copied result ≡ self.now.loc }
    {
        self.loc.as_ref()
    }

    /// The same value with this location, or with none.
    pub fn with_maybe_source_loc(self, loc: Option<Loc>) -> Value
        ensures what { result.what ≡ self.what }
        ensures inside { result.inside ≡ self.inside }
        ensures loc { result.loc ≡ loc }
    {
        Value {
            value: self.value,
            loc,
        }
    }

    /// The type of the value: of an entity the type of that entity, of an extension value its extension type. Refuses
    /// only if out of memory.
    pub fn type_of(&self) -> Result<Type, AllocError>
        ensures { IfOk result (λ t. type_view t ≡ value_type (abstract_value self.now.what)) }
    {
        self.value.type_of()
    }
}

impl ValueKind {
    ghost use Rattle.std.specs.Prelude.{◌≡◌, IfOk};
    ghost use Rattle.cedar_model.specs.Values.{abstract_value};
    ghost use Rattle.cedar_names.specs.Leaves.{type_view};
    ghost use Rattle.cedar_values.specs.Kinds.{kind_what};
    ghost use Rattle.cedar_model.specs.Outcomes.{value_type};

    /// The type of a value of this kind. Refuses only if out of memory.
    #[tactic(auto, unfolding(cedar_model::specs::Outcomes::value_type))]
    fn type_of(&self) -> Result<Type, AllocError>
        ensures { IfOk result (λ t. type_view t ≡ value_type (abstract_value (kind_what self.now))) }
    {
        match self {
            ValueKind::Lit(literal) => match literal {
                Literal::Bool(_) => Ok(Type::Bool),
                Literal::Long(_) => Ok(Type::Long),
                Literal::String(_) => Ok(Type::String),
                Literal::EntityUID(uid) => Ok(Type::Entity {
                    ty: uid.entity_type().clone()?,
                }),
            },
            ValueKind::Set(_) => Ok(Type::Set),
            ValueKind::Record(_) => Ok(Type::Record),
            ValueKind::ExtensionValue(value) => Ok(Type::Extension {
                name: value.typename.clone()?,
            }),
        }
    }
}

impl Clone for Value {
    ghost use Rattle.std.specs.Prelude.{◌≡◌};

    ghost is_clone = { λ v copy. copy ≡ v };

    fn clone(&self) -> Result<Value, AllocError> {
        let value = self.value.clone()?;
        Ok(Value {
            value,
            loc: self.loc,
        })
    }
}

impl Clone for ValueKind {
    ghost use Rattle.std.specs.Prelude.{◌≡◌};
    ghost use Rattle.cedar_values.specs.Kinds.{kind_what, kind_inside};

    ghost is_clone = { λ k copy. (kind_what copy ≡ kind_what k) × (kind_inside copy ≡ kind_inside k) };

    fn clone(&self) -> Result<ValueKind, AllocError> {
        match self {
            ValueKind::Lit(literal) => Ok(ValueKind::Lit(literal.clone()?)),
            ValueKind::Set(set) => Ok(ValueKind::Set(set.clone()?)),
            ValueKind::Record(pairs) => Ok(ValueKind::Record(pairs.clone()?)),
            ValueKind::ExtensionValue(value) => Ok(ValueKind::ExtensionValue(value.clone()?)),
        }
    }
}

impl Clone for Set {
    ghost use Rattle.std.specs.Prelude.{◌≡◌};

    ghost is_clone = { λ s copy. copy ≡ s };

    fn clone(&self) -> Result<Set, AllocError> {
        Ok(Set {
            elements: self.elements.clone()?,
        })
    }
}

impl From<Literal> for ValueKind {
    ghost use Rattle.cedar_model.specs.Values.{plain_represented};
    ghost use Rattle.cedar_names.specs.Leaves.{literal_view};
    ghost use Rattle.cedar_values.specs.Kinds.{kind_what};

    ghost from_gives = { λ l k. kind_what k ≡ plain_represented (literal_view l) };

    fn from(literal: Literal) -> ValueKind {
        ValueKind::Lit(literal)
    }
}

impl From<Literal> for Value {
    ghost use Rattle.std.specs.Prelude.{None};
    ghost use Rattle.cedar_model.specs.Values.{plain_represented};
    ghost use Rattle.cedar_names.specs.Leaves.{literal_view};

    ghost from_gives = { λ l v. (v.what ≡ plain_represented (literal_view l)) × (v.loc ≡ None) };

    fn from(literal: Literal) -> Value {
        Value::new(ValueKind::Lit(literal), None)
    }
}

impl From<bool> for Value {
    ghost use Rattle.std.specs.Prelude.{None};
    ghost use Rattle.cedar_model.specs.Terms.{bool_literal};
    ghost use Rattle.cedar_model.specs.Values.{plain_represented};

    ghost from_gives = { λ b v. (v.what ≡ plain_represented (bool_literal b)) × (v.loc ≡ None) };

    fn from(b: bool) -> Value {
        Value::from(Literal::Bool(b))
    }
}

impl From<i64> for Value {
    ghost use Rattle.std.specs.Prelude.{None};
    ghost use Rattle.cedar_model.specs.Terms.{long_literal};
    ghost use Rattle.cedar_model.specs.Values.{plain_represented};

    ghost from_gives = { λ n v. (v.what ≡ plain_represented (long_literal n)) × (v.loc ≡ None) };

    fn from(n: i64) -> Value {
        Value::from(Literal::Long(n))
    }
}

impl From<RcStr> for Value {
    ghost use Rattle.std.specs.Prelude.{None};
    ghost use Rattle.std.specs.Rc.{rc_str_bytes};
    ghost use Rattle.cedar_model.specs.Terms.{text_literal};
    ghost use Rattle.cedar_model.specs.Values.{plain_represented};

    ghost from_gives = { λ t v. (v.what ≡ plain_represented (text_literal (rc_str_bytes t))) × (v.loc ≡ None) };

    fn from(text: RcStr) -> Value {
        Value::from(Literal::String(text))
    }
}
