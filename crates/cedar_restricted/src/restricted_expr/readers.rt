//! The readers of restricted expressions.
ghost use Rattle.std.specs.Prelude.{◌≡◌, option_copied, option_map};
ghost use Rattle.std.specs.Rc.{rc_str_bytes};
ghost use Rattle.cedar_model.specs.Rules.{fields_of_record};
ghost use Rattle.cedar_names.specs.Names.{uid_name};
ghost use Rattle.cedar_names.specs.Leaves.{type_view};
ghost use Rattle.cedar_expressions.specs.View.{terms_view, fields_view};
ghost use Rattle.cedar_expressions.specs.Nodes.{node_of, uid_at};
ghost use Rattle.cedar_restricted.specs.Readers.{bool_in, long_in, text_in, entity_in, unknown_in};
ghost use Rattle.cedar_restricted.specs.Readers.{elements_in, call_in};
ghost use Rattle.cedar_restricted.specs.Readers.{unknown_at, elements_at, pairs_at, call_at};

use super::kinds::{RestrictedKind, kind_of};
use super::{BorrowedRestrictedExpr, CallArguments, RecordPairs, RestrictedExpr, SetElements};
use cedar_names::{EntityUID, Literal, Name, Unknown};
use std::rc::RcStr;

impl<'a> BorrowedRestrictedExpr<'a> {
    ghost use Rattle.cedar_restricted.specs.Views.{borrowed_expr, borrowed_term};
    ghost use Rattle.cedar_restricted.specs.Iterators.{elements_left, pairs_left, call_parts, call_terms};

    /// The boolean, or `None` where the expression is no boolean literal.
    pub fn as_bool(&self) -> Option<bool>
        ensures { result ≡ bool_in (borrowed_term self.now) }
    {
        match self.as_literal() {
            Some(literal) => match literal {
                Literal::Bool(b) => Some(*b),
                Literal::Long(_) => None,
                Literal::String(_) => None,
                Literal::EntityUID(_) => None,
            },
            None => None,
        }
    }

    /// The long, or `None` where the expression is no long literal.
    pub fn as_long(&self) -> Option<i64>
        ensures { result ≡ long_in (borrowed_term self.now) }
    {
        match self.as_literal() {
            Some(literal) => match literal {
                Literal::Bool(_) => None,
                Literal::Long(n) => Some(*n),
                Literal::String(_) => None,
                Literal::EntityUID(_) => None,
            },
            None => None,
        }
    }

    /// The text, or `None` where the expression is no text literal.
    pub fn as_string(&self) -> Option<&'a RcStr>
        ensures { option_map (λ s. rc_str_bytes s.now) result ≡ text_in (borrowed_term self.now) }
    {
        match self.as_literal() {
            Some(literal) => match literal {
                Literal::Bool(_) => None,
                Literal::Long(_) => None,
                Literal::String(s) => Some(s),
                Literal::EntityUID(_) => None,
            },
            None => None,
        }
    }

    /// The name of the entity, or `None` where the expression is no literal of an entity.
    pub fn as_euid(&self) -> Option<&'a EntityUID>
        ensures part { option_copied result ≡ uid_at (node_of (borrowed_expr self.now)) }
        ensures view { option_map (λ u. uid_name u.now) result ≡ entity_in (borrowed_term self.now) }
    {
        match self.as_literal() {
            Some(literal) => match literal {
                Literal::Bool(_) => None,
                Literal::Long(_) => None,
                Literal::String(_) => None,
                Literal::EntityUID(uid) => Some(uid),
            },
            None => None,
        }
    }

    /// The unknown, or `None` where the expression is none.
    pub fn as_unknown(&self) -> Option<&'a Unknown>
        ensures part { option_copied result ≡ unknown_at (node_of (borrowed_expr self.now)) }
        ensures view { option_map (λ u. (rc_str_bytes u.now.name, option_map type_view u.now.type_annotation)) result ≡
            unknown_in (borrowed_term self.now) }
    {
        match kind_of(self.expr) {
            RestrictedKind::Literal(_) => None,
            RestrictedKind::Unknown(unknown) => Some(unknown),
            RestrictedKind::Set(_) => None,
            RestrictedKind::Record(_) => None,
            RestrictedKind::Call(_, _) => None,
        }
    }

    /// The elements of the set, in literal order, or `None` where the expression is no set.
    pub fn as_set_elements(&self) -> Option<SetElements<'a>>
        ensures part { option_map elements_left result ≡ elements_at (node_of (borrowed_expr self.now)) }
        ensures view { option_map (λ s. terms_view (elements_left s)) result ≡ elements_in (borrowed_term self.now) }
    {
        match kind_of(self.expr) {
            RestrictedKind::Literal(_) => None,
            RestrictedKind::Unknown(_) => None,
            RestrictedKind::Set(elements) => Some(SetElements::new(elements)),
            RestrictedKind::Record(_) => None,
            RestrictedKind::Call(_, _) => None,
        }
    }

    /// The pairs of a key and a part of the record, in byte order of the keys, or `None` where the expression is no
    /// record.
    #[tactic(auto, unfolding(cedar_model::specs::Rules::fields_of_record))]
    pub fn as_record_pairs(&self) -> Option<RecordPairs<'a>>
        ensures part { option_map pairs_left result ≡ pairs_at (node_of (borrowed_expr self.now)) }
        ensures view { option_map (λ r. fields_view (pairs_left r)) result
            ≡ fields_of_record (borrowed_term self.now) }
    {
        match kind_of(self.expr) {
            RestrictedKind::Literal(_) => None,
            RestrictedKind::Unknown(_) => None,
            RestrictedKind::Set(_) => None,
            RestrictedKind::Record(pairs) => Some(RecordPairs::new(pairs)),
            RestrictedKind::Call(_, _) => None,
        }
    }

    /// The name of the function and the arguments, in order, or `None` where the expression is no call.
    pub fn as_extn_fn_call(&self) -> Option<(&'a Name, CallArguments<'a>)>
        ensures part { option_map call_parts result ≡ call_at (node_of (borrowed_expr self.now)) }
        ensures view { option_map call_terms result ≡ call_in (borrowed_term self.now) }
    {
        match kind_of(self.expr) {
            RestrictedKind::Literal(_) => None,
            RestrictedKind::Unknown(_) => None,
            RestrictedKind::Set(_) => None,
            RestrictedKind::Record(_) => None,
            RestrictedKind::Call(fn_name, args) => Some((fn_name, CallArguments::new(args))),
        }
    }

    ghost use Rattle.cedar_names.specs.Leaves.{literal_view};
    ghost use Rattle.cedar_restricted.specs.Readers.{literal_in};
    ghost use Rattle.cedar_expressions.specs.Nodes.{literal_at};

    // The literal, or `None` where the expression is none.
    fn as_literal(&self) -> Option<&'a Literal>
        ensures part { option_copied result ≡ literal_at (node_of (borrowed_expr self.now)) }
        ensures view { option_map (λ l. literal_view l.now) result ≡ literal_in (borrowed_term self.now) }
    {
        match kind_of(self.expr) {
            RestrictedKind::Literal(literal) => Some(literal),
            RestrictedKind::Unknown(_) => None,
            RestrictedKind::Set(_) => None,
            RestrictedKind::Record(_) => None,
            RestrictedKind::Call(_, _) => None,
        }
    }
}

impl RestrictedExpr {
    ghost use Rattle.cedar_restricted.specs.Views.{expr_in, restricted_term};
    ghost use Rattle.cedar_restricted.specs.Iterators.{elements_left, pairs_left, call_parts, call_terms};

    /// The boolean, or `None` where the expression is no boolean literal.
    pub fn as_bool(&self) -> Option<bool>
        ensures { result ≡ bool_in (restricted_term self.now) }
    {
        self.as_borrowed().as_bool()
    }

    /// The long, or `None` where the expression is no long literal.
    pub fn as_long(&self) -> Option<i64>
        ensures { result ≡ long_in (restricted_term self.now) }
    {
        self.as_borrowed().as_long()
    }

    /// The text, or `None` where the expression is no text literal.
    pub fn as_string(&self) -> Option<&RcStr>
        ensures { option_map (λ s. rc_str_bytes s.now) result ≡ text_in (restricted_term self.now) }
    {
        self.as_borrowed().as_string()
    }

    /// The name of the entity, or `None` where the expression is no literal of an entity.
    pub fn as_euid(&self) -> Option<&EntityUID>
        ensures part { option_copied result ≡ uid_at (node_of (expr_in self.now)) }
        ensures view { option_map (λ u. uid_name u.now) result ≡ entity_in (restricted_term self.now) }
    {
        self.as_borrowed().as_euid()
    }

    /// The unknown, or `None` where the expression is none.
    pub fn as_unknown(&self) -> Option<&Unknown>
        ensures part { option_copied result ≡ unknown_at (node_of (expr_in self.now)) }
        ensures view { option_map (λ u. (rc_str_bytes u.now.name, option_map type_view u.now.type_annotation)) result ≡
            unknown_in (restricted_term self.now) }
    {
        self.as_borrowed().as_unknown()
    }

    /// The elements of the set, in literal order, or `None` where the expression is no set.
    pub fn as_set_elements(&self) -> Option<SetElements<'_>>
        ensures part { option_map elements_left result ≡ elements_at (node_of (expr_in self.now)) }
        ensures view { option_map (λ s. terms_view (elements_left s)) result ≡ elements_in (restricted_term self.now) }
    {
        self.as_borrowed().as_set_elements()
    }

    /// The pairs of a key and a part of the record, in byte order of the keys, or `None` where the expression is no
    /// record.
    pub fn as_record_pairs(&self) -> Option<RecordPairs<'_>>
        ensures part { option_map pairs_left result ≡ pairs_at (node_of (expr_in self.now)) }
        ensures view { option_map (λ r. fields_view (pairs_left r)) result
            ≡ fields_of_record (restricted_term self.now) }
    {
        self.as_borrowed().as_record_pairs()
    }

    /// The name of the function and the arguments, in order, or `None` where the expression is no call.
    pub fn as_extn_fn_call(&self) -> Option<(&Name, CallArguments<'_>)>
        ensures part { option_map call_parts result ≡ call_at (node_of (expr_in self.now)) }
        ensures view { option_map call_terms result ≡ call_in (restricted_term self.now) }
    {
        self.as_borrowed().as_extn_fn_call()
    }
}
