//! Extension values: their type, a key that tells them apart, and how they are written.
ghost use Rattle.std.specs.Prelude.{◌≡◌, true, false, IfOk};
ghost use Rattle.cedar_model.specs.Shapes.{are_restricted, have_unknown};
ghost use Rattle.cedar_expressions.specs.View.{terms_view};
ghost use mathlib.Core.Bool.{Bool-set};

use cedar_expressions::Expr;
use cedar_expressions::shared::same_call;
use cedar_names::Name;
use std::alloc::AllocError;
use std::cmp::Ordering;
use std::hash::{Hash, Hasher};
use std::rc::Rc;

/// How an extension value is written: a function and its arguments. The arguments are restricted expressions and hold
/// no unknown.
#[derive(Debug)]
pub struct Representation {
    fn_name: Name,
    args: Rc<Vec<Expr>>,
    ghost restricted: { are_restricted (terms_view args.value.items) ≡ true } by { Bool-set _ _ },
    ghost known: { have_unknown (terms_view args.value.items) ≡ false } by { Bool-set _ _ },
}

impl Drop for Representation {
    fn drop(self) {
        let Representation {
            fn_name: _,
            args: _,
        } = self;
    }
}

/// An extension value: its type, how it is written, and its key.
#[derive(Debug, Drop)]
pub struct ExtensionValue {
    /// The name of its type.
    pub typename: Name,
    /// How it is written.
    pub representation: Representation,
    /// What tells it apart from the others of its type, and orders them: by bytes.
    pub key: Vec<u8>,
}

impl Representation {
    ghost use Rattle.cedar_names.specs.Names.{name_text, name_loc};
    ghost use Rattle.cedar_values.specs.Representations.{function_of, function_loc, arguments_of, whole_arguments};

    /// The call of this function on these arguments. Asks its caller for two facts: each argument is a restricted
    /// expression (`restricted`), and none holds an unknown, at any depth (`known`).
    pub fn new(fn_name: Name, args: Rc<Vec<Expr>>) -> Representation
        requires restricted { are_restricted (terms_view args.value.items) ≡ true }
        requires known { have_unknown (terms_view args.value.items) ≡ false }
        ensures name { function_of result ≡ name_text fn_name }
        ensures loc { function_loc result ≡ name_loc fn_name }
        ensures args { arguments_of result ≡ terms_view args.value.items }
        ensures whole { whole_arguments result ≡ args.value.items }
    {
        Representation { fn_name, args }
    }

    /// The function that the value is written with.
    pub fn fn_name(&self) -> &Name
        ensures name { name_text result.now ≡ function_of self.now }
        ensures loc { name_loc result.now ≡ function_loc self.now }
    {
        &self.fn_name
    }

    /// The arguments that the function is called on.
    pub fn args(&self) -> &Rc<Vec<Expr>>
        ensures args { terms_view result.now.value.items ≡ arguments_of self.now }
        ensures whole { result.now.value.items ≡ whole_arguments self.now }
        ensures restricted { are_restricted (terms_view result.now.value.items) ≡ true }
        ensures known { have_unknown (terms_view result.now.value.items) ≡ false }
    {
        &self.args
    }
}

impl Clone for Representation {
    ghost use Rattle.cedar_values.specs.Representations.{IsRepresentationCopy};

    ghost is_clone = { IsRepresentationCopy };

    fn clone(&self) -> Result<Representation, AllocError> {
        Ok(Representation {
            fn_name: self.fn_name.clone()?,
            args: self.args.clone()?,
        })
    }
}

impl PartialEq for Representation {
    ghost use Rattle.std.specs.Cmp.{on_per, partial_equiv_from_equiv};
    ghost use Rattle.cedar_names.specs.Equality.{term_eq};
    ghost use Rattle.cedar_names.specs.EqualityLaws.{term_eq-equivalence};
    ghost use Rattle.cedar_values.specs.Representations.{representation_term};

    ghost eq = { λ a b. term_eq (representation_term a) (representation_term b) };

    ghost laws = { on_per representation_term (partial_equiv_from_equiv term_eq-equivalence) };

    fn eq(&self, other: &Representation) -> bool {
        same_call(&self.fn_name, &self.args, &other.fn_name, &other.args)
    }
}

impl Eq for Representation {
    ghost use Rattle.std.specs.Cmp.{on_equiv};
    ghost use Rattle.cedar_names.specs.EqualityLaws.{term_eq-equivalence};
    ghost use Rattle.cedar_values.specs.Representations.{representation_term};

    ghost laws = { on_equiv representation_term term_eq-equivalence };
}

impl Clone for ExtensionValue {
    ghost use Rattle.cedar_values.specs.Representations.{IsExtensionCopy};

    ghost is_clone = { IsExtensionCopy };

    fn clone(&self) -> Result<ExtensionValue, AllocError> {
        let typename = self.typename.clone()?;
        let representation = self.representation.clone()?;
        let key = self.key.clone()?;
        Ok(ExtensionValue {
            typename,
            representation,
            key,
        })
    }
}

impl ExtensionValue {
    ghost use Rattle.std.specs.Ordering.{ordering_then, nat_cmp};
    ghost use Rattle.std.specs.Cmp.Lexicographic.{slice_cmp};
    ghost use Rattle.cedar_values.specs.Compared.{represented_cmp};
    ghost use Rattle.cedar_values.specs.Representations.{extension_what};

    // By type name, then by key.
    #[tactic(auto, using(crate::proofs::Order::order_keys))]
    pub(crate) fn compare(&self, other: &ExtensionValue) -> Ordering
        ensures { result ≡ represented_cmp (extension_what self.now) (extension_what other.now) }
    {
        let types = self.typename.text().cmp(other.typename.text());
        types.then(self.key.as_slice().cmp(other.key.as_slice()))
    }
}

impl PartialEq for ExtensionValue {
    ghost use Rattle.cedar_values.specs.Representations.{extension_what};
    ghost use Rattle.cedar_values.specs.Compared.{represented_eq, seen_partial_equivalence};

    ghost eq = { λ a b. represented_eq (extension_what a) (extension_what b) };

    ghost laws = { seen_partial_equivalence extension_what };

    fn eq(&self, other: &ExtensionValue) -> bool {
        self.compare(other).is_eq()
    }
}

impl Eq for ExtensionValue {
    ghost use Rattle.cedar_values.specs.Representations.{extension_what};
    ghost use Rattle.cedar_values.specs.Compared.{seen_equivalence};

    ghost laws = { seen_equivalence extension_what };
}

impl Ord for ExtensionValue {
    ghost use Rattle.cedar_values.specs.Representations.{extension_what};
    ghost use Rattle.std.proofs.Common.{refl};
    ghost use Rattle.cedar_values.specs.Compared.{represented_cmp, seen_total};

    ghost cmp = { λ a b. represented_cmp (extension_what a) (extension_what b) };

    ghost total = { seen_total extension_what };

    ghost matches_partial_cmp = { λ a b. refl };

    ghost matches_eq = { λ a b. refl };

    fn cmp(&self, other: &ExtensionValue) -> Ordering {
        self.compare(other)
    }
}

impl PartialOrd for ExtensionValue {
    ghost use Rattle.cedar_values.specs.Representations.{extension_what};
    ghost use Rattle.std.specs.Prelude.{Some};
    ghost use Rattle.cedar_values.specs.Compared.{represented_cmp, seen_partial_order};

    ghost partial_cmp = { λ a b. Some (represented_cmp (extension_what a) (extension_what b)) };

    ghost laws = { seen_partial_order extension_what };

    fn partial_cmp(&self, other: &ExtensionValue) -> Option<Ordering> {
        Some(self.compare(other))
    }
}

impl Hash for ExtensionValue {
    ghost use Rattle.cedar_values.specs.Representations.{extension_what};
    ghost use Rattle.cedar_values.specs.Hashed.{represented_writes, represented_writes-equal};

    ghost hash_input = { λ e. represented_writes (extension_what e) };

    ghost respects_eq = { λ e f. represented_writes-equal (extension_what e) (extension_what f) };

    fn hash<H: Hasher>(&self, state: &mut H) {
        state.write_u8(6);
        self.typename.text().hash(state);
        self.key.hash(state);
    }
}
