//! An extension: functions, and types whose values the order compares.
use crate::function::ExtensionFunction;
use crate::iterators::{ExtTypes, OverloadingTypes};
use cedar_names::{Name, Type};
use cedar_standard_functions::is_standard_type;
use std::alloc::AllocError;

/// An extension: its name, its functions, and the extension types whose values `<` and `<=` compare.
#[derive(Drop)]
pub struct Extension {
    name: Name,
    functions: Vec<ExtensionFunction>,
    types_with_operator_overloading: Vec<Name>,
}

impl Extension {
    ghost use Rattle.std.specs.Prelude.{◌≡◌, ◌++◌, map, OnOk, option_copied};
    ghost use Rattle.std.specs.List.{find};
    ghost use Rattle.cedar_model.specs.Outcomes.{has_text};
    ghost use Rattle.cedar_names.specs.Leaves.{type_view};
    ghost use Rattle.cedar_names.specs.Names.{name_text};
    ghost use Rattle.cedar_extensions.specs.Functions.{answered_types, function_among, IsFound};
    ghost use Rattle.cedar_extensions.specs.Extension.{name_of, functions_of, overloading_types, types_named};
    ghost use Rattle.cedar_extensions.specs.Iterators.{types_left, overloading_left};
    ghost use Rattle.cedar_extensions.specs.Refused.{has_standard_name, makes_standard, is_standard};

    /// The extension of this name, with these functions. `<` and `<=` compare the values of each of these types, by
    /// their keys.
    pub fn new(
        name: Name,
        functions: Vec<ExtensionFunction>,
        types_with_operator_overloading: Vec<Name>,
    ) -> Extension
        ensures name { name_of result ≡ name }
        ensures functions { functions_of result ≡ functions.items }
        ensures types { overloading_types result ≡ types_with_operator_overloading.items }
    {
        Extension {
            name,
            functions,
            types_with_operator_overloading,
        }
    }

    /// Its name.
    pub fn name(&self) -> &Name
        ensures { result.now ≡ name_of self.now }
    {
        &self.name
    }

    /// Its functions, in the order in which they were handed in.
    pub fn funcs(&self) -> &[ExtensionFunction]
        ensures { result.now ≡ functions_of self.now }
    {
        &self.functions
    }

    /// The extension types that its functions answer values of: one item a function that does, in order.
    pub fn ext_types(&self) -> ExtTypes<'_>
        ensures { types_left result ≡ answered_types (functions_of self.now) }
    {
        ExtTypes::of_functions(&self.functions)
    }

    /// The types whose values `<` and `<=` compare, in the order in which they were handed in.
    pub fn types_with_operator_overloading(&self) -> OverloadingTypes<'_>
        ensures { overloading_left result ≡ overloading_types self.now }
    {
        OverloadingTypes::of_names(&self.types_with_operator_overloading)
    }

    // The first function of this name, if there is one.
    pub(crate) fn find(&self, name: &Name) -> Option<&ExtensionFunction>
        ensures { IsFound (function_among (name_text name.now) (functions_of self.now)) result }
    {
        let mut rest = self.functions.as_slice();
        'functions: while let Some((function, others)) = rest.split_first() {
            if function.name() == name {
                return Some(function);
            }
            rest = others;
        }
        None
    }

    // The first function whose name a standard function has.
    pub(crate) fn with_standard_name(&self) -> Option<&ExtensionFunction>
        ensures { IsFound (find has_standard_name (functions_of self.now)) result }
    {
        let mut rest = self.functions.as_slice();
        'functions: while let Some((function, others)) = rest.split_first() {
            if function.has_standard_name() {
                return Some(function);
            }
            rest = others;
        }
        None
    }

    // The first function that makes values of a standard type, each of exactly one text.
    pub(crate) fn making_standard(&self) -> Option<&ExtensionFunction>
        ensures { IsFound (find makes_standard (functions_of self.now)) result }
    {
        let mut rest = self.functions.as_slice();
        'functions: while let Some((function, others)) = rest.split_first() {
            if function.makes_standard() {
                return Some(function);
            }
            rest = others;
        }
        None
    }

    // The first standard type among those whose values the order compares.
    pub(crate) fn overloading_standard(&self) -> Option<&Name>
        ensures { option_copied result ≡ find is_standard (overloading_types self.now) }
    {
        let mut rest = self.types_with_operator_overloading.as_slice();
        'types: while let Some((ty, others)) = rest.split_first() {
            if is_standard_type(ty.text().as_str()) {
                return Some(ty);
            }
            rest = others;
        }
        None
    }

    // Whether the type of this name is among those whose values the order compares.
    #[tactic(auto, unfolding(cedar_model::specs::Outcomes::has_text))]
    pub(crate) fn overloads(&self, name: &Name) -> bool
        ensures { result ≡ has_text (name_text name.now) (map name_text (overloading_types self.now)) }
    {
        let mut rest = self.types_with_operator_overloading.as_slice();
        'types: while let Some((ty, others)) = rest.split_first() {
            if name == ty {
                return true;
            }
            rest = others;
        }
        false
    }

    // Adds the types whose values the order compares, in order.
    pub(crate) fn push_types(&self, types: &mut Vec<Type>) -> Result<(), AllocError>
        ensures { OnOk result (map type_view types.new.items ≡
            map type_view types.old.items ++ types_named (overloading_types self.now)) }
    {
        let mut rest = self.types_with_operator_overloading.as_slice();
        'types: while let Some((name, others)) = rest.split_first() {
            types.push(Type::Extension {
                name: name.clone()?,
            })?;
            rest = others;
        }
        Ok(())
    }

    // The types whose values the order compares, as they are held.
    pub(crate) fn overloaded(&self) -> &[Name]
        ensures { result.now ≡ overloading_types self.now }
    {
        &self.types_with_operator_overloading
    }
}
