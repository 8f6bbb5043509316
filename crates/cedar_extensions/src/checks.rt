//! Whether the functions of extensions can be used together.
ghost use Rattle.std.specs.Prelude.{◌≡◌, None, Some, IfOk, IfErr, option_map, option_copied};
ghost use Rattle.cedar_model.specs.Terms.{extension_type};
ghost use Rattle.cedar_names.specs.Names.{name_text};
ghost use Rattle.cedar_names.specs.Leaves.{type_view};
ghost use Rattle.std.specs.List.{find};
ghost use Rattle.cedar_extensions.specs.Extension.{all_functions, all_overloading_types};
ghost use Rattle.cedar_extensions.specs.Refused.{repeated_name, repeated_type, repeated_text, IsNameRefused};
ghost use Rattle.cedar_extensions.specs.Refused.{IsTypeRefused, standard_type, standard_overload, has_standard_name};
ghost use Rattle.cedar_extensions.specs.Refused.{makes_standard, is_standard, name_taken, type_taken, IsOverloadRefused};
ghost use Rattle.cedar_extensions.specs.Functions.{IsFound};

use crate::errors::ExtensionInitializationError;
use crate::errors::extension_initialization_errors::{
    FuncMultiplyDefinedError, MultipleConstructorsSameSignatureError, StandardTypeOverloadedError,
};
use crate::extension::Extension;
use crate::function::ExtensionFunction;
use crate::iterators::{ConstructedTypes, FunctionNames};
use crate::util::{CollectError, collect_no_duplicates};
use cedar_names::{Name, Type};
use std::alloc::{AllocError, Global};
use std::collections::HashMap;

// Refuses the first duplicate name of a function.
pub(crate) fn check_names(
    alloc: Global,
    extensions: &[Extension],
) -> Result<(), ExtensionInitializationError>
    ensures ok { IfOk result (λ _. repeated_name (all_functions extensions.now) ≡ None) }
    ensures refused { IfErr result (IsNameRefused (repeated_name (all_functions extensions.now))) }
{
    let names: HashMap<&Name, ()> = match collect_no_duplicates(
        alloc,
        FunctionNames::new(extensions),
    ) {
        Ok(names) => names,
        Err(error) => return Err(name_refused(error)),
    };
    drop(names);
    Ok(())
}

// Refuses the first duplicate extension type among those that functions make values of, each of exactly one
// text.
pub(crate) fn check_constructors(
    alloc: Global,
    extensions: &[Extension],
) -> Result<(), ExtensionInitializationError>
    ensures ok { IfOk result (λ _. repeated_type (all_functions extensions.now) ≡ None) }
    ensures refused { IfErr result (IsTypeRefused (repeated_type (all_functions extensions.now))) }
{
    let types: HashMap<&Name, ()> = match collect_no_duplicates(
        alloc,
        ConstructedTypes::new(extensions),
    ) {
        Ok(types) => types,
        Err(error) => return Err(type_refused(alloc, error)),
    };
    drop(types);
    Ok(())
}

// The error that functions repeat this name, or out of memory.
#[cold]
#[inline(never)]
fn name_refused(error: CollectError<&Name>) -> ExtensionInitializationError
    ensures { IsNameRefused (repeated_text error.entry) result }
{
    match error {
        CollectError::Duplicate(name) => match name.clone() {
            Ok(name) => ExtensionInitializationError::FuncMultiplyDefined(FuncMultiplyDefinedError {
                name,
            }),
            Err(error) => ExtensionInitializationError::Memory(error),
        },
        CollectError::Memory(error) => ExtensionInitializationError::Memory(error),
    }
}

// The error that functions repeat the extension type of this name, or out of memory.
#[cold]
#[inline(never)]
fn type_refused(alloc: Global, error: CollectError<&Name>) -> ExtensionInitializationError
    ensures { IsTypeRefused (repeated_text error.entry) result }
{
    match error {
        CollectError::Duplicate(name) => match boxed_type(alloc, name) {
            Ok(return_type) => ExtensionInitializationError::MultipleConstructorsSameSignature(
                MultipleConstructorsSameSignatureError { return_type },
            ),
            Err(error) => ExtensionInitializationError::Memory(error),
        },
        CollectError::Memory(error) => ExtensionInitializationError::Memory(error),
    }
}

// The extension type of this name.
fn boxed_type(alloc: Global, name: &Name) -> Result<Box<Type>, AllocError>
    ensures { IfOk result (λ t. type_view t.value ≡ extension_type (name_text name.now)) }
{
    let ty = Type::Extension {
        name: name.clone()?,
    };
    Ok(Box::new(alloc, ty)?)
}

// ---- beside the standard extensions

// Refuses the first name of a function that a standard function has, or else the first duplicate.
pub(crate) fn check_names_beside(
    alloc: Global,
    extensions: &[Extension],
) -> Result<(), ExtensionInitializationError>
    ensures ok { IfOk result (λ _. name_taken (all_functions extensions.now) ≡ None) }
    ensures refused { IfErr result (IsNameRefused (name_taken (all_functions extensions.now))) }
{
    match with_standard_name(extensions) {
        Some(function) => Err(name_refused(CollectError::Duplicate(function.name()))),
        None => check_names(alloc, extensions),
    }
}

// The same of the extension types that functions make values of, each of exactly one text.
pub(crate) fn check_constructors_beside(
    alloc: Global,
    extensions: &[Extension],
) -> Result<(), ExtensionInitializationError>
    ensures ok { IfOk result (λ _. type_taken (all_functions extensions.now) ≡ None) }
    ensures refused { IfErr result (IsTypeRefused (type_taken (all_functions extensions.now))) }
{
    match making_standard(extensions) {
        Some(name) => Err(type_refused(alloc, CollectError::Duplicate(name))),
        None => check_constructors(alloc, extensions),
    }
}

// Refuses the first standard type of which an extension says that `<` compares its values.
pub(crate) fn check_overloads(extensions: &[Extension]) -> Result<(), ExtensionInitializationError>
    ensures ok { IfOk result (λ _. standard_overload extensions.now ≡ None) }
    ensures refused { IfErr result (IsOverloadRefused (standard_overload extensions.now)) }
{
    match overloading_standard(extensions) {
        Some(name) => Err(overload_refused(name)),
        None => Ok(()),
    }
}

// The first function whose name a standard function has.
fn with_standard_name(extensions: &[Extension]) -> Option<&ExtensionFunction>
    ensures { IsFound (find has_standard_name (all_functions extensions.now)) result }
{
    let mut rest = extensions;
    'extensions: while let Some((extension, others)) = rest.split_first() {
        match extension.with_standard_name() {
            Some(function) => return Some(function),
            None => rest = others,
        }
    }
    None
}

// The first standard type that a function makes values of, each of exactly one text.
fn making_standard(extensions: &[Extension]) -> Option<&Name>
    ensures { option_map name_text (option_copied result) ≡ standard_type (all_functions extensions.now) }
{
    match making_standard_function(extensions) {
        Some(function) => function.constructed_type(),
        None => None,
    }
}

fn making_standard_function(extensions: &[Extension]) -> Option<&ExtensionFunction>
    ensures { IsFound (find makes_standard (all_functions extensions.now)) result }
{
    let mut rest = extensions;
    'extensions: while let Some((extension, others)) = rest.split_first() {
        match extension.making_standard() {
            Some(function) => return Some(function),
            None => rest = others,
        }
    }
    None
}

// The first standard type of which an extension says that `<` compares its values.
fn overloading_standard(extensions: &[Extension]) -> Option<&Name>
    ensures { option_copied result ≡ find is_standard (all_overloading_types extensions.now) }
{
    let mut rest = extensions;
    'extensions: while let Some((extension, others)) = rest.split_first() {
        match extension.overloading_standard() {
            Some(name) => return Some(name),
            None => rest = others,
        }
    }
    None
}

// The error that an extension overloads the standard type of this name.
#[cold]
#[inline(never)]
fn overload_refused(name: &Name) -> ExtensionInitializationError
    ensures { IsOverloadRefused (Some (name_text name.now)) result }
{
    match name.clone() {
        Ok(name) => {
            ExtensionInitializationError::StandardTypeOverloaded(StandardTypeOverloadedError {
                name,
            })
        }
        Err(error) => ExtensionInitializationError::Memory(error),
    }
}
