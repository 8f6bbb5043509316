//! The extensions that an evaluation may use.
ghost use Rattle.std.specs.Prelude.{◌≡◌, None, map, IfOk};
ghost use Rattle.cedar_model.specs.Terms.{extension_type};
ghost use Rattle.cedar_model.specs.Failures.{arguments_are_miscounted};
ghost use Rattle.cedar_model.specs.Rules.{Meets};
ghost use Rattle.cedar_names.specs.Leaves.{type_view};
ghost use Rattle.cedar_values.specs.Sound.{whats};
ghost use Rattle.cedar_errors.specs.Answers.{partial_answer, FailsWith};
ghost use Rattle.cedar_standard_functions.specs.Standard as standards;
ghost use Rattle.std.proofs.Props.{props};
ghost use Rattle.cedar_extensions.specs.Extension.{all_functions};
ghost use Rattle.cedar_extensions.specs.Refused.{repeated_name, IsMissing};
ghost use Rattle.cedar_extensions.specs.Standard.{overloaded_if, standard_arity, StandardAlone};

use crate::checks::{
    check_constructors, check_constructors_beside, check_names, check_names_beside, check_overloads,
};
use crate::errors::ExtensionInitializationError;
use crate::extension::Extension;
use crate::function::ExtensionFunction;
use crate::iterators::{ExtNames, ExtTypes, OverloadingTypes};
use cedar_errors::evaluator::err::EvaluationError;
use cedar_errors::evaluator::err::evaluation_errors::WrongNumArgumentsError;
use cedar_errors::extensions::ExtensionFunctionLookupError;
use cedar_errors::extensions::extension_function_lookup_errors::FuncDoesNotExistError;
use cedar_names::{Loc, Name, Type};
use cedar_standard_functions::laws::{functions_are_computed, functions_are_faithful};
use cedar_standard_functions::{OVERLOADED, StandardFunction, is_overloaded};
use cedar_values::{PartialValue, Value};
use std::alloc::{AllocError, Global};
use std::rc::RcStr;

/// The extensions that an evaluation may use: the standard ones or not, and those that the caller made. No two of the
/// functions that the caller made have one name; where a standard function has a name, it is the one that is called.
#[derive(Clone, Copy)]
pub struct Extensions<'a> {
    standard: bool,
    extensions: &'a [Extension],
    ghost distinct: { repeated_name (all_functions extensions.now) ≡ None } by { Prim.hlevel props },
}

impl<'a> Extensions<'a> {
    ghost use Rattle.std.specs.Prelude.{◌++◌, [], map, true, false, None, Some, IfOk, IfErr};
    ghost use Rattle.cedar_model.specs.Outcomes.{has_text};
    ghost use Rattle.cedar_model.specs.Rules.{Meets};
    ghost use Rattle.cedar_names.specs.Names.{name_text};
    ghost use Rattle.cedar_names.specs.Leaves.{type_view};
    ghost use Rattle.cedar_values.specs.Sound.{whats};
    ghost use Rattle.cedar_errors.specs.Answers.{partial_answer};
    ghost use Rattle.cedar_extensions.specs.Functions.{answered_types, IsFound};
    ghost use Rattle.cedar_extensions.specs.Extension.{name_of, all_functions, all_overloading_types};
    ghost use Rattle.cedar_extensions.specs.Iterators.{names_left, types_left, overloading_left};
    ghost use Rattle.cedar_extensions.specs.Extensions.{no_extensions, extensions_in, func_of, extensions_view};
    ghost use Rattle.cedar_extensions.specs.Extensions.{overloaded_types_in, AnswersCall, has_standard, standard_of};
    ghost use Rattle.cedar_extensions.specs.Standard.{overloaded_if};
    ghost use Rattle.cedar_extensions.specs.Computations.{AgreesWith, AreFaithfulBy};
    ghost use Rattle.cedar_standard_functions.specs.Standard.{standard_answers};
    ghost use Rattle.cedar_extensions.specs.Refused.{repeated_type, IsWhyRefused, IsMissing, name_taken, type_taken};
    ghost use Rattle.cedar_extensions.specs.Refused.{standard_overload, IsWhyRefusedBeside};

    /// No extension: each call of a function fails with `FuncDoesNotExist`.
    #[tactic(auto, unfolding(cedar_model::specs::Refusals::first_repeated_after))]
    pub fn none() -> Extensions<'a>
        ensures extensions { extensions_in result ≡ [] }
        ensures standard { has_standard result ≡ false }
        ensures view { extensions_view result ≡ no_extensions }
    {
        Extensions {
            standard: false,
            extensions: &[],
        }
    }

    /// The standard extensions, `decimal`, `ipaddr` and `datetime`, and no other: their functions are those of
    /// [`StandardFunction`], which answer what `standard_answers` says; what they answer to faithful values is
    /// faithful. It takes no memory.
    pub fn all_available() -> Extensions<'a>
        ensures extensions { extensions_in result ≡ [] }
        ensures standard { has_standard result ≡ true }
        ensures agrees { AgreesWith result standard_answers }
        ensures faithful { AreFaithfulBy result standard_answers }
    {
        functions_are_computed();
        functions_are_faithful();
        Extensions::standard_alone()
    }

    #[tactic(auto, unfolding(cedar_model::specs::Refusals::first_repeated_after))]
    fn standard_alone() -> Extensions<'a>
        ensures extensions { extensions_in result ≡ [] }
        ensures standard { has_standard result ≡ true }
    {
        Extensions {
            standard: true,
            extensions: &[],
        }
    }

    /// These extensions. Refuses with `FuncMultiplyDefined` where two functions, of one extension or of two, have one
    /// name, and names the first duplicate; else with `MultipleConstructorsSameSignature` where two functions
    /// that take exactly one text answer values of one extension type, and names the first duplicate type; else
    /// only if out of memory.
    pub fn specific_extensions(
        alloc: Global,
        extensions: &'a [Extension],
    ) -> Result<Extensions<'a>, ExtensionInitializationError>
        ensures extensions { IfOk result (λ x. extensions_in x ≡ extensions.now) }
        ensures standard { IfOk result (λ x. has_standard x ≡ false) }
        ensures names { IfOk result (λ x. repeated_name (all_functions extensions.now) ≡ None) }
        ensures constructors { IfOk result (λ x. repeated_type (all_functions extensions.now) ≡ None) }
        ensures refused { IfErr result (IsWhyRefused (all_functions extensions.now)) }
    {
        check_names(alloc, extensions)?;
        check_constructors(alloc, extensions)?;
        Ok(Extensions {
            standard: false,
            extensions,
        })
    }

    /// The standard extensions, and these beside them. Refuses with `FuncMultiplyDefined` where a standard function has
    /// the name of one of these, or else where two of these have one name, and names the first such; else with
    /// `MultipleConstructorsSameSignature` where one of these that takes exactly one text answers values of a standard
    /// type, or else where two such answer values of one type, and names the first such type; else with
    /// `StandardTypeOverloaded` where one of these extensions says that `<` compares the values of a standard type, and
    /// names the first such; else only if out of memory.
    pub fn with_standard(
        alloc: Global,
        extensions: &'a [Extension],
    ) -> Result<Extensions<'a>, ExtensionInitializationError>
        ensures extensions { IfOk result (λ x. extensions_in x ≡ extensions.now) }
        ensures standard { IfOk result (λ x. has_standard x ≡ true) }
        ensures names { IfOk result (λ x. name_taken (all_functions extensions.now) ≡ None) }
        ensures constructors { IfOk result (λ x. type_taken (all_functions extensions.now) ≡ None) }
        ensures overloads { IfOk result (λ x. standard_overload extensions.now ≡ None) }
        ensures refused { IfErr result (IsWhyRefusedBeside extensions.now) }
    {
        check_names_beside(alloc, extensions)?;
        check_constructors_beside(alloc, extensions)?;
        check_overloads(extensions)?;
        Ok(Extensions {
            standard: true,
            extensions,
        })
    }

    /// Whether the standard extensions are there.
    pub fn has_standard(&self) -> bool
        ensures { result ≡ has_standard self.now }
    {
        self.standard
    }

    /// The extensions that the caller made, in order.
    pub fn extensions(&self) -> &'a [Extension]
        ensures { result.now ≡ extensions_in self.now }
    {
        self.extensions
    }

    /// The standard function of this name, if the standard extensions are there and have it.
    pub fn standard(&self, name: &Name) -> Option<StandardFunction>
        ensures { result ≡ standard_of self.now (name_text name.now) }
    {
        if self.standard {
            StandardFunction::named(name.text().as_str())
        } else {
            None
        }
    }

    /// The function of this name that the caller made; a standard one is `standard`'s to answer. Fails with
    /// `FuncDoesNotExist`, at the location of `name`, where there is none; only then it takes memory, and can find none.
    pub fn func(&self, name: &Name) -> Result<&'a ExtensionFunction, ExtensionFunctionLookupError>
        ensures found { IfOk result (λ f. func_of self.now (name_text name.now) ≡ Some f.now) }
        ensures missing { IfErr result (λ e. func_of self.now (name_text name.now) ≡ None) }
        ensures error { IfErr result (IsMissing name.now) }
    {
        match self.find(name) {
            Some(function) => Ok(function),
            None => Err(no_such_function(name)),
        }
    }

    // The function of this name, if there is one.
    fn find(&self, name: &Name) -> Option<&'a ExtensionFunction>
        ensures { IsFound (func_of self.now (name_text name.now)) result }
    {
        let mut rest = self.extensions;
        'extensions: while let Some((extension, others)) = rest.split_first() {
            match extension.find(name) {
                Some(function) => return Some(function),
                None => rest = others,
            }
        }
        None
    }

    /// What the function of this name answers to these arguments, a standard function first. Fails with
    /// `FuncDoesNotExist`, at the location of `name`, where there is none, and else as the call of the function does:
    /// with `WrongNumArguments`, at no location, where there are more or fewer arguments than it takes.
    pub fn call(
        &self,
        alloc: Global,
        name: &Name,
        args: &[Value],
    ) -> Result<PartialValue, EvaluationError>
        ensures { Meets (AnswersCall self.now (name_text name.now) (whats args.now)) (partial_answer result) }
    {
        match self.standard(name) {
            Some(function) => call_standard(alloc, function, args),
            None => match self.func(name) {
                Ok(function) => function.call(alloc, args),
                Err(error) => Err(EvaluationError::from(error)),
            },
        }
    }

    /// The names of the extensions that the caller made, in order.
    pub fn ext_names(&self) -> ExtNames<'a>
        ensures { names_left result ≡ map name_of (extensions_in self.now) }
    {
        ExtNames::new(self.extensions)
    }

    /// The extension types that the functions which the caller made answer values of: one item a function that does,
    /// extensions in order, and the functions of each in order.
    pub fn ext_types(&self) -> ExtTypes<'a>
        ensures { types_left result ≡ answered_types (all_functions (extensions_in self.now)) }
    {
        ExtTypes::new(self.extensions)
    }

    /// Whether `<` and `<=` compare the values of the type of this name.
    pub fn overloads(&self, name: &Name) -> bool
        ensures { result ≡ has_text (name_text name.now) (extensions_view self.now).overloaded }
    {
        if self.standard_overloads(name) {
            true
        } else {
            self.made_overloads(name)
        }
    }

    // Whether the standard extensions are there, and say so.
    #[tactic(auto, unfolding(cedar_model::specs::Outcomes::has_text))]
    fn standard_overloads(&self, name: &Name) -> bool
        ensures { result ≡ has_text (name_text name.now) (overloaded_if (has_standard self.now)) }
    {
        if self.standard {
            is_overloaded(name.text().as_str())
        } else {
            false
        }
    }

    // Whether the extensions that the caller made say so.
    #[tactic(auto, unfolding(cedar_model::specs::Outcomes::has_text))]
    fn made_overloads(&self, name: &Name) -> bool
        ensures { result ≡ has_text (name_text name.now)
            (map name_text (all_overloading_types (extensions_in self.now))) }
    {
        let mut rest = self.extensions;
        'extensions: while let Some((extension, others)) = rest.split_first() {
            if extension.overloads(name) {
                return true;
            }
            rest = others;
        }
        false
    }

    /// The extension types whose values `<` and `<=` compare, as types: the standard ones, and then those of the
    /// extensions that the caller made, in order. Refuses only if out of memory.
    pub fn overloaded_types(&self, alloc: Global) -> Result<Vec<Type>, AllocError>
        ensures { IfOk result (λ ts. map type_view ts.items ≡ overloaded_types_in self.now) }
    {
        let mut types = standard_types(alloc, self.standard)?;
        let mut rest = self.extensions;
        'extensions: while let Some((extension, others)) = rest.split_first() {
            extension.push_types(&mut types)?;
            rest = others;
        }
        Ok(types)
    }

    /// The types whose values `<` and `<=` compare by the extensions that the caller made: extensions in order, and the
    /// types of each in order. A type that two extensions name is listed twice.
    pub fn types_with_operator_overloading(&self) -> OverloadingTypes<'a>
        ensures names { overloading_left result ≡ all_overloading_types (extensions_in self.now) }
        ensures view { overloaded_if (has_standard self.now) ++ map name_text (overloading_left result)
            ≡ (extensions_view self.now).overloaded }
    {
        OverloadingTypes::new(self.extensions)
    }
}

// The error that there is no function of this name, at the name's location.
#[cold]
#[inline(never)]
fn no_such_function(name: &Name) -> ExtensionFunctionLookupError
    ensures { IsMissing name.now result }
{
    let source_loc: Option<Loc> = name.loc().copied();
    match name.clone() {
        Ok(name) => ExtensionFunctionLookupError::FuncDoesNotExist(FuncDoesNotExistError {
            name,
            source_loc,
        }),
        Err(error) => ExtensionFunctionLookupError::Memory(error),
    }
}

// What a standard function answers to these arguments, or that there are more or fewer than it takes.
#[tactic(auto, using(crate::proofs::Counted::counts_right, crate::proofs::Counted::counts_wrong))]
fn call_standard(
    alloc: Global,
    function: StandardFunction,
    args: &[Value],
) -> Result<PartialValue, EvaluationError>
    ensures { Meets (StandardAlone function (whats args.now)) (partial_answer result) }
{
    if args.len() == function.arity() {
        match function.call(alloc, args) {
            Ok(value) => Ok(PartialValue::Value(value)),
            Err(error) => Err(error),
        }
    } else {
        Err(refuse_count(alloc, function, args.len()))
    }
}

// The error of a call of a standard function with so many arguments.
#[cold]
#[inline(never)]
fn refuse_count(alloc: Global, function: StandardFunction, actual: usize) -> EvaluationError
    ensures { FailsWith result
        (arguments_are_miscounted (standards.name_of function) (standard_arity function) actual) }
{
    match RcStr::from_str(alloc, function.name()) {
        Ok(name) => EvaluationError::WrongNumArguments(WrongNumArgumentsError {
            function_name: Name::new(name, None),
            expected: function.arity(),
            actual,
            source_loc: None,
        }),
        Err(error) => EvaluationError::Memory(error),
    }
}

// The standard types whose values `<` and `<=` compare, if they are there.
fn standard_types(alloc: Global, standard: bool) -> Result<Vec<Type>, AllocError>
    ensures { IfOk result (λ ts. map type_view ts.items ≡ map extension_type (overloaded_if standard)) }
{
    let mut types: Vec<Type> = Vec::new(alloc);
    if standard {
        types.push(type_named(alloc, OVERLOADED[0])?)?;
        types.push(type_named(alloc, OVERLOADED[1])?)?;
    }
    Ok(types)
}

// The extension type of this name.
fn type_named(alloc: Global, name: &str) -> Result<Type, AllocError>
    ensures { IfOk result (λ t. type_view t ≡ extension_type name.now) }
{
    let name = Name::new(RcStr::from_str(alloc, name)?, None);
    Ok(Type::Extension { name })
}
