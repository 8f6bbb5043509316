//! Extension functions: those that a caller stores, and the built-in `unknown`.
ghost use Rattle.std.specs.Prelude.{◌≡◌, ◌≢◌, length, map, option_copied, Ok};
ghost use Rattle.cedar_model.specs.Failures.{answers, arguments_are_miscounted, out_of_memory};
ghost use Rattle.cedar_names.specs.Leaves.{type_view};
ghost use Rattle.cedar_values.specs.Residuals.{partial_view};
ghost use Rattle.cedar_extensions.specs.Answers.{returned_answer};
ghost use Rattle.cedar_extensions.specs.Types.{extension_name, is_one_text, is_string_type};
ghost use Rattle.cedar_extensions.specs.Outcomes.{TakesArity, AtMostOne, OnlyLawful};
ghost use Rattle.cedar_extensions.specs.Callees.{arity_of};

mod built_in;
mod callee;
mod stored;

use callee::Callee;
use cedar_errors::evaluator::err::EvaluationError;
use cedar_errors::evaluator::err::evaluation_errors::WrongNumArgumentsError;
use cedar_expressions::Expr;
use cedar_names::{CallStyle, Name, Type};
use cedar_standard_functions::{StandardFunction, is_standard_type};
use cedar_values::{PartialValue, ResidualExpr, Value};
use std::alloc::{AllocError, Global};
use std::rc::RcStr;
use stored::StoredFunction;
pub use stored::{ExtensionFunctionObject, ExtensionOutputValue};

/// A function of an extension: its name, how it is written at a call, the type of what it answers where that is known,
/// and the types of its arguments.
pub struct ExtensionFunction {
    name: Name,
    style: CallStyle,
    callee: Callee,
    return_type: Option<Type>,
    arg_types: Vec<Type>,
    ghost counted: { arity_of callee ≡ length arg_types.items },
}

impl Drop for ExtensionFunction {
    fn drop(self) {
        let ExtensionFunction {
            name: _,
            style: _,
            callee: _,
            return_type: _,
            arg_types: _,
        } = self;
    }
}

impl ExtensionFunction {
    ghost use Rattle.std.specs.Prelude.{◌↔◌, List, [], ◌∷◌, map, codes, None, Some, IfOk, option_copied};
    ghost use Rattle.cedar_model.specs.Terms.{string_type};
    ghost use Rattle.cedar_model.specs.Values.{Represented};
    ghost use Rattle.cedar_model.specs.Failures.{Answer};
    ghost use Rattle.cedar_model.specs.Rules.{Meets};
    ghost use Rattle.cedar_names.specs.Leaves.{type_view};
    ghost use Rattle.cedar_names.specs.declared.names.CallStyle.TheVariants.{FunctionStyle};
    ghost use Rattle.cedar_values.specs.Sound.{whats};
    ghost use Rattle.cedar_errors.specs.Failures.{failure_of};
    ghost use Rattle.cedar_errors.specs.Answers.{partial_answer};
    ghost use Rattle.cedar_extensions.specs.Answers.{AnswersBy, AsksOf};
    ghost use Rattle.cedar_extensions.specs.Functions.{function_name, function_style, function_returns, function_takes};
    ghost use Rattle.cedar_extensions.specs.Functions.{function_text, arity, CanAnswer, AnswersAs, AnswersAlone};
    ghost use Rattle.cedar_extensions.specs.Functions.{IsMiscounted, answered_type, constructed_type};
    ghost use Rattle.cedar_extensions.specs.Refused.{has_standard_name, makes_standard};
    ghost use Rattle.cedar_extensions.specs.Computations.{Computation, EachCallComesTo, Computes, unknown_made};

    /// The function that calls `func`. It asks its caller for three facts: `func` may be called on every list of as
    /// many values as there are `arg_types` (of whatever types); to equal arguments it answers, besides running out of
    /// memory, one outcome at most (a value, the kind of an error, or an unknown with its annotation); and it answers
    /// neither the recursion limit nor `NonValue`, nor out of memory inside `FailedExtensionFunctionLookup` (it answers
    /// `Memory` itself).
    pub fn new(
        name: Name,
        style: CallStyle,
        func: ExtensionFunctionObject,
        return_type: Option<Type>,
        arg_types: Vec<Type>,
    ) -> ExtensionFunction
        requires callable { TakesArity (λ a. pre func a) (length arg_types.items) }
        requires functional { AtMostOne (length arg_types.items) (λ a r. post func a r) }
        requires lawful { OnlyLawful (length arg_types.items) (λ a r. post func a r) }
        ensures name { function_name result ≡ name }
        ensures style { function_style result ≡ style }
        ensures returns { function_returns result ≡ return_type }
        ensures takes { function_takes result ≡ arg_types.items }
        ensures answers { AnswersAs result (AnswersBy (length arg_types.items) (λ a r. post func a r)) }
        ensures computes { (c : Computation) →
            EachCallComesTo (length arg_types.items) (λ a r. post func a r) c → Computes result c }
    {
        let arity = arg_types.len();
        ExtensionFunction {
            name,
            style,
            callee: Callee::Stored(StoredFunction::new(func, arity)),
            return_type,
            arg_types,
        }
    }

    /// The built-in function `unknown`: of a text it makes the untyped unknown of that name, and another value is a
    /// type error that expects a text. Refuses only if out of memory.
    pub fn unknown(alloc: Global) -> Result<ExtensionFunction, AllocError>
        ensures name { IfOk result (λ f. function_text f ≡ codes "unknown") }
        ensures style { IfOk result (λ f. function_style f ≡ FunctionStyle) }
        ensures returns { IfOk result (λ f. function_returns f ≡ None) }
        ensures takes { IfOk result (λ f. map type_view (function_takes f) ≡ string_type ∷ []) }
        ensures answers { IfOk result (λ f. AnswersAs f AsksOf) }
        ensures computes { IfOk result (λ f. Computes f unknown_made) }
    {
        let name = RcStr::from_str(alloc, "unknown")?;
        let mut arg_types = Vec::with_capacity(alloc, 1)?;
        arg_types.push(Type::String)?;
        Ok(ExtensionFunction {
            name: Name::new(name, None),
            style: CallStyle::FunctionStyle,
            callee: Callee::Unknown,
            return_type: None,
            arg_types,
        })
    }

    /// Its name.
    pub fn name(&self) -> &Name
        ensures { result.now ≡ function_name self.now }
    {
        &self.name
    }

    /// How it is written at a call.
    pub fn style(&self) -> CallStyle
        ensures { result ≡ function_style self.now }
    {
        self.style
    }

    /// The type of what it answers, if that is known.
    pub fn return_type(&self) -> Option<&Type>
        ensures { option_copied result ≡ function_returns self.now }
    {
        self.return_type.as_ref()
    }

    /// The types of its arguments, in order. A call checks their number alone.
    pub fn arg_types(&self) -> &[Type]
        ensures { result.now ≡ function_takes self.now }
    {
        &self.arg_types
    }

    /// What the function answers to these arguments: an unknown that it answers is a residual. Fails with
    /// `WrongNumArguments`, at no location, where there are more or fewer than it takes, and does not call it then.
    #[tactic(auto, using(crate::proofs::Counted::counts_right, crate::proofs::Counted::counts_wrong))]
    pub fn call(&self, alloc: Global, args: &[Value]) -> Result<PartialValue, EvaluationError>
        ensures { Meets (AnswersAlone self.now (whats args.now)) (partial_answer result) }
    {
        if args.len() == self.arg_types.len() {
            self.answer(alloc, args)
        } else {
            Err(self.refuse_count(args.len()))
        }
    }

    // What the function answers to as many arguments as it takes.
    fn answer(&self, alloc: Global, args: &[Value]) -> Result<PartialValue, EvaluationError>
        requires { length args.now ≡ arity self.now }
        ensures { Meets (CanAnswer self.now (whats args.now)) (partial_answer result) }
    {
        match self.callee.answer(alloc, args) {
            Ok(output) => Ok(partial_value(output)),
            Err(error) => Err(error),
        }
    }

    // The error of a call with so many arguments.
    #[cold]
    #[inline(never)]
    fn refuse_count(&self, actual: usize) -> EvaluationError
        ensures { IsMiscounted self.now actual result }
    {
        match self.name.clone() {
            Ok(function_name) => EvaluationError::WrongNumArguments(WrongNumArgumentsError {
                function_name,
                expected: self.arg_types.len(),
                actual,
                source_loc: None,
            }),
            Err(error) => EvaluationError::Memory(error),
        }
    }

    // The name of the extension type that it answers values of, if there is one.
    pub(crate) fn ext_type(&self) -> Option<&Name>
        ensures { option_copied result ≡ answered_type self.now }
    {
        match &self.return_type {
            Some(ty) => extension_name(ty),
            None => None,
        }
    }

    // Whether a standard function has its name.
    pub(crate) fn has_standard_name(&self) -> bool
        ensures { result ≡ has_standard_name self.now }
    {
        StandardFunction::named(self.name.text().as_str()).is_some()
    }

    // Whether it makes values of a standard type, each of exactly one text.
    pub(crate) fn makes_standard(&self) -> bool
        ensures { result ≡ makes_standard self.now }
    {
        match self.constructed_type() {
            Some(name) => is_standard_type(name.text().as_str()),
            None => false,
        }
    }

    // The extension type that it makes values of, each of exactly one text, if there is one.
    pub(crate) fn constructed_type(&self) -> Option<&Name>
        ensures { option_copied result ≡ constructed_type self.now }
    {
        if is_one_text(&self.arg_types) {
            self.ext_type()
        } else {
            None
        }
    }
}

// The name of the extension type, if it is one.
fn extension_name(ty: &Type) -> Option<&Name>
    ensures { option_copied result ≡ extension_name ty.now }
{
    match ty {
        Type::Bool => None,
        Type::Long => None,
        Type::String => None,
        Type::Set => None,
        Type::Record => None,
        Type::Entity { ty: _ } => None,
        Type::Extension { name } => Some(name),
    }
}

// Whether these are the types of exactly one text.
fn is_one_text(types: &[Type]) -> bool
    ensures { result ≡ is_one_text (map type_view types.now) }
{
    match types {
        [ty] => is_string_type(ty),
        _ => false,
    }
}

// Whether this is the type of texts.
fn is_string_type(ty: &Type) -> bool
    ensures { result ≡ is_string_type (type_view ty.now) }
{
    match ty {
        Type::Bool => false,
        Type::Long => false,
        Type::String => true,
        Type::Set => false,
        Type::Record => false,
        Type::Entity { ty: _ } => false,
        Type::Extension { name: _ } => false,
    }
}

// What a function answered: an unknown is a residual.
fn partial_value(output: ExtensionOutputValue) -> PartialValue
    ensures { answers (partial_view result) ≡ returned_answer (Ok output) }
{
    match output {
        ExtensionOutputValue::Known(value) => PartialValue::Value(value),
        ExtensionOutputValue::Unknown(unknown) => {
            PartialValue::Residual(ResidualExpr::new(Expr::unknown(unknown)))
        }
    }
}
