//! The functions that policies call.
ghost use Rattle.std.specs.Prelude.{◌≡◌, true, IfOk, alloc_error, codes, [], ◌∷◌};
ghost use Rattle.cedar_model.specs.Values.{abstract_value, extension_value};
ghost use Rattle.cedar_model.specs.Outcomes.{type_error};
ghost use Rattle.cedar_model.specs.World.{function_errs};
ghost use Rattle.cedar_names.specs.Names.{name_text};
ghost use Rattle.cedar_values.specs.Representations.{extension_what};
ghost use Rattle.cedar_extensions.specs.Outcomes.{ComesTo, is_lawful, abstracts};
ghost use Rattle.cedar_example_rows.specs.Stored.{even_of, fail_of, ask_of, ask_long_of, ask_any_of, made_of};

use cedar_errors::evaluator::err::EvaluationError;
use cedar_errors::evaluator::err::evaluation_errors::{ExtensionFunctionExecutionError, TypeError};
use cedar_extensions::ExtensionOutputValue;
use cedar_layers::expressions::{
    ExtensionValue, FirstRest, Literal, Name, Representation, Type, Unknown, Value, ValueKind,
};
use std::alloc::{AllocError, Global};
use std::rc::{Rc, RcStr};

/// Whether the first argument is even, or a type error that expects a long.
#[tactic(auto, unfolding(crate::specs::Stored::even_of))]
pub fn even(alloc: Global, args: &[Value]) -> Result<ExtensionOutputValue, EvaluationError>
    ensures computes { ComesTo result (even_of (abstracts args.now)) }
    ensures lawful { is_lawful result ≡ true }
{
    match args.first() {
        Some(value) => even_long(alloc, value),
        None => long_expected(alloc, &Value::from(false)),
    }
}

#[tactic(auto, unfolding(crate::specs::Stored::even_of))]
fn even_long(alloc: Global, value: &Value) -> Result<ExtensionOutputValue, EvaluationError>
    ensures computes { ComesTo result (even_of (abstract_value value.now.what ∷ [])) }
    ensures lawful { is_lawful result ≡ true }
{
    match value.value_kind() {
        ValueKind::Lit(literal) => match literal {
            Literal::Long(n) => Ok(ExtensionOutputValue::Known(Value::from(*n % 2 == 0))),
            Literal::Bool(_) => long_expected(alloc, value),
            Literal::String(_) => long_expected(alloc, value),
            Literal::EntityUID(_) => long_expected(alloc, value),
        },
        ValueKind::Set(_) => long_expected(alloc, value),
        ValueKind::Record(_) => long_expected(alloc, value),
        ValueKind::ExtensionValue(_) => long_expected(alloc, value),
    }
}

// The error that the value is no long.
fn long_expected(alloc: Global, value: &Value) -> Result<ExtensionOutputValue, EvaluationError>
    ensures computes { ComesTo result (function_errs type_error) }
    ensures lawful { is_lawful result ≡ true }
{
    match value.type_of() {
        Ok(actual) => Err(EvaluationError::TypeError(TypeError {
            expected: FirstRest {
                first: Type::Long,
                rest: Vec::new(alloc),
            },
            actual,
            source_loc: None,
        })),
        Err(error) => Err(EvaluationError::Memory(error)),
    }
}

/// The error that it answers nothing.
pub fn fail(alloc: Global, args: &[Value]) -> Result<ExtensionOutputValue, EvaluationError>
    ensures computes { ComesTo result (fail_of (abstracts args.now)) }
    ensures lawful { is_lawful result ≡ true }
{
    match make_failure(alloc) {
        Ok(error) => Err(EvaluationError::FailedExtensionFunctionExecution(error)),
        Err(error) => Err(EvaluationError::Memory(error)),
    }
}

fn make_failure(alloc: Global) -> Result<ExtensionFunctionExecutionError, AllocError> {
    Ok(ExtensionFunctionExecutionError {
        extension_name: plain_name(alloc, "ext")?,
        msg: String::from_str(alloc, "no")?,
        source_loc: None,
    })
}

/// The unknown `asked`, which stands for a boolean.
pub fn ask(alloc: Global, args: &[Value]) -> Result<ExtensionOutputValue, EvaluationError>
    ensures computes { ComesTo result (ask_of (abstracts args.now)) }
    ensures lawful { is_lawful result ≡ true }
{
    match RcStr::from_str(alloc, "asked") {
        Ok(name) => Ok(ExtensionOutputValue::Unknown(Unknown::new_with_type(name, Type::Bool))),
        Err(error) => Err(EvaluationError::Memory(error)),
    }
}

/// The unknown `q`, which stands for a long.
pub fn ask_long(alloc: Global, args: &[Value]) -> Result<ExtensionOutputValue, EvaluationError>
    ensures computes { ComesTo result (ask_long_of (abstracts args.now)) }
    ensures lawful { is_lawful result ≡ true }
{
    match RcStr::from_str(alloc, "q") {
        Ok(name) => Ok(ExtensionOutputValue::Unknown(Unknown::new_with_type(name, Type::Long))),
        Err(error) => Err(EvaluationError::Memory(error)),
    }
}

/// The unknown `q`, which may stand for any value.
pub fn ask_any(alloc: Global, args: &[Value]) -> Result<ExtensionOutputValue, EvaluationError>
    ensures computes { ComesTo result (ask_any_of (abstracts args.now)) }
    ensures lawful { is_lawful result ≡ true }
{
    match RcStr::from_str(alloc, "q") {
        Ok(name) => Ok(ExtensionOutputValue::Unknown(Unknown::new_untyped(name))),
        Err(error) => Err(EvaluationError::Memory(error)),
    }
}

/// Out of memory, however much there is.
pub fn want(args: &[Value]) -> Result<ExtensionOutputValue, EvaluationError>
    ensures wanting { result ≡ Err (EvaluationError.Memory alloc_error) }
    ensures computes { ComesTo result (fail_of (abstracts args.now)) }
    ensures lawful { is_lawful result ≡ true }
{
    Err(EvaluationError::Memory(AllocError))
}

/// The value of the type `T` with this key, which says that it was made by `two`.
pub fn make_value(
    alloc: Global,
    args: &[Value],
    key: u8,
) -> Result<ExtensionOutputValue, EvaluationError>
    ensures computes { ComesTo result (made_of key (abstracts args.now)) }
    ensures lawful { is_lawful result ≡ true }
{
    match value_of_t(alloc, key) {
        Ok(value) => Ok(ExtensionOutputValue::Known(Value::new(
            ValueKind::ExtensionValue(value),
            None,
        ))),
        Err(error) => Err(EvaluationError::Memory(error)),
    }
}

fn value_of_t(alloc: Global, key: u8) -> Result<Rc<ExtensionValue>, AllocError>
    ensures { IfOk result (λ e. abstract_value (extension_what e.value) ≡ extension_value (codes "T") (key ∷ [])) }
{
    let typename = plain_name(alloc, "T")?;
    let no_arguments = Rc::new(alloc, Vec::new(alloc))?;
    let representation = Representation::new(plain_name(alloc, "two")?, no_arguments);
    let mut bytes = Vec::new(alloc);
    bytes.push(key)?;
    Ok(Rc::new(
        alloc,
        ExtensionValue {
            typename,
            representation,
            key: bytes,
        },
    )?)
}

/// The name of this text, at no place.
pub fn plain_name(alloc: Global, text: &str) -> Result<Name, AllocError>
    ensures { IfOk result (λ n. name_text n ≡ text.now) }
{
    Ok(Name::new(RcStr::from_str(alloc, text)?, None))
}
