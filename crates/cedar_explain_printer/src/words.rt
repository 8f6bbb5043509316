//! What parts and policies came to, in words.
ghost use Rattle.std.specs.Prelude.{◌≡◌, IfOk, string_bytes};
ghost use Rattle.cedar_model.specs.Values.{expression_of};
ghost use Rattle.cedar_model.specs.Agreement.{no_slots};
ghost use Rattle.cedar_errors.specs.Answers.{value_answer};
ghost use Rattle.cedar_text_printer.specs.Texts.{written};
ghost use Rattle.cedar_explain.specs.Views.{kind_view, part_came, policy_came};
ghost use Rattle.cedar_explain_printer.specs.Texts as texts;

use cedar_errors::evaluator::err::EvaluationError;
use cedar_explain::{ErrorKind, PartOutcome, PolicyOutcome};
use cedar_layers::expressions::{Expr, Value};
use cedar_text_printer::to_cedar;
use std::alloc::{AllocError, Global};

// What a part came to, where `other` stands for a value that is no boolean.
pub(crate) fn came_text(
    alloc: Global,
    outcome: PartOutcome,
    other: &str,
) -> Result<String, AllocError>
    ensures { IfOk result (λ t. string_bytes t ≡ texts.came_text (part_came outcome) other.now) }
{
    match outcome {
        PartOutcome::True => String::from_str(alloc, "true"),
        PartOutcome::False => String::from_str(alloc, "false"),
        PartOutcome::OtherValue => String::from_str(alloc, other),
        PartOutcome::Error(kind) => error_text(alloc, kind),
    }
}

// What a policy came to.
pub(crate) fn verdict_text(alloc: Global, outcome: PolicyOutcome) -> Result<String, AllocError>
    ensures { IfOk result (λ t. string_bytes t ≡ texts.verdict_text (policy_came outcome)) }
{
    match outcome {
        PolicyOutcome::Satisfied => String::from_str(alloc, "applies"),
        PolicyOutcome::Unsatisfied => String::from_str(alloc, "does not apply"),
        PolicyOutcome::Error(kind) => error_text(alloc, kind),
    }
}

fn error_text(alloc: Global, kind: ErrorKind) -> Result<String, AllocError>
    ensures { IfOk result (λ t. string_bytes t ≡ texts.error_text (kind_view kind)) }
{
    let kind = kind_text(kind);
    format!(in alloc; "errs ({kind})")
}

fn kind_text(kind: ErrorKind) -> &'static str
    ensures { result.now ≡ texts.kind_text (kind_view kind) }
{
    match kind {
        ErrorKind::EntityDoesNotExist => "an entity does not exist",
        ErrorKind::EntityAttrDoesNotExist => "an entity does not have the attribute or the tag",
        ErrorKind::RecordAttrDoesNotExist => "a record does not have the attribute",
        ErrorKind::FailedExtensionFunctionLookup => "a function is not known",
        ErrorKind::TypeError => "a value has the wrong type",
        ErrorKind::WrongNumArguments => "a function takes another number of arguments",
        ErrorKind::IntegerOverflow => "a number needs more than 64 bits",
        ErrorKind::UnlinkedSlot => "a slot is not linked",
        ErrorKind::FailedExtensionFunctionExecution => "an extension function errs",
        ErrorKind::NonValue => "a value is not known",
        ErrorKind::RecursionLimit => "the recursion limit is reached",
        ErrorKind::Memory => "out of memory",
    }
}

// What stands for a value that is no boolean: the value or, where values are left out, that it is none.
pub(crate) fn other_text(
    alloc: Global,
    answer: &Result<Value, EvaluationError>,
    has_values: bool,
) -> Result<String, AllocError>
    ensures { IfOk result (λ t. string_bytes t ≡ texts.other_text has_values (value_answer answer.now)) }
{
    match answer {
        Ok(value) => value_text(alloc, value, has_values),
        Err(_) => String::from_str(alloc, "no boolean"),
    }
}

fn value_text(alloc: Global, value: &Value, has_values: bool) -> Result<String, AllocError>
    ensures { IfOk result (λ t. string_bytes t ≡ texts.value_text has_values value.now.what) }
{
    if has_values {
        written_value(alloc, value)
    } else {
        String::from_str(alloc, "no boolean")
    }
}

fn written_value(alloc: Global, value: &Value) -> Result<String, AllocError>
    ensures { IfOk result (λ t. string_bytes t ≡ written no_slots (expression_of value.now.what)) }
{
    let expr: Expr = value.to_expr(alloc)?;
    let text = to_cedar(alloc, &expr);
    drop(expr);
    text
}
