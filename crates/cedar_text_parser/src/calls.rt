//! Whether each call is one of a function that is known.
ghost use Rattle.std.specs.Prelude.{◌≡◌, ◌<◌, ◌≤◌, ◌-◌, IfOk, IfErr, length, string_bytes, Some};
ghost use Rattle.std.specs.Prelude.{ℕ, ◌≢◌};
ghost use Rattle.cedar_functions.specs.Functions.{Knowledge, knowledge, known_of};
ghost use Rattle.cedar_functions.specs.declared.functions.Known.TheVariants as known;
ghost use Rattle.cedar_text_syntax.specs.declared.steps.What.TheVariants as what;
ghost use Rattle.cedar_text_syntax.specs.declared.steps.Bracketed.TheVariants as bracketed;
ghost use Rattle.cedar_text_parser.specs.Calls.{callee_named, callee_at, IsKnownCallee, IsKnownCall, IsKnownStep};
ghost use Rattle.cedar_text_parser.specs.Calls.{AreKnownSteps};
ghost use Rattle.cedar_text_parser.specs.Calls.{IsCalleeRefused, IsCallRefused, AreCallsRefused};
ghost use Rattle.cedar_text_parser.specs.Reading.{IsPlaceWithin};

use crate::errors::ParseError;
use crate::leaves;
use crate::refusals::ill_made;
use crate::source::Source;
use crate::words::{MethodKind, method};
use cedar_functions::{Functions, Known};
use cedar_names::CallStyle;
use cedar_text_lexer::errors::ReadError;
use cedar_text_syntax::steps::{Bracketed, Step, What};
use std::alloc::{AllocError, Global};
use std::rc::RcStr;

/// That each call which the steps make is one of a function that is known, in its style and with its number of
/// arguments.
///
/// # Errors
///
/// The first call that isn't, at its name. Out of memory. The steps are not well made: `Expected::Steps`, at the
/// end of the text.
pub fn known_calls(
    alloc: Global,
    source: &Source,
    steps: &[Step],
    functions: &Functions,
) -> Result<(), ParseError>
    ensures ok { IfOk result (λ _. AreKnownSteps (knowledge functions.now) source.now steps.now) }
    ensures err { IfErr result (AreCallsRefused (knowledge functions.now) source.now steps.now) }
    ensures placed { IfErr result (IsPlaceWithin source.now.text) }
{
    source.tokens_stand();
    for step in steps {
        known_step(alloc, source, step.what, functions)?;
    }
    Ok(())
}

fn known_step(
    alloc: Global,
    source: &Source,
    step: What,
    functions: &Functions,
) -> Result<(), ParseError>
    ensures ok { IfOk result (λ _. IsKnownStep (knowledge functions.now) source.now step) }
    ensures err { IfErr result (IsCallRefused (knowledge functions.now) source.now step) }
{
    match step {
        What::Leaf(_) => Ok(()),
        What::Unary(_) => Ok(()),
        What::Binary(_) => Ok(()),
        What::If => Ok(()),
        What::Field(_) => Ok(()),
        What::Bracketed(bracketed, count) => {
            known_brackets(alloc, source, bracketed, count, functions)
        }
    }
}

fn known_brackets(
    alloc: Global,
    source: &Source,
    bracketed: Bracketed,
    count: usize,
    functions: &Functions,
) -> Result<(), ParseError>
    ensures ok { IfOk result (λ _. IsKnownCall (knowledge functions.now) source.now bracketed count) }
    ensures err { IfErr result
        (IsCallRefused (knowledge functions.now) source.now (what.Bracketed bracketed count)) }
{
    match bracketed {
        Bracketed::Set => Ok(()),
        Bracketed::Record => Ok(()),
        Bracketed::Call(from, to) => known_call(alloc, source, from, to, count, functions),
        Bracketed::Method(at) => known_method(alloc, source, at, count, functions),
    }
}

fn known_call(
    alloc: Global,
    source: &Source,
    from: usize,
    to: usize,
    count: usize,
    functions: &Functions,
) -> Result<(), ParseError>
    ensures ok { IfOk result
        (λ _. IsKnownCall (knowledge functions.now) source.now (bracketed.Call from to) count) }
    ensures err { IfErr result (IsCallRefused
        (knowledge functions.now) source.now (what.Bracketed (bracketed.Call from to) count)) }
{
    if from < to && to <= source.len() {
        known_name(
            alloc,
            source,
            from,
            to,
            CallStyle::FunctionStyle,
            count,
            functions,
        )
    } else {
        Err(ParseError::Read(ill_made(source)))
    }
}

fn known_method(
    alloc: Global,
    source: &Source,
    at: usize,
    count: usize,
    functions: &Functions,
) -> Result<(), ParseError>
    ensures ok { IfOk result
        (λ _. IsKnownCall (knowledge functions.now) source.now (bracketed.Method at) count) }
    ensures err { IfErr result (IsCallRefused
        (knowledge functions.now) source.now (what.Bracketed (bracketed.Method at) count)) }
{
    if at < source.len() {
        match method(leaves::word_at(source, at)) {
            MethodKind::Operator(_) => Ok(()),
            MethodKind::IsEmpty => Ok(()),
            MethodKind::Function => {
                known_name(
                    alloc,
                    source,
                    at,
                    at + 1,
                    CallStyle::MethodStyle,
                    count,
                    functions,
                )
            }
        }
    } else {
        Err(ParseError::Read(ill_made(source)))
    }
}

// That the function which these tokens name is known, is called so, and takes so many arguments.
fn known_name(
    alloc: Global,
    source: &Source,
    from: usize,
    to: usize,
    style: CallStyle,
    count: usize,
    functions: &Functions,
) -> Result<(), ParseError>
    requires order { from < to }
    requires within { to ≤ length source.now.tokens }
    ensures ok { IfOk result (λ _.
        IsKnownCallee (knowledge functions.now) (Some (callee_at source.now style from to)) count) }
    ensures err { IfErr result
        (IsCalleeRefused (knowledge functions.now) (callee_at source.now style from to) count) }
{
    match leaves::words(alloc, source, from, to) {
        Ok(name) => {
            let call = Call {
                style,
                arguments: count,
                start: source.start_at(from),
                end: source.end_at(to - 1),
            };
            let told = call.known_in(alloc, functions, &name);
            drop(name);
            told
        }
        Err(AllocError) => Err(ParseError::Read(ReadError::Memory)),
    }
}

// A call: its style, how many arguments it gives, and where the function's name stands.
#[derive(Clone, Copy)]
struct Call {
    style: CallStyle,
    arguments: usize,
    start: usize,
    end: usize,
}

impl Call {
    // That the function of this name may be called so.
    fn known_in(self, alloc: Global, functions: &Functions, name: &str) -> Result<(), ParseError>
        ensures ok { IfOk result
            (λ _. IsKnownCallee (knowledge functions.now) (Some (callee_named self name.now)) self.arguments) }
        ensures err { IfErr result
            (IsCalleeRefused (knowledge functions.now) (callee_named self name.now) self.arguments) }
    {
        match functions.look_up(name) {
            Known::Any => Ok(()),
            Known::Function(style, arguments) => {
                if style != self.style {
                    self.in_other_style(alloc, name, style)
                } else if arguments != self.arguments {
                    self.with_other_number(alloc, name, arguments)
                } else {
                    Ok(())
                }
            }
            Known::Nothing => self.unknown(alloc, functions, name),
        }
    }

    // There is no function of this name.
    fn unknown(self, alloc: Global, functions: &Functions, name: &str) -> Result<(), ParseError>
        requires { known_of (knowledge functions.now) name.now ≡ known.Nothing }
        ensures never { IfOk result (λ _. ⊥) }
        ensures err { IfErr result
            (IsCalleeRefused (knowledge functions.now) (callee_named self name.now) self.arguments) }
    {
        let nearest = functions.nearest(alloc, self.style, name)?;
        let name = RcStr::from_str(alloc, name)?;
        Err(ParseError::UnknownFunction {
            name,
            style: self.style,
            nearest,
            start: self.start,
            end: self.end,
        })
    }

    // The function of this name is called in the other style.
    fn in_other_style(
        self,
        alloc: Global,
        name: &str,
        expected: CallStyle,
    ) -> Result<(), ParseError>
        ensures never { IfOk result (λ _. ⊥) }
        ensures err { (k : Knowledge) (m : ℕ) → known_of k name.now ≡ known.Function expected m →
            expected ≢ self.style → IfErr result (IsCalleeRefused k (callee_named self name.now) self.arguments) }
    {
        let name = RcStr::from_str(alloc, name)?;
        Err(ParseError::WrongStyle {
            name,
            expected,
            start: self.start,
            end: self.end,
        })
    }

    // The function of this name takes another number of arguments.
    fn with_other_number(self, alloc: Global, name: &str, expected: usize) -> Result<(), ParseError>
        ensures never { IfOk result (λ _. ⊥) }
        ensures err { (k : Knowledge) → known_of k name.now ≡ known.Function self.style expected →
            expected ≢ self.arguments →
            IfErr result (IsCalleeRefused k (callee_named self name.now) self.arguments) }
    {
        let name = RcStr::from_str(alloc, name)?;
        Err(ParseError::WrongNumberOfArguments {
            name,
            expected,
            found: self.arguments,
            start: self.start,
            end: self.end,
        })
    }
}
