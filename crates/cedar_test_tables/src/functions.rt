//! The functions that are stored for a case, in one extension, `ext`. The fact `functions` names them:
//!
//! - `even` (of a long), `fail` and `ask` (the unknown `asked`, a boolean); or, where it names `one`, `one` and `two`;
//!   or, where it names `ask1`, `ask` (the unknown `q`, a long), `ask1` (of a value: the unknown `q`, of no type),
//!   `fail` and `want` (out of memory);
//! - `unknown` beside any of them.
ghost use Rattle.std.specs.Prelude.{◌≡◌, true};
ghost use Rattle.cedar_extensions.specs.Outcomes.{ComesTo, is_lawful, abstracts};
ghost use Rattle.cedar_example_rows.specs.Stored.{even_of, fail_of, ask_of, ask_long_of, ask_any_of, made_of};

use crate::cases::{Lines, Tally, tally_of_rows};
use crate::notation::settings::setting_of;
use crate::notation::unanswered::{Noted, Unanswered};
use crate::notation::{add, both, fact, first_fact, or_memory};
use cedar_errors::evaluator::err::EvaluationError;
use cedar_example_rows::functions::{
    ask, ask_any, ask_long, even, fail, make_value, plain_name, want,
};
use cedar_extensions::{
    Extension, ExtensionFunction, ExtensionFunctionObject, ExtensionInitializationError,
    ExtensionOutputValue, Extensions,
};
use cedar_layers::expressions::{CallStyle, Name, Type, Value};
use std::alloc::{AllocError, Global};

/// How many of these rows hold in the setting of these facts. Prints those that do not.
pub fn tally(
    rt: &impl Print,
    alloc: Global,
    facts: &str,
    rows: Lines<'_>,
) -> Result<Tally, Unanswered> {
    if is_named(names_in(facts), "one") {
        tally_with_makers(rt, alloc, facts, rows)
    } else if is_named(names_in(facts), "ask1") {
        tally_with_asking(rt, alloc, facts, rows)
    } else {
        tally_with_others(rt, alloc, facts, rows)
    }
}

// The functions that the facts name.
fn names_in(facts: &str) -> &str {
    match first_fact(facts, "functions") {
        Some(names) => names,
        None => "",
    }
}

// With `even`, `fail` and `ask`.
fn tally_with_others(
    rt: &impl Print,
    alloc: Global,
    facts: &str,
    rows: Lines<'_>,
) -> Result<Tally, Unanswered> {
    let even: ExtensionFunctionObject = Box::new(
        alloc,
        move |args: &[Value]| -> Result<ExtensionOutputValue, EvaluationError>
            ensures computes { ComesTo result (even_of (abstracts args.now)) }
            ensures lawful { is_lawful result ≡ true }
        { even(alloc, args) },
    )?;
    let fail: ExtensionFunctionObject = Box::new(
        alloc,
        move |args: &[Value]| -> Result<ExtensionOutputValue, EvaluationError>
            ensures computes { ComesTo result (fail_of (abstracts args.now)) }
            ensures lawful { is_lawful result ≡ true }
        { fail(alloc, args) },
    )?;
    let ask: ExtensionFunctionObject = Box::new(
        alloc,
        move |args: &[Value]| -> Result<ExtensionOutputValue, EvaluationError>
            ensures computes { ComesTo result (ask_of (abstracts args.now)) }
            ensures lawful { is_lawful result ≡ true }
        { ask(alloc, args) },
    )?;
    let style = CallStyle::FunctionStyle;
    let ((evens, longs), (fails, asks)) = both(
        both(parse_named(alloc, "even"), longs(alloc)),
        both(parse_named(alloc, "fail"), parse_named(alloc, "ask")),
    )?;
    let even = ExtensionFunction::new(evens, style, even, Some(Type::Bool), longs);
    let fail = ExtensionFunction::new(fails, style, fail, None, Vec::new(alloc));
    let ask = ExtensionFunction::new(asks, style, ask, None, Vec::new(alloc));
    let functions = with(facts, Ok(Vec::new(alloc)), even);
    let functions = with(facts, functions, fail);
    let functions = with(facts, functions, ask)?;
    tally_with(rt, alloc, facts, rows, functions)
}

// With `one` and `two`.
fn tally_with_makers(
    rt: &impl Print,
    alloc: Global,
    facts: &str,
    rows: Lines<'_>,
) -> Result<Tally, Unanswered> {
    let one: ExtensionFunctionObject = Box::new(
        alloc,
        move |args: &[Value]| -> Result<ExtensionOutputValue, EvaluationError>
            ensures computes { ComesTo result (made_of 1 (abstracts args.now)) }
            ensures lawful { is_lawful result ≡ true }
        { make_value(alloc, args, 1) },
    )?;
    let two: ExtensionFunctionObject = Box::new(
        alloc,
        move |args: &[Value]| -> Result<ExtensionOutputValue, EvaluationError>
            ensures computes { ComesTo result (made_of 2 (abstracts args.now)) }
            ensures lawful { is_lawful result ≡ true }
        { make_value(alloc, args, 2) },
    )?;
    let style = CallStyle::FunctionStyle;
    let (first, second) = both(parse_named(alloc, "one"), parse_named(alloc, "two"))?;
    let one = ExtensionFunction::new(first, style, one, None, Vec::new(alloc));
    let two = ExtensionFunction::new(second, style, two, None, Vec::new(alloc));
    let functions = with(facts, Ok(Vec::new(alloc)), one);
    let functions = with(facts, functions, two)?;
    tally_with(rt, alloc, facts, rows, functions)
}

// With `ask`, `ask1`, `fail` and `want`.
fn tally_with_asking(
    rt: &impl Print,
    alloc: Global,
    facts: &str,
    rows: Lines<'_>,
) -> Result<Tally, Unanswered> {
    let ask: ExtensionFunctionObject = Box::new(
        alloc,
        move |args: &[Value]| -> Result<ExtensionOutputValue, EvaluationError>
            ensures computes { ComesTo result (ask_long_of (abstracts args.now)) }
            ensures lawful { is_lawful result ≡ true }
        { ask_long(alloc, args) },
    )?;
    let ask1: ExtensionFunctionObject = Box::new(
        alloc,
        move |args: &[Value]| -> Result<ExtensionOutputValue, EvaluationError>
            ensures computes { ComesTo result (ask_any_of (abstracts args.now)) }
            ensures lawful { is_lawful result ≡ true }
        { ask_any(alloc, args) },
    )?;
    let fail: ExtensionFunctionObject = Box::new(
        alloc,
        move |args: &[Value]| -> Result<ExtensionOutputValue, EvaluationError>
            ensures computes { ComesTo result (fail_of (abstracts args.now)) }
            ensures lawful { is_lawful result ≡ true }
        { fail(alloc, args) },
    )?;
    let want: ExtensionFunctionObject = Box::new(
        alloc,
        move |args: &[Value]| -> Result<ExtensionOutputValue, EvaluationError>
            ensures computes { ComesTo result (fail_of (abstracts args.now)) }
            ensures lawful { is_lawful result ≡ true }
        { want(args) },
    )?;
    let style = CallStyle::FunctionStyle;
    let (((asks, asks1), (fails, wants)), longs) = both(
        both(
            both(parse_named(alloc, "ask"), parse_named(alloc, "ask1")),
            both(parse_named(alloc, "fail"), parse_named(alloc, "want")),
        ),
        longs(alloc),
    )?;
    let ask = ExtensionFunction::new(asks, style, ask, None, Vec::new(alloc));
    let ask1 = ExtensionFunction::new(asks1, style, ask1, None, longs);
    let fail = ExtensionFunction::new(fails, style, fail, None, Vec::new(alloc));
    let want = ExtensionFunction::new(wants, style, want, None, Vec::new(alloc));
    let functions = with(facts, Ok(Vec::new(alloc)), ask);
    let functions = with(facts, functions, ask1);
    let functions = with(facts, functions, fail);
    let functions = with(facts, functions, want)?;
    tally_with(rt, alloc, facts, rows, functions)
}

fn parse_named(alloc: Global, name: &str) -> Result<Name, Unanswered> {
    Ok(plain_name(alloc, name)?)
}

// A long, as what a function takes.
fn longs(alloc: Global) -> Result<Vec<Type>, Unanswered> {
    Ok(vec![in alloc; Type::Long]?)
}

// The functions, and behind them this one, where the facts name it.
fn with(
    facts: &str,
    functions: Result<Vec<ExtensionFunction>, Unanswered>,
    function: ExtensionFunction,
) -> Result<Vec<ExtensionFunction>, Unanswered> {
    let (functions, function) = both(functions, Ok(function))?;
    let mut functions = functions;
    match put(facts, &mut functions, function) {
        Ok(()) => Ok(functions),
        Err(error) => {
            drop(functions);
            Err(error.into())
        }
    }
}

// Puts the function behind the others, where the facts name it.
fn put(
    facts: &str,
    functions: &mut Vec<ExtensionFunction>,
    function: ExtensionFunction,
) -> Result<(), AllocError> {
    if is_named(names_in(facts), function.name().text().as_str()) {
        add(functions, function)
    } else {
        Ok(())
    }
}

// Whether the name is one of these.
fn is_named(names: &str, name: &str) -> bool {
    for named in names.split(' ') {
        if named == name {
            return true;
        }
    }
    false
}

// With one extension, that has these functions, and `unknown` where the facts name it, and overloads `<` as they say.
fn tally_with(
    rt: &impl Print,
    alloc: Global,
    facts: &str,
    rows: Lines<'_>,
    functions: Vec<ExtensionFunction>,
) -> Result<Tally, Unanswered> {
    let (functions, (unknown, (title, types))) = both(
        Ok(functions),
        both(
            or_memory(ExtensionFunction::unknown(alloc)),
            both(parse_named(alloc, "ext"), overloaded_types(alloc, facts)),
        ),
    )?;
    let mut functions = functions;
    if let Err(error) = put(facts, &mut functions, unknown) {
        drop((functions, title, types));
        return Err(error.into());
    }
    let all = vec![in alloc; Extension::new(title, functions, types)]?;
    let tally = tally_in(rt, alloc, facts, rows, all.as_slice());
    drop(all);
    tally
}

// The types that `<` and `<=` take besides longs.
fn overloaded_types(alloc: Global, facts: &str) -> Result<Vec<Name>, Unanswered> {
    let mut types: Vec<Name> = Vec::new(alloc);
    for line in facts.lines() {
        if let Some(ty) = fact(line, "overloads") {
            types.push(plain_name(alloc, ty)?)?;
        }
    }
    Ok(types)
}

fn tally_in(
    rt: &impl Print,
    alloc: Global,
    facts: &str,
    rows: Lines<'_>,
    all: &[Extension],
) -> Result<Tally, Unanswered> {
    match Extensions::specific_extensions(alloc, all) {
        Ok(extensions) => {
            let mut noted = Noted::none();
            let setting = setting_of(alloc, facts, &extensions, &mut noted);
            let tally = match noted.why() {
                None => tally_of_rows(rt, alloc, facts, &setting, rows),
                Some(why) => Err(why),
            };
            drop(setting);
            tally
        }
        Err(ExtensionInitializationError::FuncMultiplyDefined(_)) => {
            Err(Unanswered::Unreadable("a function is stored twice"))
        }
        Err(ExtensionInitializationError::MultipleConstructorsSameSignature(_)) => {
            Err(Unanswered::Unreadable("two functions make one type of one"))
        }
        Err(ExtensionInitializationError::StandardTypeOverloaded(_)) => {
            Err(Unanswered::Unreadable("a standard type is overloaded"))
        }
        Err(ExtensionInitializationError::Memory(_)) => Err(Unanswered::Memory),
    }
}
