//! Extensions that are handed in side by side, and pairs that are put into one map.
ghost use Rattle.std.specs.Prelude.{◌≡◌, true};
ghost use Rattle.cedar_extensions.specs.Outcomes.{ComesTo, is_lawful, abstracts};
ghost use Rattle.cedar_example_rows.specs.Stored.{made_of};

use crate::notation::answer::Answer;
use crate::notation::leaves::{name, named_type};
use crate::notation::unanswered::Unanswered;
use crate::notation::{add, both, pair, split_first_word};
use cedar_errors::evaluator::err::EvaluationError;
use cedar_example_rows::functions::make_value;
use cedar_extensions::util::{CollectError, collect_no_duplicates};
use cedar_extensions::{
    Extension, ExtensionFunction, ExtensionFunctionObject, ExtensionInitializationError,
    ExtensionOutputValue, Extensions,
};
use cedar_layers::expressions::{CallStyle, Type, Value};
use std::alloc::{AllocError, Global};
use std::rc::RcStr;

/// Whether a function of this name that takes this type can be used beside `make`, which takes a text. Each makes
/// values of the type `T`, and is in an extension of its own, or both are `in-one`.
pub fn ask(answer: &mut Answer, kind: &str, words: &str) {
    let (second, takes) = split_first_word(words);
    if let Err(why) = put_together(answer, kind == "in-one", second, takes) {
        answer.fail(why);
    }
}

fn put_together(
    answer: &mut Answer,
    are_in_one: bool,
    second: &str,
    takes: &str,
) -> Result<(), Unanswered> {
    let alloc = answer.alloc;
    let first: ExtensionFunctionObject = Box::new(
        alloc,
        move |args: &[Value]| -> Result<ExtensionOutputValue, EvaluationError>
            ensures computes { ComesTo result (made_of 1 (abstracts args.now)) }
            ensures lawful { is_lawful result ≡ true }
        { make_value(alloc, args, 1) },
    )?;
    let last: ExtensionFunctionObject = Box::new(
        alloc,
        move |args: &[Value]| -> Result<ExtensionOutputValue, EvaluationError>
            ensures computes { ComesTo result (made_of 2 (abstracts args.now)) }
            ensures lawful { is_lawful result ≡ true }
        { make_value(alloc, args, 2) },
    )?;
    let style = CallStyle::FunctionStyle;
    let (((makes, make), (others, other)), ((of_make, texts), (of_other, takes))) = both(
        both(
            both(name(alloc, "makes"), name(alloc, "make")),
            both(name(alloc, "others"), name(alloc, second)),
        ),
        both(types(alloc, "String"), types(alloc, takes)),
    )?;
    let make = ExtensionFunction::new(make, style, first, Some(of_make), texts);
    let other = ExtensionFunction::new(other, style, last, Some(of_other), takes);
    let (make, other) = shared_out(alloc, make, other, are_in_one)?;
    let makes = Extension::new(makes, make, Vec::new(alloc));
    let others = Extension::new(others, other, Vec::new(alloc));
    let all = vec![in alloc; makes, others]?;
    put_accepted(answer, all.as_slice());
    drop(all);
    Ok(())
}

// The type `T`, and this type alone in a list.
fn types(alloc: Global, takes: &str) -> Result<(Type, Vec<Type>), Unanswered> {
    let (made, taken) = both(named_type(alloc, "Extension:T"), named_type(alloc, takes))?;
    Ok((made, alone(alloc, taken)?))
}

// Two lists, of one each, or of both and of none.
fn shared_out<T: Drop>(
    alloc: Global,
    first: T,
    second: T,
    are_in_one: bool,
) -> Result<(Vec<T>, Vec<T>), Unanswered> {
    let mut list: Vec<T> = Vec::new(alloc);
    let mut other: Vec<T> = Vec::new(alloc);
    add(&mut list, first)?;
    if are_in_one {
        add(&mut list, second)?;
    } else {
        add(&mut other, second)?;
    }
    Ok((list, other))
}

// A list of this alone.
fn alone<T: Drop>(alloc: Global, item: T) -> Result<Vec<T>, Unanswered> {
    let mut list: Vec<T> = Vec::new(alloc);
    add(&mut list, item)?;
    Ok(list)
}

fn put_accepted(answer: &mut Answer, all: &[Extension]) {
    match Extensions::specific_extensions(answer.alloc, all) {
        Ok(_) => answer.put("accepted"),
        Err(ExtensionInitializationError::Memory(_)) => answer.lack_memory(),
        Err(error) => {
            answer.show(&error);
            drop(error);
        }
    }
}

/// How many pairs of these keys there are in a map, or which key is a duplicate.
pub fn ask_collected(answer: &mut Answer, keys: &str) {
    match pairs(answer.alloc, keys) {
        Ok(pairs) => put_collected(answer, pairs),
        Err(_) => answer.lack_memory(),
    }
}

fn put_collected(answer: &mut Answer, pairs: Vec<(RcStr, usize)>) {
    match collect_no_duplicates(answer.alloc, pairs.into_iter()) {
        Ok(map) => {
            answer.show(&map.len());
            answer.put(" pairs");
        }
        Err(CollectError::Duplicate(key)) => {
            answer.show(&key);
            answer.put(" comes again");
        }
        Err(CollectError::Memory(_)) => answer.lack_memory(),
    }
}

// These keys, each with how many stand before it.
fn pairs(alloc: Global, keys: &str) -> Result<Vec<(RcStr, usize)>, AllocError> {
    let mut pairs: Vec<(RcStr, usize)> = Vec::new(alloc);
    for key in keys.split(' ') {
        let before = pairs.len();
        pair(&mut pairs, RcStr::from_str(alloc, key)?, before)?;
    }
    Ok(pairs)
}
