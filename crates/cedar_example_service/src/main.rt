//! A document service, as a caller writes it: who may do what with which document. It prints the documents, and then
//! for each request the decision, the policies that determined it, and the error of each policy that erred.
//!
//! - `policies`, `documents`, `names`: the policies, in code; the store of users and documents; names of entities and
//!   texts.
//! - `hours`: a function that policies call: whether the service is open at an hour.
//! - `requests`, `reading`, `report`: the requests, what is in a value, and what is printed. `stop`: why the service
//!   stops.
//! - `sought`: who may do something, what with, and what may be done: what is permitted, whole and page by page.
//! - `stages`: a decision in two stages, as a caller of the headline: first without who asks, then for each user.
//!
//! The promise: the stored function answers what it says (clauses `computes`, `lawful` of `is_open`; `is_open_of` in
//! `specs/Stored.antt`). `decided_in_stages` meets every premise of the headline, so that what it allows is exactly
//! the owner (`IsForOwner` in `specs/Stages.antt`).
#![tactic(auto)]

ghost use Rattle.std.specs.Prelude.{◌≡◌, true};
ghost use Rattle.cedar_policy_core.specs.Extensions.Outcomes.{ComesTo, is_lawful, abstracts};
ghost use Rattle.cedar_example_service.specs.Stored.{is_open_of};

mod documents;
mod hours;
mod names;
mod policies;
mod reading;
mod report;
mod requests;
mod sought;
mod stages;
mod stop;

use cedar_policy_core::ast::{
    CallStyle, Extension, ExtensionFunction, ExtensionFunctionObject, ExtensionOutputValue,
    PolicySet, Type, Value,
};
use cedar_policy_core::authorizer::Authorizer;
use cedar_policy_core::entities::Entities;
use cedar_policy_core::evaluator::EvaluationError;
use cedar_policy_core::extensions::Extensions;
use hours::is_open;
use names::name;
use std::alloc::Global;
use std::io;
use std::io::Write;
use std::process::ExitCode;
use stop::Stop;

/// All was printed.
pub const DONE: u8 = 0;
/// The output could not be written.
pub const NOT_WRITTEN: u8 = 1;
/// Two policies have one id.
pub const REPEATED_ID: u8 = 2;
/// Out of memory.
pub const OUT_OF_MEMORY: u8 = 3;
/// The stored functions can't be used together.
pub const WRONG_FUNCTIONS: u8 = 4;
/// A response was not taken further.
pub const STEP_REFUSED: u8 = 5;

fn main(rt: HostRuntime) -> ExitCode {
    ExitCode::from(run(rt.alloc(), &mut io::writer(&rt)))
}

/// Prints the documents and the requests, and answers the exit status: `DONE`; `NOT_WRITTEN` where the writer failed;
/// `REPEATED_ID` where two policies have one id; `OUT_OF_MEMORY` if out of memory; `WRONG_FUNCTIONS` where the
/// stored functions can't be used together; `STEP_REFUSED` where a response was not taken further.
pub fn run<W: Write>(alloc: Global, out: &mut W) -> u8 {
    match print_all(alloc, out) {
        Ok(()) => DONE,
        Err(Stop::Output) => NOT_WRITTEN,
        Err(Stop::RepeatedId) => REPEATED_ID,
        Err(Stop::Memory) => OUT_OF_MEMORY,
        Err(Stop::Functions) => WRONG_FUNCTIONS,
        Err(Stop::Step) => STEP_REFUSED,
    }
}

// The function of ours that policies call is stored here, and lent from here on; beside it stand the standard functions.
fn print_all<W: Write>(alloc: Global, out: &mut W) -> Result<(), Stop> {
    let func: ExtensionFunctionObject = Box::new(
        alloc,
        move |args: &[Value]| -> Result<ExtensionOutputValue, EvaluationError>
            ensures computes { ComesTo result (is_open_of (abstracts args.now)) }
            ensures lawful { is_lawful result ≡ true }
        { is_open(alloc, args) },
    )?;
    let is_open = ExtensionFunction::new(
        name(alloc, "isOpen")?,
        CallStyle::FunctionStyle,
        func,
        Some(Type::Bool),
        vec![in alloc; Type::Long]?,
    );
    let functions = vec![in alloc; is_open]?;
    let hours = vec![in alloc; Extension::new(name(alloc, "hours")?, functions, Vec::new(alloc))]?;
    let extensions = Extensions::with_standard(alloc, hours.as_slice())?;
    print_with(alloc, &extensions, out)
}

fn print_with<W: Write>(
    alloc: Global,
    extensions: &Extensions<'_>,
    out: &mut W,
) -> Result<(), Stop> {
    let entities = documents::store_documents(alloc)?;
    let printed = print_stored(alloc, &entities, extensions, out);
    drop(entities);
    printed
}

fn print_stored<W: Write>(
    alloc: Global,
    entities: &Entities,
    extensions: &Extensions<'_>,
    out: &mut W,
) -> Result<(), Stop> {
    let policies = policies::policies(alloc)?;
    let printed = print_lines(alloc, entities, &policies, extensions, out);
    drop(policies);
    printed
}

fn print_lines<W: Write>(
    alloc: Global,
    entities: &Entities,
    policies: &PolicySet,
    extensions: &Extensions<'_>,
    out: &mut W,
) -> Result<(), Stop> {
    for id in documents::DOCUMENTS {
        report::print_document(alloc, entities, id, out)?;
    }
    for asked in &requests::ASKED {
        report::print_request(alloc, asked, policies, entities, extensions, out)?;
    }
    for asked in &requests::STAGED {
        report::print_in_stages(alloc, asked, out)?;
    }
    print_permitted(alloc, entities, policies, extensions, out)
}

fn print_permitted<W: Write>(
    alloc: Global,
    entities: &Entities,
    policies: &PolicySet,
    extensions: &Extensions<'_>,
    out: &mut W,
) -> Result<(), Stop> {
    let authorizer = Authorizer::new(extensions, sought::LIMIT);
    for sought in &sought::SOUGHT {
        sought::print_sought(alloc, sought, policies, entities, &authorizer, out)?;
    }
    Ok(())
}
