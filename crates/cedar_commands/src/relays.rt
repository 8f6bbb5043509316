//! Answers that are saved as a line of JSON, and lines that are taken further.
use crate::files::Texts;
use crate::links::write_in_place;
use crate::run::{max_ancestors, read_question, way};
use cedar_cli::{Asked, Printed, Refusal, Step, Way, refuse_with_line};
use cedar_cli_relays::{Saved, partially_authorize_and_save, resume};
use cedar_policy_core::ast::{Extension, ExtensionFunction, Name};
use cedar_policy_core::extensions::Extensions;
use clap::ArgMatches;
use std::alloc::Global;
use std::rc::RcStr;
use std::rt::Files;

/// Whether the answer of this command is saved, or a line is taken further.
pub(crate) fn is_relayed(name: &str, matches: &ArgMatches<'_>) -> bool {
    name == "partially-authorize"
        && (matches.get_str("save").is_some() || matches.get_str("resume").is_some())
}

/// Prints what is known of the decision, and writes the line of it to the file that is named, if one is.
pub(crate) fn relay<R: Files + Input + AllocGlobal>(
    rt: &R,
    matches: &ArgMatches<'_>,
) -> Result<Printed, Refusal> {
    refuse_input_as_line(rt.alloc(), matches)?;
    let texts = Texts::read(rt, matches)?;
    let saved = answered(rt.alloc(), matches, &texts);
    drop(texts);
    let Saved { printed, line } = saved?;
    let written = write_in_place(rt, matches.get_str("save"), line.as_str());
    drop(line);
    match written {
        Ok(()) => Ok(printed),
        Err(refusal) => {
            drop(printed);
            Err(refusal)
        }
    }
}

// Standard input can't be written.
fn refuse_input_as_line(alloc: Global, matches: &ArgMatches<'_>) -> Result<(), Refusal> {
    if matches.get_str("save") == Some("-") {
        let line = String::from_str(
            alloc,
            "`-` is standard input: the line is written to a file",
        );
        Err(refuse_with_line(alloc, line))
    } else {
        Ok(())
    }
}

fn answered(alloc: Global, matches: &ArgMatches<'_>, texts: &Texts) -> Result<Saved, Refusal> {
    let asked = read_question(matches, texts);
    let steps = texts.steps(
        alloc,
        matches.get_flag("partial-step"),
        max_ancestors(matches),
    )?;
    let saved = with_unknown(alloc, texts, &asked, &steps, way(matches));
    drop(steps);
    saved
}

// The functions are the standard ones and `unknown`.
fn with_unknown(
    alloc: Global,
    texts: &Texts,
    asked: &Asked<'_, '_>,
    steps: &[Step<'_>],
    way: Way,
) -> Result<Saved, Refusal> {
    let name = Name::new(RcStr::from_str(alloc, "partial_evaluation")?, None);
    let functions = vec![in alloc; ExtensionFunction::unknown(alloc)?]?;
    let all = vec![in alloc; Extension::new(name, functions, Vec::new(alloc))]?;
    match Extensions::with_standard(alloc, all.as_slice()) {
        Ok(extensions) => saved_with(alloc, &extensions, texts, asked, steps, way),
        Err(_) => Err(Refusal::Memory),
    }
}

fn saved_with(
    alloc: Global,
    extensions: &Extensions<'_>,
    texts: &Texts,
    asked: &Asked<'_, '_>,
    steps: &[Step<'_>],
    way: Way,
) -> Result<Saved, Refusal> {
    match texts.line() {
        Some(line) => resume(alloc, extensions, line, asked, steps, way),
        None => {
            partially_authorize_and_save(alloc, extensions, texts.policies(), asked, steps, way)
        }
    }
}
