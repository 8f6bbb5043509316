//! A gateway in three stages. The edge knows who asks to do what, and the people; the regional gateway which chart it
//! is, and the charts of one ward; the backend the context, and all entities. Each stage prints what it knows of the
//! decision and the line that it hands on, and the next stage reads that line and nothing else.
//!
//! - `asked`: the requests, and what each stage brings. `stages`: the stages. `report`: what is printed of a response.
//!   `stop`: why the gateway stops.
//!
//! The last decision is compared with that of the whole request at once, over all entities. Nobody signs the lines here;
//! a real gateway does, since whoever can write a line can leave a forbid out of it.
//!
//! There is no clause of its own: what holds of the stages is what `Staged`, `Resumed`, `whole_response_to_json` and its
//! reader promise.
#![tactic(auto)]

mod asked;
mod report;
mod stages;
mod stop;

use asked::{Asked, REQUESTS, whole};
use cedar_policy_core::ast::PolicySet;
use cedar_policy_core::authorizer::Authorizer;
use cedar_policy_core::entities::json::entities_from_json_str;
use cedar_policy_core::entities::{Entities, close_hierarchy, close_hierarchy_partially};
use cedar_policy_core::extensions::Extensions;
use cedar_policy_core::parser::{Functions, parse_policies};
use stages::{Stage, backend, edge, region};
use std::alloc::Global;
use std::process::ExitCode;
use std::rt::Files;
use std::{fs, io};
use stop::Stop;

/// How many levels deep is read and evaluated.
pub const LEVELS: usize = 100;

fn main(rt: HostRuntime) -> ExitCode {
    match run(&rt) {
        Ok(()) => ExitCode::from(0),
        Err(stop) => {
            drop(rt.eprint(stop.told()));
            ExitCode::from(1)
        }
    }
}

fn run<R: Files + AllocGlobal + Print>(rt: &R) -> Result<(), Stop> {
    let alloc = rt.alloc();
    let extensions = Extensions::all_available();
    let functions = Functions::of(alloc, &extensions)?;
    let text = fs::read_to_string(rt, "clinic.cedar")?;
    let parsed = match parse_policies(alloc, text.as_str(), LEVELS, &functions) {
        Ok(parsed) => parsed,
        Err(_) => return Err(Stop::Policies),
    };
    let people = store(rt, "people.json", true, &extensions)?;
    let north = store(rt, "north.json", true, &extensions)?;
    let all = store(rt, "clinic.json", false, &extensions)?;
    for asked in REQUESTS {
        println!(rt; "{} {} {}", asked.principal, asked.action, asked.resource)?;
        let at_edge = Stage {
            extensions: &extensions,
            functions: &functions,
            store: &people,
        };
        let at_region = Stage {
            extensions: &extensions,
            functions: &functions,
            store: &north,
        };
        let at_backend = Stage {
            extensions: &extensions,
            functions: &functions,
            store: &all,
        };
        decide(
            rt,
            &parsed.policies,
            &asked,
            &at_edge,
            &at_region,
            &at_backend,
        )?;
    }
    Ok(())
}

// The request, stage by stage, and whole.
fn decide<R: AllocGlobal + Print>(
    rt: &R,
    policies: &PolicySet,
    asked: &Asked,
    at_edge: &Stage<'_>,
    at_region: &Stage<'_>,
    at_backend: &Stage<'_>,
) -> Result<(), Stop> {
    let alloc = rt.alloc();
    let line = edge(rt, at_edge, policies, asked)?;
    let line = region(rt, at_region, line.as_str(), asked)?;
    let decision = backend(rt, at_backend, line.as_str(), asked)?;
    let authorizer = Authorizer::new(at_backend.extensions, LEVELS);
    let request = whole(alloc, asked)?;
    let at_once = authorizer.is_authorized(alloc, request, policies, at_backend.store)?;
    let is_same = match decision {
        Some(decision) => decision == at_once.decision,
        None => false,
    };
    println!(rt;
        "  at once: {}, {}",
        at_once.decision,
        if is_same { "the same" } else { "another" }
    )?;
    Ok(())
}

// The store of the file's entities: a partial one of those whose ancestors are known, or all there is.
fn store<R: Files + AllocGlobal>(
    rt: &R,
    name: &str,
    is_partial: bool,
    extensions: &Extensions<'_>,
) -> Result<Entities, Stop> {
    let text = fs::read_to_string(rt, name)?;
    let alloc: Global = rt.alloc();
    let entities = match entities_from_json_str(alloc, text.as_str(), extensions, LEVELS) {
        Ok(entities) => entities,
        Err(_) => return Err(Stop::Entities),
    };
    if is_partial {
        match close_hierarchy_partially(alloc, entities) {
            Ok(closure) => {
                let entities = closure.entities;
                Ok(entities)
            }
            Err(_) => Err(Stop::Entities),
        }
    } else {
        match close_hierarchy(alloc, entities) {
            Ok(store) => Ok(store),
            Err(_) => Err(Stop::Entities),
        }
    }
}
