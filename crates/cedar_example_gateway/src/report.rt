//! What is printed of a response: the decision, the bounds, and what is still asked.
use crate::stop::Stop;
use cedar_policy_core::ast::Unknowns;
use cedar_policy_core::authorizer::{PartialResponse, ReportedPolicies};
use std::alloc::Global;
use std::io;

/// A line of it.
pub fn print_known<R: AllocGlobal + Print>(
    rt: &R,
    stage: &str,
    response: &PartialResponse,
) -> Result<(), Stop> {
    let alloc = rt.alloc();
    match response.decision() {
        Some(decision) => println!(rt; "  {stage} decides: {decision}")?,
        None => println!(rt; "  {stage} does not decide")?,
    }
    let must = ids(alloc, response.must_be_determining())?;
    let may = ids(alloc, response.may_be_determining())?;
    println!(rt;
        "    determined by: {} at least; by no other than: {}",
        must.as_str(),
        may.as_str()
    )?;
    let asks = asks(alloc, response)?;
    println!(rt; "    asks: {}", asks.as_str())?;
    Ok(())
}

fn ids(alloc: Global, policies: ReportedPolicies<'_>) -> Result<String, Stop> {
    let mut text = String::new(alloc);
    for policy in policies {
        let policy = policy?;
        let id = policy.id().to_string(alloc)?;
        add(&mut text, id.as_str())?;
    }
    if text.is_empty() {
        text.push_str("none")?;
    }
    Ok(text)
}

// The unknowns with their types, and the entities that stores lacked.
fn asks(alloc: Global, response: &PartialResponse) -> Result<String, Stop> {
    let mut text = String::new(alloc);
    for unknown in response.unknowns(alloc)?.as_slice() {
        let name = match &unknown.type_annotation {
            Some(ty) => format!(in alloc; "{}: {ty}", unknown.name)?,
            None => unknown.name.to_string(alloc)?,
        };
        add(&mut text, name.as_str())?;
    }
    for uid in response.unknown_entities(alloc)?.as_slice() {
        let name = uid.to_string(alloc)?;
        add(&mut text, name.as_str())?;
    }
    if text.is_empty() {
        text.push_str("nothing")?;
    }
    Ok(text)
}

fn add(text: &mut String, more: &str) -> Result<(), Stop> {
    if !text.is_empty() {
        text.push_str(", ")?;
    }
    text.push_str(more)?;
    Ok(())
}
