//! What is asked, and what each stage knows of it.
use crate::stop::Stop;
use cedar_policy_core::ast::{
    Context, EntityType, EntityUID, EntityUIDEntry, Name, Request, Value,
};
use cedar_policy_core::parser::parse_entity_uid;
use std::alloc::Global;
use std::collections::{BTreeMap, HashMap};
use std::rc::RcStr;

/// A request: who asks to do what with which chart, on duty or not, for what reason.
#[derive(Clone, Copy)]
pub struct Asked {
    /// Who asks.
    pub principal: &'static str,
    /// What is to be done.
    pub action: &'static str,
    /// With which chart.
    pub resource: &'static str,
    /// Whether whoever asks is on duty.
    pub on_duty: bool,
    /// Whether it was asked with a second factor.
    pub mfa: bool,
    /// Why.
    pub reason: &'static str,
}

/// The requests.
pub static REQUESTS: [Asked; 7] = [
    Asked {
        principal: "User::\"house\"",
        action: "Action::\"read\"",
        resource: "Chart::\"c1\"",
        on_duty: true,
        mfa: true,
        reason: "",
    },
    Asked {
        principal: "User::\"house\"",
        action: "Action::\"write\"",
        resource: "Chart::\"c2\"",
        on_duty: true,
        mfa: true,
        reason: "",
    },
    Asked {
        principal: "User::\"cuddy\"",
        action: "Action::\"write\"",
        resource: "Chart::\"c2\"",
        on_duty: true,
        mfa: true,
        reason: "court order",
    },
    Asked {
        principal: "User::\"brenda\"",
        action: "Action::\"read\"",
        resource: "Chart::\"c1\"",
        on_duty: true,
        mfa: true,
        reason: "",
    },
    Asked {
        principal: "Patient::\"p1\"",
        action: "Action::\"read\"",
        resource: "Chart::\"c1\"",
        on_duty: false,
        mfa: true,
        reason: "",
    },
    Asked {
        principal: "Patient::\"p1\"",
        action: "Action::\"write\"",
        resource: "Chart::\"c1\"",
        on_duty: false,
        mfa: true,
        reason: "",
    },
    Asked {
        principal: "User::\"house\"",
        action: "Action::\"write\"",
        resource: "Chart::\"c1\"",
        on_duty: true,
        mfa: false,
        reason: "",
    },
];

/// The entity that the text writes.
pub fn entity(alloc: Global, text: &str) -> Result<EntityUID, Stop> {
    match parse_entity_uid(alloc, text) {
        Ok(uid) => Ok(uid),
        Err(_) => Err(Stop::Entity),
    }
}

/// What the edge knows: who asks to do what, with some chart, in some context.
pub fn at_the_edge(alloc: Global, asked: &Asked) -> Result<Request, Stop> {
    let chart = EntityType::new(Name::new(RcStr::from_str(alloc, "Chart")?, None));
    let principal = entity(alloc, asked.principal)?;
    let action = entity(alloc, asked.action)?;
    Ok(Request::new_with_unknowns(
        EntityUIDEntry::known(principal, None),
        EntityUIDEntry::known(action, None),
        EntityUIDEntry::unknown_with_type(chart, None),
        None,
    ))
}

/// The whole request.
pub fn whole(alloc: Global, asked: &Asked) -> Result<Request, Stop> {
    let principal = entity(alloc, asked.principal)?;
    let action = entity(alloc, asked.action)?;
    let resource = entity(alloc, asked.resource)?;
    let context = Context::from_values(alloc, attributes(alloc, asked)?)?;
    Ok(Request::of(principal, action, resource, context))
}

/// What the regional gateway brings: which chart it is.
pub fn which_chart(alloc: Global, asked: &Asked) -> Result<HashMap<RcStr, Value>, Stop> {
    let mut values: HashMap<RcStr, Value> = HashMap::new(alloc);
    let chart = Value::entity(alloc, entity(alloc, asked.resource)?)?;
    values.insert(RcStr::from_str(alloc, "resource")?, chart)?;
    Ok(values)
}

/// The context, among these values.
pub fn which_context(
    alloc: Global,
    asked: &Asked,
    values: &mut HashMap<RcStr, Value>,
) -> Result<(), Stop> {
    let context = Value::record(alloc, attributes(alloc, asked)?, None)?;
    values.insert(RcStr::from_str(alloc, "context")?, context)?;
    Ok(())
}

fn attributes(alloc: Global, asked: &Asked) -> Result<BTreeMap<RcStr, Value>, Stop> {
    let mut values: BTreeMap<RcStr, Value> = BTreeMap::new(alloc);
    values.insert(
        RcStr::from_str(alloc, "on_duty")?,
        Value::from(asked.on_duty),
    )?;
    values.insert(RcStr::from_str(alloc, "mfa")?, Value::from(asked.mfa))?;
    values.insert(
        RcStr::from_str(alloc, "reason")?,
        Value::text(alloc, asked.reason)?,
    )?;
    Ok(values)
}
