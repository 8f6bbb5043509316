//! Requests: three entries and a context, each of which may be unknown.
ghost use Rattle.std.specs.Prelude.{◌≡◌, Some, option_copied};

mod copies;
mod texts;
mod types;
mod values;

use crate::context::Context;
use crate::entry::EntityUIDEntry;
use cedar_names::{EntityUID, Loc};
use std::marker::Model;
pub use types::RequestType;

/// A request: who asks to do what with what, and in which context. Each of the four may be unknown.
#[derive(Debug, Drop)]
pub struct Request {
    principal: EntityUIDEntry,
    action: EntityUIDEntry,
    resource: EntityUIDEntry,
    context: Option<Context>,
}

impl Model for Request {
    ghost use Rattle.std.specs.Coded.{codes};
    ghost use Rattle.cedar_requests.specs.RequestFields.{RequestFields};
    ghost use Rattle.cedar_requests.specs.contracts.context.Context as contexts;

    ghost Value = { RequestFields };

    ghost coded = { Prim.hlevel (codes, contexts.the_row.coded) };

    ghost view = { λ a. record {
      principal = a.principal;
      action = a.action;
      resource = a.resource;
      context = a.context;
    } };

    ghost inverse = { λ a. record {
      principal = a.principal;
      action = a.action;
      resource = a.resource;
      context = a.context;
    } };
}

impl Request {
    ghost use Rattle.cedar_model.specs.Settings.{known_entry};
    ghost use Rattle.cedar_names.specs.Names.{uid_name, uid_loc};
    ghost use Rattle.cedar_requests.specs.declared.entry.EntityUIDEntry.TheVariants.{Known};
    ghost use Rattle.cedar_requests.specs.Requests.{entry_view, context_given, request_view, request_parts};
    ghost use Rattle.cedar_requests.specs.Contexts.{context_view};

    /// The request of these entities, each named at its location, in this context.
    pub fn new(
        principal: (EntityUID, Option<Loc>),
        action: (EntityUID, Option<Loc>),
        resource: (EntityUID, Option<Loc>),
        context: Context,
    ) -> Request
        ensures view { request_view result ≡ record {
          principal_entry = known_entry (uid_name principal.0);
          action_entry = known_entry (uid_name action.0);
          resource_entry = known_entry (uid_name resource.0);
          context_part = context_view context;
        } }
        ensures parts { request_parts result ≡
            (Known principal.0 principal.1, Known action.0 action.1, Known resource.0 resource.1, Some context) }
    {
        Request {
            principal: EntityUIDEntry::known(principal.0, principal.1),
            action: EntityUIDEntry::known(action.0, action.1),
            resource: EntityUIDEntry::known(resource.0, resource.1),
            context: Some(context),
        }
    }

    /// The request of these entities, each named where its uid is, in this context. It takes no memory.
    pub fn of(
        principal: EntityUID,
        action: EntityUID,
        resource: EntityUID,
        context: Context,
    ) -> Request
        ensures view { request_view result ≡ record {
          principal_entry = known_entry (uid_name principal);
          action_entry = known_entry (uid_name action);
          resource_entry = known_entry (uid_name resource);
          context_part = context_view context;
        } }
        ensures parts { request_parts result ≡ (
          Known principal (uid_loc principal),
          Known action (uid_loc action),
          Known resource (uid_loc resource),
          Some context,
        ) }
    {
        Request {
            principal: EntityUIDEntry::from(principal),
            action: EntityUIDEntry::from(action),
            resource: EntityUIDEntry::from(resource),
            context: Some(context),
        }
    }

    /// The request of these entries, known or not, in this context or in one that is not known.
    pub fn new_with_unknowns(
        principal: EntityUIDEntry,
        action: EntityUIDEntry,
        resource: EntityUIDEntry,
        context: Option<Context>,
    ) -> Request
        ensures view { request_view result ≡ record {
          principal_entry = entry_view principal;
          action_entry = entry_view action;
          resource_entry = entry_view resource;
          context_part = context_given context;
        } }
        ensures parts { request_parts result ≡ (principal, action, resource, context) }
    {
        Request {
            principal,
            action,
            resource,
            context,
        }
    }

    /// The same as `new_with_unknowns`: no request is checked against a schema.
    pub fn new_unchecked(
        principal: EntityUIDEntry,
        action: EntityUIDEntry,
        resource: EntityUIDEntry,
        context: Option<Context>,
    ) -> Request
        ensures view { request_view result ≡ record {
          principal_entry = entry_view principal;
          action_entry = entry_view action;
          resource_entry = entry_view resource;
          context_part = context_given context;
        } }
        ensures parts { request_parts result ≡ (principal, action, resource, context) }
    {
        Request::new_with_unknowns(principal, action, resource, context)
    }

    /// Who asks.
    pub fn principal(&self) -> &EntityUIDEntry
        ensures view { entry_view result.now ≡ (request_view self.now).principal_entry }
        ensures entry { result.now ≡ (request_parts self.now).0 }
    {
        &self.principal
    }

    /// What is to be done.
    pub fn action(&self) -> &EntityUIDEntry
        ensures view { entry_view result.now ≡ (request_view self.now).action_entry }
        ensures entry { result.now ≡ (request_parts self.now).1 }
    {
        &self.action
    }

    /// What it is to be done with.
    pub fn resource(&self) -> &EntityUIDEntry
        ensures view { entry_view result.now ≡ (request_view self.now).resource_entry }
        ensures entry { result.now ≡ (request_parts self.now).2 }
    {
        &self.resource
    }

    /// The context: `None` where it is not known.
    pub fn context(&self) -> Option<&Context>
        ensures view { context_given (option_copied result) ≡ (request_view self.now).context_part }
        ensures whole { option_copied result ≡ (request_parts self.now).3 }
    {
        self.context.as_ref()
    }

    /// The request's parts: who asks, what is to be done, what with, and the context, if that is known.
    pub fn into_parts(
        self,
    ) -> (
        EntityUIDEntry,
        EntityUIDEntry,
        EntityUIDEntry,
        Option<Context>,
    )
        ensures view { record {
          principal_entry = entry_view result.0;
          action_entry = entry_view result.1;
          resource_entry = entry_view result.2;
          context_part = context_given result.3;
        } ≡ request_view self }
        ensures parts { result ≡ request_parts self }
    {
        let Request {
            principal,
            action,
            resource,
            context,
        } = self;
        (principal, action, resource, context)
    }
}
