//! The engine behind a service that decides: Cedar's policies and entities, which are read once from texts, and what
//! they decide of each request that AuthZEN's JSON or Cedar's own asks.
//!
//! - `engine`: `Engine`, and why none is made of two texts. `deciding`: what an engine answers, as `cedar_endpoints`
//!   asks it.
//! - `ways`: how requests are taken. `requests`, `names`, `contexts`: the request that is asked. `responses`: the decision, and its response as JSON.
//! - `searching`: what a search finds. `opened`: the request in which a part is searched for. `found`: what is found, as
//!   JSON. `versions`: the version of what is decided and found.
//! - `partials`, `leaving`: the request of which parts may be unknown, and what is left of the policies for it.
//! - `properties`, `brought`: attributes and entities that a request brings, over those that are stored. `documents`: the
//!   JSON of a request, and texts of its parts.
//! - `loaded`: an engine with its texts, of which one can be replaced. `reasons`: what is wrong with policies.
//! - `faults`: why there is no decision. `serving`: one connection.
//!
//! The promise: an engine has the policies and the entities that its texts say (`IsEngineOf` in `specs/Started`), or
//! the text that is wrong is named with its reader's own errors (`IsNotStarted`). What it decides of a request is the
//! decision that the policies have over the entities, by the rules of evaluation and by what they mean (`IsDecided`,
//! `IsAuthorized` in `specs/Decided`, over `IsResponseTo`), of the very request that is asked (`IsAsked`, `IsSaid` in
//! `specs/Asked`). What it finds is the page of those candidates with which the request is allowed (`IsFound` in
//! `specs/Searched`, over `cedar_search`). All else is a refusal with the path of what is wrong, and no decision. Over a
//! connection each request is answered by what is due to it alone (`AreAnswered` in `specs/Serving`), and what is sent is
//! these answers.
#![tactic(auto)]

mod brought;
mod contexts;
mod deciding;
mod documents;
mod engine;
mod faults;
mod found;
mod leaving;
mod loaded;
mod names;
mod opened;
mod partials;
mod properties;
mod reasons;
mod requests;
mod responses;
mod searching;
mod serving;
mod versions;
mod ways;

pub use engine::{Engine, NotStarted};
pub use loaded::Loaded;
pub use reasons::policies_reason;
pub use serving::serve_decisions;
pub use ways::{RequestEntities, RequestProperties, Ways};
