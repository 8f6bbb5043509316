//! What HTTP asks of a service that decides, without Cedar: which endpoint a request names, what an AuthZEN document
//! asks by the names in it, and how an answer is put into a response.
//!
//! - `routes`: which endpoint a method and a path name.
//! - `bounds`: how much a request may ask and bring.
//! - `asked`: what a document of AuthZEN's evaluation asks: who, what is to be done, with what, in which context; or
//!   the first thing that is wrong with it, and where.
//! - `searches`, `tokens`: what a document asks that searches, and the tokens of pages. `found`: what it is answered.
//! - `several`, `semantics`: what a document with several evaluations asks, and where it stops. `evaluations`: their
//!   answers.
//! - `partials`: what Cedar's own request asks, of which parts may be unknown, and what it is answered.
//! - `authorized`, `ids`: what Cedar's own request is answered, with the `id` that it has, if it has one.
//! - `decider`: what decides, as a trait. `service`: the service over HTTP that asks it.
//! - `lines`: Cedar's own requests, a line each. `reloads`: other policies and entities in place of these.
//! - `documents`: bodies as JSON. `replies`: the JSON texts that are replied. `answers`: the status, the header fields
//!   and the body that are sent.
//!
//! The promise: a route is the one that `specs/Routes` says; a document asks what `specs/Asked` says of its JSON, or is
//! refused for that reason. Of the service (`Decisions`): each request is answered by what is due to it alone
//! (`specs/Served`), with 200 and a decision only where the decider decides so, and nothing changes from one request to
//! the next; a response has the status, the fields and the body of `specs/Answers`, no other field and no other byte.
#![tactic(auto)]

mod answers;
mod asked;
mod authorized;
mod bounds;
mod decider;
mod documents;
mod evaluations;
mod found;
mod ids;
mod lines;
mod partials;
mod reloads;
mod replies;
mod routes;
mod searches;
mod semantics;
mod service;
mod several;
mod tokens;

pub use answers::Status;
pub use asked::{Evaluation, Fault, Keys, Named, Properties, read_evaluation};
pub use authorized::authorize;
pub use bounds::{Bounds, Excess, brings_entities, excess_of};
pub use decider::Decider;
pub use lines::answer_lines;
pub use partials::{Entry, Partial, read_partial};
pub use replies::{Finding, NotRemade, Outcome, Remainder, Reply, fault_json};
pub use routes::{Replaced, Route, route_of};
pub use searches::{PageSearch, Parts, Search, Sought, read_search};
pub use semantics::Semantic;
pub use service::Decisions;
