//! What is permitted: the principals, resources or actions with which a request is allowed.
//!
//! - `searches`: a search (`Search`): a request, which of its parts is searched for (`Part`), and the candidates; all
//!   that are permitted. `pages`: the same page by page (`Page`).
//! - `asking`: whether one candidate is permitted: it is asked whole. `requests`: the request with the candidate in it.
//! - `laws`: what an answer says where nothing else is unknown, and that pages together are the list.
//!
//! The promise: an answer has exactly those candidates that the part can be and with which the whole request is allowed,
//! each once and in order (clause `permitted`, `AreThePermitted` in `specs/Found.antt`). Where nothing else is unknown
//! these are the ones that the definition of a decision allows (clause `known`, `AreThoseMeant`).
#![tactic(auto)]

mod asking;
pub mod laws;
mod pages;
mod requests;
mod searches;

pub use pages::Page;
pub use searches::{Part, Search};
