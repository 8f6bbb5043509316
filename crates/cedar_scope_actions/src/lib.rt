//! The actions that the scopes of policies name, and the candidates of searches.
//!
//! - `named`: the actions of a set of policies (`named_actions`). `listed`: these and the entities of a store
//!   (`candidates`).
//!
//! A search for actions goes over these too: an action that no entity of the store describes can still be permitted.
//! A scope asks for actions by `==`, and by `in` beside one or beside a list; what a condition says of actions isn't
//! looked at, for any action may meet it.
//!
//! The promise: what is answered are exactly the actions that a scope asks for, by a definition on plain data
//! (`is_named_action` in `specs/Named.antt`), and exactly these and the stored ones (clause `has` of `candidates`), each
//! once (`once`).
#![tactic(auto)]

mod listed;
mod named;

pub use listed::candidates;
pub use named::named_actions;
