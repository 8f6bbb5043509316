//! What looks right in policies and data, and is not: for warnings, until schemas are there.
//!
//! - `lookalikes`: records in attributes, tags and contexts that look like an entity (`lookalikes_in_entities`,
//!   `lookalikes_in_context`). Below it: `paths`, where such records stand in a value.
//! - `mentions`: the entities, types and action groups that policies name, each with its place. `knowing`: what a store
//!   has, and what a request names (`Known`). `absent`: what policies name and nothing has (`absent_names`).
//! - `keys`: texts by which each is reported once.
//!
//! The promise: what is answered are exactly these, each once, in the order of the store or of the policies, by
//! definitions on plain data (`specs/Lookalikes.antt`, `specs/Absent.antt`). A policy that names what nothing has can
//! still apply, and one that reads a look-alike may mean it: nothing here says that a decision is wrong.
//!
//! Each call goes once over what it is handed; what it looks up it finds in the order of names, so that no choice of
//! names makes that slow.
#![tactic(auto)]

mod absent;
mod keys;
mod knowing;
mod lookalikes;
mod mentions;
mod paths;

pub use absent::{Extent, absent_names};
pub use knowing::Known;
pub use lookalikes::{Lookalike, Part, lookalikes_in_context, lookalikes_in_entities};
pub use mentions::{Mention, Named};
