//! Links of templates: read from JSON, and the policies that they make.
//!
//! A link names a template by its id, gives a new id, and has an entity for each slot of the template. In the JSON of a
//! set it is `{"templateId": .., "newId": .., "values": {"?principal": {"type": .., "id": ..}}}`, in a file of links, as
//! Cedar's command line has it, `{"template_id": .., "link_id": .., "args": {"?principal": "User::\"alice\""}}`; both stand
//! in an array. The policy of a link is its template under the new id, with the entities in its slots (`linked` of
//! `cedar_layers`). Each slot is filled, and no other; the new id is that of no policy, template or link before.
//!
//! - `links`: a link. `forms`: where its parts stand in the two forms. `parts`: the members of a link, and its values.
//!   `reading`: links of a set. `files`: links of a file, whose entities are texts, and one of arguments. `templates`: which
//!   slots a template has, and which ids are taken. `linking`: `link_all` and `link_one`, the policies.
//!
//! The promise: links are read exactly as the JSON says (`links_said` in `specs/Links.antt`; of a file `all_written` in
//! `specs/LinkFiles.antt`, and the entities that its texts are), and the policies are exactly those that the links make
//! (`links_made` in `specs/Linking.antt`), or the refusal is the one that is due first, with the way to that part.
#![tactic(auto)]

mod files;
mod forms;
mod linking;
mod links;
mod parts;
mod reading;
mod templates;

pub use files::{link_from_arguments, links_from_file_json};
pub use forms::LinkForm;
pub use linking::{link_all, link_one};
pub use links::Link;
pub use reading::links_from_json;
pub use templates::has_id;
