//! Policies of Cedar's JSON of policies as Cedar's text, which reads back as what the JSON says.
//!
//! The text has the static policies in the order of the JSON, then the policies of links, with their entities in place of
//! slots, and then the templates. It has no place for ids: a policy is called by its annotation `id`, or else `policy0`,
//! `policy1` and so on, in the order of the text. So a policy whose id is not the one that it would have there has its id
//! for an annotation `id`; one that has another annotation `id` is refused, so that no name is lost. An annotation `id`
//! that is the id or the name of another policy or template is refused too, so that no name is that of another. The policy
//! of a link has the annotations of its template but `id`, which names the template.
//!
//! - `texts`: `policies_to_text`, of a JSON text, and `set_to_text`, of a set. `linked`: sets without the templates that
//!   have links. `names`: how policies are called; `paths`: where a name is refused. `writing`: the text. `reading_back`:
//!   the text is read, and compared with the set. `kept`: whether a policy is kept. `placing`: entities in place of slots.
//!   `laws`: that a policy means the same with these. `errors`: why there is no text.
//!
//! The promise: the text is one that Cedar's reader reads as policies which say the same as those of the set, linked ones
//! with their entities in place of slots, in their order and under their names (`IsTextOf`, `specs/Kept.antt`, over
//! `specs/Placed.antt`, `specs/Names.antt`, `policy_set_said` of `cedar_policy_set_reader` and `AreAllRead` of
//! `cedar_text_parser`). It rests on nothing that the writing promises, since each text is read back: a policy without such
//! a text is refused. JSON that can't be read is refused as the reader of JSON refuses it, and a name of another only where
//! it is one (`IsUntold`).
#![tactic(auto)]

mod errors;
mod kept;
mod laws;
mod linked;
mod names;
mod paths;
mod placing;
mod reading_back;
mod texts;
mod writing;

pub use errors::PolicyTextError;
pub use kept::annotated_id;
pub use laws::{nothing_is_placed_without_values, placed_policies_mean_the_same};
pub use linked::without_linked_templates;
pub use texts::{deciding_policies_to_text, deciding_set_to_text, policies_to_text, set_to_text};
