//! Policies of Cedar's text and the links of its templates, as one text that decides by them.
//!
//! In a text a policy or a template is called by its annotation `id`, or else `policy0`, `policy1` and so on, by its place.
//! A file of links names templates by these names, and gives new ones (`cedar_template_links`). So that each is named
//! once, no two policies, templates or links of a text that is linked have one name.
//!
//! - `texts`: `linked_to_text`. `adding`: `add_link`, a link behind those of a file. `linking`: policies and those of
//!   links. `named`: policies under their names. `lists`, `written`: files of links, read and written. `errors`: why there is
//!   no text.
//!
//! The promise: the text is one that Cedar's reader reads as the policies of the text that was given, under their names,
//! and the policies that the links make of its templates, with their entities in place of slots and their new ids for names
//! (`IsLinkedText`, `specs/LinkedTexts.antt`, over `links_made` of `cedar_template_links` and `ReadsBack` of
//! `cedar_policy_json_text`). It is refused for the reasons of `IsUnlinked` alone. What stands in a file to which a link was
//! added is tested.
#![tactic(auto)]

mod adding;
mod errors;
mod linking;
mod lists;
mod named;
mod texts;
mod written;

pub use adding::{AddedLink, NewLink, add_link};
pub use errors::LinkedTextError;
pub use texts::linked_to_text;
