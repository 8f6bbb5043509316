#![tactic(auto, using(cedar_policy_json_reader::proofs::Refused::refusals))]
//! In which form links are written, and refusals of their parts.
ghost use Rattle.std.specs.Prelude.{[], ◌∷◌};
ghost use Rattle.cedar_policy_json_reader.specs.Paths.{at_key};
ghost use Rattle.cedar_policy_json_reader.specs.Refusals.{IsRefusedAt, IsUnder};
ghost use Rattle.cedar_policy_json_reader.specs.declared.errors.RefusalReason.TheVariants as reasons;
ghost use Rattle.cedar_template_links.specs.Links as links;

use cedar_policy_json_reader::{PolicyJsonError, RefusalReason};
use std::alloc::Global;

/// In which form links are written: where their parts stand.
#[derive(Clone, Copy, Debug, Drop)]
pub enum LinkForm {
    /// In a set's JSON: `templateId`, `newId` and `values`.
    Set,
    /// In a file of links: `template_id`, `link_id` and `args`.
    File,
}

/// The refusal of a link of which there is no template.
#[cold]
pub(crate) fn no_template(alloc: Global, form: LinkForm) -> PolicyJsonError
    ensures { IsRefusedAt (at_key (links.template_key form) ∷ []) reasons.NoSuchTemplate result }
{
    let reason = RefusalReason::NoSuchTemplate;
    match form {
        LinkForm::Set => PolicyJsonError::refusal_at(alloc, "templateId", reason),
        LinkForm::File => PolicyJsonError::refusal_at(alloc, "template_id", reason),
    }
}

/// The refusal of a link whose new id is another's.
#[cold]
pub(crate) fn taken_id(alloc: Global, form: LinkForm) -> PolicyJsonError
    ensures { IsRefusedAt (at_key (links.id_key form) ∷ []) reasons.TakenId result }
{
    let reason = RefusalReason::TakenId;
    match form {
        LinkForm::Set => PolicyJsonError::refusal_at(alloc, "newId", reason),
        LinkForm::File => PolicyJsonError::refusal_at(alloc, "link_id", reason),
    }
}

/// The same error, of the values of a link.
#[cold]
pub(crate) fn under_values(alloc: Global, form: LinkForm, error: PolicyJsonError) -> PolicyJsonError
    ensures { IsUnder (at_key (links.values_key form)) error result }
{
    match form {
        LinkForm::Set => error.under_key(alloc, "values"),
        LinkForm::File => error.under_key(alloc, "args"),
    }
}
