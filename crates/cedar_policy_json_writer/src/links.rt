//! Links of templates.
use cedar_layers::policies::PolicyID;
use cedar_names::SlotEnv;

/// That a template is linked: with these entities in its slots it is the policy of the new id.
#[derive(Drop)]
pub struct TemplateLink {
    /// The id of the template.
    pub template_id: PolicyID,
    /// The id of the policy that it is linked to.
    pub new_id: PolicyID,
    /// The entities of its slots.
    pub values: SlotEnv,
}
