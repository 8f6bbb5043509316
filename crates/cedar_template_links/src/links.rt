//! Links of templates.
use cedar_layers::policies::PolicyID;
use cedar_names::EntityUID;

/// A template that is linked: with these entities in its slots it is the policy of the new id.
#[derive(Debug, Drop)]
pub struct Link {
    /// The id of the template.
    pub template_id: PolicyID,
    /// The id of the policy.
    pub new_id: PolicyID,
    /// What stands for `?principal`.
    pub principal: Option<EntityUID>,
    /// What stands for `?resource`.
    pub resource: Option<EntityUID>,
}
