//! How requests are taken.
use cedar_endpoints::Bounds;

/// Of which entities an evaluation's properties are taken, as attributes. Properties without a member are none.
#[derive(Clone, Copy)]
pub enum RequestProperties {
    /// Of none.
    None,
    /// Of entities that are not stored.
    Unstored,
    /// Of all; those of a stored entity stand beside its own, and one of the name of a stored attribute is refused.
    Beside,
    /// Of all; they stand instead of stored attributes of their names.
    Win,
}

impl RequestProperties {
    ghost use Rattle.std.specs.Prelude.{◌≡◌};
    ghost use Rattle.cedar_service.specs.Ways.{wins};

    /// Whether they stand instead of stored attributes of their names.
    pub(crate) fn wins(self) -> bool
        ensures { result ≡ wins self }
    {
        match self {
            RequestProperties::None => false,
            RequestProperties::Unstored => false,
            RequestProperties::Beside => false,
            RequestProperties::Win => true,
        }
    }
}

/// Whether a request of Cedar's own may bring entities. An empty array of them is none.
#[derive(Clone, Copy)]
pub enum RequestEntities {
    /// It may bring none: what decides is the stored ones alone.
    None,
    /// It may bring some, beside the stored ones.
    Allowed,
}

/// How requests are taken: what they say beside names, how much of it, and what the names of evaluations stand for.
#[derive(Clone, Copy)]
pub struct Ways<'t> {
    /// Of which entities the properties of an evaluation are taken.
    pub properties: RequestProperties,
    /// Whether entities are taken.
    pub entities: RequestEntities,
    /// How much is taken, and looked at.
    pub bounds: Bounds,
    /// The type of the actions, which an evaluation names by their ids alone: a name, as `Action`.
    pub action_type: &'t str,
}
