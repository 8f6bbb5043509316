//! What is asked.
use cedar_policy_core::authorizer::ErrorHandling;

/// A text, and the name of what it stands in.
#[derive(Clone, Copy)]
pub struct Source<'a> {
    pub name: &'a str,
    pub text: &'a str,
}

/// What is said of a request and of the entities: each entity in Cedar's text, the rest in Cedar's JSON.
#[derive(Clone, Copy)]
pub struct Asked<'m, 't> {
    pub principal: Option<&'m str>,
    /// The name of the principal's type, where the principal is not known.
    pub principal_type: Option<&'m str>,
    pub action: Option<&'m str>,
    pub resource: Option<&'m str>,
    /// The name of the resource's type, where the resource is not known.
    pub resource_type: Option<&'m str>,
    pub context: Option<Source<'t>>,
    /// The whole request, instead of its parts.
    pub request: Option<Source<'t>>,
    /// The entities. Their parents are closed to all ancestors.
    pub entities: Option<Source<'t>>,
    /// Whether there may be more entities than those. Then an entity is left out where parents lead from it to one that
    /// is not among them: what it is in is not known.
    pub is_partial: bool,
    /// How many ancestors the entities have in all at most; where that is not said, `ANCESTORS`.
    pub max_ancestors: Option<usize>,
}

/// A step that a partial answer is taken further by.
#[derive(Clone, Copy)]
pub struct Step<'t> {
    /// Values for unknowns: an object in JSON.
    pub values: Source<'t>,
    /// The entities that there are then, instead of those before.
    pub entities: Option<Source<'t>>,
    /// Whether there may be more entities than those.
    pub is_partial: bool,
    /// How many ancestors they have in all at most; where that is not said, `ANCESTORS`.
    pub max_ancestors: Option<usize>,
}

/// In which way it is answered.
#[derive(Clone, Copy)]
pub struct Way {
    /// How policies that err are handled.
    pub error_handling: ErrorHandling,
    /// How many levels deep is evaluated; where that is not said, as many as what is read and given can need.
    pub limit: Option<usize>,
    /// Whether the reasons are printed too.
    pub is_verbose: bool,
    /// Whether the whole answer is printed as one JSON value.
    pub is_json: bool,
}
