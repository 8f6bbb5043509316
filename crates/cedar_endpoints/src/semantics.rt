//! Where several evaluations stop.
ghost use Rattle.std.specs.Prelude.{◌≡◌};
ghost use Rattle.cedar_endpoints.specs.Several.{stops};

/// Where several evaluations stop.
#[derive(Clone, Copy, Debug, PartialEq, Eq)]
pub enum Semantic {
    /// Nowhere: all are decided.
    ExecuteAll,
    /// Behind the first that is denied.
    DenyOnFirstDeny,
    /// Behind the first that is permitted.
    PermitOnFirstPermit,
}

/// Whether they stop behind one that is allowed, or is not.
pub(crate) fn stops(semantic: Semantic, is_allowed: bool) -> bool
    ensures { result ≡ stops semantic is_allowed }
{
    match semantic {
        Semantic::ExecuteAll => false,
        Semantic::DenyOnFirstDeny => !is_allowed,
        Semantic::PermitOnFirstPermit => is_allowed,
    }
}
