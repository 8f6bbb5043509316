//! A decision, and the rules by which it comes about.
ghost use Rattle.std.specs.Prelude.{◌≡◌, ◌&&◌, ◌||◌, cond, not, Some, option_map};
ghost use Rattle.cedar_model.specs.Policies.{allow, deny};
ghost use Rattle.cedar_decisions.specs.Decisions.{decision_view, decision_text, known_decision, mode_view, forbids};
ghost use Rattle.cedar_decisions.specs.declared.decision.ErrorHandling.TheVariants as modes;

use std::fmt;

/// Whether the request is allowed.
#[derive(Debug, Clone, Copy, PartialEq, Eq)]
pub enum Decision {
    /// Some permit is satisfied and no forbid is.
    Allow,
    /// Each other case.
    Deny,
}

/// `Allow` or `Deny`.
impl fmt::Display for Decision {
    ghost output = { λ d. Some (decision_text d) };

    fn fmt<W: fmt::Write>(&self, f: &mut fmt::Formatter<W>) -> fmt::Result {
        match self {
            Decision::Allow => f.write_str("Allow"),
            Decision::Deny => f.write_str("Deny"),
        }
    }
}

/// How the errors of policies are handled.
#[derive(Debug, Clone, Copy, PartialEq, Eq)]
pub enum ErrorHandling {
    /// A policy that errs is skipped: it neither permits nor forbids.
    Skip,
    /// A permit that errs is skipped, and a forbid that errs forbids.
    ForbidOnError,
}

/// `Skip`.
impl Default for ErrorHandling {
    fn default() -> ErrorHandling
        ensures { result ≡ modes.Skip }
    {
        ErrorHandling::Skip
    }
}

/// The decision, where it is known, by whether there are such policies: `Deny` with a satisfied forbid, or where no
/// permit is satisfied or residual; else none beside a residual forbid; else `Allow` with a satisfied permit; else
/// none.
pub fn decide(
    true_permit: bool,
    residual_permit: bool,
    true_forbid: bool,
    residual_forbid: bool,
) -> Option<Decision>
    ensures { option_map decision_view result ≡ known_decision true_permit residual_permit true_forbid residual_forbid }
{
    match (true_forbid, true_permit, residual_permit, residual_forbid) {
        (true, _, _, _) => Some(Decision::Deny),
        (false, false, false, _) => Some(Decision::Deny),
        (false, true, _, true) => None,
        (false, false, true, true) => None,
        (false, false, true, false) => None,
        (false, true, _, false) => Some(Decision::Allow),
    }
}

/// The decision where all that is left counts as an error: `Allow` where a permit is satisfied and no forbid is, and
/// else `Deny`; where a forbid that errs forbids, a residual forbid denies too.
pub fn decide_concretely(
    mode: ErrorHandling,
    true_permit: bool,
    true_forbid: bool,
    residual_forbid: bool,
) -> Decision
    ensures { decision_view result
        ≡ cond (true_permit && not (forbids (mode_view mode) true_forbid residual_forbid)) allow deny }
{
    if true_permit && !forbids(mode, true_forbid, residual_forbid) {
        Decision::Allow
    } else {
        Decision::Deny
    }
}

/// Whether something forbids where all that is left counts as an error: a satisfied forbid and, where a forbid that
/// errs forbids, a residual one.
pub fn forbids(mode: ErrorHandling, true_forbid: bool, residual_forbid: bool) -> bool
    ensures { result ≡ forbids (mode_view mode) true_forbid residual_forbid }
{
    match mode {
        ErrorHandling::Skip => true_forbid,
        ErrorHandling::ForbidOnError => true_forbid || residual_forbid,
    }
}
