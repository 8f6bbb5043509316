#![tactic(auto, using(crate::proofs::Levels::levels))]
//! What parts are read with.
ghost use Rattle.std.specs.Prelude.{◌≡◌, ◌<◌, ◌-◌};
ghost use Rattle.json.specs.Json.{Json};
ghost use Rattle.cedar_policy_json_reader.specs.Bounds as bound;
ghost use Rattle.cedar_policy_json_reader.specs.Expressions.{level_said};

use cedar_functions::Functions;

/// What parts are read with: the functions that are known, how many levels the parts may have, and whether they stand
/// in the left side of an `is .. in`, which becomes two parts of the expression.
#[derive(Clone, Copy)]
pub(crate) struct Bounds<'f> {
    pub(crate) functions: &'f Functions,
    pub(crate) limit: usize,
    pub(crate) is_doubled: bool,
}

/// The same for what is one level below.
pub(crate) fn one_level_less(bounds: Bounds<'_>) -> Bounds<'_>
    requires { 0 < bounds.limit }
    ensures within { (j : Json) →
        bound.within bounds.entry j ≡ level_said (bound.around result) (bound.within result) j }
    ensures limit { result.limit ≡ bounds.entry.limit - 1 }
{
    Bounds {
        functions: bounds.functions,
        limit: bounds.limit - 1,
        is_doubled: bounds.is_doubled,
    }
}
