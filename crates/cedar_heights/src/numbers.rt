//! Levels above levels, and the limits that suffice.
ghost use Rattle.std.specs.Prelude.{◌≡◌, suc};
ghost use Rattle.cedar_heights.specs.Capped.{capped};
ghost use Rattle.cedar_heights.specs.Limits.{enough, enough_for_step};

/// One level more.
pub(crate) fn above(height: usize) -> usize
    ensures { result ≡ capped (suc height) }
{
    height.saturating_add(1)
}

/// The limit that suffices by the depth bound for conditions of which the highest has `highest` levels, where the
/// context, what is stored and what stored functions answer have at most `given`: with deep resolution a stored
/// residual can answer what is twice as high. It is told as `usize::MAX` where it is greater.
pub fn levels_for(highest: usize, given: usize) -> usize
    ensures { result ≡ capped (enough highest given) }
{
    highest.saturating_add(given.saturating_add(given))
}

/// The limit that suffices for a step from a response, of which the highest residual has `residual` levels, where what
/// is given has at most `given`, and the highest of the map's values `mapped`: they stand in place of unknowns, and a
/// residual is carried on as the clause of a policy whose scope is `true`. It is told as `usize::MAX` where it is
/// greater.
pub fn levels_for_step(residual: usize, given: usize, mapped: usize) -> usize
    ensures { result ≡ capped (enough_for_step residual given mapped) }
{
    let highest = residual.max(3).saturating_add(1);
    levels_for(highest, given.saturating_add(mapped))
}
