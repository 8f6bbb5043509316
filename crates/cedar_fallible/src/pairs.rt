//! Several results: all that they answer, or the first refusal.
ghost use Rattle.std.specs.Prelude.{◌≡◌, ◌⊎◌, Ok, Err, IfOk, IfErr};

use std::alloc::AllocError;

/// What is held, and the answer beside it. Refuses only where that is refused.
pub fn beside<H: Drop, T: Drop>(
    held: H,
    answer: Result<T, AllocError>,
) -> Result<(H, T), AllocError>
    ensures held { IfOk result (λ p. p.0 ≡ held) }
    ensures answer { IfOk result (λ p. answer ≡ Ok p.1) }
    ensures refused { IfErr result (λ e. answer ≡ Err e) }
{
    let answer = answer?;
    Ok((held, answer))
}

/// Both, or the first that is refused.
pub fn pair_of<A: Drop, B: Drop>(
    first: Result<A, AllocError>,
    second: Result<B, AllocError>,
) -> Result<(A, B), AllocError>
    ensures first { IfOk result (λ p. first ≡ Ok p.0) }
    ensures second { IfOk result (λ p. second ≡ Ok p.1) }
    ensures refused { IfErr result (λ e. (first ≡ Err e) ⊎ (second ≡ Err e)) }
{
    let first = first?;
    let second = second?;
    Ok((first, second))
}

/// All four, or the first that is refused.
pub fn all_four<A: Drop, B: Drop, C: Drop, D: Drop>(
    first: Result<A, AllocError>,
    second: Result<B, AllocError>,
    third: Result<C, AllocError>,
    fourth: Result<D, AllocError>,
) -> Result<(A, B, C, D), AllocError>
    ensures first { IfOk result (λ p. first ≡ Ok p.0) }
    ensures second { IfOk result (λ p. second ≡ Ok p.1) }
    ensures third { IfOk result (λ p. third ≡ Ok p.2) }
    ensures fourth { IfOk result (λ p. fourth ≡ Ok p.3) }
    ensures refused { IfErr result (λ e. (first ≡ Err e) ⊎ ((second ≡ Err e) ⊎ ((third ≡ Err e) ⊎ (fourth ≡ Err e)))) }
{
    let first = first?;
    let second = second?;
    let third = third?;
    let fourth = fourth?;
    Ok((first, second, third, fourth))
}
