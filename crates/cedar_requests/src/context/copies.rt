//! Copies of contexts.
ghost use Rattle.std.specs.Prelude.{◌≡◌, IfOk};

use super::Context;
use super::pairs::{ContextPairs, ResidualPairs};
use std::alloc::{AllocError, Global};

impl Clone for Context {
    ghost use Rattle.cedar_requests.specs.Contexts.{context_view, context_locs};

    ghost is_clone = { λ c copy. (context_view copy ≡ context_view c) × (context_locs copy ≡ context_locs c) };

    fn clone(&self) -> Result<Context, AllocError> {
        let pairs = self.pairs.copied(self.alloc)?;
        Ok(Context {
            pairs,
            alloc: self.alloc,
        })
    }
}

impl ContextPairs {
    ghost use Rattle.cedar_requests.specs.Contexts.{context_pairs_view, pairs_locs};

    // The same pairs. Values are shared by all further copies.
    fn copied(&self, alloc: Global) -> Result<ContextPairs, AllocError>
        ensures view { IfOk result (λ p. context_pairs_view p ≡ context_pairs_view self.now) }
        ensures locs { IfOk result (λ p. pairs_locs p ≡ pairs_locs self.now) }
    {
        match self {
            ContextPairs::Values(values) => Ok(ContextPairs::Values(values.copied(alloc)?)),
            ContextPairs::Residual(residual) => Ok(ContextPairs::Residual(residual.clone()?)),
        }
    }
}

impl Clone for ResidualPairs {
    ghost use Rattle.cedar_requests.specs.Contexts.{residual_fields, residual_locs};

    ghost is_clone = { λ r copy. (residual_fields copy ≡ residual_fields r)
        × (residual_locs copy ≡ residual_locs r) };

    fn clone(&self) -> Result<ResidualPairs, AllocError> {
        let pairs = self.as_map().clone()?;
        Ok(ResidualPairs::new(pairs))
    }
}
