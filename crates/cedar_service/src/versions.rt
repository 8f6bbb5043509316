//! Versions.
ghost use Rattle.std.specs.Prelude.{◌≡◌, ◌++◌, ◌∷◌, [], IfOk, string_bytes};
ghost use Rattle.sha2.specs.Sha256.{sha256};
ghost use Rattle.cedar_service.specs.Versions.{version_text};

use sha2::{Digest, Sha256};
use std::alloc::{AllocError, Global};

/// The version of what these policies and these entities decide: the same for the same texts. Refuses only if out of
/// memory.
pub(crate) fn version_of(
    alloc: Global,
    policies: &str,
    entities: &str,
) -> Result<String, AllocError>
    ensures { IfOk result (λ s. string_bytes s ≡ version_text policies.now entities.now) }
{
    hex::encode(alloc, digest_of(policies.as_bytes(), entities.as_bytes()))
}

fn digest_of(policies: &[u8], entities: &[u8]) -> [u8; 32]
    ensures { result ≡ sha256 ((policies.now ++ 0 ∷ []) ++ entities.now) }
{
    let mut hasher = Sha256::new();
    hasher.update(policies);
    hasher.update([0_u8]);
    hasher.update(entities);
    hasher.finalize()
}
