//! The store of the row whose policy reads a stored residual.
ghost use Rattle.std.specs.Prelude.{◌≡◌, true, IfOk};
ghost use Rattle.cedar_values.specs.Residuals.{partial_view};
ghost use Rattle.cedar_layers.specs.Parts.{parts_view, is_restricted_part, are_restricted_parts};

use crate::entities::entity;
use cedar_layers::expressions::{Expr, Unknown};
use cedar_layers::policies::{Entities, Entity};
use cedar_restricted::RestrictedExpr;
use cedar_values::{PartialValue, ResidualExpr};
use std::alloc::{AllocError, Global};
use std::collections::{BTreeMap, BTreeSet};
use std::rc::RcStr;

/// The store with `E::"e"` alone, of which `g` is `[unknown("u")]`.
pub fn store_of_e(alloc: Global) -> Result<Entities, AllocError> {
    let attributes = one_part(alloc, "g", unknown_set(alloc, "u")?)?;
    let uid = entity(alloc, "E", "e")?;
    let e = Entity::new(uid, attributes, BTreeSet::new(alloc), BTreeMap::new(alloc));
    Entities::with(alloc, vec![in alloc; e]?, false)
}

// `[unknown("name")]`
#[tactic(auto, unfolding(cedar_model::specs::Shapes::has_unknown))]
fn unknown_set(alloc: Global, name: &str) -> Result<PartialValue, AllocError>
    ensures { IfOk result (λ p. is_restricted_part (partial_view p) ≡ true) }
{
    let unknown = Unknown::new_untyped(RcStr::from_str(alloc, name)?);
    let elements = vec![in alloc; RestrictedExpr::unknown(unknown)]?;
    let set = Expr::from(RestrictedExpr::set(alloc, elements)?);
    Ok(PartialValue::Residual(ResidualExpr::new(set)))
}

// The part under this name, alone.
#[tactic(auto, using(crate::proofs::Parts::one_restricted))]
fn one_part(
    alloc: Global,
    name: &str,
    part: PartialValue,
) -> Result<BTreeMap<RcStr, PartialValue>, AllocError>
    requires { is_restricted_part (partial_view part) ≡ true }
    ensures { IfOk result (λ m. are_restricted_parts (parts_view m.entries) ≡ true) }
{
    let mut parts: BTreeMap<RcStr, PartialValue> = BTreeMap::new(alloc);
    drop(parts.insert(RcStr::from_str(alloc, name)?, part)?);
    Ok(parts)
}
