#![tactic(auto, using(crate::proofs::Saying::saying))]
//! Annotations of a policy in the making.
ghost use Rattle.std.specs.Prelude.{◌≡◌, IfOk, option_map};
ghost use Rattle.std.specs.BTreeMap.{insert_entry};
ghost use Rattle.std.specs.Rc.{rc_str_bytes};
ghost use Rattle.cedar_expressions.specs.Nodes.{key_order};
ghost use Rattle.cedar_layers.specs.Policies.{annotations_view};
ghost use Rattle.cedar_builder.specs.Saying.{said, said_in, Says, SaysIn, put_text, with_annotation};

use super::{PolicyBuilder, PolicyParts};
use cedar_fallible::pair_of;
use cedar_layers::policies::Annotations;
use std::alloc::{AllocError, Global};
use std::collections::BTreeMap;
use std::rc::RcStr;

impl PolicyBuilder {
    /// The policy with this annotation more: `@key("value")`. Both are taken as they stand. One whose key is a
    /// duplicate takes the place of the one before.
    pub fn annotation(self, key: &str, value: &str) -> PolicyBuilder
        ensures { Says result (option_map (with_annotation key.now value.now) (said self)) }
    {
        let PolicyBuilder { alloc, parts } = self;
        PolicyBuilder {
            alloc,
            parts: add_annotation(alloc, parts, key, value),
        }
    }
}

fn add_annotation(
    alloc: Global,
    parts: Result<PolicyParts, AllocError>,
    key: &str,
    value: &str,
) -> Result<PolicyParts, AllocError>
    ensures { SaysIn result (option_map (with_annotation key.now value.now) (said_in parts)) }
{
    let texts = pair_of(RcStr::from_str(alloc, key), RcStr::from_str(alloc, value));
    let (parts, texts) = pair_of(parts, texts)?;
    let (key, value) = texts;
    let PolicyParts {
        effect,
        id,
        annotations,
        principal,
        action,
        resource,
        condition,
    } = parts;
    match with_text(annotations, key, value) {
        Ok(annotations) => Ok(PolicyParts {
            effect,
            id,
            annotations,
            principal,
            action,
            resource,
            condition,
        }),
        Err(error) => Err(error),
    }
}

// The annotations with this text under the key.
fn with_text(annotations: Annotations, key: RcStr, value: RcStr) -> Result<Annotations, AllocError>
    ensures { IfOk result (λ a. annotations_view a
        ≡ put_text (annotations_view annotations) (rc_str_bytes key) (rc_str_bytes value)) }
{
    let Annotations(map) = annotations;
    let map = map_with(map, key, value)?;
    Ok(Annotations(map))
}

fn map_with(
    map: BTreeMap<RcStr, RcStr>,
    key: RcStr,
    value: RcStr,
) -> Result<BTreeMap<RcStr, RcStr>, AllocError>
    ensures { IfOk result (λ m. m.entries ≡ insert_entry key_order map.entries key value) }
{
    let mut map = map;
    drop(map.insert(key, value)?);
    Ok(map)
}
