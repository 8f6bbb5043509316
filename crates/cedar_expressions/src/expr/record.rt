#![tactic(auto, using(crate::proofs::Levels::levels, crate::proofs::NodeLevels::nodes, crate::proofs::Records::steps))]
//! Records of pairs, refused where a key is a duplicate.
ghost use Rattle.std.specs.Prelude.{◌≡◌, IfOk, OnOk, IfErr, None, codes};
ghost use Rattle.std.specs.Rc.{rc_str_bytes};
ghost use Rattle.cedar_model.specs.Terms.{record_of};
ghost use Rattle.cedar_expressions.specs.Errors.{IsRefusalOf, IsRecordRefusal};
ghost use Rattle.cedar_model.specs.Refusals.{first_repeated};
ghost use Rattle.cedar_expressions.specs.Records.{repeated_key, HasOneMore, fields_in_order, pairs_view, keys_view};
ghost use Rattle.cedar_expressions.specs.View.{view, expr_loc, fields_view};
ghost use Rattle.cedar_expressions.specs.Nodes.{node_of, key_order, entries_in_order};
ghost use Rattle.cedar_expressions.specs.Nodes as node;
ghost use Rattle.std.specs.BTreeMap.{insert_entry};

use super::{Expr, ExprKind};
use crate::errors::ExpressionConstructionError;
use std::alloc::{AllocError, Global};
use std::collections::BTreeMap;
use std::rc::{Rc, RcStr};

impl Expr {
    /// A record of these parts under their keys, in byte order of the keys. Refuses the first duplicate key,
    /// with the context `in record literal`, and if out of memory.
    pub fn record(
        alloc: Global,
        pairs: Vec<(RcStr, Expr)>,
    ) -> Result<Expr, ExpressionConstructionError>
        ensures view { IfOk result (λ e. view e ≡ record_of (fields_in_order (pairs_view pairs.items))) }
        ensures kind { IfOk result (λ e. node_of e ≡ node.Record (entries_in_order pairs.items)) }
        ensures loc { IfOk result (λ e. expr_loc e ≡ None) }
        ensures distinct { IfOk result (λ e. first_repeated (keys_view pairs.items) ≡ None) }
        ensures refused { IfErr result (IsRecordRefusal pairs.items) }
    {
        let mut fields: BTreeMap<RcStr, Expr> = BTreeMap::new(alloc);
        'pairs: for (key, part) in pairs {
            put_new(&mut fields, key, part)?;
        }
        Ok(Expr::record_map(alloc, fields)?)
    }

    /// A record of the parts that the map has. Refuses only if out of memory.
    pub fn record_map(alloc: Global, map: BTreeMap<RcStr, Expr>) -> Result<Expr, AllocError>
        ensures view { IfOk result (λ e. view e ≡ record_of (fields_view map.entries)) }
        ensures kind { IfOk result (λ e. node_of e ≡ node.Record map.entries) }
        ensures loc { IfOk result (λ e. expr_loc e ≡ None) }
    {
        let map = Rc::new(alloc, map)?;
        Ok(Expr::of_kind(ExprKind::Record(map)))
    }
}

// Puts the part under the key, or refuses where the key is there.
fn put_new(
    fields: &mut BTreeMap<RcStr, Expr>,
    key: RcStr,
    part: Expr,
) -> Result<(), ExpressionConstructionError>
    ensures entries { OnOk result (fields.new.entries ≡ insert_entry key_order fields.old.entries key part) }
    ensures keys { OnOk result
        (HasOneMore (keys_view fields.old.entries) (rc_str_bytes key) (keys_view fields.new.entries)) }
    ensures refused { IfErr result
        (IsRefusalOf (repeated_key (keys_view fields.old.entries) (rc_str_bytes key)) (codes "in record literal")) }
{
    if fields.contains_key(&key) {
        drop(part);
        return Err(ExpressionConstructionError::DuplicateKey {
            key,
            context: "in record literal",
        });
    }
    drop(fields.insert(key, part)?);
    Ok(())
}
