#![tactic(auto, using(crate::proofs::MadeParts::made))]
//! How restricted expressions are made of parts.
ghost use Rattle.std.specs.Prelude.{◌≡◌, None, IfOk, IfErr, codes, option_map};
ghost use Rattle.std.specs.Rc.{rc_str_bytes};
ghost use Rattle.cedar_model.specs.Terms.{literal, unknown, set_of, record_of, call};
ghost use Rattle.cedar_names.specs.Names.{name_text};
ghost use Rattle.cedar_names.specs.Leaves.{literal_view, type_view};
ghost use Rattle.cedar_expressions.specs.View.{expr_loc, terms_view};
ghost use Rattle.cedar_expressions.specs.Errors.{IsRefusalOf};
ghost use Rattle.cedar_model.specs.Refusals.{first_repeated};
ghost use Rattle.cedar_expressions.specs.Records.{fields_in_order, pairs_view, keys_view};
ghost use Rattle.cedar_expressions.specs.Nodes.{node_of, entries_in_order};
ghost use Rattle.cedar_expressions.specs.Nodes as node;

use super::RestrictedExpr;
use cedar_expressions::{Expr, ExpressionConstructionError};
use cedar_names::{Literal, Name, Unknown};
use std::alloc::{AllocError, Global};
use std::rc::RcStr;

impl RestrictedExpr {
    ghost use Rattle.cedar_restricted.specs.Views.{expr_in, exprs_in, pairs_in, restricted_term};
    ghost use Rattle.cedar_restricted.specs.Views.{restricted_loc};

    /// A literal.
    pub fn val(value: Literal) -> RestrictedExpr
        ensures view { restricted_term result ≡ literal (literal_view value) }
        ensures kind { node_of (expr_in result) ≡ node.Lit value }
        ensures loc { restricted_loc result ≡ None }
    {
        RestrictedExpr {
            expr: Expr::val(value),
        }
    }

    /// A value that is not known yet.
    pub fn unknown(value: Unknown) -> RestrictedExpr
        ensures view { restricted_term result ≡
            unknown (rc_str_bytes value.name) (option_map type_view value.type_annotation) }
        ensures kind { node_of (expr_in result) ≡ node.Unknown value }
        ensures loc { restricted_loc result ≡ None }
    {
        RestrictedExpr {
            expr: Expr::unknown(value),
        }
    }

    /// A set of these elements, in this order. Refuses only if out of memory.
    pub fn set(alloc: Global, elements: Vec<RestrictedExpr>) -> Result<RestrictedExpr, AllocError>
        ensures view { IfOk result (λ r. restricted_term r ≡ set_of (terms_view (exprs_in elements.items))) }
        ensures kind { IfOk result (λ r. node_of (expr_in r) ≡ node.Set (exprs_in elements.items)) }
        ensures loc { IfOk result (λ r. restricted_loc r ≡ None) }
    {
        let elements = exprs_of(alloc, elements)?;
        Ok(RestrictedExpr {
            expr: Expr::set(alloc, elements)?,
        })
    }

    /// A call of the extension function of this name on these arguments. Refuses only if out of memory.
    pub fn call_extension_fn(
        alloc: Global,
        function_name: Name,
        args: Vec<RestrictedExpr>,
    ) -> Result<RestrictedExpr, AllocError>
        ensures view { IfOk result
            (λ r. restricted_term r ≡ call (name_text function_name) (terms_view (exprs_in args.items))) }
        ensures kind { IfOk result
            (λ r. node_of (expr_in r) ≡ node.ExtensionFunctionApp function_name (exprs_in args.items)) }
        ensures loc { IfOk result (λ r. restricted_loc r ≡ None) }
    {
        let args = exprs_of(alloc, args)?;
        Ok(RestrictedExpr {
            expr: Expr::call_extension_fn(alloc, function_name, args)?,
        })
    }

    /// A record of these parts under their keys, in byte order of the keys. Refuses the first duplicate key with
    /// `DuplicateKey`, in the context `in record literal`, and with `Memory` if out of memory.
    pub fn record(
        alloc: Global,
        pairs: Vec<(RcStr, RestrictedExpr)>,
    ) -> Result<RestrictedExpr, ExpressionConstructionError>
        ensures view { IfOk result
            (λ r. restricted_term r ≡ record_of (fields_in_order (pairs_view (pairs_in pairs.items)))) }
        ensures kind { IfOk result (λ r. node_of (expr_in r) ≡ node.Record (entries_in_order (pairs_in pairs.items))) }
        ensures loc { IfOk result (λ r. restricted_loc r ≡ None) }
        ensures distinct { IfOk result (λ r. first_repeated (keys_view (pairs_in pairs.items)) ≡ None) }
        ensures refused { IfErr result
            (IsRefusalOf (first_repeated (keys_view (pairs_in pairs.items))) (codes "in record literal")) }
    {
        let pairs = pairs_of(alloc, pairs)?;
        let expr = Expr::record(alloc, pairs)?;
        Ok(RestrictedExpr { expr })
    }
}

ghost use Rattle.cedar_restricted.specs.Views.{exprs_in, pairs_in};

// The expressions, in order.
fn exprs_of(alloc: Global, parts: Vec<RestrictedExpr>) -> Result<Vec<Expr>, AllocError>
    ensures { IfOk result (λ v. v.items ≡ exprs_in parts.items) }
{
    let mut exprs: Vec<Expr> = Vec::with_capacity(alloc, parts.len())?;
    'parts: for part in parts {
        exprs.push(part.expr)?;
    }
    Ok(exprs)
}

// The expressions under their keys, in order.
fn pairs_of(
    alloc: Global,
    pairs: Vec<(RcStr, RestrictedExpr)>,
) -> Result<Vec<(RcStr, Expr)>, AllocError>
    ensures { IfOk result (λ v. v.items ≡ pairs_in pairs.items) }
{
    let mut exprs: Vec<(RcStr, Expr)> = Vec::with_capacity(alloc, pairs.len())?;
    'pairs: for (key, part) in pairs {
        exprs.push((key, part.expr))?;
    }
    Ok(exprs)
}
