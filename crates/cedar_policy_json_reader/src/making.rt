#![tactic(auto, using(crate::proofs::Refused::refusals, crate::proofs::Lists::lists))]
//! What is made of parts that are read: expressions, and lists of them.
ghost use Rattle.std.specs.Prelude.{◌≡◌, [], ◌∷◌, ◌++◌, Ok, map, OnOk, IfOk, IfErr};
ghost use Rattle.cedar_model.specs.Terms as model;
ghost use Rattle.cedar_names.specs.Leaves.{unary_view, pattern_view};
ghost use Rattle.cedar_expressions.specs.Records.{pairs_view};
ghost use Rattle.cedar_expressions.specs.View.{view, terms_view};
ghost use Rattle.cedar_policy_json_reader.specs.Expressions as says;
ghost use Rattle.cedar_policy_json_reader.specs.Lists.{IsUnrecorded};
ghost use Rattle.cedar_policy_json_reader.specs.Names.{two_part_term, connection_view};
ghost use Rattle.cedar_policy_json_reader.specs.Paths.{at_key};
ghost use Rattle.cedar_policy_json_reader.specs.Refusals.{IsRefusal, IsMemory};

use crate::errors::{PolicyJsonError, RefusalReason};
use crate::leaves::made_name;
use crate::operators::{Connection, connect};
use cedar_expressions::{Expr, ExpressionConstructionError};
use cedar_names::{BinaryOp, EntityType, Pattern, UnaryOp};
use std::alloc::{AllocError, Global};
use std::rc::RcStr;

/// The operator on this part.
pub(crate) fn unary(alloc: Global, op: UnaryOp, arg: Expr) -> Result<Expr, PolicyJsonError>
    ensures said { IfOk result (λ e. view e ≡ model.unary (unary_view op) (view arg)) }
    ensures memory { IfErr result IsMemory }
{
    match Expr::unary_app(alloc, op, arg) {
        Ok(expr) => Ok(expr),
        Err(error) => Err(PolicyJsonError::Memory(error)),
    }
}

/// These parts, connected so.
pub(crate) fn connected(
    alloc: Global,
    connection: Connection,
    parts: (Expr, Expr),
) -> Result<Expr, PolicyJsonError>
    ensures said { IfOk result
        (λ e. view e ≡ two_part_term (connection_view connection) (view parts.0) (view parts.1)) }
    ensures memory { IfErr result IsMemory }
{
    match connect(alloc, connection, parts) {
        Ok(expr) => Ok(expr),
        Err(error) => Err(PolicyJsonError::Memory(error)),
    }
}

/// The attribute of this name.
pub(crate) fn attribute_of(
    alloc: Global,
    left: Expr,
    attribute: &str,
) -> Result<Expr, PolicyJsonError>
    ensures said { IfOk result (λ e. view e ≡ model.get_attribute (view left) attribute.now) }
    ensures memory { IfErr result IsMemory }
{
    match RcStr::from_str(alloc, attribute) {
        Ok(attribute) => match Expr::get_attr(alloc, left, attribute) {
            Ok(expr) => Ok(expr),
            Err(error) => Err(PolicyJsonError::Memory(error)),
        },
        Err(error) => {
            drop(left);
            Err(PolicyJsonError::Memory(error))
        }
    }
}

/// Whether the text has this pattern.
pub(crate) fn like_of(alloc: Global, left: Expr, pattern: Pattern) -> Result<Expr, PolicyJsonError>
    ensures said { IfOk result (λ e. view e ≡ model.like (view left) (pattern_view pattern)) }
    ensures memory { IfErr result IsMemory }
{
    match Expr::like(alloc, left, pattern) {
        Ok(expr) => Ok(expr),
        Err(error) => Err(PolicyJsonError::Memory(error)),
    }
}

/// Whether the entity has the type of this name.
pub(crate) fn is_of(alloc: Global, left: Expr, name: &str) -> Result<Expr, PolicyJsonError>
    ensures said { IfOk result (λ e. view e ≡ model.is_of_type (view left) name.now) }
    ensures memory { IfErr result IsMemory }
{
    match made_name(alloc, name) {
        Ok(name) => match Expr::is_entity_type(alloc, left, EntityType::new(name)) {
            Ok(expr) => Ok(expr),
            Err(error) => Err(PolicyJsonError::Memory(error)),
        },
        Err(error) => {
            drop(left);
            Err(error)
        }
    }
}

/// Whether the first part has the type of this name, and is in the second.
pub(crate) fn is_in(alloc: Global, parts: (Expr, Expr), name: &str) -> Result<Expr, PolicyJsonError>
    ensures said { IfOk result (λ e. view e ≡ says.is_in_term name.now (view parts.0, view parts.1)) }
    ensures memory { IfErr result IsMemory }
{
    let (left, place) = parts;
    match is_same_of(alloc, &left, name) {
        Ok(test) => and_in(alloc, test, left, place),
        Err(error) => {
            drop((left, place));
            Err(error)
        }
    }
}

// The same of an expression that is kept.
fn is_same_of(alloc: Global, left: &Expr, name: &str) -> Result<Expr, PolicyJsonError>
    ensures said { IfOk result (λ e. view e ≡ model.is_of_type (view left.now) name.now) }
    ensures memory { IfErr result IsMemory }
{
    let copy: Result<Expr, AllocError> = left.clone();
    match copy {
        Ok(left) => is_of(alloc, left, name),
        Err(error) => Err(PolicyJsonError::Memory(error)),
    }
}

// `test && left in place`
fn and_in(alloc: Global, test: Expr, left: Expr, place: Expr) -> Result<Expr, PolicyJsonError>
    ensures said { IfOk result
        (λ e. view e ≡ model.both (view test) (model.binary model.in_operator (view left) (view place))) }
    ensures memory { IfErr result IsMemory }
{
    match Expr::binary_app(alloc, BinaryOp::In, left, place) {
        Ok(inside) => match Expr::and(alloc, test, inside) {
            Ok(expr) => Ok(expr),
            Err(error) => Err(PolicyJsonError::Memory(error)),
        },
        Err(error) => {
            drop(test);
            Err(PolicyJsonError::Memory(error))
        }
    }
}

/// The first of the branches where the test holds, else the second.
pub(crate) fn conditional(
    alloc: Global,
    test: Expr,
    branches: (Expr, Expr),
) -> Result<Expr, PolicyJsonError>
    ensures said { IfOk result
        (λ e. view e ≡ model.if_then_else (view test) (view branches.0) (view branches.1)) }
    ensures memory { IfErr result IsMemory }
{
    match Expr::ite(alloc, test, branches.0, branches.1) {
        Ok(expr) => Ok(expr),
        Err(error) => Err(PolicyJsonError::Memory(error)),
    }
}

/// The set of these elements.
pub(crate) fn set(alloc: Global, elements: Vec<Expr>) -> Result<Expr, PolicyJsonError>
    ensures said { IfOk result (λ e. view e ≡ model.set_of (terms_view elements.items)) }
    ensures memory { IfErr result IsMemory }
{
    match Expr::set(alloc, elements) {
        Ok(set) => Ok(set),
        Err(error) => Err(PolicyJsonError::Memory(error)),
    }
}

/// The call of the function of this name.
pub(crate) fn call(alloc: Global, name: &str, args: Vec<Expr>) -> Result<Expr, PolicyJsonError>
    ensures said { IfOk result (λ e. view e ≡ model.call name.now (terms_view args.items)) }
    ensures memory { IfErr result IsMemory }
{
    match made_name(alloc, name) {
        Ok(name) => match Expr::call_extension_fn(alloc, name, args) {
            Ok(call) => Ok(call),
            Err(error) => Err(PolicyJsonError::Memory(error)),
        },
        Err(error) => {
            drop(args);
            Err(error)
        }
    }
}

// ---- records

/// The record of these pairs, refused where a key is a duplicate.
pub(crate) fn record(alloc: Global, pairs: Vec<(RcStr, Expr)>) -> Result<Expr, PolicyJsonError>
    ensures said { IfOk result (λ e. says.record_of_pairs (pairs_view pairs.items) ≡ Ok (view e)) }
    ensures refused { IfErr result (IsRefusal (says.record_of_pairs (pairs_view pairs.items))) }
{
    match Expr::record(alloc, pairs) {
        Ok(record) => Ok(record),
        Err(error) => Err(refuse_record(alloc, error)),
    }
}

// Why there is no record of these pairs.
#[cold]
fn refuse_record(alloc: Global, error: ExpressionConstructionError) -> PolicyJsonError
    ensures { IsUnrecorded error result }
{
    match error {
        ExpressionConstructionError::DuplicateKey { key, context: _ } => {
            PolicyJsonError::refusal_at(alloc, key.as_str(), RefusalReason::RepeatedKey)
        }
        ExpressionConstructionError::Memory(error) => PolicyJsonError::Memory(error),
    }
}

// ---- lists

/// Puts the expression behind those that are there.
pub(crate) fn put(expr: Expr, elements: &mut Vec<Expr>) -> Result<(), PolicyJsonError>
    ensures said { OnOk result
        (map view elements.new.items ≡ map view elements.old.items ++ view expr ∷ []) }
    ensures memory { IfErr result IsMemory }
{
    match elements.push(expr) {
        Ok(()) => Ok(()),
        Err(failed) => Err(PolicyJsonError::from(failed)),
    }
}

/// Puts the expression behind those that are there, under this key.
pub(crate) fn put_pair(
    alloc: Global,
    key: &str,
    expr: Expr,
    pairs: &mut Vec<(RcStr, Expr)>,
) -> Result<(), PolicyJsonError>
    ensures said { OnOk result
        (pairs_view pairs.new.items ≡ pairs_view pairs.old.items ++ (key.now, view expr) ∷ []) }
    ensures memory { IfErr result IsMemory }
{
    match RcStr::from_str(alloc, key) {
        Ok(key) => match pairs.push((key, expr)) {
            Ok(()) => Ok(()),
            Err(failed) => Err(PolicyJsonError::from(failed)),
        },
        Err(error) => {
            drop(expr);
            Err(PolicyJsonError::Memory(error))
        }
    }
}
