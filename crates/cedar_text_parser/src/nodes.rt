//! The nodes that steps make, each of its parts.
//!
//! Each node has its place: from its first byte up to the byte behind its last. `!=`, `>` and `>=` are negations of
//! `==`, `<=` and `<`; `a is T in b` is `a is T && a in b`, each of its three nodes at the place of the whole; a `has`
//! of several attributes is one node. `.contains(..)`, `.containsAll(..)`, `.containsAny(..)`, `.getTag(..)` and
//! `.hasTag(..)` on one argument and `.isEmpty()` are operators; any other method calls the function of that name, with
//! the receiver as its first argument.
ghost use Rattle.std.specs.Prelude.{◌≡◌, ◌==◌, ◌<◌, ◌-◌, ◌∷◌, [], length, IfOk, IfErr, IfSome};
ghost use Rattle.cedar_text_syntax.specs.declared.steps.Leaf.TheVariants as leaves;
ghost use Rattle.cedar_text_syntax.specs.declared.steps.Unary.TheVariants as unaries;
ghost use Rattle.cedar_expressions.specs.Nodes.{node_of};
ghost use Rattle.cedar_text_parser.specs.Building.{IsLeaf, IsUnary, IsBinary, IsBracketed, IsText, IsEntity, IsAttribute};
ghost use Rattle.cedar_text_parser.specs.Building.{IsHas};
ghost use Rattle.cedar_text_parser.specs.Building.{IsLike, IsOfType, IsOfTypeIn, IsCall, IsMethod, IsOperation, IsEmptiness};
ghost use Rattle.cedar_text_parser.specs.Refusals.{Counts, IsRefused};
ghost use Rattle.cedar_text_parser.specs.Wording.{word_at, method_of, IsEmptyAt, IsOperatorAt};

use crate::refusals::{ill_made, no_argument, one_argument};
use crate::source::Source;
use crate::words::MethodKind;
use crate::{leaves, words};
use cedar_expressions::Expr;
use cedar_names::{BinaryOp, FirstRest, Literal, Loc, UnaryOp};
use cedar_text_lexer::errors::ReadError;
use cedar_text_syntax::steps::{Binary, Bracketed, Leaf, Sign, Unary};
use std::alloc::{AllocError, Global};
use std::rc::{Rc, RcStr};

/// What this leaf is, at this place.
pub(crate) fn leaf(alloc: Global, source: &Source, leaf: Leaf, loc: Loc) -> Result<Expr, ReadError>
    ensures ok { IfOk result (λ x. IsLeaf source.now leaf loc.start loc.end (node_of x)) }
    ensures err { IfErr result (IsRefused source.now) }
{
    match leaf {
        Leaf::Bool(value) => Ok(Expr::val(Literal::Bool(value))),
        Leaf::Long(at) => Ok(Expr::val(Literal::Long(leaves::long(source, at)?))),
        Leaf::NegativeLong(at) => Ok(Expr::val(Literal::Long(leaves::negative_long(source, at)?))),
        Leaf::Text(at) => text_leaf(alloc, source, at),
        Leaf::Variable(at) => variable(source, at),
        Leaf::Entity(from, to) => entity(alloc, source, from, to, loc),
        Leaf::Slot(at) => slot(source, at),
    }
}

fn text_leaf(alloc: Global, source: &Source, at: usize) -> Result<Expr, ReadError>
    ensures ok { IfOk result (λ x. IsText source.now at (node_of x)) }
    ensures err { IfErr result (IsRefused source.now) }
{
    let value = leaves::text_at(alloc, source, at)?;
    Ok(Expr::val(Literal::String(value)))
}

fn variable(source: &Source, at: usize) -> Result<Expr, ReadError>
    ensures ok { IfOk result (λ x. IsLeaf source.now (leaves.Variable at) 0 0 (node_of x)) }
    ensures err { IfErr result (IsRefused source.now) }
{
    let token = leaves::token(source, at)?;
    match words::variable(token.kind) {
        Some(var) => Ok(Expr::var(var)),
        None => Err(ill_made(source)),
    }
}

fn slot(source: &Source, at: usize) -> Result<Expr, ReadError>
    ensures ok { IfOk result (λ x. IsLeaf source.now (leaves.Slot at) 0 0 (node_of x)) }
    ensures err { IfErr result (IsRefused source.now) }
{
    let token = leaves::token(source, at)?;
    match words::slot(token.kind) {
        Some(slot) => Ok(Expr::slot(slot)),
        None => Err(ill_made(source)),
    }
}

fn entity(
    alloc: Global,
    source: &Source,
    from: usize,
    to: usize,
    loc: Loc,
) -> Result<Expr, ReadError>
    ensures ok { IfOk result (λ x. IsEntity source.now from to loc.start loc.end (node_of x)) }
    ensures err { IfErr result (IsRefused source.now) }
{
    let uid = leaves::entity(alloc, source, from, to, loc)?;
    let uid = Rc::new(alloc, uid)?;
    Ok(Expr::val(Literal::EntityUID(uid)))
}

/// What this makes of one part.
pub(crate) fn unary(
    alloc: Global,
    source: &Source,
    unary: Unary,
    part: Expr,
) -> Result<Expr, ReadError>
    ensures ok { IfOk result (λ x. IsUnary source.now unary part (node_of x)) }
    ensures err { IfErr result (IsRefused source.now) }
{
    match unary {
        Unary::Sign(sign) => apply_sign(alloc, source, sign, part),
        Unary::Attribute(at) => attribute(alloc, source, at, part),
        Unary::Has(from, to) => has(alloc, source, from, to, part),
        Unary::Like(at) => like(alloc, source, at, part),
        Unary::Is(from, to) => is(alloc, source, from, to, part),
    }
}

fn apply_sign(alloc: Global, source: &Source, sign: Sign, part: Expr) -> Result<Expr, ReadError>
    ensures ok { IfOk result (λ x. IsUnary source.now (unaries.Sign sign) part (node_of x)) }
    ensures err { IfErr result (IsRefused source.now) }
{
    match sign {
        Sign::Not => Ok(Expr::unary_app(alloc, UnaryOp::Not, part)?),
        Sign::Neg => Ok(Expr::unary_app(alloc, UnaryOp::Neg, part)?),
    }
}

fn attribute(alloc: Global, source: &Source, at: usize, part: Expr) -> Result<Expr, ReadError>
    ensures ok { IfOk result (λ x. IsAttribute source.now at part (node_of x)) }
    ensures err { IfErr result (IsRefused source.now) }
{
    let key = leaves::key(alloc, source, at)?;
    Ok(Expr::get_attr(alloc, part, key)?)
}

fn has(
    alloc: Global,
    source: &Source,
    from: usize,
    to: usize,
    part: Expr,
) -> Result<Expr, ReadError>
    ensures ok { IfOk result (λ x. IsHas source.now from to part (node_of x)) }
    ensures err { IfErr result (IsRefused source.now) }
{
    let keys = leaves::keys(alloc, source, from, to)?;
    if is_alone(&keys.rest) {
        let FirstRest { first, rest: _ } = keys;
        Ok(Expr::has_attr(alloc, part, first)?)
    } else {
        Ok(Expr::extended_has_attr(alloc, part, keys)?)
    }
}

// Whether no attribute stands behind the first.
fn is_alone(rest: &[RcStr]) -> bool
    ensures { result ≡ (length rest.now == 0) }
{
    rest.is_empty()
}

fn like(alloc: Global, source: &Source, at: usize, part: Expr) -> Result<Expr, ReadError>
    ensures ok { IfOk result (λ x. IsLike source.now at part (node_of x)) }
    ensures err { IfErr result (IsRefused source.now) }
{
    let pattern = leaves::pattern(alloc, source, at)?;
    Ok(Expr::like(alloc, part, pattern)?)
}

fn is(alloc: Global, source: &Source, from: usize, to: usize, part: Expr) -> Result<Expr, ReadError>
    ensures ok { IfOk result (λ x. IsOfType source.now from to part (node_of x)) }
    ensures err { IfErr result (IsRefused source.now) }
{
    let ty = leaves::entity_type(alloc, source, from, to)?;
    Ok(Expr::is_entity_type(alloc, part, ty)?)
}

/// What this makes of two parts, at this place.
pub(crate) fn binary(
    alloc: Global,
    source: &Source,
    binary: Binary,
    left: Expr,
    right: Expr,
    loc: Loc,
) -> Result<Expr, ReadError>
    ensures ok { IfOk result (λ x. IsBinary source.now binary left right loc.start loc.end (node_of x)) }
    ensures err { IfErr result (IsRefused source.now) }
{
    match binary {
        Binary::Or => Ok(Expr::or(alloc, left, right)?),
        Binary::And => Ok(Expr::and(alloc, left, right)?),
        Binary::Equal => Ok(Expr::binary_app(alloc, BinaryOp::Eq, left, right)?),
        Binary::Less => Ok(Expr::binary_app(alloc, BinaryOp::Less, left, right)?),
        Binary::LessEqual => Ok(Expr::binary_app(alloc, BinaryOp::LessEq, left, right)?),
        Binary::In => Ok(Expr::binary_app(alloc, BinaryOp::In, left, right)?),
        Binary::Add => Ok(Expr::binary_app(alloc, BinaryOp::Add, left, right)?),
        Binary::Sub => Ok(Expr::binary_app(alloc, BinaryOp::Sub, left, right)?),
        Binary::Mul => Ok(Expr::binary_app(alloc, BinaryOp::Mul, left, right)?),
        Binary::IsIn(from, to) => is_in(alloc, source, from, to, left, right, loc),
    }
}

// `left is T && left in right`
fn is_in(
    alloc: Global,
    source: &Source,
    from: usize,
    to: usize,
    left: Expr,
    right: Expr,
    loc: Loc,
) -> Result<Expr, ReadError>
    ensures ok { IfOk result
        (λ x. IsOfTypeIn source.now from to left right loc.start loc.end (node_of x)) }
    ensures err { IfErr result (IsRefused source.now) }
{
    let ty = leaves::entity_type(alloc, source, from, to)?;
    let copy: Result<Expr, AllocError> = left.clone();
    let member = Expr::binary_app(alloc, BinaryOp::In, copy?, right)?;
    let is = Expr::is_entity_type(alloc, left, ty)?;
    let member = member.with_maybe_source_loc(Some(loc));
    let is = is.with_maybe_source_loc(Some(loc));
    Ok(Expr::and(alloc, is, member)?)
}

/// What this makes of the parts in brackets, but for records.
pub(crate) fn make_bracketed(
    alloc: Global,
    source: &Source,
    bracketed: Bracketed,
    parts: Vec<Expr>,
) -> Result<Expr, ReadError>
    ensures ok { IfOk result (λ x. IsBracketed source.now bracketed parts.items (node_of x)) }
    ensures err { IfErr result (IsRefused source.now) }
{
    match bracketed {
        Bracketed::Set => Ok(Expr::set(alloc, parts)?),
        Bracketed::Record => Err(ill_made(source)),
        Bracketed::Call(from, to) => call(alloc, source, from, to, parts),
        Bracketed::Method(at) => method(alloc, source, at, parts),
    }
}

fn call(
    alloc: Global,
    source: &Source,
    from: usize,
    to: usize,
    parts: Vec<Expr>,
) -> Result<Expr, ReadError>
    ensures ok { IfOk result (λ x. IsCall source.now from to parts.items (node_of x)) }
    ensures err { IfErr result (IsRefused source.now) }
{
    let name = leaves::name(alloc, source, from, to)?;
    Ok(Expr::call_extension_fn(alloc, name, parts)?)
}

fn method(alloc: Global, source: &Source, at: usize, parts: Vec<Expr>) -> Result<Expr, ReadError>
    ensures ok { IfOk result
        (λ x. IsMethod source.now at (method_of (word_at source.now at)) parts.items (node_of x)) }
    ensures err { IfErr result (IsRefused source.now) }
{
    if at < source.len() {
        match words::method(leaves::word_at(source, at)) {
            MethodKind::Operator(op) => operation(alloc, source, at, op, parts),
            MethodKind::IsEmpty => emptiness(alloc, source, at, parts),
            MethodKind::Function => call(alloc, source, at, at + 1, parts),
        }
    } else {
        Err(ill_made(source))
    }
}

fn operation(
    alloc: Global,
    source: &Source,
    at: usize,
    op: BinaryOp,
    parts: Vec<Expr>,
) -> Result<Expr, ReadError>
    requires within { at < length source.now.tokens }
    requires is { IsOperatorAt source.now at }
    ensures ok { IfOk result (λ x. IsOperation op parts.items (node_of x)) }
    ensures err { IfErr result (IsRefused source.now) }
    ensures given { IfErr result (Counts (length parts.items - 1)) }
{
    let given = parts.len().saturating_sub(1);
    match pair(parts) {
        Some((receiver, argument)) => Ok(Expr::binary_app(alloc, op, receiver, argument)?),
        None => Err(one_argument(source, at, given)),
    }
}

fn emptiness(alloc: Global, source: &Source, at: usize, parts: Vec<Expr>) -> Result<Expr, ReadError>
    requires within { at < length source.now.tokens }
    requires is { IsEmptyAt source.now at }
    ensures ok { IfOk result (λ x. IsEmptiness parts.items (node_of x)) }
    ensures err { IfErr result (IsRefused source.now) }
    ensures given { IfErr result (Counts (length parts.items - 1)) }
{
    let given = parts.len().saturating_sub(1);
    match single(parts) {
        Some(receiver) => Ok(Expr::unary_app(alloc, UnaryOp::IsEmpty, receiver)?),
        None => Err(no_argument(source, at, given)),
    }
}

// The only part.
fn single(mut parts: Vec<Expr>) -> Option<Expr>
    ensures { IfSome result (λ x. parts.items ≡ x ∷ []) }
{
    if parts.len() != 1 {
        return None;
    }
    parts.pop()
}

// The two parts, where there are two.
fn pair(mut parts: Vec<Expr>) -> Option<(Expr, Expr)>
    ensures { IfSome result (λ p. parts.items ≡ p.0 ∷ p.1 ∷ []) }
{
    match parts.pop() {
        Some(last) => match single(parts) {
            Some(first) => Some((first, last)),
            None => None,
        },
        None => None,
    }
}
