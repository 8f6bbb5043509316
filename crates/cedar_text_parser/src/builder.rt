//! Makes expressions of steps, on a stack of finished ones.
ghost use Rattle.std.specs.Prelude.{◌≡◌, ◌∷◌, ◌++◌, [], true, ℕ, List, length, reverse, IfOk, IfErr, IfSome, OnOk};
ghost use Rattle.cedar_text_syntax.specs.declared.steps.Bracketed.TheVariants as bracketed;
ghost use Rattle.cedar_text_syntax.specs.declared.steps.What.TheVariants as what;
ghost use Rattle.std.specs.Rc.{rc_str_bytes};
ghost use Rattle.cedar_expressions.specs.Nodes.{node_of};
ghost use Rattle.cedar_text_syntax.specs.Trees.{Tree, trees};
ghost use Rattle.cedar_text_parser.specs.Building.{Are, Keeps, Puts};
ghost use Rattle.cedar_text_parser.specs.Finished.{finished, unkeyed, keyed, all_unkeyed, all_keyed};
ghost use Rattle.cedar_text_parser.specs.Refusals.{IsRefused, IsRefusedOn, IsKeyAgain, IsNamedFrom, IsRecordRefused};
ghost use Rattle.cedar_text_parser.specs.Refusals.{AreRefused};

use crate::reading::Four;
use crate::refusals::{ill_made, wanted_at};
use crate::source::Source;
use crate::{leaves, nodes};
use cedar_expressions::{Expr, ExpressionConstructionError};
use cedar_names::Loc;
use cedar_text_lexer::errors::{Expected, ReadError};
use cedar_text_syntax::steps::{Binary, Bracketed, Leaf, Step, Unary, What};
use std::alloc::{AllocError, Global};
use std::rc::RcStr;

/// The key of a field, and the token that names it.
#[derive(Drop)]
pub(crate) struct Key {
    at: usize,
    text: RcStr,
}

/// A finished expression, and its key where it is a field.
#[derive(Drop)]
pub(crate) struct Part {
    key: Option<Key>,
    expr: Expr,
}

/// Finished parts, the latest last.
#[derive(Drop)]
pub(crate) struct Builder {
    parts: Vec<Part>,
}

// Fields: their tokens, and their keys and expressions.
#[derive(Drop)]
struct Fields {
    at: Vec<usize>,
    pairs: Vec<(RcStr, Expr)>,
}

/// What the steps make.
pub(crate) fn build_steps(
    alloc: Global,
    source: &Source,
    steps: &[Step],
) -> Result<Builder, ReadError>
    ensures ok { IfOk result (λ b. Are source.now (finished b) (trees steps.now)) }
    ensures err { IfErr result (AreRefused source.now steps.now) }
{
    let mut builder = Builder {
        parts: Vec::new(alloc),
    };
    for step in steps {
        builder.take(alloc, source, *step)?;
    }
    Ok(builder)
}

impl Builder {
    /// The only expression.
    pub(crate) fn only(mut self, source: &Source) -> Result<Expr, ReadError>
        ensures ok { IfOk result (λ x. finished self ≡ unkeyed x ∷ []) }
        ensures err { IfErr result (IsRefused source.now) }
    {
        match self.pop() {
            Some(part) => match self.parts.pop() {
                None => Ok(part),
                Some(_) => Err(ill_made(source)),
            },
            None => Err(ill_made(source)),
        }
    }

    /// The four expressions.
    pub(crate) fn four(mut self, source: &Source) -> Result<Four, ReadError>
        ensures ok { IfOk result (λ f. finished self
            ≡ unkeyed f.condition ∷ unkeyed f.resource ∷ unkeyed f.action ∷ unkeyed f.principal ∷ []) }
        ensures err { IfErr result (IsRefused source.now) }
    {
        match self.pop_pair() {
            Some((resource, condition)) => match self.last_pair() {
                Some((principal, action)) => Ok(Four {
                    principal,
                    action,
                    resource,
                    condition,
                }),
                None => Err(ill_made(source)),
            },
            None => Err(ill_made(source)),
        }
    }

    // The two expressions, where there are two.
    fn last_pair(mut self) -> Option<(Expr, Expr)>
        ensures { IfSome result (λ p. finished self ≡ unkeyed p.1 ∷ unkeyed p.0 ∷ []) }
    {
        match self.pop_pair() {
            Some(pair) => match self.parts.pop() {
                None => Some(pair),
                Some(_) => None,
            },
            None => None,
        }
    }

    fn push(&mut self, part: Part) -> Result<(), AllocError>
        ensures { OnOk result (finished self.new ≡ part ∷ finished self.old) }
    {
        match self.parts.push(part) {
            Ok(()) => Ok(()),
            Err(_) => Err(AllocError),
        }
    }

    // The latest part, if it is no field.
    fn pop(&mut self) -> Option<Expr>
        ensures { IfSome result (λ x. finished self.old ≡ unkeyed x ∷ finished self.new) }
    {
        match self.parts.pop() {
            Some(part) => whole(part),
            None => None,
        }
    }

    // The latest part, if it is a field, with its key.
    fn pop_field(&mut self) -> Option<(Key, Expr)>
        ensures { IfSome result (λ f. finished self.old ≡ keyed f.0.at f.0.text f.1 ∷ finished self.new) }
    {
        match self.parts.pop() {
            Some(part) => field(part),
            None => None,
        }
    }

    // The part before the latest one, and the latest.
    fn pop_pair(&mut self) -> Option<(Expr, Expr)>
        ensures { IfSome result (λ p. finished self.old ≡ unkeyed p.1 ∷ unkeyed p.0 ∷ finished self.new) }
    {
        let right = self.pop()?;
        let left = self.pop()?;
        Some((left, right))
    }

    // The latest three, in their order.
    fn pop_triple(&mut self) -> Option<(Expr, Expr, Expr)>
        ensures { IfSome result (λ p. finished self.old
            ≡ unkeyed p.2 ∷ unkeyed p.1 ∷ unkeyed p.0 ∷ finished self.new) }
    {
        let last = self.pop()?;
        let (first, second) = self.pop_pair()?;
        Some((first, second, last))
    }

    // Puts the part before the others, where it stands.
    fn put(&mut self, part: Expr, loc: Loc) -> Result<(), AllocError>
        ensures { OnOk result (Puts (node_of part) loc.start loc.end (finished self.old) (finished self.new)) }
    {
        let expr = part.with_maybe_source_loc(Some(loc));
        self.push(Part { key: None, expr })?;
        Ok(())
    }

    /// Takes the step.
    pub(crate) fn take(
        &mut self,
        alloc: Global,
        source: &Source,
        step: Step,
    ) -> Result<(), ReadError>
        ensures ok { IfOk result
            (λ _. Keeps source.now step.what step.start step.end (finished self.old) (finished self.new)) }
        ensures err { IfErr result (λ e. (ts : List Tree) → Are source.now (finished self.old) ts →
            IsRefusedOn source.now ts step.what e) }
    {
        let loc = Loc {
            start: step.start,
            end: step.end,
        };
        match step.what {
            What::Leaf(leaf) => self.leaf(alloc, source, leaf, loc),
            What::Unary(unary) => self.unary(alloc, source, unary, loc),
            What::Binary(binary) => self.binary(alloc, source, binary, loc),
            What::If => self.conditional(alloc, source, loc),
            What::Field(at) => self.field(alloc, source, at),
            What::Bracketed(bracketed, count) => {
                self.in_brackets(alloc, source, bracketed, count, loc)
            }
        }
    }

    fn leaf(
        &mut self,
        alloc: Global,
        source: &Source,
        leaf: Leaf,
        loc: Loc,
    ) -> Result<(), ReadError>
        ensures ok { IfOk result
            (λ _. Keeps source.now (what.Leaf leaf) loc.start loc.end (finished self.old)
            (finished self.new)) }
        ensures err { IfErr result (IsRefused source.now) }
    {
        let made = nodes::leaf(alloc, source, leaf, loc)?;
        self.put(made, loc)?;
        Ok(())
    }

    fn unary(
        &mut self,
        alloc: Global,
        source: &Source,
        unary: Unary,
        loc: Loc,
    ) -> Result<(), ReadError>
        ensures ok { IfOk result
            (λ _. Keeps source.now (what.Unary unary) loc.start loc.end (finished self.old)
            (finished self.new)) }
        ensures err { IfErr result (IsRefused source.now) }
    {
        match self.pop() {
            Some(part) => {
                let made = nodes::unary(alloc, source, unary, part)?;
                self.put(made, loc)?;
                Ok(())
            }
            None => Err(ill_made(source)),
        }
    }

    fn binary(
        &mut self,
        alloc: Global,
        source: &Source,
        binary: Binary,
        loc: Loc,
    ) -> Result<(), ReadError>
        ensures ok { IfOk result
            (λ _. Keeps source.now (what.Binary binary) loc.start loc.end (finished self.old)
            (finished self.new)) }
        ensures err { IfErr result (IsRefused source.now) }
    {
        match self.pop_pair() {
            Some((left, right)) => {
                let made = nodes::binary(alloc, source, binary, left, right, loc)?;
                self.put(made, loc)?;
                Ok(())
            }
            None => Err(ill_made(source)),
        }
    }

    fn conditional(&mut self, alloc: Global, source: &Source, loc: Loc) -> Result<(), ReadError>
        ensures ok { IfOk result
            (λ _. Keeps source.now what.If loc.start loc.end (finished self.old) (finished self.new)) }
        ensures err { IfErr result (IsRefused source.now) }
    {
        match self.pop_triple() {
            Some((test, then, otherwise)) => {
                let made = Expr::ite(alloc, test, then, otherwise)?;
                self.put(made, loc)?;
                Ok(())
            }
            None => Err(ill_made(source)),
        }
    }

    // Puts the latest part under the key that this token names.
    fn field(&mut self, alloc: Global, source: &Source, at: usize) -> Result<(), ReadError>
        ensures ok { IfOk result (λ _. (s e : ℕ) →
            Keeps source.now (what.Field at) s e (finished self.old) (finished self.new)) }
        ensures err { IfErr result (IsRefused source.now) }
    {
        match self.pop() {
            Some(expr) => {
                let key = leaves::key(alloc, source, at)?;
                self.push(Part {
                    key: Some(Key { at, text: key }),
                    expr,
                })?;
                Ok(())
            }
            None => Err(ill_made(source)),
        }
    }

    fn in_brackets(
        &mut self,
        alloc: Global,
        source: &Source,
        bracketed: Bracketed,
        count: usize,
        loc: Loc,
    ) -> Result<(), ReadError>
        ensures ok { IfOk result (λ _. Keeps source.now (what.Bracketed bracketed count) loc.start loc.end
            (finished self.old) (finished self.new)) }
        ensures err { IfErr result (λ e. (ts : List Tree) → Are source.now (finished self.old) ts →
            IsRefusedOn source.now ts (what.Bracketed bracketed count) e) }
    {
        match bracketed {
            Bracketed::Record => self.record(alloc, source, count, loc),
            Bracketed::Set => self.list(alloc, source, bracketed, count, loc),
            Bracketed::Call(_, _) => self.list(alloc, source, bracketed, count, loc),
            Bracketed::Method(_) => self.list(alloc, source, bracketed, count, loc),
        }
    }

    fn list(
        &mut self,
        alloc: Global,
        source: &Source,
        bracketed: Bracketed,
        count: usize,
        loc: Loc,
    ) -> Result<(), ReadError>
        ensures ok { IfOk result (λ _. Keeps source.now (what.Bracketed bracketed count) loc.start loc.end
            (finished self.old) (finished self.new)) }
        ensures err { IfErr result (IsRefused source.now) }
    {
        let parts = self.latest(alloc, source, count)?;
        let made = nodes::make_bracketed(alloc, source, bracketed, parts)?;
        self.put(made, loc)?;
        Ok(())
    }

    // The latest parts, so many, in their order.
    fn latest(
        &mut self,
        alloc: Global,
        source: &Source,
        count: usize,
    ) -> Result<Vec<Expr>, ReadError>
        ensures parts { IfOk result
            (λ xs. finished self.old ≡ all_unkeyed (reverse xs.items) ++ finished self.new) }
        ensures count { IfOk result (λ xs. length xs.items ≡ count) }
        ensures err { IfErr result (IsRefused source.now) }
    {
        let mut parts: Vec<Expr> = Vec::new(alloc);
        for _ in 0..count {
            match self.pop() {
                Some(part) => parts.push(part)?,
                None => return Err(ill_made(source)),
            }
        }
        parts.reverse();
        Ok(parts)
    }

    fn record(
        &mut self,
        alloc: Global,
        source: &Source,
        count: usize,
        loc: Loc,
    ) -> Result<(), ReadError>
        ensures ok { IfOk result (λ _. Keeps source.now
            (what.Bracketed bracketed.Record count) loc.start loc.end
            (finished self.old) (finished self.new)) }
        ensures err { IfErr result (λ e. (ts : List Tree) → Are source.now (finished self.old) ts →
            IsRefusedOn source.now ts (what.Bracketed bracketed.Record count) e) }
    {
        let fields = self.latest_fields(alloc, source, count)?;
        let Fields { at, pairs } = fields;
        match Expr::record(alloc, pairs) {
            Ok(made) => {
                self.put(made, loc)?;
                Ok(())
            }
            Err(error) => Err(refuse_record(alloc, source, &at, error)),
        }
    }

    // The latest fields, so many, in their order.
    fn latest_fields(
        &mut self,
        alloc: Global,
        source: &Source,
        count: usize,
    ) -> Result<Fields, ReadError>
        ensures parts { IfOk result
            (λ f. finished self.old ≡ all_keyed (reverse f.at.items) (reverse f.pairs.items) ++ finished self.new) }
        ensures count { IfOk result (λ f. length f.at.items ≡ count) }
        ensures pairs { IfOk result (λ f. length f.pairs.items ≡ count) }
        ensures err { IfErr result (IsRefused source.now) }
    {
        let mut tokens_of_keys: Vec<usize> = Vec::new(alloc);
        let mut pairs: Vec<(RcStr, Expr)> = Vec::new(alloc);
        for _ in 0..count {
            match self.pop_field() {
                Some((key, expr)) => {
                    tokens_of_keys.push(key.at)?;
                    pairs.push((key.text, expr))?;
                }
                None => return Err(ill_made(source)),
            }
        }
        tokens_of_keys.reverse();
        pairs.reverse();
        Ok(Fields {
            at: tokens_of_keys,
            pairs,
        })
    }
}

// The part's expression, if it is no field.
fn whole(part: Part) -> Option<Expr>
    ensures { IfSome result (λ x. part ≡ unkeyed x) }
{
    let Part { key, expr } = part;
    match key {
        None => Some(expr),
        Some(_) => None,
    }
}

// The field's key and its expression, if the part is a field.
fn field(part: Part) -> Option<(Key, Expr)>
    ensures { IfSome result (λ f. part ≡ keyed f.0.at f.0.text f.1) }
{
    let Part { key, expr } = part;
    match key {
        Some(key) => Some((key, expr)),
        None => None,
    }
}

// Why there is no record of fields under the keys that these tokens name.
fn refuse_record(
    alloc: Global,
    source: &Source,
    keys: &[usize],
    error: ExpressionConstructionError,
) -> ReadError
    ensures { IsRecordRefused source.now keys.now result }
{
    match error {
        ExpressionConstructionError::DuplicateKey { key, context: _ } => {
            match key_again(alloc, source, keys, &key) {
                Ok(Some(at)) => wanted_at(source, at, Expected::NewKey),
                Ok(None) => ill_made(source),
                Err(error) => error,
            }
        }
        ExpressionConstructionError::Memory(_) => ReadError::Memory,
    }
}

// The token that is the second to name this key.
fn key_again(
    alloc: Global,
    source: &Source,
    keys: &[usize],
    key: &str,
) -> Result<Option<usize>, ReadError>
    ensures ok { IfOk result (λ found. IfSome found (IsKeyAgain source.now keys.now)) }
    ensures err { IfErr result (IsRefused source.now) }
{
    match named_from(alloc, source, keys, 0, key)? {
        Some(first) => key_behind(alloc, source, keys, first, key),
        None => Ok(None),
    }
}

// The token behind number `first`, which names the key, that names it again.
fn key_behind(
    alloc: Global,
    source: &Source,
    keys: &[usize],
    first: usize,
    key: &str,
) -> Result<Option<usize>, ReadError>
    requires first { IsNamedFrom source.now keys.now 0 key.now first }
    ensures ok { IfOk result (λ found. IfSome found (IsKeyAgain source.now keys.now)) }
    ensures err { IfErr result (IsRefused source.now) }
{
    let found = named_from(alloc, source, keys, first + 1, key)?;
    match found {
        Some(second) => Ok(Some(keys[second])),
        None => Ok(None),
    }
}

// Which of the tokens, from number `from` on, is the first to name the key.
fn named_from(
    alloc: Global,
    source: &Source,
    keys: &[usize],
    from: usize,
    key: &str,
) -> Result<Option<usize>, ReadError>
    ensures ok { IfOk result
        (λ found. IfSome found (IsNamedFrom source.now keys.now from key.now)) }
    ensures err { IfErr result (IsRefused source.now) }
{
    for n in from..keys.len() {
        let named = leaves::key(alloc, source, keys[n])?;
        if is_same(&named, key) {
            return Ok(Some(n));
        }
    }
    Ok(None)
}

fn is_same(named: &RcStr, key: &str) -> bool
    ensures { result ≡ true → rc_str_bytes named.now ≡ key.now }
{
    named.as_str() == key
}
