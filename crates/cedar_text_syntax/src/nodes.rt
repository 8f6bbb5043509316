//! How many nodes are built of steps: `is` with `in` has its left side twice, so nested ones double what is built.
ghost use Rattle.std.specs.Prelude.{◌≡◌, ◌+◌, ◌∷◌, ◌≤◌, [], IfOk, IfErr, IfSome};
ghost use Rattle.cedar_text_syntax.specs.Nodes as Nodes;
ghost use Rattle.cedar_text_syntax.specs.Nodes.{HasAtMost, counted, joined, rest_of, sum_of};
ghost use Rattle.cedar_text_syntax.specs.Places.{IsPlaced};
ghost use Rattle.cedar_text_syntax.specs.Trees.{trees};

use crate::expecting::expected_at;
use crate::steps::{Binary, Step, What};
use cedar_text_lexer::errors::{Expected, ReadError};
use cedar_text_lexer::tokens::Token;
use std::alloc::{AllocError, Global};
use std::marker::Model;

// How many nodes are built of each part that no step has taken, the latest first.
#[derive(Drop)]
struct Counts {
    counts: Vec<usize>,
}

impl Model for Counts {
    ghost use Rattle.std.specs.Prelude.{ℕ, List, reverse};

    ghost Value = { List ℕ };

    ghost view = { λ s. reverse s.counts.items };
}

/// As many nodes as what stands from the one byte up to the other may have: sixteen for each byte. It has fewer where
/// no `is` with `in` stands on the left side of another, as no token then makes more than four, `!=` on such a side.
pub(crate) fn allowed(start: usize, end: usize) -> usize
    ensures { result ≤ Nodes.allowed start end }
{
    end.saturating_sub(start).saturating_mul(16)
}

/// Nothing, where at most so many nodes are built of what the steps make.
///
/// Errors: `Memory`; `Expected`, at the last `is` with `in` that was taken before there were more.
pub(crate) fn limit_nodes(
    alloc: Global,
    tokens: &[Token],
    steps: &[Step],
    most: usize,
) -> Result<(), ReadError>
    ensures ok { IfOk result (λ _. HasAtMost most (trees steps.now)) }
    ensures err { IfErr result (λ error. IsPlaced tokens.now error) }
{
    let mut counts = Counts::new(alloc);
    let mut last = 0;
    for step in steps {
        last = relation_of(step.what, last);
        match counts.take(step.what) {
            Some(count) if count <= most => counts.put(tokens, count)?,
            _ => return Err(expected_at(tokens, last, Expected::FewerNodes(most))),
        }
    }
    Ok(())
}

// The number of the token `is`, where the step makes of it and `in` a relation; or else of the last one.
fn relation_of(what: What, last: usize) -> usize {
    match what {
        What::Binary(Binary::IsIn(from, _)) => from.saturating_sub(1),
        _ => last,
    }
}

// How many nodes an operator makes of parts with so many, where a number holds them.
fn join(binary: Binary, left: usize, right: usize) -> Option<usize>
    ensures { IfSome result (λ n. n ≡ joined binary left right) }
{
    match binary {
        Binary::IsIn(_, _) => left.checked_add(left)?.checked_add(right)?.checked_add(3),
        Binary::Or
        | Binary::And
        | Binary::Equal
        | Binary::Less
        | Binary::LessEqual
        | Binary::In
        | Binary::Add
        | Binary::Sub
        | Binary::Mul => left.checked_add(right)?.checked_add(1),
    }
}

// How many nodes an `if` has of parts with so many, where a number holds them.
fn add(test: usize, then: usize, otherwise: usize) -> Option<usize>
    ensures { IfSome result (λ n. n ≡ test + then + otherwise + 1) }
{
    test.checked_add(then)?
        .checked_add(otherwise)?
        .checked_add(1)
}

impl Counts {
    fn new(alloc: Global) -> Counts
        ensures { result ≡ [] }
    {
        Counts {
            counts: Vec::new(alloc),
        }
    }

    fn push(&mut self, count: usize) -> Result<(), AllocError>
        ensures { IfOk result (λ _. self.new ≡ count ∷ self.old) }
    {
        match self.counts.push(count) {
            Ok(()) => Ok(()),
            Err(_) => Err(AllocError),
        }
    }

    fn put(&mut self, tokens: &[Token], count: usize) -> Result<(), ReadError>
        ensures ok { IfOk result (λ _. self.new ≡ count ∷ self.old) }
        ensures err { IfErr result (λ error. IsPlaced tokens.now error) }
    {
        match self.push(count) {
            Ok(()) => Ok(()),
            Err(_) => Err(ReadError::Memory),
        }
    }

    fn pop(&mut self) -> Option<usize>
        ensures { IfSome result (λ count. self.old ≡ count ∷ self.new) }
    {
        self.counts.pop()
    }

    // Takes the parts of the step: how many nodes are built of what it makes, where a number holds them.
    fn take(&mut self, what: What) -> Option<usize>
        ensures { IfSome result (λ count. count ∷ self.new ≡ counted what self.old) }
    {
        match what {
            What::Leaf(_) => Some(1),
            What::Unary(_) => self.pop()?.checked_add(1),
            What::Binary(binary) => self.take_two(binary),
            What::If => self.take_three(),
            What::Field(_) => self.pop(),
            What::Bracketed(_, count) => self.sum(count)?.checked_add(1),
        }
    }

    fn take_two(&mut self, binary: Binary) -> Option<usize>
        ensures { IfSome result (λ count. count ∷ self.new ≡ counted (What.Binary binary) self.old) }
    {
        let right = self.pop()?;
        let left = self.pop()?;
        join(binary, left, right)
    }

    fn take_three(&mut self) -> Option<usize>
        ensures { IfSome result (λ count. count ∷ self.new ≡ counted What.If self.old) }
    {
        let otherwise = self.pop()?;
        let then = self.pop()?;
        let test = self.pop()?;
        add(test, then, otherwise)
    }

    // The sum of so many counts.
    fn sum(&mut self, count: usize) -> Option<usize>
        ensures sum { IfSome result (λ sum. sum ≡ sum_of count self.old) }
        ensures rest { IfSome result (λ _. self.new ≡ rest_of count self.old) }
    {
        let mut sum: usize = 0;
        for _done in 0..count {
            sum = sum.checked_add(self.pop()?)?;
        }
        Some(sum)
    }
}
