//! The clauses of a policy, behind its scope.
ghost use Rattle.std.specs.Prelude.{◌≡◌, ◌+◌, ◌<◌, ◌≤◌, ◌∷◌, ℕ, List, length, IfOk, IfErr, Some};
ghost use Rattle.cedar_text_syntax.specs.Places.{IsPlaced};
ghost use Rattle.cedar_text_lexer.specs.Sequence as Tokens;
ghost use Rattle.cedar_text_syntax.specs.Trees as Trees;
ghost use Rattle.cedar_text_syntax.specs.Trees.{Tree, trees};
ghost use Rattle.cedar_text_syntax.specs.Grammar.{IsInBraces};
ghost use Rattle.cedar_text_syntax.specs.PolicyGrammar as Grammar;
ghost use Rattle.cedar_text_syntax.specs.PolicyGrammar.{HasConditions};
ghost use Rattle.cedar_text_syntax.specs.PolicyReading.{Puts, PutsClause, PutsClauses};

use crate::steps::{Binary, Leaf, Sign, Unary, What};
use crate::written::Written;
use crate::{ClauseSteps, clause_steps, expect, expected_at, looking, too_deep};
use cedar_text_lexer::errors::{Expected, ReadError};
use cedar_text_lexer::sequence::{end_at, kind_at, start_at};
use cedar_text_lexer::tokens::{Kind, Token};
use std::alloc::Global;

// Clauses were read up to this token; they end before this byte, and have so many levels.
#[derive(Clone, Copy)]
struct Clause {
    next: usize,
    end: usize,
    height: usize,
}

impl Written {
    /// What stands behind the scope, up to the semicolon: the number of this.
    pub(crate) fn condition(
        &mut self,
        alloc: Global,
        tokens: &[Token],
        index: usize,
        limit: usize,
    ) -> Result<usize, ReadError>
        ensures ok { IfOk result (λ last. Puts (λ p. HasConditions tokens.now index last p × (Trees.height p ≤ limit))
            (trees self.old.steps.items) (trees self.new.steps.items)) }
        ensures within { IfOk result (λ last. last < length tokens.now) }
        ensures err { IfErr result (λ error. IsPlaced tokens.now error) }
    {
        if kind_at(tokens, index) == Kind::Semicolon {
            return self.no_clause(tokens, index, limit);
        }
        let clauses = self.clauses(alloc, tokens, index, limit)?;
        expect(tokens, clauses.next, Kind::Semicolon, Expected::Clause)?;
        Ok(clauses.next)
    }

    // A policy without clauses holds wherever its scope does.
    fn no_clause(
        &mut self,
        tokens: &[Token],
        index: usize,
        limit: usize,
    ) -> Result<usize, ReadError>
        ensures ok { IfOk result (λ last. Puts (λ p. HasConditions tokens.now index last p × (Trees.height p ≤ limit))
            (trees self.old.steps.items) (trees self.new.steps.items)) }
        ensures within { IfOk result (λ last. last < length tokens.now) }
        ensures err { IfErr result (λ error. IsPlaced tokens.now error) }
    {
        expect(tokens, index, Kind::Semicolon, Expected::Clause)?;
        if limit == 0 {
            return Err(too_deep(tokens, start_at(tokens, index), index, limit));
        }
        let what = What::Leaf(Leaf::Bool(true));
        self.put(tokens, what, start_at(tokens, index), end_at(tokens, index))?;
        Ok(index)
    }

    // Clauses, at least one.
    fn clauses(
        &mut self,
        alloc: Global,
        tokens: &[Token],
        index: usize,
        limit: usize,
    ) -> Result<Clause, ReadError>
        ensures ok { IfOk result (λ c. PutsClauses tokens.now index (Tokens.start_at tokens.now index) c.next c.end
            c.height (trees self.old.steps.items) (trees self.new.steps.items)) }
        ensures low { IfOk result (λ c. c.height ≤ limit) }
        ensures err { IfErr result (λ error. IsPlaced tokens.now error) }
    {
        let start = start_at(tokens, index);
        let mut read = self.clause(alloc, tokens, index, limit)?;
        for _ in 0..tokens.len() {
            match looking::negates(kind_at(tokens, read.next)) {
                Some(_) => read = self.another_clause(alloc, tokens, start, read, limit)?,
                None => return Ok(read),
            }
        }
        Ok(read)
    }

    // One clause more, which is joined with those before.
    fn another_clause(
        &mut self,
        alloc: Global,
        tokens: &[Token],
        start: usize,
        before: Clause,
        limit: usize,
    ) -> Result<Clause, ReadError>
        requires { 1 ≤ length (trees self.old.steps.items) }
        ensures ok { (i : ℕ) (ts : List Tree) → IfOk result (λ c.
            PutsClauses tokens.now i start before.next before.end before.height ts (trees self.old.steps.items) →
            PutsClauses tokens.now i start c.next c.end c.height ts (trees self.new.steps.items)) }
        ensures low { IfOk result (λ c. c.height ≤ limit) }
        ensures err { IfErr result (λ error. IsPlaced tokens.now error) }
    {
        let more = self.clause(alloc, tokens, before.next, limit)?;
        let below = before.height.max(more.height);
        if limit <= below {
            return Err(too_deep(tokens, start, more.next, limit));
        }
        self.put(tokens, What::Binary(Binary::And), start, more.end)?;
        Ok(Clause {
            next: more.next,
            end: more.end,
            height: below + 1,
        })
    }

    fn clause(
        &mut self,
        alloc: Global,
        tokens: &[Token],
        index: usize,
        limit: usize,
    ) -> Result<Clause, ReadError>
        ensures ok { IfOk result (λ c. PutsClause tokens.now index c.next c.end c.height
            (trees self.old.steps.items) (trees self.new.steps.items)) }
        ensures low { IfOk result (λ c. c.height ≤ limit) }
        ensures err { IfErr result (λ error. IsPlaced tokens.now error) }
    {
        match looking::negates(kind_at(tokens, index)) {
            Some(negates) if index < tokens.len() => {
                let read = clause_steps(alloc, tokens, index + 1, limit)?;
                self.append(tokens, read.steps.as_slice())?;
                let clause = self.end_braces(
                    negates,
                    tokens,
                    index,
                    read.close,
                    read.height,
                    limit,
                )?;
                Ok(clause)
            }
            _ => Err(expected_at(tokens, index, Expected::Clause)),
        }
    }

    // What was read in braces, the second of which is this token, is negated or not.
    fn end_braces(
        &mut self,
        negates: bool,
        tokens: &[Token],
        index: usize,
        close: usize,
        height: usize,
        limit: usize,
    ) -> Result<Clause, ReadError>
        requires is { Grammar.negates (Tokens.kind_at tokens.now index) ≡ Some negates }
        requires within { close < length tokens.now }
        requires low { height ≤ limit }
        requires makes { 1 ≤ length (trees self.old.steps.items) }
        ensures ok { (p : Tree) (ts : List Tree) → IfOk result (λ c. IsInBraces tokens.now (index + 1) close p →
            height ≡ Trees.height p → trees self.old.steps.items ≡ p ∷ ts →
            PutsClause tokens.now index c.next c.end c.height ts (trees self.new.steps.items)) }
        ensures low { IfOk result (λ c. c.height ≤ limit) }
        ensures err { IfErr result (λ error. IsPlaced tokens.now error) }
    {
        let start = start_at(tokens, index);
        let end = end_at(tokens, close);
        let next = close + 1;
        if negates {
            if limit <= height {
                return Err(too_deep(tokens, start, close, limit));
            }
            self.put(tokens, What::Unary(Unary::Sign(Sign::Not)), start, end)?;
            Ok(Clause {
                next,
                end,
                height: height + 1,
            })
        } else {
            Ok(Clause { next, end, height })
        }
    }
}
