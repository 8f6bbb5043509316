//! The steps that were written so far.
ghost use Rattle.std.specs.Prelude.{◌≡◌, ◌∷◌, ◌≤◌, [], length, IfOk, IfErr};
ghost use Rattle.cedar_text_lexer.specs.declared.tokens.Token.{Token};
ghost use Rattle.cedar_text_syntax.specs.Places.{IsPlaced};
ghost use Rattle.cedar_text_syntax.specs.Trees.{Tree, trees, made, parts_of, FindParts, FindParts-prop};

use crate::steps::{Step, What};
use cedar_text_lexer::errors::ReadError;
use cedar_text_lexer::tokens::Token;
use std::alloc::Global;

#[derive(Drop)]
pub(crate) struct Written {
    pub(crate) steps: Vec<Step>,
    ghost made: { FindParts [] steps.items } by { FindParts-prop [] steps.items },
}

impl Written {
    pub(crate) fn new(alloc: Global) -> Written
        ensures { trees result.steps.items ≡ [] }
    {
        Written {
            steps: Vec::new(alloc),
        }
    }

    /// Puts the step behind the others.
    #[tactic(auto, using(crate::proofs::Making::trees_push, crate::proofs::Parts::found))]
    pub(crate) fn put(
        &mut self,
        tokens: &[Token],
        what: What,
        start: usize,
        end: usize,
    ) -> Result<(), ReadError>
        requires { parts_of what ≤ length (trees self.old.steps.items) }
        ensures ok { IfOk result (λ _. trees self.new.steps.items ≡ made what start end (trees self.old.steps.items)) }
        ensures err { IfErr result (λ error. IsPlaced tokens.now error) }
    {
        match self.steps.push(Step { what, start, end }) {
            Ok(()) => Ok(()),
            Err(_) => Err(ReadError::Memory),
        }
    }

    /// Puts the steps that make a tree of their own behind the others.
    pub(crate) fn append(&mut self, tokens: &[Token], more: &[Step]) -> Result<(), ReadError>
        requires { FindParts [] more.now }
        ensures ok { (p : Tree) → IfOk result (λ _. trees more.now ≡ p ∷ [] →
            trees self.new.steps.items ≡ p ∷ trees self.old.steps.items) }
        ensures err { IfErr result (λ error. IsPlaced tokens.now error) }
    {
        match self.steps.extend_from_slice(more) {
            Ok(()) => Ok(()),
            Err(_) => Err(ReadError::Memory),
        }
    }
}
