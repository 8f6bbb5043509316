//! The scope of a policy: what its principal, its action and its resource must be.
ghost use Rattle.std.specs.Prelude.{◌≡◌, ◌+◌, ◌<◌, ◌∷◌, ℕ, List, length, IfOk, IfErr, Some, true};
ghost use Rattle.cedar_text_syntax.specs.Places.{IsPlaced};
ghost use Rattle.cedar_text_lexer.specs.Sequence as Tokens;
ghost use Rattle.cedar_text_syntax.specs.Trees.{trees, Tree};
ghost use Rattle.cedar_text_syntax.specs.Grammar.{IsPath};
ghost use Rattle.cedar_text_lexer.specs.declared.tokens.Kind.TheVariants as kind;
ghost use Rattle.cedar_text_syntax.specs.PolicyGrammar as Grammar;
ghost use Rattle.cedar_text_syntax.specs.PolicyGrammar.{IsEntity, IsReference, IsSet, IsConstraint};
ghost use Rattle.cedar_text_syntax.specs.PolicyReading.{Puts, PutsEntities, PutsScope};

use crate::policies::Variable;
use crate::steps::{Binary, Bracketed, Leaf, Unary, What};
use crate::written::Written;
use crate::{Reach, accept, expect, expected_at, looking, path};
use cedar_text_lexer::errors::{Expected, ReadError};
use cedar_text_lexer::sequence::{end_at, kind_at, start_at};
use cedar_text_lexer::tokens::{Kind, Token};

// Entities were read, so many, up to this token.
#[derive(Clone, Copy)]
struct Listed {
    count: usize,
    next: usize,
}

impl Written {
    /// The scope in parentheses.
    pub(crate) fn scope(&mut self, tokens: &[Token], index: usize) -> Result<usize, ReadError>
        ensures ok { IfOk result (λ next. PutsScope tokens.now index next
            (trees self.old.steps.items) (trees self.new.steps.items)) }
        ensures err { IfErr result (λ error. IsPlaced tokens.now error) }
    {
        let principal = expect(tokens, index, Kind::OpenParen, Expected::OpenParen)?;
        let comma = self.constraint(Variable::Principal, tokens, principal)?;
        let action = expect(tokens, comma, Kind::Comma, Expected::Comma)?;
        let comma = self.constraint(Variable::Action, tokens, action)?;
        let resource = expect(tokens, comma, Kind::Comma, Expected::Comma)?;
        let close = self.constraint(Variable::Resource, tokens, resource)?;
        let next = expect(tokens, close, Kind::CloseParen, Expected::CloseParen)?;
        Ok(next)
    }

    // The constraint on a variable.
    fn constraint(
        &mut self,
        variable: Variable,
        tokens: &[Token],
        index: usize,
    ) -> Result<usize, ReadError>
        ensures ok { IfOk result (λ next. Puts (IsConstraint tokens.now variable index next)
            (trees self.old.steps.items) (trees self.new.steps.items)) }
        ensures err { IfErr result (λ error. IsPlaced tokens.now error) }
    {
        let what = looking::expected_variable(variable);
        let next = expect(tokens, index, looking::variable_kind(variable), what)?;
        self.constraint_at(variable, tokens, index, kind_at(tokens, next))
    }

    // The same, where this kind of token stands behind the variable.
    fn constraint_at(
        &mut self,
        variable: Variable,
        tokens: &[Token],
        index: usize,
        behind: Kind,
    ) -> Result<usize, ReadError>
        requires within { index < length tokens.now }
        requires is { Tokens.kind_at tokens.now index ≡ Grammar.variable_kind variable }
        ensures ok { IfOk result (λ next. Puts (IsConstraint tokens.now variable index next)
            (trees self.old.steps.items) (trees self.new.steps.items)) }
        ensures err { IfErr result (λ error. IsPlaced tokens.now error) }
    {
        match behind {
            Kind::Equal => self.read_comparison(
                Binary::Equal,
                Kind::Equal,
                variable,
                tokens,
                index,
            ),
            Kind::In => self.within(variable, tokens, index),
            Kind::Is => self.read_type_test(variable, tokens, index),
            _ => self.read_unconstrained(variable, tokens, index),
        }
    }

    fn read_unconstrained(
        &mut self,
        variable: Variable,
        tokens: &[Token],
        index: usize,
    ) -> Result<usize, ReadError>
        requires within { index < length tokens.now }
        requires is { Tokens.kind_at tokens.now index ≡ Grammar.variable_kind variable }
        ensures ok { IfOk result (λ next. Puts (IsConstraint tokens.now variable index next)
            (trees self.old.steps.items) (trees self.new.steps.items)) }
        ensures err { IfErr result (λ error. IsPlaced tokens.now error) }
    {
        let what = What::Leaf(Leaf::Bool(true));
        self.put(tokens, what, start_at(tokens, index), end_at(tokens, index))?;
        Ok(index + 1)
    }

    // The variable itself.
    fn variable(&mut self, tokens: &[Token], index: usize) -> Result<(), ReadError>
        ensures ok { IfOk result (λ _. trees self.new.steps.items ≡
            Grammar.variable_at tokens.now index ∷ trees self.old.steps.items) }
        ensures err { IfErr result (λ error. IsPlaced tokens.now error) }
    {
        let what = What::Leaf(Leaf::Variable(index));
        self.put(tokens, what, start_at(tokens, index), end_at(tokens, index))?;
        Ok(())
    }

    // The variable, a relation of this kind and what it is compared with.
    fn read_comparison(
        &mut self,
        binary: Binary,
        kind: Kind,
        variable: Variable,
        tokens: &[Token],
        index: usize,
    ) -> Result<usize, ReadError>
        requires within { index < length tokens.now }
        requires is { Tokens.kind_at tokens.now index ≡ Grammar.variable_kind variable }
        requires relation { Grammar.relation_of kind ≡ Some binary }
        ensures ok { IfOk result (λ next. Puts (IsConstraint tokens.now variable index next)
            (trees self.old.steps.items) (trees self.new.steps.items)) }
        ensures err { IfErr result (λ error. IsPlaced tokens.now error) }
    {
        let at = expect(tokens, index + 1, kind, Expected::Comma)?;
        self.variable(tokens, index)?;
        let right = self.reference(variable, tokens, at)?;
        self.put(
            tokens,
            What::Binary(binary),
            start_at(tokens, index),
            right.end,
        )?;
        Ok(right.next)
    }

    // `in` behind the variable: of an action also a list may follow.
    fn within(
        &mut self,
        variable: Variable,
        tokens: &[Token],
        index: usize,
    ) -> Result<usize, ReadError>
        requires within { index < length tokens.now }
        requires is { Tokens.kind_at tokens.now index ≡ Grammar.variable_kind variable }
        ensures ok { IfOk result (λ next. Puts (IsConstraint tokens.now variable index next)
            (trees self.old.steps.items) (trees self.new.steps.items)) }
        ensures err { IfErr result (λ error. IsPlaced tokens.now error) }
    {
        let at = expect(tokens, index + 1, Kind::In, Expected::Comma)?;
        match variable {
            Variable::Action if kind_at(tokens, at) == Kind::OpenBracket => self.in_list(
                tokens, index,
            ),
            _ => self.read_comparison(Binary::In, Kind::In, variable, tokens, index),
        }
    }

    // `action in [..]`
    fn in_list(&mut self, tokens: &[Token], index: usize) -> Result<usize, ReadError>
        requires within { index < length tokens.now }
        requires is { Tokens.kind_at tokens.now index ≡ kind.Action }
        ensures ok { IfOk result (λ next. Puts (IsConstraint tokens.now Variable.Action index next)
            (trees self.old.steps.items) (trees self.new.steps.items)) }
        ensures err { IfErr result (λ error. IsPlaced tokens.now error) }
    {
        let at = expect(tokens, index + 1, Kind::In, Expected::Comma)?;
        self.variable(tokens, index)?;
        let close = self.set(tokens, at)?;
        let end = end_at(tokens, close);
        self.put(
            tokens,
            What::Binary(Binary::In),
            start_at(tokens, index),
            end,
        )?;
        let next = expect(tokens, close, Kind::CloseBracket, Expected::CommaOrClose)?;
        Ok(next)
    }

    // `is` behind the variable.
    fn read_type_test(
        &mut self,
        variable: Variable,
        tokens: &[Token],
        index: usize,
    ) -> Result<usize, ReadError>
        requires within { index < length tokens.now }
        requires is { Tokens.kind_at tokens.now index ≡ Grammar.variable_kind variable }
        ensures ok { IfOk result (λ next. Puts (IsConstraint tokens.now variable index next)
            (trees self.old.steps.items) (trees self.new.steps.items)) }
        ensures err { IfErr result (λ error. IsPlaced tokens.now error) }
    {
        if looking::has_type(variable) {
            self.of_type(variable, tokens, index)
        } else {
            self.read_unconstrained(variable, tokens, index)
        }
    }

    fn of_type(
        &mut self,
        variable: Variable,
        tokens: &[Token],
        index: usize,
    ) -> Result<usize, ReadError>
        requires within { index < length tokens.now }
        requires is { Tokens.kind_at tokens.now index ≡ Grammar.variable_kind variable }
        requires typed { Grammar.has_type variable ≡ true }
        ensures ok { IfOk result (λ next. Puts (IsConstraint tokens.now variable index next)
            (trees self.old.steps.items) (trees self.new.steps.items)) }
        ensures err { IfErr result (λ error. IsPlaced tokens.now error) }
    {
        let name = expect(tokens, index + 1, Kind::Is, Expected::Comma)?;
        let path = looking::type_name(tokens, name)?;
        if kind_at(tokens, path.next) == Kind::In {
            return self.of_type_in(variable, tokens, index, path);
        }
        self.variable(tokens, index)?;
        let what = What::Unary(Unary::Is(name, path.next));
        self.put(tokens, what, start_at(tokens, index), path.end)?;
        Ok(path.next)
    }

    // `is T in`, where the name of the type reaches so far.
    fn of_type_in(
        &mut self,
        variable: Variable,
        tokens: &[Token],
        index: usize,
        path: Reach,
    ) -> Result<usize, ReadError>
        requires within { index < length tokens.now }
        requires is { Tokens.kind_at tokens.now index ≡ Grammar.variable_kind variable }
        requires typed { Grammar.has_type variable ≡ true }
        requires behind { Tokens.kind_at tokens.now (index + 1) ≡ kind.Is }
        requires path { IsPath tokens.now (index + 1 + 1) path.next
            (Tokens.start_at tokens.now (index + 1 + 1)) path.end }
        ensures ok { IfOk result (λ next. Puts (IsConstraint tokens.now variable index next)
            (trees self.old.steps.items) (trees self.new.steps.items)) }
        ensures err { IfErr result (λ error. IsPlaced tokens.now error) }
    {
        let name = expect(tokens, index + 1, Kind::Is, Expected::Comma)?;
        let at = expect(tokens, path.next, Kind::In, Expected::Comma)?;
        self.variable(tokens, index)?;
        let right = self.reference(variable, tokens, at)?;
        let what = What::Binary(Binary::IsIn(name, path.next));
        self.put(tokens, what, start_at(tokens, index), right.end)?;
        Ok(right.next)
    }

    // An entity, or the slot of the variable.
    fn reference(
        &mut self,
        variable: Variable,
        tokens: &[Token],
        index: usize,
    ) -> Result<Reach, ReadError>
        ensures ok { IfOk result (λ r. Puts (IsReference tokens.now variable index r.next r.end)
            (trees self.old.steps.items) (trees self.new.steps.items)) }
        ensures err { IfErr result (λ error. IsPlaced tokens.now error) }
    {
        if index < tokens.len() && looking::is_slot_of(variable, kind_at(tokens, index)) {
            let end = end_at(tokens, index);
            let what = What::Leaf(Leaf::Slot(index));
            self.put(tokens, what, start_at(tokens, index), end)?;
            Ok(Reach {
                next: index + 1,
                end,
            })
        } else {
            self.entity_for(variable, tokens, index)
        }
    }

    fn entity_for(
        &mut self,
        variable: Variable,
        tokens: &[Token],
        index: usize,
    ) -> Result<Reach, ReadError>
        ensures ok { IfOk result (λ r. Puts (IsReference tokens.now variable index r.next r.end)
            (trees self.old.steps.items) (trees self.new.steps.items)) }
        ensures err { IfErr result (λ error. IsPlaced tokens.now error) }
    {
        let what = match variable {
            Variable::Action => Expected::Entity,
            _ => Expected::EntityOrSlot,
        };
        let reach = self.entity(tokens, index, what)?;
        Ok(reach)
    }

    fn entity(&mut self, tokens: &[Token], index: usize, what: Expected) -> Result<Reach, ReadError>
        ensures ok { IfOk result (λ r. Puts (IsEntity tokens.now index r.next r.end)
            (trees self.old.steps.items) (trees self.new.steps.items)) }
        ensures err { IfErr result (λ error. IsPlaced tokens.now error) }
    {
        let path = path(tokens, index, what)?;
        let id = expect(tokens, path.next, Kind::Colons, Expected::Id)?;
        let next = expect(tokens, id, Kind::Text, Expected::NameOrId)?;
        let end = end_at(tokens, id);
        let what = What::Leaf(Leaf::Entity(index, id));
        self.put(tokens, what, start_at(tokens, index), end)?;
        Ok(Reach { next, end })
    }

    // Entities in brackets; the number of the token that closes them.
    fn set(&mut self, tokens: &[Token], index: usize) -> Result<usize, ReadError>
        ensures ok { IfOk result (λ close. Puts (IsSet tokens.now index close)
            (trees self.old.steps.items) (trees self.new.steps.items)) }
        ensures err { IfErr result (λ error. IsPlaced tokens.now error) }
    {
        let first = expect(tokens, index, Kind::OpenBracket, Expected::Entity)?;
        match accept(tokens, first, Kind::CloseBracket) {
            Some(_) => {
                let what = What::Bracketed(Bracketed::Set, 0);
                self.put(tokens, what, start_at(tokens, index), end_at(tokens, first))?;
                Ok(first)
            }
            None => {
                let close = self.filled_set(tokens, index, first)?;
                Ok(close)
            }
        }
    }

    fn filled_set(
        &mut self,
        tokens: &[Token],
        index: usize,
        first: usize,
    ) -> Result<usize, ReadError>
        requires is { Tokens.kind_at tokens.now index ≡ kind.OpenBracket }
        requires next { first ≡ index + 1 }
        ensures ok { IfOk result (λ close. Puts (IsSet tokens.now index close)
            (trees self.old.steps.items) (trees self.new.steps.items)) }
        ensures err { IfErr result (λ error. IsPlaced tokens.now error) }
    {
        let listed = self.entities(tokens, first)?;
        let close = listed.next;
        expect(tokens, close, Kind::CloseBracket, Expected::CommaOrClose)?;
        let what = What::Bracketed(Bracketed::Set, listed.count);
        self.put(tokens, what, start_at(tokens, index), end_at(tokens, close))?;
        Ok(close)
    }

    // Entities with commas between them.
    fn entities(&mut self, tokens: &[Token], index: usize) -> Result<Listed, ReadError>
        ensures ok { IfOk result (λ l. PutsEntities tokens.now index l.next l.count
            (trees self.old.steps.items) (trees self.new.steps.items)) }
        ensures err { IfErr result (λ error. IsPlaced tokens.now error) }
    {
        let first = self.entity(tokens, index, Expected::Entity)?;
        let mut next = first.next;
        for done in 0..tokens.len() {
            if kind_at(tokens, next) != Kind::Comma {
                return Ok(Listed {
                    count: done + 1,
                    next,
                });
            }
            next = self.another_entity(tokens, next)?;
        }
        Err(expected_at(tokens, next, Expected::CommaOrClose))
    }

    // A comma and an entity more.
    fn another_entity(&mut self, tokens: &[Token], index: usize) -> Result<usize, ReadError>
        ensures ok { (i n : ℕ) (ts : List Tree) → IfOk result (λ next.
            PutsEntities tokens.now i index n ts (trees self.old.steps.items) →
            PutsEntities tokens.now i next (n + 1) ts (trees self.new.steps.items)) }
        ensures err { IfErr result (λ error. IsPlaced tokens.now error) }
    {
        let at = expect(tokens, index, Kind::Comma, Expected::CommaOrClose)?;
        let entity = self.entity(tokens, at, Expected::Entity)?;
        Ok(entity.next)
    }
}
