//! Names, attributes, indices and calls.
ghost use Rattle.std.specs.Prelude.{◌≡◌, ◌+◌, ◌<◌, ◌≤◌, length, IfOk};
ghost use Rattle.cedar_text_syntax.specs.Grammar as Grammar;
ghost use Rattle.cedar_text_syntax.specs.Reading.{IsAwaiting, Reads};
ghost use Rattle.cedar_text_syntax.specs.Standing.{look, Stands};
ghost use Rattle.cedar_text_lexer.specs.Sequence as Tokens;
ghost use Rattle.cedar_text_lexer.specs.declared.tokens.Kind.TheVariants as kind;

use crate::frames::Wait;
use crate::levels;
use crate::machine::work::Work;
use crate::machine::{Refusal, State, leaf_at};
use crate::steps::{Bracketed, Leaf, Unary, What};
use cedar_text_lexer::errors::{Expected, name_for};
use cedar_text_lexer::sequence::{end_at, is_identifier_at, is_name_at, kind_at, start_at};
use cedar_text_lexer::tokens::{Kind, Token};

impl Work {
    // What follows the name that stands from the token `from` up to this one.
    pub(super) fn name(
        &mut self,
        from: usize,
        start: usize,
        end: usize,
        tokens: &[Token],
        index: usize,
    ) -> Result<State, Refusal>
        requires within { index < length tokens.now }
        requires stands { Stands tokens.now (State.Name from start end) (look self.old) index }
        ensures limit { self.new.limit ≡ self.old.limit }
        ensures ok { IfOk result (λ next. Stands tokens.now next (look self.new) (index + 1)) }
    {
        match kind_at(tokens, index) {
            Kind::Colons => Ok(State::Path(from, start)),
            Kind::OpenParen => {
                self.wait(Wait::Item(Bracketed::Call(from, index), 0), start, 0)?;
                Ok(State::First)
            }
            _ => self.variable(from, tokens, index),
        }
    }

    // A name that is no type and no function is a variable.
    fn variable(&mut self, from: usize, tokens: &[Token], index: usize) -> Result<State, Refusal>
        requires within { index < length tokens.now }
        requires waits { IsAwaiting tokens.now (look self.old) from }
        ensures limit { self.new.limit ≡ self.old.limit }
        ensures ok { IfOk result (λ next. Stands tokens.now next (look self.new) (index + 1)) }
    {
        if from >= index {
            return Err(Refusal::Expected(Expected::Name));
        }
        if index - from != 1 {
            return Err(Refusal::Expected(Expected::Id));
        }
        self.variable_part(from, tokens, index)?;
        self.operator(tokens, index)
    }

    fn variable_part(&mut self, from: usize, tokens: &[Token], index: usize) -> Result<(), Refusal>
        requires within { index < length tokens.now }
        requires waits { IsAwaiting tokens.now (look self.old) from }
        requires next { index ≡ from + 1 }
        ensures limit { self.new.limit ≡ self.old.limit }
        ensures reads { IfOk result (λ _. Reads tokens.now (look self.new) index) }
    {
        match leaf_at(tokens, from) {
            Some(leaf) => {
                let start = start_at(tokens, from);
                let end = end_at(tokens, from);
                self.make(What::Leaf(leaf), levels::MEMBER, start, end, 0, 1)?;
                Ok(())
            }
            None => Err(Refusal::Expected(Expected::Name)),
        }
    }

    // The id of an entity, or one more identifier of a name.
    pub(super) fn path(
        &mut self,
        from: usize,
        start: usize,
        tokens: &[Token],
        index: usize,
    ) -> Result<State, Refusal>
        requires within { index < length tokens.now }
        requires stands { Stands tokens.now (State.Path from start) (look self.old) index }
        ensures limit { self.new.limit ≡ self.old.limit }
        ensures ok { IfOk result (λ next. Stands tokens.now next (look self.new) (index + 1)) }
    {
        match kind_at(tokens, index) {
            Kind::Text => {
                let what = What::Leaf(Leaf::Entity(from, index));
                self.make(what, levels::MEMBER, start, end_at(tokens, index), 0, 1)?;
                Ok(State::Operator)
            }
            _ => self.path_identifier(from, start, tokens, index),
        }
    }

    fn path_identifier(
        &mut self,
        from: usize,
        start: usize,
        tokens: &[Token],
        index: usize,
    ) -> Result<State, Refusal>
        requires within { index < length tokens.now }
        requires stands { Stands tokens.now (State.Path from start) (look self.old) index }
        ensures limit { self.new.limit ≡ self.old.limit }
        ensures ok { IfOk result (λ next. Stands tokens.now next (look self.new) (index + 1)) }
    {
        if is_name_at(tokens, index) {
            Ok(State::Name(from, start, end_at(tokens, index)))
        } else {
            let what = name_for(Expected::NameOrId, kind_at(tokens, index));
            Err(Refusal::Expected(what))
        }
    }

    // A dot or a bracket behind a part that needs no brackets.
    pub(super) fn open_dot(&mut self, tokens: &[Token], index: usize) -> Result<State, Refusal>
        requires is { Tokens.kind_at tokens.now index ≡ kind.Dot }
        requires reads { Reads tokens.now (look self.old) index }
        ensures limit { self.new.limit ≡ self.old.limit }
        ensures ok { IfOk result (λ next. Stands tokens.now next (look self.new) (index + 1)) }
    {
        if self.level > levels::MEMBER {
            return Err(Refusal::Expected(Expected::Operator));
        }
        Ok(State::Dot)
    }

    pub(super) fn open_index(&mut self, tokens: &[Token], index: usize) -> Result<State, Refusal>
        requires is { Tokens.kind_at tokens.now index ≡ kind.OpenBracket }
        requires reads { Reads tokens.now (look self.old) index }
        ensures limit { self.new.limit ≡ self.old.limit }
        ensures ok { IfOk result (λ next. Stands tokens.now next (look self.new) (index + 1)) }
    {
        if self.level > levels::MEMBER {
            return Err(Refusal::Expected(Expected::Operator));
        }
        Ok(State::Index)
    }

    pub(super) fn dot(&mut self, tokens: &[Token], index: usize) -> Result<State, Refusal>
        requires within { index < length tokens.now }
        requires stands { Stands tokens.now State.Dot (look self.old) index }
        ensures limit { self.new.limit ≡ self.old.limit }
        ensures ok { IfOk result (λ next. Stands tokens.now next (look self.new) (index + 1)) }
    {
        if is_identifier_at(tokens, index) {
            Ok(State::Member(index))
        } else {
            Err(Refusal::Expected(Expected::Attribute))
        }
    }

    pub(super) fn member(
        &mut self,
        at: usize,
        tokens: &[Token],
        index: usize,
    ) -> Result<State, Refusal>
        requires within { index < length tokens.now }
        requires stands { Stands tokens.now (State.Member at) (look self.old) index }
        ensures limit { self.new.limit ≡ self.old.limit }
        ensures ok { IfOk result (λ next. Stands tokens.now next (look self.new) (index + 1)) }
    {
        match kind_at(tokens, index) {
            Kind::OpenParen => {
                self.wait(
                    Wait::Item(Bracketed::Method(at), 1),
                    self.start,
                    self.height,
                )?;
                Ok(State::First)
            }
            _ => self.attribute(at, tokens, index),
        }
    }

    fn attribute(&mut self, at: usize, tokens: &[Token], index: usize) -> Result<State, Refusal>
        requires within { index < length tokens.now }
        requires stands { Stands tokens.now (State.Member at) (look self.old) index }
        ensures limit { self.new.limit ≡ self.old.limit }
        ensures ok { IfOk result (λ next. Stands tokens.now next (look self.new) (index + 1)) }
    {
        let end = end_at(tokens, at);
        let what = What::Unary(Unary::Attribute(at));
        self.make(what, levels::MEMBER, self.start, end, self.height, 1)?;
        self.operator(tokens, index)
    }

    pub(super) fn index_text(&mut self, tokens: &[Token], index: usize) -> Result<State, Refusal>
        requires within { index < length tokens.now }
        requires stands { Stands tokens.now State.Index (look self.old) index }
        ensures limit { self.new.limit ≡ self.old.limit }
        ensures ok { IfOk result (λ next. Stands tokens.now next (look self.new) (index + 1)) }
    {
        match kind_at(tokens, index) {
            Kind::Text => Ok(State::IndexEnd(index)),
            _ => Err(Refusal::Expected(Expected::Text)),
        }
    }

    pub(super) fn index_end(
        &mut self,
        at: usize,
        tokens: &[Token],
        index: usize,
    ) -> Result<State, Refusal>
        requires within { index < length tokens.now }
        requires stands { Stands tokens.now (State.IndexEnd at) (look self.old) index }
        ensures limit { self.new.limit ≡ self.old.limit }
        ensures ok { IfOk result (λ next. Stands tokens.now next (look self.new) (index + 1)) }
    {
        match kind_at(tokens, index) {
            Kind::CloseBracket => {
                let end = end_at(tokens, index);
                let what = What::Unary(Unary::Attribute(at));
                self.make(what, levels::MEMBER, self.start, end, self.height, 1)?;
                Ok(State::Operator)
            }
            _ => Err(Refusal::Expected(Expected::CloseBracket)),
        }
    }
}
