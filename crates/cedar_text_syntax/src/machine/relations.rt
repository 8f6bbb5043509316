//! Relations whose right side is no expression: `has`, `like` and `is`.
ghost use Rattle.std.specs.Prelude.{◌≡◌, ◌+◌, ◌<◌, ◌≤◌, length, IfOk};
ghost use Rattle.cedar_text_syntax.specs.Levels.{awaited};
ghost use Rattle.cedar_text_syntax.specs.Reading.{Reads};
ghost use Rattle.cedar_text_syntax.specs.Standing.{look, Stands};

use crate::frames::Wait;
use crate::levels;
use crate::machine::work::Work;
use crate::machine::{Refusal, State};
use crate::steps::{Unary, What};
use cedar_text_lexer::errors::{Expected, name_for};
use cedar_text_lexer::sequence::{end_at, is_identifier_at, is_name_at, kind_at, start_at};
use cedar_text_lexer::tokens::{Kind, Token};

impl Work {
    // Makes of the part the left side of a relation.
    pub(super) fn relate(&mut self, tokens: &[Token], index: usize) -> Result<(), Refusal>
        requires reads { Reads tokens.now (look self.old) index }
        ensures limit { self.new.limit ≡ self.old.limit }
        ensures low { IfOk result (λ _. self.new.level ≤ 4) }
        ensures awaits { IfOk result (λ _. 5 < awaited self.new.frames) }
        ensures reads { IfOk result (λ _. Reads tokens.now (look self.new) index) }
    {
        if self.level > levels::SUM {
            return Err(Refusal::Expected(Expected::NoSecondRelation));
        }
        self.reduce(levels::SUM, tokens, index)?;
        if self.frames.awaited() <= levels::RELATION {
            return Err(Refusal::Expected(Expected::NoSecondRelation));
        }
        Ok(())
    }

    pub(super) fn has(&mut self, tokens: &[Token], index: usize) -> Result<State, Refusal>
        requires within { index < length tokens.now }
        requires stands { Stands tokens.now State.Has (look self.old) index }
        ensures limit { self.new.limit ≡ self.old.limit }
        ensures ok { IfOk result (λ next. Stands tokens.now next (look self.new) (index + 1)) }
    {
        match kind_at(tokens, index) {
            Kind::Text => {
                let end = end_at(tokens, index);
                let what = What::Unary(Unary::Has(index, index + 1));
                self.make(what, levels::RELATION, self.start, end, self.height, 1)?;
                Ok(State::Operator)
            }
            _ => self.read_has_identifier(tokens, index),
        }
    }

    fn read_has_identifier(&mut self, tokens: &[Token], index: usize) -> Result<State, Refusal>
        requires within { index < length tokens.now }
        requires stands { Stands tokens.now State.Has (look self.old) index }
        ensures limit { self.new.limit ≡ self.old.limit }
        ensures ok { IfOk result (λ next. Stands tokens.now next (look self.new) (index + 1)) }
    {
        if is_identifier_at(tokens, index) {
            Ok(State::HasMore(index, end_at(tokens, index)))
        } else {
            Err(Refusal::Expected(Expected::Attribute))
        }
    }

    pub(super) fn read_has_more(
        &mut self,
        from: usize,
        end: usize,
        tokens: &[Token],
        index: usize,
    ) -> Result<State, Refusal>
        requires within { index < length tokens.now }
        requires stands { Stands tokens.now (State.HasMore from end) (look self.old) index }
        ensures limit { self.new.limit ≡ self.old.limit }
        ensures ok { IfOk result (λ next. Stands tokens.now next (look self.new) (index + 1)) }
    {
        match kind_at(tokens, index) {
            Kind::Dot => Ok(State::HasDot(from)),
            _ => self.read_has_attributes(from, end, tokens, index),
        }
    }

    fn read_has_attributes(
        &mut self,
        from: usize,
        end: usize,
        tokens: &[Token],
        index: usize,
    ) -> Result<State, Refusal>
        requires within { index < length tokens.now }
        requires stands { Stands tokens.now (State.HasMore from end) (look self.old) index }
        ensures limit { self.new.limit ≡ self.old.limit }
        ensures ok { IfOk result (λ next. Stands tokens.now next (look self.new) (index + 1)) }
    {
        let what = What::Unary(Unary::Has(from, index));
        self.make(what, levels::RELATION, self.start, end, self.height, 1)?;
        self.operator(tokens, index)
    }

    pub(super) fn read_has_dot(
        &mut self,
        from: usize,
        tokens: &[Token],
        index: usize,
    ) -> Result<State, Refusal>
        requires within { index < length tokens.now }
        requires stands { Stands tokens.now (State.HasDot from) (look self.old) index }
        ensures limit { self.new.limit ≡ self.old.limit }
        ensures ok { IfOk result (λ next. Stands tokens.now next (look self.new) (index + 1)) }
    {
        if is_identifier_at(tokens, index) {
            Ok(State::HasMore(from, end_at(tokens, index)))
        } else {
            Err(Refusal::Expected(Expected::Attribute))
        }
    }

    pub(super) fn like(&mut self, tokens: &[Token], index: usize) -> Result<State, Refusal>
        requires within { index < length tokens.now }
        requires stands { Stands tokens.now State.Like (look self.old) index }
        ensures limit { self.new.limit ≡ self.old.limit }
        ensures ok { IfOk result (λ next. Stands tokens.now next (look self.new) (index + 1)) }
    {
        match kind_at(tokens, index) {
            Kind::Text => {
                let end = end_at(tokens, index);
                let what = What::Unary(Unary::Like(index));
                self.make(what, levels::RELATION, self.start, end, self.height, 1)?;
                Ok(State::Operator)
            }
            _ => Err(Refusal::Expected(Expected::Text)),
        }
    }

    pub(super) fn is(&mut self, tokens: &[Token], index: usize) -> Result<State, Refusal>
        requires within { index < length tokens.now }
        requires stands { Stands tokens.now State.Is (look self.old) index }
        ensures limit { self.new.limit ≡ self.old.limit }
        ensures ok { IfOk result (λ next. Stands tokens.now next (look self.new) (index + 1)) }
    {
        if is_name_at(tokens, index) {
            let start = start_at(tokens, index);
            let end = end_at(tokens, index);
            Ok(State::IsMore(index, start, end))
        } else {
            let what = name_for(Expected::Name, kind_at(tokens, index));
            Err(Refusal::Expected(what))
        }
    }

    pub(super) fn read_is_path(
        &mut self,
        from: usize,
        start: usize,
        tokens: &[Token],
        index: usize,
    ) -> Result<State, Refusal>
        requires within { index < length tokens.now }
        requires stands { Stands tokens.now (State.IsPath from start) (look self.old) index }
        ensures limit { self.new.limit ≡ self.old.limit }
        ensures ok { IfOk result (λ next. Stands tokens.now next (look self.new) (index + 1)) }
    {
        if is_name_at(tokens, index) {
            Ok(State::IsMore(from, start, end_at(tokens, index)))
        } else {
            let what = name_for(Expected::Name, kind_at(tokens, index));
            Err(Refusal::Expected(what))
        }
    }

    pub(super) fn read_is_more(
        &mut self,
        from: usize,
        start: usize,
        end: usize,
        tokens: &[Token],
        index: usize,
    ) -> Result<State, Refusal>
        requires within { index < length tokens.now }
        requires stands { Stands tokens.now (State.IsMore from start end) (look self.old) index }
        ensures limit { self.new.limit ≡ self.old.limit }
        ensures ok { IfOk result (λ next. Stands tokens.now next (look self.new) (index + 1)) }
    {
        match kind_at(tokens, index) {
            Kind::Colons => Ok(State::IsPath(from, start)),
            Kind::In => {
                self.wait(Wait::IsIn(from, index), self.start, self.height)?;
                Ok(State::Operand)
            }
            _ => self.read_is_type(from, start, end, tokens, index),
        }
    }

    fn read_is_type(
        &mut self,
        from: usize,
        start: usize,
        end: usize,
        tokens: &[Token],
        index: usize,
    ) -> Result<State, Refusal>
        requires within { index < length tokens.now }
        requires stands { Stands tokens.now (State.IsMore from start end) (look self.old) index }
        ensures limit { self.new.limit ≡ self.old.limit }
        ensures ok { IfOk result (λ next. Stands tokens.now next (look self.new) (index + 1)) }
    {
        let what = What::Unary(Unary::Is(from, index));
        self.make(what, levels::RELATION, self.start, end, self.height, 1)?;
        self.operator(tokens, index)
    }
}
