//! What may follow an expression, and what is then made of the parts before.
ghost use Rattle.std.specs.Prelude.{◌≡◌, ◌+◌, ◌<◌, ◌≤◌, ◌∷◌, [], length, IfOk, IfErr};
ghost use Rattle.cedar_text_syntax.specs.Levels.{awaited, frame_level_of, lowest_of};
ghost use Rattle.cedar_text_syntax.specs.Faults as Faults;
ghost use Rattle.cedar_text_syntax.specs.Grammar as Grammar;
ghost use Rattle.cedar_text_syntax.specs.Reading.{Reads, join_made, under};
ghost use Rattle.cedar_text_syntax.specs.Standing.{look, Stands};
ghost use Rattle.cedar_text_lexer.specs.Sequence as Tokens;
ghost use Rattle.cedar_text_syntax.specs.Trees.{trees, made, signs_made};
ghost use Rattle.cedar_text_syntax.specs.declared.machine.Refusal.TheVariants as refusal;
ghost use Rattle.cedar_text_lexer.specs.declared.errors.Expected.TheVariants as wanted;
ghost use Rattle.cedar_text_lexer.specs.declared.tokens.Kind.TheVariants as kind;
ghost use Prim.Native.Nat.{max};

use crate::frames::Wait;
use crate::levels::{self, Operator};
use crate::machine::work::Work;
use crate::machine::{Refusal, State, due_at, operator_at};
use crate::steps::{Binary, Sign, Unary, What};
use cedar_text_lexer::errors::Expected;
use cedar_text_lexer::sequence::{end_at, kind_at};
use cedar_text_lexer::tokens::{Kind, Token};

impl Work {
    pub(super) fn operator(&mut self, tokens: &[Token], index: usize) -> Result<State, Refusal>
        requires within { index < length tokens.now }
        requires reads { Reads tokens.now (look self.old) index }
        ensures limit { self.new.limit ≡ self.old.limit }
        ensures ok { IfOk result (λ next. Stands tokens.now next (look self.new) (index + 1)) }
    {
        match kind_at(tokens, index) {
            Kind::Dot => self.open_dot(tokens, index),
            Kind::OpenBracket => self.open_index(tokens, index),
            Kind::Has => {
                self.relate(tokens, index)?;
                Ok(State::Has)
            }
            Kind::Like => {
                self.relate(tokens, index)?;
                Ok(State::Like)
            }
            Kind::Is => {
                self.relate(tokens, index)?;
                Ok(State::Is)
            }
            _ => self.between(tokens, index),
        }
    }

    // An operator between two parts, or the end of the part.
    fn between(&mut self, tokens: &[Token], index: usize) -> Result<State, Refusal>
        requires within { index < length tokens.now }
        requires reads { Reads tokens.now (look self.old) index }
        ensures limit { self.new.limit ≡ self.old.limit }
        ensures ok { IfOk result (λ next. Stands tokens.now next (look self.new) (index + 1)) }
    {
        match operator_at(tokens, index) {
            Some(operator) => self.infix(operator, tokens, index),
            None => self.close(tokens, index),
        }
    }

    fn infix(
        &mut self,
        operator: Operator,
        tokens: &[Token],
        index: usize,
    ) -> Result<State, Refusal>
        requires is { Grammar.operator_of (Tokens.kind_at tokens.now index) ≡ Some operator }
        requires reads { Reads tokens.now (look self.old) index }
        ensures limit { self.new.limit ≡ self.old.limit }
        ensures ok { IfOk result (λ next. Stands tokens.now next (look self.new) (index + 1)) }
    {
        if self.level > levels::left_level(operator) {
            return Err(Refusal::Expected(Expected::NoSecondRelation));
        }
        self.reduce(levels::left_level(operator), tokens, index)?;
        if levels::level(operator) >= self.frames.awaited() {
            return Err(Refusal::Expected(Expected::NoSecondRelation));
        }
        self.wait(Wait::Infix(operator), self.start, self.height)?;
        Ok(State::Operand)
    }

    fn close(&mut self, tokens: &[Token], index: usize) -> Result<State, Refusal>
        requires within { index < length tokens.now }
        requires reads { Reads tokens.now (look self.old) index }
        ensures limit { self.new.limit ≡ self.old.limit }
        ensures ok { IfOk result (λ next. Stands tokens.now next (look self.new) (index + 1)) }
    {
        if self.level > levels::CONDITIONAL {
            return Err(Refusal::Expected(Expected::Operator));
        }
        self.reduce(levels::CONDITIONAL, tokens, index)?;
        match self.frames.pop() {
            Some(frame) => self.close_frame(frame.wait, frame.start, frame.height, tokens, index),
            None => self.close_all(tokens, index),
        }
    }

    fn close_all(&mut self, tokens: &[Token], index: usize) -> Result<State, Refusal>
        requires within { index < length tokens.now }
        requires reads { Reads tokens.now (record (look self.old) { frames = [] }) index }
        ensures limit { self.new.limit ≡ self.old.limit }
        ensures ok { IfOk result (λ next. Stands tokens.now next (look self.new) (index + 1)) }
    {
        match kind_at(tokens, index) {
            Kind::End => Ok(State::Finished),
            _ => Err(Refusal::Expected(Expected::Operator)),
        }
    }

    fn close_frame(
        &mut self,
        wait: Wait,
        start: usize,
        height: usize,
        tokens: &[Token],
        index: usize,
    ) -> Result<State, Refusal>
        requires within { index < length tokens.now }
        requires reads { Reads tokens.now (under wait start height (look self.old)) index }
        ensures limit { self.new.limit ≡ self.old.limit }
        ensures ok { IfOk result (λ next. Stands tokens.now next (look self.new) (index + 1)) }
    {
        match wait {
            Wait::Paren => self.close_paren(start, height, tokens, index),
            Wait::Clause(brace) => self.close_clause(brace, start, height, tokens, index),
            Wait::If => self.then(start, height, tokens, index),
            Wait::Then => self.or_else(start, height, tokens, index),
            Wait::Item(bracketed, count) => self.close_item(
                bracketed, count, start, height, tokens, index,
            ),
            Wait::Field(at, count) => self.close_field(at, count, start, height, tokens, index),
            _ => Err(Refusal::Expected(Expected::Operator)),
        }
    }

    fn close_paren(
        &mut self,
        start: usize,
        height: usize,
        tokens: &[Token],
        index: usize,
    ) -> Result<State, Refusal>
        requires within { index < length tokens.now }
        requires reads { Reads tokens.now (under Wait.Paren start height (look self.old)) index }
        ensures limit { self.new.limit ≡ self.old.limit }
        ensures ok { IfOk result (λ next. Stands tokens.now next (look self.new) (index + 1)) }
        ensures err { IfErr result (λ r.
            r ≡ refusal.Expected (Faults.due (wanted.ClosedParen start) wanted.Operator (Tokens.kind_at tokens.now index))) }
    {
        match kind_at(tokens, index) {
            Kind::CloseParen => {
                self.level = levels::MEMBER;
                self.start = start;
                self.end = end_at(tokens, index);
                Ok(State::Operator)
            }
            _ => Err(due_at(
                Expected::ClosedParen(start),
                Expected::Operator,
                tokens,
                index,
            )),
        }
    }

    // The end of an expression in braces.
    fn close_clause(
        &mut self,
        brace: usize,
        start: usize,
        height: usize,
        tokens: &[Token],
        index: usize,
    ) -> Result<State, Refusal>
        requires within { index < length tokens.now }
        requires reads { Reads tokens.now (under (Wait.Clause brace) start height (look self.old)) index }
        ensures limit { self.new.limit ≡ self.old.limit }
        ensures ok { IfOk result (λ next. Stands tokens.now next (look self.new) (index + 1)) }
        ensures err { IfErr result (λ r.
            r ≡ refusal.Expected (Faults.due (wanted.ClosedBrace start) wanted.Operator (Tokens.kind_at tokens.now index))) }
    {
        match kind_at(tokens, index) {
            Kind::CloseBrace => Ok(State::Closed(brace)),
            _ => Err(due_at(
                Expected::ClosedBrace(start),
                Expected::Operator,
                tokens,
                index,
            )),
        }
    }

    fn then(
        &mut self,
        start: usize,
        height: usize,
        tokens: &[Token],
        index: usize,
    ) -> Result<State, Refusal>
        requires within { index < length tokens.now }
        requires reads { Reads tokens.now (under Wait.If start height (look self.old)) index }
        ensures limit { self.new.limit ≡ self.old.limit }
        ensures ok { IfOk result (λ next. Stands tokens.now next (look self.new) (index + 1)) }
    {
        match kind_at(tokens, index) {
            Kind::Then => {
                self.wait(Wait::Then, start, self.height)?;
                Ok(State::Operand)
            }
            _ => Err(Refusal::Expected(Expected::Then)),
        }
    }

    fn or_else(
        &mut self,
        start: usize,
        height: usize,
        tokens: &[Token],
        index: usize,
    ) -> Result<State, Refusal>
        requires within { index < length tokens.now }
        requires reads { Reads tokens.now (under Wait.Then start height (look self.old)) index }
        ensures limit { self.new.limit ≡ self.old.limit }
        ensures ok { IfOk result (λ next. Stands tokens.now next (look self.new) (index + 1)) }
    {
        match kind_at(tokens, index) {
            Kind::Else => {
                self.wait(Wait::Else, start, height.max(self.height))?;
                Ok(State::Operand)
            }
            _ => Err(Refusal::Expected(Expected::Else)),
        }
    }

    // Makes of the part what the frame waits to make of it.
    pub(super) fn reduce_frame(
        &mut self,
        wait: Wait,
        start: usize,
        height: usize,
        tokens: &[Token],
        index: usize,
    ) -> Result<(), Refusal>
        requires reads { Reads tokens.now (under wait start height (look self.old)) index }
        ensures limit { self.new.limit ≡ self.old.limit }
        ensures frames { self.new.frames ≡ self.old.frames }
        ensures level { IfOk result (λ _. self.new.level ≡ frame_level_of wait) }
        ensures reads { IfOk result (λ _. Reads tokens.now (look self.new) index) }
    {
        match wait {
            Wait::Infix(operator) => self.join(operator, start, height),
            Wait::Signs(sign, count) => {
                if self.level < levels::lowest(sign) {
                    return Err(Refusal::Expected(Expected::Operator));
                }
                self.sign(sign, count, start)
            }
            Wait::IsIn(from, to) => self.make(
                What::Binary(Binary::IsIn(from, to)),
                levels::RELATION,
                start,
                self.end,
                height.max(self.height),
                2,
            ),
            Wait::Else => self.make(
                What::If,
                levels::CONDITIONAL,
                start,
                self.end,
                height.max(self.height),
                1,
            ),
            _ => Err(Refusal::Expected(Expected::Operator)),
        }
    }

    // Joins the last two parts, the first of which has so many levels.
    fn join(&mut self, operator: Operator, start: usize, height: usize) -> Result<(), Refusal>
        requires { 2 ≤ length (look self.old).trees }
        ensures limit { self.new.limit ≡ self.old.limit }
        ensures frames { self.new.frames ≡ self.old.frames }
        ensures look { IfOk result (λ _. look self.new ≡ join_made operator start height (look self.old)) }
    {
        let level = levels::level(operator);
        let what = What::Binary(levels::binary(operator));
        self.make(what, level, start, self.end, height.max(self.height), 1)?;
        if levels::is_negated(operator) {
            let what = What::Unary(Unary::Sign(Sign::Not));
            self.make(what, level, start, self.end, self.height, 1)?;
        }
        Ok(())
    }

    // Puts so many signs before the part.
    pub(super) fn sign(&mut self, sign: Sign, count: usize, start: usize) -> Result<(), Refusal>
        requires { 1 ≤ length (look self.old).trees }
        ensures limit { self.new.limit ≡ self.old.limit }
        ensures frames { self.new.frames ≡ self.old.frames }
        ensures look { IfOk result (λ _. look self.new ≡ record {
          frames = (look self.old).frames;
          trees = signs_made sign count start (look self.old).end (look self.old).trees;
          level = 2;
          start = start;
          end = (look self.old).end;
          height = (look self.old).height + count;
        }) }
    {
        self.level = levels::UNARY;
        self.start = start;
        for _done in 0..count {
            let what = What::Unary(Unary::Sign(sign));
            self.make(what, levels::UNARY, start, self.end, self.height, 1)?;
        }
        Ok(())
    }
}
