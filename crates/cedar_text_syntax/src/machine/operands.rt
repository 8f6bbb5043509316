//! What an expression begins with.
ghost use Rattle.std.specs.Prelude.{◌≡◌, ◌+◌, ◌<◌, ◌≤◌, ◌∷◌, length, IfOk};
ghost use Rattle.cedar_text_syntax.specs.Grammar as Grammar;
ghost use Rattle.cedar_text_syntax.specs.Reading.{IsAwaiting, Reads, under};
ghost use Rattle.cedar_text_syntax.specs.Standing.{look, Stands};
ghost use Rattle.cedar_text_lexer.specs.Sequence as Tokens;
ghost use Rattle.cedar_text_lexer.specs.declared.tokens.Kind.TheVariants as kind;

use crate::frames::Wait;
use crate::levels;
use crate::machine::work::Work;
use crate::machine::{Refusal, State, leaf_at};
use crate::steps::{Bracketed, Leaf, Sign, What};
use cedar_text_lexer::errors::{Expected, name_for};
use cedar_text_lexer::sequence::{end_at, is_name_at, kind_at, start_at};
use cedar_text_lexer::tokens::{Kind, Token};

impl Work {
    pub(super) fn operand(&mut self, tokens: &[Token], index: usize) -> Result<State, Refusal>
        requires within { index < length tokens.now }
        requires waits { IsAwaiting tokens.now (look self.old) index }
        ensures limit { self.new.limit ≡ self.old.limit }
        ensures ok { IfOk result (λ next. Stands tokens.now next (look self.new) (index + 1)) }
    {
        match kind_at(tokens, index) {
            Kind::Number => Ok(State::Number(index)),
            Kind::Bang => self.sign_before(Sign::Not, tokens, index),
            Kind::Minus => self.sign_before(Sign::Neg, tokens, index),
            Kind::If => self.condition(tokens, index),
            Kind::OpenParen => {
                self.wait(Wait::Paren, start_at(tokens, index), 0)?;
                Ok(State::Operand)
            }
            Kind::OpenBracket => {
                self.wait(Wait::Item(Bracketed::Set, 0), start_at(tokens, index), 0)?;
                Ok(State::First)
            }
            Kind::OpenBrace => {
                self.wait(Wait::Item(Bracketed::Record, 0), start_at(tokens, index), 0)?;
                Ok(State::FirstKey)
            }
            _ => self.word(tokens, index),
        }
    }

    // `if` stands where a whole expression may.
    fn condition(&mut self, tokens: &[Token], index: usize) -> Result<State, Refusal>
        requires within { index < length tokens.now }
        requires is { Tokens.kind_at tokens.now index ≡ kind.If }
        requires waits { IsAwaiting tokens.now (look self.old) index }
        ensures limit { self.new.limit ≡ self.old.limit }
        ensures ok { IfOk result (λ next. Stands tokens.now next (look self.new) (index + 1)) }
    {
        if self.frames.awaited() <= levels::CONDITIONAL {
            return Err(Refusal::Expected(Expected::Expression));
        }
        self.wait(Wait::If, start_at(tokens, index), 0)?;
        Ok(State::Operand)
    }

    fn word(&mut self, tokens: &[Token], index: usize) -> Result<State, Refusal>
        requires within { index < length tokens.now }
        requires waits { IsAwaiting tokens.now (look self.old) index }
        ensures limit { self.new.limit ≡ self.old.limit }
        ensures ok { IfOk result (λ next. Stands tokens.now next (look self.new) (index + 1)) }
    {
        if is_name_at(tokens, index) {
            let start = start_at(tokens, index);
            let end = end_at(tokens, index);
            return Ok(State::Name(index, start, end));
        }
        self.leaf(tokens, index)
    }

    fn leaf(&mut self, tokens: &[Token], index: usize) -> Result<State, Refusal>
        requires within { index < length tokens.now }
        requires waits { IsAwaiting tokens.now (look self.old) index }
        ensures limit { self.new.limit ≡ self.old.limit }
        ensures ok { IfOk result (λ next. Stands tokens.now next (look self.new) (index + 1)) }
    {
        match leaf_at(tokens, index) {
            Some(leaf) => {
                let start = start_at(tokens, index);
                let end = end_at(tokens, index);
                self.make(What::Leaf(leaf), levels::MEMBER, start, end, 0, 1)?;
                Ok(State::Operator)
            }
            None => {
                let what = name_for(Expected::Expression, kind_at(tokens, index));
                Err(Refusal::Expected(what))
            }
        }
    }

    // One more `!` or `-`.
    fn sign_before(&mut self, sign: Sign, tokens: &[Token], index: usize) -> Result<State, Refusal>
        requires within { index < length tokens.now }
        requires is { Tokens.kind_at tokens.now index ≡ Grammar.kind_of sign }
        requires waits { IsAwaiting tokens.now (look self.old) index }
        ensures limit { self.new.limit ≡ self.old.limit }
        ensures ok { IfOk result (λ next. Stands tokens.now next (look self.new) (index + 1)) }
    {
        match self.frames.pop_signs(sign) {
            Some(run) => self.another_sign(sign, run.count, run.start, run.height, tokens, index),
            None => self.first_sign(sign, tokens, index),
        }
    }

    fn first_sign(&mut self, sign: Sign, tokens: &[Token], index: usize) -> Result<State, Refusal>
        requires within { index < length tokens.now }
        requires is { Tokens.kind_at tokens.now index ≡ Grammar.kind_of sign }
        requires waits { IsAwaiting tokens.now (look self.old) index }
        ensures limit { self.new.limit ≡ self.old.limit }
        ensures ok { IfOk result (λ next. Stands tokens.now next (look self.new) (index + 1)) }
    {
        if self.frames.awaited() <= levels::UNARY {
            return Err(Refusal::Expected(Expected::Expression));
        }
        self.wait(Wait::Signs(sign, 1), start_at(tokens, index), 0)?;
        Ok(State::Operand)
    }

    // Puts the frame of one sign more instead of the last.
    fn another_sign(
        &mut self,
        sign: Sign,
        count: usize,
        start: usize,
        height: usize,
        tokens: &[Token],
        index: usize,
    ) -> Result<State, Refusal>
        requires is { Tokens.kind_at tokens.now index ≡ Grammar.kind_of sign }
        requires waits { IsAwaiting tokens.now (under (Wait.Signs sign count) start height (look self.old)) index }
        ensures limit { self.new.limit ≡ self.old.limit }
        ensures ok { IfOk result (λ next. Stands tokens.now next (look self.new) (index + 1)) }
    {
        if count > 3 {
            return Err(Refusal::Expected(Expected::FewerSigns));
        }
        self.wait(Wait::Signs(sign, count + 1), start, height)?;
        Ok(State::Operand)
    }

    // A number, the token before this one, is a part, and a minus before it is its own if it stands alone.
    pub(super) fn number(
        &mut self,
        at: usize,
        tokens: &[Token],
        index: usize,
    ) -> Result<State, Refusal>
        requires within { index < length tokens.now }
        requires stands { Stands tokens.now (State.Number at) (look self.old) index }
        ensures limit { self.new.limit ≡ self.old.limit }
        ensures ok { IfOk result (λ next. Stands tokens.now next (look self.new) (index + 1)) }
    {
        self.number_part(at, tokens, index)?;
        self.operator(tokens, index)
    }

    fn number_part(&mut self, at: usize, tokens: &[Token], index: usize) -> Result<(), Refusal>
        requires within { index < length tokens.now }
        requires stands { Stands tokens.now (State.Number at) (look self.old) index }
        ensures limit { self.new.limit ≡ self.old.limit }
        ensures reads { IfOk result (λ _. Reads tokens.now (look self.new) index) }
    {
        match kind_at(tokens, index) {
            Kind::Dot => self.long(at, tokens, index),
            Kind::OpenBracket => self.long(at, tokens, index),
            _ => self.lone_number(at, tokens, index),
        }
    }

    fn lone_number(&mut self, at: usize, tokens: &[Token], index: usize) -> Result<(), Refusal>
        requires within { index < length tokens.now }
        requires stands { Stands tokens.now (State.Number at) (look self.old) index }
        ensures limit { self.new.limit ≡ self.old.limit }
        ensures reads { IfOk result (λ _. Reads tokens.now (look self.new) index) }
    {
        match self.frames.pop_signs(Sign::Neg) {
            Some(run) => self.negative(run.count, run.start, run.height, at, tokens, index),
            None => self.long(at, tokens, index),
        }
    }

    fn long(&mut self, at: usize, tokens: &[Token], index: usize) -> Result<(), Refusal>
        requires within { index < length tokens.now }
        requires stands { Stands tokens.now (State.Number at) (look self.old) index }
        ensures limit { self.new.limit ≡ self.old.limit }
        ensures reads { IfOk result (λ _. Reads tokens.now (look self.new) index) }
    {
        let start = start_at(tokens, at);
        let end = end_at(tokens, at);
        self.make(What::Leaf(Leaf::Long(at)), levels::NUMBER, start, end, 0, 1)?;
        Ok(())
    }

    // The innermost minus joins the number.
    fn negative(
        &mut self,
        count: usize,
        start: usize,
        height: usize,
        at: usize,
        tokens: &[Token],
        index: usize,
    ) -> Result<(), Refusal>
        requires within { index < length tokens.now }
        requires waits { IsAwaiting tokens.now (under (Wait.Signs Sign.Neg count) start height (look self.old)) at }
        requires is { Tokens.kind_at tokens.now at ≡ kind.Number }
        requires next { index ≡ at + 1 }
        ensures limit { self.new.limit ≡ self.old.limit }
        ensures reads { IfOk result (λ _. Reads tokens.now (look self.new) index) }
    {
        let end = end_at(tokens, at);
        self.make(
            What::Leaf(Leaf::NegativeLong(at)),
            levels::UNARY,
            start,
            end,
            0,
            1,
        )?;
        self.sign(Sign::Neg, count.saturating_sub(1), start)?;
        Ok(())
    }
}
