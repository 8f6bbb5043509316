//! Parts in brackets: sets, records and the arguments of calls.
ghost use Rattle.std.specs.Prelude.{◌≡◌, ◌+◌, ◌<◌, ◌∷◌, length, IfOk, IfErr, IsFalse, Bool, true};
ghost use Rattle.cedar_text_syntax.specs.Faults as Faults;
ghost use Rattle.cedar_text_syntax.specs.Grammar as Grammar;
ghost use Rattle.cedar_text_syntax.specs.Reading.{IsOpened, IsAwaitingKey, IsItemRead, Reads, under};
ghost use Rattle.cedar_text_syntax.specs.Standing.{look, Stands};
ghost use Rattle.cedar_text_lexer.specs.Sequence as Tokens;
ghost use Rattle.cedar_text_syntax.specs.declared.machine.Refusal.TheVariants as refusal;
ghost use Rattle.cedar_text_lexer.specs.declared.errors.Expected.TheVariants as wanted;
ghost use Rattle.cedar_text_lexer.specs.declared.tokens.Kind.TheVariants as kind;

use crate::frames::Wait;
use crate::machine::work::Work;
use crate::machine::{Refusal, State, closes_at, due_at, is_key_at};
use crate::steps::{Bracketed, What};
use crate::{kinds, levels};
use cedar_text_lexer::errors::Expected;
use cedar_text_lexer::sequence::{end_at, kind_at, start_at};
use cedar_text_lexer::tokens::{Kind, Token};

impl Work {
    pub(super) fn first(&mut self, tokens: &[Token], index: usize) -> Result<State, Refusal>
        requires within { index < length tokens.now }
        requires stands { Stands tokens.now State.First (look self.old) index }
        ensures limit { self.new.limit ≡ self.old.limit }
        ensures ok { IfOk result (λ next. Stands tokens.now next (look self.new) (index + 1)) }
    {
        match kind_at(tokens, index) {
            Kind::CloseBracket => self.close_empty(tokens, index),
            Kind::CloseParen => self.close_empty(tokens, index),
            _ => self.operand(tokens, index),
        }
    }

    pub(super) fn first_key(&mut self, tokens: &[Token], index: usize) -> Result<State, Refusal>
        requires within { index < length tokens.now }
        requires stands { Stands tokens.now State.FirstKey (look self.old) index }
        ensures limit { self.new.limit ≡ self.old.limit }
        ensures ok { IfOk result (λ next. Stands tokens.now next (look self.new) (index + 1)) }
    {
        match kind_at(tokens, index) {
            Kind::CloseBrace => self.close_empty(tokens, index),
            _ => self.key(tokens, index),
        }
    }

    // The end of brackets with no part but a method's receiver.
    fn close_empty(&mut self, tokens: &[Token], index: usize) -> Result<State, Refusal>
        requires within { index < length tokens.now }
        requires opened { IsOpened tokens.now (look self.old) index }
        ensures limit { self.new.limit ≡ self.old.limit }
        ensures ok { IfOk result (λ next. Stands tokens.now next (look self.new) (index + 1)) }
    {
        match self.frames.pop() {
            Some(frame) => self.close_first(frame.wait, frame.start, frame.height, tokens, index),
            None => Err(Refusal::Expected(Expected::Expression)),
        }
    }

    fn close_first(
        &mut self,
        wait: Wait,
        start: usize,
        height: usize,
        tokens: &[Token],
        index: usize,
    ) -> Result<State, Refusal>
        requires within { index < length tokens.now }
        requires opened { IsOpened tokens.now (under wait start height (look self.old)) index }
        ensures limit { self.new.limit ≡ self.old.limit }
        ensures ok { IfOk result (λ next. Stands tokens.now next (look self.new) (index + 1)) }
    {
        match wait {
            Wait::Item(bracketed, count) => self.close_none(
                bracketed, count, start, height, tokens, index,
            ),
            _ => Err(Refusal::Expected(Expected::Expression)),
        }
    }

    fn close_none(
        &mut self,
        bracketed: Bracketed,
        count: usize,
        start: usize,
        height: usize,
        tokens: &[Token],
        index: usize,
    ) -> Result<State, Refusal>
        requires within { index < length tokens.now }
        requires opened { IsOpened tokens.now (under (Wait.Item bracketed count) start height (look self.old)) index }
        ensures limit { self.new.limit ≡ self.old.limit }
        ensures ok { IfOk result (λ next. Stands tokens.now next (look self.new) (index + 1)) }
    {
        if closes_at(bracketed, tokens, index) {
            let end = end_at(tokens, index);
            let what = What::Bracketed(bracketed, count);
            self.make(what, levels::MEMBER, start, end, height, 1)?;
            Ok(State::Operator)
        } else {
            Err(Refusal::Expected(Expected::Expression))
        }
    }

    // The key of a record's field.
    pub(super) fn key(&mut self, tokens: &[Token], index: usize) -> Result<State, Refusal>
        requires within { index < length tokens.now }
        requires awaits { IsAwaitingKey tokens.now (look self.old) index }
        ensures limit { self.new.limit ≡ self.old.limit }
        ensures ok { IfOk result (λ next. Stands tokens.now next (look self.new) (index + 1)) }
    {
        if is_key_at(tokens, index) {
            Ok(State::Colon(index))
        } else {
            Err(Refusal::Expected(Expected::Attribute))
        }
    }

    // The colon behind the key, this token.
    pub(super) fn colon(
        &mut self,
        at: usize,
        tokens: &[Token],
        index: usize,
    ) -> Result<State, Refusal>
        requires within { index < length tokens.now }
        requires stands { Stands tokens.now (State.Colon at) (look self.old) index }
        ensures limit { self.new.limit ≡ self.old.limit }
        ensures ok { IfOk result (λ next. Stands tokens.now next (look self.new) (index + 1)) }
    {
        match kind_at(tokens, index) {
            Kind::Colon => self.value(at, tokens, index),
            _ => Err(Refusal::Expected(Expected::Colon)),
        }
    }

    fn value(&mut self, at: usize, tokens: &[Token], index: usize) -> Result<State, Refusal>
        requires is { Tokens.kind_at tokens.now index ≡ kind.Colon }
        requires stands { Stands tokens.now (State.Colon at) (look self.old) index }
        ensures limit { self.new.limit ≡ self.old.limit }
        ensures ok { IfOk result (λ next. Stands tokens.now next (look self.new) (index + 1)) }
    {
        match self.frames.pop() {
            Some(frame) => self.value_in(frame.wait, frame.start, frame.height, at, tokens, index),
            None => Err(Refusal::Expected(Expected::Colon)),
        }
    }

    fn value_in(
        &mut self,
        wait: Wait,
        start: usize,
        height: usize,
        at: usize,
        tokens: &[Token],
        index: usize,
    ) -> Result<State, Refusal>
        requires is { Tokens.kind_at tokens.now index ≡ kind.Colon }
        requires key { Grammar.is_key (Tokens.kind_at tokens.now at) ≡ true }
        requires next { index ≡ at + 1 }
        requires awaits { IsAwaitingKey tokens.now (under wait start height (look self.old)) at }
        ensures limit { self.new.limit ≡ self.old.limit }
        ensures ok { IfOk result (λ next. Stands tokens.now next (look self.new) (index + 1)) }
    {
        match wait {
            Wait::Item(_, count) => {
                self.wait(Wait::Field(at, count), start, height)?;
                Ok(State::Operand)
            }
            _ => Err(Refusal::Expected(Expected::Colon)),
        }
    }

    // The value of a field was read; it begins with its key, a token.
    pub(super) fn close_field(
        &mut self,
        at: usize,
        count: usize,
        start: usize,
        height: usize,
        tokens: &[Token],
        index: usize,
    ) -> Result<State, Refusal>
        requires within { index < length tokens.now }
        requires reads { Reads tokens.now (under (Wait.Field at count) start height (look self.old)) index }
        ensures limit { self.new.limit ≡ self.old.limit }
        ensures ok { IfOk result (λ next. Stands tokens.now next (look self.new) (index + 1)) }
    {
        let key_start = start_at(tokens, at);
        self.make(
            What::Field(at),
            levels::WHOLE,
            key_start,
            self.end,
            self.height,
            0,
        )?;
        self.close_item(Bracketed::Record, count, start, height, tokens, index)
    }

    // A part in brackets was read, behind so many.
    pub(super) fn close_item(
        &mut self,
        bracketed: Bracketed,
        count: usize,
        start: usize,
        height: usize,
        tokens: &[Token],
        index: usize,
    ) -> Result<State, Refusal>
        requires within { index < length tokens.now }
        requires item { IsItemRead tokens.now bracketed count start height (look self.old) index }
        ensures limit { self.new.limit ≡ self.old.limit }
        ensures ok { IfOk result (λ next. Stands tokens.now next (look self.new) (index + 1)) }
    {
        match kind_at(tokens, index) {
            Kind::Comma => self.comma(bracketed, count, start, height, tokens, index),
            _ => self.close_list(bracketed, count, start, height, tokens, index),
        }
    }

    fn comma(
        &mut self,
        bracketed: Bracketed,
        count: usize,
        start: usize,
        height: usize,
        tokens: &[Token],
        index: usize,
    ) -> Result<State, Refusal>
        requires within { index < length tokens.now }
        requires is { Tokens.kind_at tokens.now index ≡ kind.Comma }
        requires item { IsItemRead tokens.now bracketed count start height (look self.old) index }
        ensures limit { self.new.limit ≡ self.old.limit }
        ensures ok { IfOk result (λ next. Stands tokens.now next (look self.new) (index + 1)) }
    {
        let height = height.max(self.height);
        self.wait(Wait::Item(bracketed, count + 1), start, height)?;
        match bracketed {
            Bracketed::Record => Ok(State::Key),
            Bracketed::Set => Ok(State::Operand),
            Bracketed::Call(_, _) => Ok(State::Operand),
            Bracketed::Method(_) => Ok(State::Operand),
        }
    }

    fn close_list(
        &mut self,
        bracketed: Bracketed,
        count: usize,
        start: usize,
        height: usize,
        tokens: &[Token],
        index: usize,
    ) -> Result<State, Refusal>
        requires within { index < length tokens.now }
        requires item { IsItemRead tokens.now bracketed count start height (look self.old) index }
        ensures limit { self.new.limit ≡ self.old.limit }
        ensures ok { IfOk result (λ next. Stands tokens.now next (look self.new) (index + 1)) }
        ensures err { IsFalse (Grammar.closes bracketed (Tokens.kind_at tokens.now index)) → IfErr result (λ r.
            r ≡ refusal.Expected (Faults.due (Faults.closing_of bracketed start) wanted.CommaOrClose
            (Tokens.kind_at tokens.now index))) }
    {
        if closes_at(bracketed, tokens, index) {
            let end = end_at(tokens, index);
            let what = What::Bracketed(bracketed, count + 1);
            let below = height.max(self.height);
            self.make(what, levels::MEMBER, start, end, below, 1)?;
            Ok(State::Operator)
        } else {
            Err(due_at(
                kinds::closing(bracketed, start),
                Expected::CommaOrClose,
                tokens,
                index,
            ))
        }
    }
}
