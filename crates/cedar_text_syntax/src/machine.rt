//! A machine that takes one token at a time and writes the steps of an expression.
//!
//! What waits for more tokens, a bracket or an operator whose right side is not read yet, is a frame; the innermost
//! frame waits for the part that is read now. An operator first makes what frames of at most its own level wait to
//! make.
ghost use Rattle.std.specs.Prelude.{◌≡◌, ◌+◌, ◌<◌, ◌≤◌, [], length, IfOk, IfErr};
ghost use Rattle.cedar_text_syntax.specs.Faults as Faults;
ghost use Rattle.cedar_text_syntax.specs.Grammar as Grammar;
ghost use Rattle.cedar_text_syntax.specs.Levels.{IsAbove};
ghost use Rattle.cedar_text_syntax.specs.Nodes as Nodes;
ghost use Rattle.cedar_text_syntax.specs.Nodes.{HasAtMost};
ghost use Rattle.cedar_text_syntax.specs.Places.{IsPlaced, end_of};
ghost use Rattle.cedar_text_syntax.specs.Reading.{Reads, HasRead, HasReadClause, under};
ghost use Rattle.cedar_text_syntax.specs.Standing.{look, Stands};
ghost use Rattle.cedar_text_syntax.specs.declared.machine.Refusal.TheVariants as refusal;
ghost use Rattle.cedar_text_lexer.specs.Sequence as Tokens;
ghost use Rattle.cedar_text_lexer.specs.declared.tokens.Kind.TheVariants as kind;
ghost use Rattle.cedar_text_syntax.specs.Trees.{trees, made, parts_of, FindParts};

use crate::expecting::{at_end, end_of, expect};
use crate::frames::{Frame, Frames, Wait};
use crate::kinds;
use crate::levels::Operator;
use crate::machine::work::Work;
use crate::nodes::{allowed, limit_nodes};
use crate::steps::{Bracketed, Leaf, Step, What};
use cedar_text_lexer::errors::{Expected, ReadError};
use cedar_text_lexer::sequence::{end_at, kind_at, start_at, token_at};
use cedar_text_lexer::tokens::{Kind, Token};
use std::alloc::Global;

mod brackets;
mod members;
mod operands;
mod operators;
mod relations;
mod work;

// What may come next. A state names tokens by their numbers, and `start` and `end` are bytes.
#[derive(Clone, Copy)]
enum State {
    // An expression.
    Operand,
    // An operator or the end.
    Operator,
    // What may follow a number, this token.
    Number(usize),
    // The rest of the name that begins with this token and stands from and up to these bytes.
    Name(usize, usize, usize),
    // The same behind `::`.
    Path(usize, usize),
    // The name of an attribute or method.
    Dot,
    // `(` behind the name of a method, this token, or what may follow an attribute.
    Member(usize),
    // The text of an index, and its bracket.
    Index,
    IndexEnd(usize),
    // The first part in brackets, or their end; the first key of a record, or its end.
    First,
    FirstKey,
    // The key of a record, and the colon behind it.
    Key,
    Colon(usize),
    // What stands behind `has`, and what may follow the attributes that begin with this token and end before this byte.
    Has,
    HasMore(usize, usize),
    HasDot(usize),
    // The pattern behind `like`.
    Like,
    // The type behind `is`, and what may follow it, as for a name.
    Is,
    IsMore(usize, usize, usize),
    IsPath(usize, usize),
    // Nothing.
    Finished,
    // Nothing: the braces are closed that this token opens.
    Closed(usize),
}

// Why a token can't be taken.
#[derive(Clone, Copy)]
enum Refusal {
    Memory,
    Expected(Expected),
    TooDeep,
}

/// The steps of the expression that the tokens write, the last of which is of kind `End`. They make the tree that the
/// tokens derive by the grammar, and it has at most `limit` levels; brackets alone are no level.
///
/// Errors: `Memory`; `Expected`, at a token or behind the last; `TooDeep`, from some byte up to the end of a token.
/// That this is the first token that can't be where it is, or an expression with more levels, is tested and not
/// proved. `Expected::FewerNodes`, at an `is` with `in`, where more nodes would be built than sixteen for each byte: it
/// has its left side twice. That is looked at where all else can be read.
pub fn expression_steps(
    alloc: Global,
    tokens: &[Token],
    limit: usize,
) -> Result<Vec<Step>, ReadError>
    ensures ok { IfOk result (λ steps. HasRead tokens.now limit (trees steps.items)) }
    ensures parts { IfOk result (λ steps. FindParts [] steps.items) }
    ensures nodes { IfOk result (λ steps. HasAtMost (Nodes.allowed_of tokens.now) (trees steps.items)) }
    ensures err { IfErr result (λ error. IsPlaced tokens.now error) }
{
    let mut work = Work {
        frames: Frames::new(alloc),
        steps: Vec::new(alloc),
        limit,
        level: 0,
        start: 0,
        end: 0,
        height: 0,
    };
    let mut state = State::Operand;
    for index in 0..tokens.len() {
        state = turn(&mut work, state, tokens, index)?;
    }
    let steps = work.finish(state, tokens)?;
    limit_expression(alloc, tokens, &steps)?;
    Ok(steps)
}

// Nothing, where no more nodes are built of what the steps make than all tokens allow.
fn limit_expression(alloc: Global, tokens: &[Token], steps: &[Step]) -> Result<(), ReadError>
    ensures ok { IfOk result (λ _. HasAtMost (Nodes.allowed_of tokens.now) (trees steps.now)) }
    ensures err { IfErr result (λ error. IsPlaced tokens.now error) }
{
    let most = allowed(start_at(tokens, 0), end_of(tokens));
    limit_nodes(alloc, tokens, steps, most)
}

/// The steps of the expression that stands in braces, the number of the token that closes them, and how many levels it
/// has.
#[derive(Drop)]
pub struct ClauseSteps {
    pub steps: Vec<Step>,
    pub close: usize,
    pub height: usize,
}

/// The steps of the expression in the braces that the token of this number opens. They make the tree that the tokens
/// between the braces derive by the grammar, and it has at most `limit` levels.
///
/// Errors: as those of [`expression_steps`]; and `Expected` at that token, where it opens no braces, which is tested
/// and not proved too.
pub fn clause_steps(
    alloc: Global,
    tokens: &[Token],
    brace: usize,
    limit: usize,
) -> Result<ClauseSteps, ReadError>
    ensures ok { IfOk result (λ c. HasReadClause tokens.now brace limit c.close c.height (trees c.steps.items)) }
    ensures parts { IfOk result (λ c. FindParts [] c.steps.items) }
    ensures nodes { IfOk result (λ c. HasAtMost (Nodes.allowed_in tokens.now brace c.close) (trees c.steps.items)) }
    ensures err { IfErr result (λ error. IsPlaced tokens.now error) }
{
    expect(tokens, brace, Kind::OpenBrace, Expected::OpenBrace)?;
    let mut work = clause_work(alloc, tokens, brace, limit)?;
    let mut state = State::Operand;
    for index in brace + 1..tokens.len() {
        state = turn(&mut work, state, tokens, index)?;
        if let State::Closed(at) = state {
            if at == brace {
                let read = work.close_braces(index);
                limit_clause(alloc, tokens, brace, &read)?;
                return Ok(read);
            }
        }
    }
    Err(at_end(tokens))
}

// Nothing, where no more nodes are built of what was read in the braces than they allow.
fn limit_clause(
    alloc: Global,
    tokens: &[Token],
    brace: usize,
    read: &ClauseSteps,
) -> Result<(), ReadError>
    ensures ok { IfOk result
        (λ _. HasAtMost (Nodes.allowed_in tokens.now brace read.now.close) (trees read.now.steps.items)) }
    ensures err { IfErr result (λ error. IsPlaced tokens.now error) }
{
    let most = allowed(start_at(tokens, brace), end_at(tokens, read.close));
    limit_nodes(alloc, tokens, &read.steps, most)
}

// The work that begins behind the brace of this number.
fn clause_work(
    alloc: Global,
    tokens: &[Token],
    brace: usize,
    limit: usize,
) -> Result<Work, ReadError>
    requires within { brace < length tokens.now }
    requires opens { Tokens.kind_at tokens.now brace ≡ kind.OpenBrace }
    ensures limit { IfOk result (λ work. work.limit ≡ limit) }
    ensures ok { IfOk result (λ work. Stands tokens.now State.Operand (look work) (brace + 1)) }
    ensures err { IfErr result (λ error. IsPlaced tokens.now error) }
{
    let mut work = Work {
        frames: Frames::new(alloc),
        steps: Vec::new(alloc),
        limit,
        level: 0,
        start: 0,
        end: 0,
        height: 0,
    };
    match work.wait(Wait::Clause(brace), start_at(tokens, brace), 0) {
        Ok(()) => Ok(work),
        Err(_) => Err(ReadError::Memory),
    }
}

// Takes the token of this number, or says where it can't be taken.
fn turn(work: &mut Work, state: State, tokens: &[Token], index: usize) -> Result<State, ReadError>
    requires within { index < length tokens.now }
    requires stands { Stands tokens.now state (look work.old) index }
    ensures limit { work.new.limit ≡ work.old.limit }
    ensures ok { IfOk result (λ next. Stands tokens.now next (look work.new) (index + 1)) }
    ensures err { IfErr result (λ error. IsPlaced tokens.now error) }
{
    match work.take(state, tokens, index) {
        Ok(next) => Ok(next),
        Err(refusal) => Err(place_refusal(refusal, tokens, index, work.start, work.limit)),
    }
}

// The error at the token of this number; what has more levels than the limit begins at this byte.
fn place_refusal(
    refusal: Refusal,
    tokens: &[Token],
    index: usize,
    start: usize,
    limit: usize,
) -> ReadError
    requires { index < length tokens.now }
    ensures { IsPlaced tokens.now result }
{
    let token = token_at(tokens, index);
    match refusal {
        Refusal::Memory => ReadError::Memory,
        Refusal::Expected(what) => ReadError::expected(what, token),
        Refusal::TooDeep => ReadError::TooDeep {
            limit,
            start: start.min(token.end),
            end: token.end,
        },
    }
}

fn leaf_at(tokens: &[Token], index: usize) -> Option<Leaf>
    requires { index < length tokens.now }
    ensures { result ≡ Grammar.leaf_of (Tokens.kind_at tokens.now index) index }
{
    kinds::leaf(kind_at(tokens, index), index)
}

fn operator_at(tokens: &[Token], index: usize) -> Option<Operator>
    requires { index < length tokens.now }
    ensures { result ≡ Grammar.operator_of (Tokens.kind_at tokens.now index) }
{
    kinds::operator(kind_at(tokens, index))
}

fn is_key_at(tokens: &[Token], index: usize) -> bool
    requires { index < length tokens.now }
    ensures { result ≡ Grammar.is_key (Tokens.kind_at tokens.now index) }
{
    kinds::is_key(kind_at(tokens, index))
}

fn closes_at(bracketed: Bracketed, tokens: &[Token], index: usize) -> bool
    requires { index < length tokens.now }
    ensures { result ≡ Grammar.closes bracketed (Tokens.kind_at tokens.now index) }
{
    kinds::closes(bracketed, kind_at(tokens, index))
}

// What is due at the token of this number, where a bracket is open that this closes.
fn due_at(closing: Expected, other: Expected, tokens: &[Token], index: usize) -> Refusal
    ensures { result ≡ refusal.Expected (Faults.due closing other (Tokens.kind_at tokens.now index)) }
{
    Refusal::Expected(kinds::due(closing, other, kind_at(tokens, index)))
}

impl Work {
    fn finish(self, state: State, tokens: &[Token]) -> Result<Vec<Step>, ReadError>
        requires { Stands tokens.now state (look self) (length tokens.now) }
        ensures ok { IfOk result (λ steps. HasRead tokens.now self.limit (trees steps.items)) }
        ensures parts { IfOk result (λ steps. FindParts [] steps.items) }
        ensures err { IfErr result (λ error. IsPlaced tokens.now error) }
    {
        match state {
            State::Finished => Ok(self.steps),
            _ => Err(at_end(tokens)),
        }
    }

    // The steps that are made, where the token of this number closed the braces.
    fn close_braces(self, close: usize) -> ClauseSteps
        ensures steps { result.steps ≡ self.steps }
        ensures close { result.close ≡ close }
        ensures height { result.height ≡ self.height }
        ensures parts { FindParts [] result.steps.items }
    {
        ClauseSteps {
            steps: self.steps,
            close,
            height: self.height,
        }
    }

    // Takes the token of this number.
    fn take(&mut self, state: State, tokens: &[Token], index: usize) -> Result<State, Refusal>
        requires within { index < length tokens.now }
        requires stands { Stands tokens.now state (look self.old) index }
        ensures limit { self.new.limit ≡ self.old.limit }
        ensures ok { IfOk result (λ next. Stands tokens.now next (look self.new) (index + 1)) }
    {
        match state {
            State::Operand => self.operand(tokens, index),
            State::Operator => self.operator(tokens, index),
            State::Number(at) => self.number(at, tokens, index),
            State::Name(from, start, end) => self.name(from, start, end, tokens, index),
            State::Path(from, start) => self.path(from, start, tokens, index),
            State::Dot => self.dot(tokens, index),
            State::Member(at) => self.member(at, tokens, index),
            State::Index => self.index_text(tokens, index),
            State::IndexEnd(at) => self.index_end(at, tokens, index),
            State::First => self.first(tokens, index),
            State::FirstKey => self.first_key(tokens, index),
            State::Key => self.key(tokens, index),
            State::Colon(at) => self.colon(at, tokens, index),
            State::Has => self.has(tokens, index),
            State::HasMore(from, end) => self.read_has_more(from, end, tokens, index),
            State::HasDot(from) => self.read_has_dot(from, tokens, index),
            State::Like => self.like(tokens, index),
            State::Is => self.is(tokens, index),
            State::IsMore(from, start, end) => self.read_is_more(from, start, end, tokens, index),
            State::IsPath(from, start) => self.read_is_path(from, start, tokens, index),
            State::Finished => Err(Refusal::Expected(Expected::End)),
            State::Closed(_) => Err(Refusal::Expected(Expected::End)),
        }
    }

    // Puts the step behind the others: the part is what it makes, so many levels above the highest of its parts.
    #[tactic(auto, using(crate::proofs::Making::trees_push, crate::proofs::Parts::found))]
    fn make(
        &mut self,
        what: What,
        level: u8,
        start: usize,
        end: usize,
        below: usize,
        levels: usize,
    ) -> Result<(), Refusal>
        requires { parts_of what ≤ length (look self.old).trees }
        ensures limit { self.new.limit ≡ self.old.limit }
        ensures frames { self.new.frames ≡ self.old.frames }
        ensures look { IfOk result (λ _. look self.new ≡ record {
          frames = (look self.old).frames;
          trees = made what start end (look self.old).trees;
          level = level;
          start = start;
          end = end;
          height = below + levels;
        }) }
    {
        self.level = level;
        self.start = start;
        self.end = end;
        if self.limit < levels || self.limit - levels < below {
            return Err(Refusal::TooDeep);
        }
        self.height = below + levels;
        match self.steps.push(Step { what, start, end }) {
            Ok(()) => Ok(()),
            Err(_) => Err(Refusal::Memory),
        }
    }

    // Lets what waits wait in a frame.
    fn wait(&mut self, wait: Wait, start: usize, height: usize) -> Result<(), Refusal>
        ensures limit { self.new.limit ≡ self.old.limit }
        ensures frames { IfOk result (λ _. self.new.frames ≡ (under wait start height (look self.old)).frames) }
        ensures trees { (look self.new).trees ≡ (look self.old).trees }
    {
        match self.frames.push(Frame {
            wait,
            start,
            height,
        }) {
            Ok(()) => Ok(()),
            Err(_) => Err(Refusal::Memory),
        }
    }

    // Makes of the part what the frames of at most this level wait to make of it.
    fn reduce(&mut self, level: u8, tokens: &[Token], index: usize) -> Result<(), Refusal>
        requires low { self.old.level ≤ level }
        requires reads { Reads tokens.now (look self.old) index }
        ensures limit { self.new.limit ≡ self.old.limit }
        ensures low { IfOk result (λ _. self.new.level ≤ level) }
        ensures above { IfOk result (λ _. IsAbove level self.new.frames) }
        ensures reads { IfOk result (λ _. Reads tokens.now (look self.new) index) }
    {
        while let Some(frame) = self.frames.pop_below(level) {
            self.reduce_frame(frame.wait, frame.start, frame.height, tokens, index)?;
        }
        Ok(())
    }
}
