//! The stack of what waits.
ghost use Rattle.std.specs.Prelude.{◌≡◌, ◌∷◌, [], IfOk, MatchOption, IfSome, IfNone, ◌≤◌};
ghost use Rattle.cedar_text_syntax.specs.Levels.{frame_level_of, count_of, HasOnTop, HasNoSigns, IsAbove};

use crate::levels;
use crate::steps::{Bracketed, Sign};
use std::alloc::{AllocError, Global};
use std::marker::Model;

/// What waits for its last part, or for one more.
#[derive(Clone, Copy)]
pub enum Wait {
    /// The right side of an operator.
    Infix(levels::Operator),
    /// The part behind so many signs.
    Signs(Sign, usize),
    /// What stands behind `is T in`.
    IsIn(usize, usize),
    /// The part in parentheses.
    Paren,
    /// The whole in the braces that this token opens: it waits below all else.
    Clause(usize),
    /// A part in brackets, behind so many.
    Item(Bracketed, usize),
    /// The value of the field whose key this token names, in a record, behind so many fields.
    Field(usize, usize),
    /// The three parts of `if`.
    If,
    Then,
    Else,
}

/// What waits, the byte at which it starts, and how many levels the highest of its parts has so far.
#[derive(Clone, Copy)]
pub struct Frame {
    pub wait: Wait,
    pub start: usize,
    pub height: usize,
}

/// So many signs that wait.
#[derive(Clone, Copy)]
pub struct Run {
    pub count: usize,
    pub start: usize,
    pub height: usize,
}

/// What waits, the innermost first.
#[derive(Drop)]
pub struct Frames {
    frames: Vec<Frame>,
}

impl Model for Frames {
    ghost use Rattle.std.specs.Prelude.{List, reverse};
    ghost use Rattle.cedar_text_syntax.specs.declared.frames.Frame.{Frame};

    ghost Value = { List Frame };

    ghost view = { λ s. reverse s.frames.items };
}

// How many signs of this kind wait.
fn count_of(wait: Wait, sign: Sign) -> Option<usize>
    ensures count { result ≡ count_of wait sign }
    ensures some { IfSome result (λ count. wait ≡ Wait.Signs sign count) }
{
    match wait {
        Wait::Signs(found, count) => match found {
            Sign::Not => match sign {
                Sign::Not => Some(count),
                Sign::Neg => None,
            },
            Sign::Neg => match sign {
                Sign::Not => None,
                Sign::Neg => Some(count),
            },
        },
        Wait::Infix(_) => None,
        Wait::IsIn(_, _) => None,
        Wait::Paren => None,
        Wait::Clause(_) => None,
        Wait::Item(_, _) => None,
        Wait::Field(_, _) => None,
        Wait::If => None,
        Wait::Then => None,
        Wait::Else => None,
    }
}

impl Frames {
    ghost use Rattle.cedar_text_syntax.specs.Levels.{awaited};

    pub fn new(alloc: Global) -> Frames
        ensures { result ≡ [] }
    {
        Frames {
            frames: Vec::new(alloc),
        }
    }

    pub fn push(&mut self, frame: Frame) -> Result<(), AllocError>
        ensures { IfOk result (λ _. self.new ≡ frame ∷ self.old) }
    {
        match self.frames.push(frame) {
            Ok(()) => Ok(()),
            Err(_) => Err(AllocError),
        }
    }

    pub fn pop(&mut self) -> Option<Frame>
        ensures { MatchOption result (self.old ≡ []) (λ frame. self.old ≡ frame ∷ self.new) }
    {
        self.frames.pop()
    }

    /// Takes the innermost frame, where it waits to make something of at most this level.
    pub fn pop_below(&mut self, level: u8) -> Option<Frame>
        ensures same { IfNone result (self.new ≡ self.old) }
        ensures top { IfSome result (λ frame. self.old ≡ frame ∷ self.new) }
        ensures low { IfSome result (λ frame. frame_level_of frame.wait ≤ level) }
        ensures high { IfNone result (IsAbove level self.old) }
    {
        match self.frames.last() {
            Some(frame) if levels::frame_level(frame.wait) <= level => self.frames.pop(),
            _ => None,
        }
    }

    /// Takes the innermost frame, where signs of this kind wait in it.
    pub fn pop_signs(&mut self, sign: Sign) -> Option<Run>
        ensures none { IfNone result (HasNoSigns sign self.old) }
        ensures same { IfNone result (self.new ≡ self.old) }
        ensures top { IfSome result (λ run.
            self.old ≡ record { wait = Wait.Signs sign run.count; start = run.start; height = run.height } ∷ self.new) }
    {
        match self.top_signs(sign) {
            Some(run) => {
                let _ = self.frames.pop();
                Some(run)
            }
            None => None,
        }
    }

    // The signs of this kind that wait in the innermost frame.
    fn top_signs(&self, sign: Sign) -> Option<Run>
        ensures none { IfNone result (HasNoSigns sign self.now) }
        ensures some { IfSome result (λ run.
            HasOnTop self.now (record { wait = Wait.Signs sign run.count; start = run.start; height = run.height })) }
    {
        match self.frames.last() {
            Some(frame) => match count_of(frame.wait, sign) {
                Some(count) => Some(Run {
                    count,
                    start: frame.start,
                    height: frame.height,
                }),
                None => None,
            },
            None => None,
        }
    }

    /// The level below which the part is that is waited for, or that of all expressions.
    pub fn awaited(&self) -> u8
        ensures { result ≡ awaited self.now }
    {
        match self.frames.last() {
            Some(frame) => levels::awaited(frame.wait),
            None => 9,
        }
    }
}
