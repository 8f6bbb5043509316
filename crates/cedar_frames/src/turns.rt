//! The loop: turn by turn, over the stack.
ghost use Rattle.std.specs.Prelude.{◌≡◌, ◌<◌, vec_len};
ghost use Rattle.cedar_frames.specs.Frames.{IsRightTurn, IsRightWait, StaysRight, IsHandedOn};
ghost use Rattle.cedar_frames.specs.Frames.{IsLessLeft, IsWaitLeft, IsAnswerLeft};
ghost use Rattle.cedar_frames.specs.declared.turns.Mode.TheVariants.{Eval, Answer};

use crate::machine::{Machine, Transition};
use crate::stack::Stack;
use std::alloc::Global;

/// What the loop is at.
#[derive(Drop)]
pub enum Mode<P, A> {
    /// A part that is not looked at yet.
    Eval(P),
    /// The answer of the part that the last frame waits for.
    Answer(A),
}

/// What a turn leads to.
#[derive(Drop)]
pub enum Turn<P, A> {
    /// Another turn.
    Go(Mode<P, A>),
    /// The answer of the whole.
    End(A),
}

/// Evaluates: the answer is right, with so many levels. The whole is one level, its parts one more. Where no level is
/// left the loop ends with the machine's answer for that; where the stack finds no memory, with that for want of it.
pub fn interpret<M: Machine>(machine: &M, alloc: Global, part: M::Part, limit: usize) -> M::Answer
    ensures { M.right machine.now limit part result }
{
    let mut stack = Stack::new(alloc, limit);
    interpret_on(machine, alloc, &mut stack, part)
}

/// The same on this stack, with as many levels as it has room for. What frames it has are taken away first. Where an
/// answer ended the whole, the stack has the frames that waited then.
pub fn interpret_on<M: Machine>(
    machine: &M,
    alloc: Global,
    stack: &mut Stack<M::Frame>,
    part: M::Part,
) -> M::Answer
    ensures { M.right machine.now stack.old.limit part result }
{
    stack.clear();
    let mut mode = Mode::Eval(part);
    'turns: loop {
        match advance(machine, alloc, stack, mode) {
            Turn::Go(next) => mode = next,
            Turn::End(answer) => return answer,
        }
    }
}

/// One turn: looks at a part, or hands an answer to the last frame. An answer that ends the whole is handed to none.
#[inline(always)]
pub fn advance<M: Machine>(
    machine: &M,
    alloc: Global,
    stack: &mut Stack<M::Frame>,
    mode: Mode<M::Part, M::Answer>,
) -> Turn<M::Part, M::Answer>
    ensures limit { stack.new.limit ≡ stack.old.limit }
    ensures right { IsRightTurn (M.right machine.now) (M.waits machine.now) stack.old mode stack.new result }
    ensures less { IsLessLeft M.left_of M.most stack.old mode stack.new result }
    ensures handed_on { IsHandedOn M.ends_all result }
{
    match mode {
        Mode::Eval(part) => looked_at(machine, alloc, stack, part),
        Mode::Answer(answer) => handed_on(machine, alloc, stack, answer),
    }
}

// A part is looked at, or the end where no level is left.
#[inline]
fn looked_at<M: Machine>(
    machine: &M,
    alloc: Global,
    stack: &mut Stack<M::Frame>,
    part: M::Part,
) -> Turn<M::Part, M::Answer>
    ensures limit { stack.new.limit ≡ stack.old.limit }
    ensures right { IsRightTurn (M.right machine.now) (M.waits machine.now) stack.old (Eval part) stack.new result }
    ensures less { IsLessLeft M.left_of M.most stack.old (Eval part) stack.new result }
    ensures handed_on { IsHandedOn M.ends_all result }
{
    let levels = stack.levels_left();
    if levels == 0 {
        return Turn::End(machine.limit());
    }
    match machine.start(alloc, part, levels) {
        Transition::Done(answer) => continue_with_answer(machine, answer),
        Transition::Wait(frame, next) => waiting(machine, stack, frame, next),
    }
}

// An answer is handed to the last frame, or is the end where there is none.
#[inline]
fn handed_on<M: Machine>(
    machine: &M,
    alloc: Global,
    stack: &mut Stack<M::Frame>,
    answer: M::Answer,
) -> Turn<M::Part, M::Answer>
    ensures limit { stack.new.limit ≡ stack.old.limit }
    ensures right { IsRightTurn (M.right machine.now) (M.waits machine.now) stack.old (Answer answer) stack.new result }
    ensures less { IsLessLeft M.left_of M.most stack.old (Answer answer) stack.new result }
    ensures handed_on { IsHandedOn M.ends_all result }
{
    let Some(frame) = stack.pop() else {
        return Turn::End(answer);
    };
    let levels = stack.levels_left();
    match machine.resume(alloc, frame, answer, levels) {
        Transition::Done(answer) => continue_with_answer(machine, answer),
        Transition::Wait(frame, next) => waiting(machine, stack, frame, next),
    }
}

// On with an answer, or the end.
#[inline(always)]
fn continue_with_answer<M: Machine>(machine: &M, answer: M::Answer) -> Turn<M::Part, M::Answer>
    ensures right { StaysRight (M.right machine.now) (M.waits machine.now) answer result }
    ensures less { IsAnswerLeft M.left_of M.most answer result }
    ensures handed_on { IsHandedOn M.ends_all result }
{
    if machine.ends(&answer) {
        Turn::End(answer)
    } else {
        Turn::Go(Mode::Answer(answer))
    }
}

// On with a part that a new frame waits for, or the end where the stack finds no memory.
#[inline(always)]
fn waiting<M: Machine>(
    machine: &M,
    stack: &mut Stack<M::Frame>,
    frame: M::Frame,
    part: M::Part,
) -> Turn<M::Part, M::Answer>
    requires { vec_len stack.old.frames < stack.old.limit }
    ensures limit { stack.new.limit ≡ stack.old.limit }
    ensures right { IsRightWait (M.right machine.now) (M.waits machine.now) stack.old frame part stack.new result }
    ensures less { IsWaitLeft M.left_of M.most stack.old frame part stack.new result }
    ensures handed_on { IsHandedOn M.ends_all result }
{
    match stack.push(frame) {
        Ok(()) => Turn::Go(Mode::Eval(part)),
        Err(_) => Turn::End(machine.want()),
    }
}
