//! The stack of frames, no higher than its limit.
ghost use Rattle.std.specs.Prelude.{◌≡◌, ◌+◌, ◌++◌, ◌∷◌, [], ◌<◌, ◌≤◌, IfOk, IfSome, vec_len, length};
ghost use Rattle.cedar_frames.specs.Stacks.{IsPopped};

use std::alloc::{AllocError, Global};

/// Frames, the last on top: never more than the limit.
#[derive(Drop)]
pub struct Stack<F> {
    frames: Vec<F>,
    limit: usize,
    ghost bounded: { vec_len frames ≤ limit },
}

impl<F> Stack<F> {
    /// The empty stack for at most `limit` frames.
    pub fn new(alloc: Global, limit: usize) -> Stack<F>
        ensures limit { result.limit ≡ limit }
        ensures empty { result.frames.items ≡ [] }
    {
        Stack {
            frames: Vec::new(alloc),
            limit,
        }
    }

    /// The frames, the last on top.
    pub fn frames(&self) -> &[F]
        ensures { result.now ≡ self.now.frames.items }
    {
        &self.frames
    }

    /// How many more frames the limit allows.
    pub fn levels_left(&self) -> usize
        ensures { result + length self.now.frames.items ≡ self.now.limit }
    {
        self.limit - self.frames.len()
    }

    // Puts a frame on top. Refuses only if out of memory.
    pub(crate) fn push(&mut self, frame: F) -> Result<(), AllocError>
    where
        F: Drop,
        requires { vec_len self.old.frames < self.old.limit }
        ensures limit { self.new.limit ≡ self.old.limit }
        ensures ok { IfOk result (λ _. self.new.frames.items ≡ self.old.frames.items ++ frame ∷ []) }
    {
        match self.frames.push(frame) {
            Ok(()) => Ok(()),
            Err(_) => Err(AllocError),
        }
    }

    // Takes all frames away. It costs one test where there is none.
    #[inline(always)]
    pub(crate) fn clear(&mut self)
    where
        F: Drop,
        ensures limit { self.new.limit ≡ self.old.limit }
        ensures empty { self.new.frames.items ≡ [] }
    {
        if !self.frames.is_empty() {
            self.frames.clear();
        }
    }

    /// Takes the frame on top away.
    pub fn pop(&mut self) -> Option<F>
        ensures limit { self.new.limit ≡ self.old.limit }
        ensures top { IsPopped self.old.frames.items self.new.frames.items result }
        ensures room { IfSome result (λ _. length self.new.frames.items < self.old.limit) }
    {
        self.frames.pop()
    }
}
