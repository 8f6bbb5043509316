//! What an evaluator is, for the loop.
ghost use Rattle.std.specs.Prelude.{◌≡◌, ℕ, suc, ◌≤◌, Bool, true};
ghost use Rattle.cedar_frames.specs.Frames.{Resumes, GoesOn, Rises, Fewer, Below};

use std::alloc::Global;

/// What comes next of a part: its answer, or a wait in a frame for a part of it.
#[derive(Drop)]
pub enum Transition<F, P, A> {
    /// The part is answered.
    Done(A),
    /// The frame waits for the answer of this part.
    Wait(F, P),
}

/// An evaluator, by what its frames wait for.
pub trait Machine {
    /// What waits for the answer of a part.
    type Frame: Drop;

    /// What is evaluated.
    type Part: Drop;

    /// What a part is answered.
    type Answer: Drop;

    /// The answer to the part is right, with so many levels.
    ghost right: { Self → ℕ → Self.Part → Self.Answer → Type 0 };

    /// In the frame the first part waits for the second, where parts have so many levels.
    ghost waits: { Self → ℕ → Self.Frame → Self.Part → Self.Part → Type 0 };

    /// How often a frame can still wait, this time included.
    ghost left_of: { Self.Frame → ℕ };

    /// More than any frame that a part begins with has left.
    ghost most: { ℕ };

    /// Whether the answer is handed to no frame: it ends the whole at once.
    ghost ends_all: { Self.Answer → Bool };

    /// The answer where no level is left.
    ghost at_limit: { Self.Answer };

    /// The answer if out of memory.
    ghost at_out_of_memory: { Self.Answer };

    /// Looks at a part: answers it, or waits for a part of it. So many levels are left for the part, at least one: it
    /// is one of them itself, and its parts are one more.
    fn start(
        &self,
        alloc: Global,
        part: Self::Part,
        levels: usize,
    ) -> Transition<Self::Frame, Self::Part, Self::Answer>
        ensures right { (k : ℕ) → suc k ≡ levels → Resumes (right self.now) (waits self.now) k part result }
        ensures below { Below left_of most result };

    /// Goes on with the answer of the part that the frame waits for. So many levels are left for what waits, at least
    /// one.
    fn resume(
        &self,
        alloc: Global,
        frame: Self::Frame,
        answer: Self::Answer,
        levels: usize,
    ) -> Transition<Self::Frame, Self::Part, Self::Answer>
        ensures right { GoesOn (right self.now) (waits self.now) levels frame answer result }
        ensures fewer { Fewer left_of frame result };

    /// Whether the answer ends the whole at once.
    fn ends(&self, answer: &Self::Answer) -> bool
        ensures { result ≡ ends_all answer.now };

    /// The answer where no level is left.
    fn limit(&self) -> Self::Answer
        ensures { result ≡ at_limit };

    /// The answer if out of memory.
    fn want(&self) -> Self::Answer
        ensures { result ≡ at_out_of_memory };

    /// With no level the limit is right, to any part.
    ghost right_limit: { (s : Self) (t : Self.Part) → right s 0 t at_limit };

    /// Running out of memory is right, to any part.
    ghost right_out_of_memory: { (s : Self) (k : ℕ) (t : Self.Part) → right s k t at_out_of_memory };

    /// The limit ends the whole.
    ghost limit_ends: { ends_all at_limit ≡ true };

    /// An answer that ends the whole is right of a part only where it is right of what waits for the part.
    ghost right_upward: { (s : Self) → Rises ends_all (right s) (waits s) };

    /// A frame that waits can wait once.
    ghost some_left: { (f : Self.Frame) → 1 ≤ left_of f };

    /// There is room for a frame.
    ghost some_most: { 1 ≤ most };
}
