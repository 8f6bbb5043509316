//! What a machine keeps.
ghost use Rattle.std.specs.Prelude.{◌≤◌, []};
ghost use Rattle.cedar_text_syntax.specs.Trees.{FindParts, FindParts-prop};

use crate::frames::Frames;
use crate::steps::Step;

// What was read: what waits, what is finished, and of the part that was read last the level, the bytes from which and
// up to which it stands, and how many levels it has.
#[derive(Drop)]
pub(super) struct Work {
    pub(super) frames: Frames,
    pub(super) steps: Vec<Step>,
    pub(super) limit: usize,
    pub(super) level: u8,
    pub(super) start: usize,
    pub(super) end: usize,
    pub(super) height: usize,
    ghost low: { height ≤ limit },
    ghost made: { FindParts [] steps.items } by { FindParts-prop [] steps.items },
}
