//! Boxes of what is held already: where there is no memory for one, all that is held is dropped.
ghost use Rattle.std.specs.Prelude.{◌≡◌, Ok, IfOk};

use std::alloc::{AllocError, Global};
use std::rc::Rc;

// It in a box. What finds no room is dropped here, by a function that knows none of its variants.
#[inline(always)]
pub(crate) fn put_in_box<A: Drop>(alloc: Global, held: A) -> Result<Box<A>, AllocError>
    ensures { IfOk result (λ b. b.value ≡ held) }
{
    Ok(Box::new(alloc, held)?)
}

// It in a box, and what came beside it.
pub(crate) fn boxed_with<A: Drop, B: Drop>(
    alloc: Global,
    held: A,
    beside: Result<B, AllocError>,
) -> Result<(Box<A>, B), AllocError>
    ensures held { IfOk result (λ p. p.0.value ≡ held) }
    ensures beside { IfOk result (λ p. beside ≡ Ok p.1) }
{
    let beside = beside?;
    let held = Box::new(alloc, held)?;
    Ok((held, beside))
}

// What is held, the shared one beside it, and that once more.
pub(crate) fn copied_beside<A: Drop, B: Drop>(
    held: A,
    shared: Rc<B>,
) -> Result<(A, Rc<B>, Rc<B>), AllocError>
    ensures held { IfOk result (λ p. p.0 ≡ held) }
    ensures shared { IfOk result (λ p. p.1 ≡ shared) }
    ensures again { IfOk result (λ p. p.2.value ≡ shared.value) }
{
    let again = shared.clone()?;
    Ok((held, shared, again))
}
