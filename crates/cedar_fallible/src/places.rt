//! A place for one value more: in a list, or to be shared. What finds no room is dropped here.
ghost use Rattle.std.specs.Prelude.{◌≡◌, [], ◌∷◌, ◌++◌, IfOk, OnOk, OnErr};

use std::alloc::{AllocError, Global};
use std::rc::Rc;

/// Puts the item behind the others. Where it finds no room, the others stay as they were.
pub fn add_last<T: Drop>(items: &mut Vec<T>, item: T) -> Result<(), AllocError>
    ensures ok { OnOk result (items.new.items ≡ items.old.items ++ item ∷ []) }
    ensures err { OnErr result (items.new.items ≡ items.old.items) }
{
    items.push(item)?;
    Ok(())
}

/// It, to be shared.
pub fn in_rc<T: Drop>(alloc: Global, held: T) -> Result<Rc<T>, AllocError>
    ensures { IfOk result (λ r. r.value ≡ held) }
{
    Ok(Rc::new(alloc, held)?)
}
