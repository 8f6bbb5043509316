//! Copies of uids, and sets of them.
ghost use Rattle.std.specs.Prelude.{◌≡◌, not, map, IfOk, OnOk};
ghost use Rattle.cedar_names.specs.Names.{uid_name};
ghost use Rattle.cedar_hierarchy.specs.Sorting.{named_in, with_name};
ghost use Rattle.cedar_overlay.specs.Adding.{with_names};

use cedar_layers::expressions::EntityUID;
use std::alloc::AllocError;
use std::collections::BTreeSet;

// The same uid, whose texts are shared.
pub(crate) fn copied_uid(uid: &EntityUID) -> Result<EntityUID, AllocError>
    ensures { IfOk result (λ u. uid_name u ≡ uid_name uid.now) }
{
    Ok(uid.clone()?)
}

// The same uids.
pub(crate) fn copied_uids(uids: &BTreeSet<EntityUID>) -> Result<BTreeSet<EntityUID>, AllocError>
    ensures { IfOk result (λ s. map uid_name s.keys ≡ map uid_name uids.now.keys) }
{
    Ok(uids.clone()?)
}

// Puts the uid among these, and says whether it is new there.
pub(crate) fn put_uid(uids: &mut BTreeSet<EntityUID>, uid: &EntityUID) -> Result<bool, AllocError>
    ensures names { OnOk result (named_in uids.new.keys ≡ with_name (named_in uids.old.keys) (uid_name uid.now)) }
    ensures first { IfOk result (λ b. b ≡ not (named_in uids.old.keys (uid_name uid.now))) }
{
    Ok(uids.insert(copied_uid(uid)?)?)
}

// Puts each of these uids among them.
pub(crate) fn put_uids(
    uids: &mut BTreeSet<EntityUID>,
    more: &BTreeSet<EntityUID>,
) -> Result<(), AllocError>
    ensures { OnOk result
        (named_in uids.new.keys ≡ with_names (named_in uids.old.keys) (map uid_name more.now.keys)) }
{
    'uids: for uid in more {
        put_uid(uids, uid)?;
    }
    Ok(())
}
