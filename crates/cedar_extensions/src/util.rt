//! Maps of pairs whose keys differ, and the first duplicate key.
ghost use Rattle.std.specs.Prelude.{IfOk, IfErr, IfSome};
ghost use Rattle.std.specs.Iterator.{IsFinite};
ghost use Rattle.cedar_extensions.specs.Collected.{AreAll, ComesAgain, duplicate};

use std::alloc::{AllocError, AllocFailed, Global};
use std::collections::HashMap;
use std::hash::Hash;
use thiserror::Error;

/// Why pairs can't be put into one map.
#[derive(Debug, Clone, PartialEq, Eq, Drop, Error)]
pub enum CollectError<K> {
    /// This key comes more than once.
    #[error("duplicate key")]
    Duplicate(K),
    /// Out of memory.
    #[error("out of memory")]
    Memory(AllocError),
}

/// Running out of memory is `Memory`.
impl<K> From<AllocError> for CollectError<K> {
    ghost use Rattle.std.specs.Prelude.{◌≡◌};
    ghost use Rattle.cedar_extensions.specs.declared.util.CollectError.TheVariants as errors;

    ghost from_gives = { λ e r. r ≡ errors.Memory e };

    fn from(e: AllocError) -> CollectError<K> {
        CollectError::Memory(e)
    }
}

/// Running out of memory is `Memory`, and what found no room is dropped.
impl<K, T: Drop> From<AllocFailed<T>> for CollectError<K> {
    ghost use Rattle.std.specs.Prelude.{◌≡◌, alloc_error};
    ghost use Rattle.cedar_extensions.specs.declared.util.CollectError.TheVariants as errors;

    ghost from_gives = { λ _ r. r ≡ errors.Memory alloc_error };

    fn from(_e: AllocFailed<T>) -> CollectError<K> {
        CollectError::Memory(AllocError)
    }
}

/// The map of these pairs. Refuses with `Duplicate` where a key is a duplicate: it has the key as it came first. Else
/// refuses only if out of memory.
pub fn collect_no_duplicates<K: Eq + Hash + Drop, V: Drop, I: Iterator<Item = (K, V)> + Drop>(
    alloc: Global,
    pairs: I,
) -> Result<HashMap<K, V>, CollectError<K>>
    requires can { I.can_next pairs }
    requires finite { IsFinite (I.remaining pairs) }
    ensures ok { IfOk result (λ m. AreAll K.eq I.next_gives pairs m.entries) }
    ensures duplicate { IfErr result (λ e. IfSome (duplicate e) (ComesAgain K.eq I.next_gives pairs)) }
{
    let mut map: HashMap<K, V> = HashMap::new(alloc);
    'pairs: for (key, value) in pairs {
        match map.remove_entry(&key) {
            Some((first, _)) => return Err(CollectError::Duplicate(first)),
            None => match map.insert(key, value) {
                Ok(_) => {}
                Err(_) => return Err(CollectError::Memory(AllocError)),
            },
        }
    }
    Ok(map)
}
