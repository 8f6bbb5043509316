//! Keys: lists of texts, by which a thing is reported once.
ghost use Rattle.std.specs.Prelude.{◌≡◌, ◌++◌, ◌∷◌, [], IfOk, OnOk};
ghost use Rattle.std.specs.Rc.{rc_str_bytes};
ghost use Rattle.cedar_names.specs.Leaves.{texts_view};
ghost use Rattle.cedar_lints.specs.Keys.{has_key, with_key};

use std::alloc::{AllocError, Global};
use std::collections::BTreeSet;
use std::rc::RcStr;

/// Whether the key is one of these.
pub(crate) fn has_key(keys: &BTreeSet<Vec<RcStr>>, key: &Vec<RcStr>) -> bool
    ensures { result ≡ has_key keys.now.keys (texts_view key.now.items) }
{
    keys.contains(key)
}

/// Puts the key among these.
pub(crate) fn put_key(keys: &mut BTreeSet<Vec<RcStr>>, key: Vec<RcStr>) -> Result<(), AllocError>
    ensures { OnOk result (has_key keys.new.keys ≡ with_key (has_key keys.old.keys) (texts_view key.items)) }
{
    keys.insert(key)?;
    Ok(())
}

/// Puts the text, shared, after the others.
pub(crate) fn put_text(text: &RcStr, texts: &mut Vec<RcStr>) -> Result<(), AllocError>
    ensures { OnOk result
        (texts_view texts.new.items ≡ texts_view texts.old.items ++ rc_str_bytes text.now ∷ []) }
{
    texts.push(text.clone()?)?;
    Ok(())
}

/// Puts the texts, shared, after the others.
pub(crate) fn push_texts(more: &[RcStr], texts: &mut Vec<RcStr>) -> Result<(), AllocError>
    ensures { OnOk result
        (texts_view texts.new.items ≡ texts_view texts.old.items ++ texts_view more.now) }
{
    'texts: for text in more {
        put_text(text, texts)?;
    }
    Ok(())
}

/// The same texts, shared.
pub(crate) fn copied_texts(alloc: Global, texts: &[RcStr]) -> Result<Vec<RcStr>, AllocError>
    ensures { IfOk result (λ v. texts_view v.items ≡ texts_view texts.now) }
{
    let mut copies: Vec<RcStr> = Vec::new(alloc);
    push_texts(texts, &mut copies)?;
    Ok(copies)
}
