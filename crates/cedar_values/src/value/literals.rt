//! Values of an entity and of a text, in short.
ghost use Rattle.std.specs.Prelude.{◌≡◌, IfOk, None, []};
ghost use Rattle.cedar_model.specs.Terms.{text_literal, entity_literal};
ghost use Rattle.cedar_model.specs.Values.{plain_represented};
ghost use Rattle.cedar_names.specs.Names.{uid_name};

use super::{Value, ValueKind};
use cedar_names::{EntityUID, Literal};
use std::alloc::{AllocError, Global};
use std::rc::{Rc, RcStr};

impl Value {
    /// The entity of this name, at no location. Refuses only if out of memory.
    pub fn entity(alloc: Global, uid: EntityUID) -> Result<Value, AllocError>
        ensures what { IfOk result (λ v. v.what ≡ plain_represented (entity_literal (uid_name uid))) }
        ensures inside { IfOk result (λ v. v.inside ≡ []) }
        ensures loc { IfOk result (λ v. v.loc ≡ None) }
    {
        let uid = Rc::new(alloc, uid)?;
        Ok(Value::new(ValueKind::Lit(Literal::EntityUID(uid)), None))
    }

    /// This text, at no location. Refuses only if out of memory.
    pub fn text(alloc: Global, text: &str) -> Result<Value, AllocError>
        ensures what { IfOk result (λ v. v.what ≡ plain_represented (text_literal text.now)) }
        ensures inside { IfOk result (λ v. v.inside ≡ []) }
        ensures loc { IfOk result (λ v. v.loc ≡ None) }
    {
        let text = RcStr::from_str(alloc, text)?;
        Ok(Value::new(ValueKind::Lit(Literal::String(text)), None))
    }
}
