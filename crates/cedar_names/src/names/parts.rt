//! The texts that names are made of, for the crates above.
ghost use Rattle.std.specs.Prelude.{◌≡◌};
ghost use Rattle.std.specs.Rc.{rc_str_bytes};
ghost use Rattle.cedar_names.specs.Names.{name_text, type_text, uid_name};

use super::{EntityType, EntityUID, Name};
use std::rc::RcStr;

impl Name {
    /// The text of the name.
    pub fn text(&self) -> &RcStr
        ensures { rc_str_bytes result.now ≡ name_text self.now }
    {
        &self.text
    }
}

impl EntityType {
    /// The text of the entity type's name.
    pub fn text(&self) -> &RcStr
        ensures { rc_str_bytes result.now ≡ type_text self.now }
    {
        self.0.text()
    }
}

impl EntityUID {
    /// The id of the entity.
    pub fn eid(&self) -> &RcStr
        ensures { rc_str_bytes result.now ≡ (uid_name self.now).id }
    {
        &self.eid
    }
}
