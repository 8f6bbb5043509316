#![tactic(auto, using(crate::proofs::Levels::levels, crate::proofs::NodeLevels::nodes))]
//! Literals of an entity and of a text, in short.
ghost use Rattle.std.specs.Prelude.{◌≡◌, IfOk, None, Some};
ghost use Rattle.cedar_model.specs.Terms.{literal, text_literal, entity_literal};
ghost use Rattle.cedar_names.specs.Names.{uid_name};
ghost use Rattle.cedar_expressions.specs.View.{view, expr_loc};
ghost use Rattle.cedar_expressions.specs.Nodes.{node_of, uid_at};

use super::Expr;
use cedar_names::{EntityUID, Literal};
use std::alloc::{AllocError, Global};
use std::rc::{Rc, RcStr};

impl Expr {
    /// The literal that names this entity. Refuses only if out of memory.
    pub fn entity(alloc: Global, uid: EntityUID) -> Result<Expr, AllocError>
        ensures view { IfOk result (λ e. view e ≡ literal (entity_literal (uid_name uid))) }
        ensures whole { IfOk result (λ e. uid_at (node_of e) ≡ Some uid) }
        ensures loc { IfOk result (λ e. expr_loc e ≡ None) }
    {
        let uid = Rc::new(alloc, uid)?;
        Ok(Expr::val(Literal::EntityUID(uid)))
    }

    /// The literal of this text. Refuses only if out of memory.
    pub fn text(alloc: Global, text: &str) -> Result<Expr, AllocError>
        ensures view { IfOk result (λ e. view e ≡ literal (text_literal text.now)) }
        ensures loc { IfOk result (λ e. expr_loc e ≡ None) }
    {
        let text = RcStr::from_str(alloc, text)?;
        Ok(Expr::val(Literal::String(text)))
    }
}
