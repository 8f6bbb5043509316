//! The types of restricted expressions.
ghost use Rattle.std.specs.Prelude.{◌≡◌, IfOk, option_copied, option_map};
ghost use Rattle.cedar_names.specs.Names.{name_text};
ghost use Rattle.cedar_names.specs.Leaves.{literal_view, type_view};
ghost use Rattle.cedar_extensions.specs.Extensions.{func_of};
ghost use Rattle.cedar_restricted.specs.Types.{literal_type, type_in, made_type, return_types};

use super::BorrowedRestrictedExpr;
use super::kinds::{RestrictedKind, kind_of};
use cedar_extensions::Extensions;
use cedar_names::{Literal, Name, Type};
use std::alloc::{AllocError, Global};

impl<'a> BorrowedRestrictedExpr<'a> {
    ghost use Rattle.cedar_restricted.specs.Views.{borrowed_term};

    /// The type of the expression's value, as far as it is known without evaluation: of a literal its type, of a set
    /// `Set`, of a record `Record`, of an unknown its annotation, and of a call the type that the function returns,
    /// where there is such a function, a standard one or one of an extension, and that type is known. Refuses only if out
    /// of memory.
    pub fn try_type_of(
        &self,
        alloc: Global,
        extensions: &Extensions<'_>,
    ) -> Result<Option<Type>, AllocError>
        ensures { IfOk result
            (λ t. option_map type_view t ≡ type_in (return_types extensions.now) (borrowed_term self.now)) }
    {
        match kind_of(self.expr) {
            RestrictedKind::Literal(literal) => Ok(Some(literal_type(literal)?)),
            RestrictedKind::Unknown(unknown) => Ok(unknown.type_annotation.clone()?),
            RestrictedKind::Set(_) => Ok(Some(Type::Set)),
            RestrictedKind::Record(_) => Ok(Some(Type::Record)),
            RestrictedKind::Call(fn_name, _) => Ok(return_type(alloc, extensions, fn_name)?),
        }
    }
}

// The type of a literal.
fn literal_type(literal: &Literal) -> Result<Type, AllocError>
    ensures { IfOk result (λ t. type_view t ≡ literal_type (literal_view literal.now)) }
{
    match literal {
        Literal::Bool(_) => Ok(Type::Bool),
        Literal::Long(_) => Ok(Type::Long),
        Literal::String(_) => Ok(Type::String),
        Literal::EntityUID(uid) => Ok(Type::Entity {
            ty: uid.entity_type().clone()?,
        }),
    }
}

// The type that the function of this name returns, a standard one first, if there is one and the type is known.
fn return_type(
    alloc: Global,
    extensions: &Extensions<'_>,
    fn_name: &Name,
) -> Result<Option<Type>, AllocError>
    ensures { IfOk result (λ t. option_map type_view t ≡ return_types extensions.now (name_text fn_name.now)) }
{
    match extensions.standard(fn_name) {
        Some(function) => Ok(Some(function.return_type(alloc)?)),
        None => made_type(extensions, fn_name),
    }
}

// The same of the functions that the caller made.
fn made_type(extensions: &Extensions<'_>, fn_name: &Name) -> Result<Option<Type>, AllocError>
    ensures { IfOk result (λ t. option_map type_view t ≡ made_type (func_of extensions.now (name_text fn_name.now))) }
{
    match extensions.func(fn_name) {
        Ok(function) => type_copied(function.return_type()),
        Err(_) => Ok(None),
    }
}

// The type, if there is one.
fn type_copied(ty: Option<&Type>) -> Result<Option<Type>, AllocError>
    ensures { IfOk result (λ t. option_map type_view t ≡ option_map type_view (option_copied ty.entry)) }
{
    match ty {
        Some(ty) => Ok(Some(ty.clone()?)),
        None => Ok(None),
    }
}
