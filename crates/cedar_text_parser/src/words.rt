//! What words stand for where a variable, a slot or a method is named.
ghost use Rattle.std.specs.Prelude.{◌≡◌};
ghost use Rattle.cedar_text_parser.specs.Wording as Wording;

use cedar_names::{BinaryOp, SlotId, Var};
use cedar_text_lexer::tokens::Kind;

/// What a method is.
#[derive(Clone, Copy)]
pub enum MethodKind {
    /// This operator, of the receiver and one argument.
    Operator(BinaryOp),
    /// `isEmpty`, of the receiver alone.
    IsEmpty,
    /// The extension function of the same name.
    Function,
}

/// What the method of this name is.
pub fn method(word: &str) -> MethodKind
    ensures { result ≡ Wording.method_of word.now }
{
    match word {
        "contains" => MethodKind::Operator(BinaryOp::Contains),
        "containsAll" => MethodKind::Operator(BinaryOp::ContainsAll),
        "containsAny" => MethodKind::Operator(BinaryOp::ContainsAny),
        "getTag" => MethodKind::Operator(BinaryOp::GetTag),
        "hasTag" => MethodKind::Operator(BinaryOp::HasTag),
        "isEmpty" => MethodKind::IsEmpty,
        _ => MethodKind::Function,
    }
}

/// The variable that a token of this kind is, if it is one.
pub fn variable(kind: Kind) -> Option<Var>
    ensures { result ≡ Wording.variable_of kind }
{
    match kind {
        Kind::Principal => Some(Var::Principal),
        Kind::Action => Some(Var::Action),
        Kind::Resource => Some(Var::Resource),
        Kind::Context => Some(Var::Context),
        _ => None,
    }
}

/// The slot that a token of this kind is, if it is one.
pub fn slot(kind: Kind) -> Option<SlotId>
    ensures { result ≡ Wording.slot_of kind }
{
    match kind {
        Kind::PrincipalSlot => Some(SlotId::Principal),
        Kind::ResourceSlot => Some(SlotId::Resource),
        _ => None,
    }
}
