//! Operators, variables, slots and types by their names in JSON.
ghost use Rattle.std.specs.Prelude.{◌≡◌};
ghost use Rattle.cedar_names.specs.Leaves.{slot_view, unary_view, binary_view};
ghost use Rattle.cedar_names.specs.Texts.{slot_text};
ghost use Rattle.cedar_policy_json_writer.specs.Names.{unary_name, binary_name};

use cedar_names::{BinaryOp, SlotId, UnaryOp};

/// The operator's name.
pub(crate) fn unary_name(op: UnaryOp) -> &'static str
    ensures { result.now ≡ unary_name (unary_view op) }
{
    match op {
        UnaryOp::Not => "!",
        UnaryOp::Neg => "neg",
        UnaryOp::IsEmpty => "isEmpty",
    }
}

/// The operator's name.
pub(crate) fn binary_name(op: BinaryOp) -> &'static str
    ensures { result.now ≡ binary_name (binary_view op) }
{
    match op {
        BinaryOp::Eq => "==",
        BinaryOp::Less => "<",
        BinaryOp::LessEq => "<=",
        BinaryOp::Add => "+",
        BinaryOp::Sub => "-",
        BinaryOp::Mul => "*",
        BinaryOp::In => "in",
        BinaryOp::Contains => "contains",
        BinaryOp::ContainsAll => "containsAll",
        BinaryOp::ContainsAny => "containsAny",
        BinaryOp::GetTag => "getTag",
        BinaryOp::HasTag => "hasTag",
    }
}

/// The slot's name.
pub(crate) fn slot_name(slot: SlotId) -> &'static str
    ensures { result.now ≡ slot_text (slot_view slot) }
{
    match slot {
        SlotId::Principal => "?principal",
        SlotId::Resource => "?resource",
    }
}
