//! How operators print.
ghost use Rattle.std.specs.Prelude.{Some};
ghost use Rattle.cedar_names.specs.Leaves.{unary_view, binary_view};
ghost use Rattle.cedar_names.specs.Texts.{unary_text, binary_text};

use crate::operators::{BinaryOp, UnaryOp};
use std::fmt;

/// The operator's name: `!_`, `-_` or `isEmpty`.
impl fmt::Display for UnaryOp {
    ghost output = { λ op. Some (unary_text (unary_view op)) };

    fn fmt<W: fmt::Write>(&self, f: &mut fmt::Formatter<W>) -> fmt::Result {
        match self {
            UnaryOp::Not => f.write_str("!_"),
            UnaryOp::Neg => f.write_str("-_"),
            UnaryOp::IsEmpty => f.write_str("isEmpty"),
        }
    }
}

/// The operator's name: as `_==_` where it stands between its parts, and as `contains` where it is called.
impl fmt::Display for BinaryOp {
    ghost output = { λ op. Some (binary_text (binary_view op)) };

    fn fmt<W: fmt::Write>(&self, f: &mut fmt::Formatter<W>) -> fmt::Result {
        match self {
            BinaryOp::Eq => f.write_str("_==_"),
            BinaryOp::Less => f.write_str("_<_"),
            BinaryOp::LessEq => f.write_str("_<=_"),
            BinaryOp::Add => f.write_str("_+_"),
            BinaryOp::Sub => f.write_str("_-_"),
            BinaryOp::Mul => f.write_str("_*_"),
            BinaryOp::In => f.write_str("_in_"),
            BinaryOp::Contains => f.write_str("contains"),
            BinaryOp::ContainsAll => f.write_str("containsAll"),
            BinaryOp::ContainsAny => f.write_str("containsAny"),
            BinaryOp::GetTag => f.write_str("getTag"),
            BinaryOp::HasTag => f.write_str("hasTag"),
        }
    }
}
