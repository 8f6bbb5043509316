//! The errors of evaluation, one struct for each.
ghost use Rattle.std.specs.Prelude.{Some, map, flat_map};
ghost use Rattle.std.specs.Fmt.{WritesOnOk};
ghost use Rattle.cedar_names.specs.Leaves.{type_view};
ghost use Rattle.cedar_errors.specs.Texts.{several_text, other_text};
ghost use Rattle.cedar_errors.specs.TypeTexts.{types_text, wrong_type_text};
ghost use Rattle.cedar_errors.specs.declared.evaluator.err.evaluation_errors.IntegerOverflowError.TheVariants as kinds;

use cedar_expressions::Expr;
use cedar_names::{BinaryOp, EntityUID, FirstRest, Loc, Name, SlotId, Type, UnaryOp};
use cedar_values::Value;
use std::fmt;
use std::fmt::Display;
use std::marker::Model;
use std::rc::{Rc, RcStr};
use thiserror::Error;

/// An entity was read that the store does not have.
#[derive(Debug, Clone, PartialEq, Eq, Error)]
#[error("entity `{uid}` does not exist")]
pub struct EntityDoesNotExistError {
    /// The entity that the store does not have.
    pub uid: Rc<EntityUID>,
    /// Where the error arose, if that is known.
    pub source_loc: Option<Loc>,
}

impl Drop for EntityDoesNotExistError {
    fn drop(self) {
        let EntityDoesNotExistError {
            uid: _,
            source_loc: _,
        } = self;
    }
}

impl Model for EntityDoesNotExistError {
    ghost use Rattle.cedar_errors.specs.Fields.{MissingEntity};

    ghost Value = { MissingEntity };

    ghost view = { λ a. record { uid = a.uid; source_loc = a.source_loc } };

    ghost inverse = { λ a. record { uid = a.uid; source_loc = a.source_loc } };
}

/// An attribute or a tag was read that the entity does not have.
#[derive(Debug, Clone, PartialEq, Eq, Error)]
#[error("`{entity}` does not have the {} `{attr_or_tag}`", attr_or_tag_word(*.was_attr))]
pub struct EntityAttrDoesNotExistError {
    /// The entity.
    pub entity: Rc<EntityUID>,
    /// The attribute or tag that it does not have.
    pub attr_or_tag: RcStr,
    /// Whether an attribute was read (`true`) or a tag (`false`).
    pub was_attr: bool,
    /// Whether the entity has a tag of the attribute's name, or an attribute of the tag's name.
    pub exists_the_other_kind: bool,
    /// The first five, by bytes, of the names that it has of this kind.
    pub available_attrs_or_tags: Vec<RcStr>,
    /// How many names it has of this kind.
    pub total_attrs_or_tags: usize,
    /// Where the error arose, if that is known.
    pub source_loc: Option<Loc>,
}

impl Drop for EntityAttrDoesNotExistError {
    fn drop(self) {
        let EntityAttrDoesNotExistError {
            entity: _,
            attr_or_tag: _,
            was_attr: _,
            exists_the_other_kind: _,
            available_attrs_or_tags: _,
            total_attrs_or_tags: _,
            source_loc: _,
        } = self;
    }
}

impl Model for EntityAttrDoesNotExistError {
    ghost use Rattle.cedar_errors.specs.Fields.{MissingEntityAttribute};

    ghost Value = { MissingEntityAttribute };

    ghost view = { λ a. record {
      entity = a.entity;
      attr_or_tag = a.attr_or_tag;
      was_attr = a.was_attr;
      exists_the_other_kind = a.exists_the_other_kind;
      available_attrs_or_tags = a.available_attrs_or_tags;
      total_attrs_or_tags = a.total_attrs_or_tags;
      source_loc = a.source_loc;
    } };

    ghost inverse = { λ a. record {
      entity = a.entity;
      attr_or_tag = a.attr_or_tag;
      was_attr = a.was_attr;
      exists_the_other_kind = a.exists_the_other_kind;
      available_attrs_or_tags = a.available_attrs_or_tags;
      total_attrs_or_tags = a.total_attrs_or_tags;
      source_loc = a.source_loc;
    } };
}

fn attr_or_tag_word(was_attr: bool) -> &'static str {
    if was_attr { "attribute" } else { "tag" }
}

/// An attribute was read that the record does not have.
#[derive(Debug, Clone, PartialEq, Eq, Error)]
#[error("record does not have the attribute `{attr}`")]
pub struct RecordAttrDoesNotExistError {
    /// The attribute that it does not have.
    pub attr: RcStr,
    /// The first five, by bytes, of the attributes that it has.
    pub available_attrs: Vec<RcStr>,
    /// How many attributes it has.
    pub total_attrs: usize,
    /// Where the error arose, if that is known.
    pub source_loc: Option<Loc>,
}

impl Drop for RecordAttrDoesNotExistError {
    fn drop(self) {
        let RecordAttrDoesNotExistError {
            attr: _,
            available_attrs: _,
            total_attrs: _,
            source_loc: _,
        } = self;
    }
}

impl Model for RecordAttrDoesNotExistError {
    ghost use Rattle.cedar_errors.specs.Fields.{MissingRecordAttribute};

    ghost Value = { MissingRecordAttribute };

    ghost view = { λ a. record {
      attr = a.attr;
      available_attrs = a.available_attrs;
      total_attrs = a.total_attrs;
      source_loc = a.source_loc;
    } };

    ghost inverse = { λ a. record {
      attr = a.attr;
      available_attrs = a.available_attrs;
      total_attrs = a.total_attrs;
      source_loc = a.source_loc;
    } };
}

/// A value was of another type than its place takes.
#[derive(Debug, Clone, PartialEq, Eq)]
pub struct TypeError {
    /// The types that the place takes.
    pub expected: FirstRest<Type>,
    /// The type of the value.
    pub actual: Type,
    /// Where the error arose, if that is known.
    pub source_loc: Option<Loc>,
}

impl Drop for TypeError {
    fn drop(self) {
        let TypeError {
            expected: _,
            actual: _,
            source_loc: _,
        } = self;
    }
}

impl Model for TypeError {
    ghost use Rattle.cedar_errors.specs.Fields.{WrongType};

    ghost Value = { WrongType };

    ghost view = { λ a. record { expected = a.expected; actual = a.actual; source_loc = a.source_loc } };

    ghost inverse = { λ a. record { expected = a.expected; actual = a.actual; source_loc = a.source_loc } };
}

impl std::error::Error for TypeError {}

/// `type error: expected T, got U`, and `type error: expected one of [S, T], got U` where the place takes several
/// types.
impl fmt::Display for TypeError {
    ghost output = { λ e. Some (wrong_type_text e.expected e.actual) };

    fn fmt<W: fmt::Write>(&self, f: &mut fmt::Formatter<W>) -> fmt::Result {
        f.write_str("type error: expected ")?;
        write_expected(&self.expected, f)?;
        f.write_str(", got ")?;
        self.actual.fmt(f)
    }
}

fn write_expected<W: fmt::Write>(
    expected: &FirstRest<Type>,
    f: &mut fmt::Formatter<W>,
) -> fmt::Result
    ensures { WritesOnOk W.write_str_gives f.old result (types_text expected.now) f.new }
{
    if expected.rest.is_empty() {
        expected.first.fmt(f)
    } else {
        write_several(&expected.first, &expected.rest, f)
    }
}

fn write_several<W: fmt::Write>(
    first: &Type,
    others: &[Type],
    f: &mut fmt::Formatter<W>,
) -> fmt::Result
    ensures { WritesOnOk W.write_str_gives f.old result
        (several_text (type_view first.now) (map type_view others.now)) f.new }
{
    f.write_str("one of [")?;
    first.fmt(f)?;
    write_others(others, f)?;
    f.write_str("]")
}

fn write_others<W: fmt::Write>(others: &[Type], f: &mut fmt::Formatter<W>) -> fmt::Result
    ensures { WritesOnOk W.write_str_gives f.old result (flat_map other_text (map type_view others.now)) f.new }
{
    'others: for ty in others {
        write_other(ty, f)?;
    }
    Ok(())
}

fn write_other<W: fmt::Write>(ty: &Type, f: &mut fmt::Formatter<W>) -> fmt::Result
    ensures { WritesOnOk W.write_str_gives f.old result (other_text (type_view ty.now)) f.new }
{
    f.write_str(", ")?;
    ty.fmt(f)
}

/// An extension function was called with more or fewer arguments than it takes.
#[derive(Debug, Clone, PartialEq, Eq, Error)]
#[error("wrong number of arguments provided to extension function `{function_name}`: expected {expected}, got {actual}")]
pub struct WrongNumArgumentsError {
    /// The function.
    pub function_name: Name,
    /// How many arguments it takes.
    pub expected: usize,
    /// How many it was given.
    pub actual: usize,
    /// Where the error arose, if that is known.
    pub source_loc: Option<Loc>,
}

impl Drop for WrongNumArgumentsError {
    fn drop(self) {
        let WrongNumArgumentsError {
            function_name: _,
            expected: _,
            actual: _,
            source_loc: _,
        } = self;
    }
}

impl Model for WrongNumArgumentsError {
    ghost use Rattle.cedar_errors.specs.Fields.{MiscountedArguments};

    ghost Value = { MiscountedArguments };

    ghost view = { λ a. record {
      function_name = a.function_name;
      expected = a.expected;
      actual = a.actual;
      source_loc = a.source_loc;
    } };

    ghost inverse = { λ a. record {
      function_name = a.function_name;
      expected = a.expected;
      actual = a.actual;
      source_loc = a.source_loc;
    } };
}

/// An operator on two longs gave a number that needs more than 64 bits.
#[derive(Debug, Clone, PartialEq, Eq, Error)]
#[error("integer overflow while attempting to {} the values `{arg1}` and `{arg2}`", binary_verb(*.op))]
pub struct BinaryOpOverflowError {
    /// The operator: `Add`, `Sub` or `Mul`.
    pub op: BinaryOp,
    /// Its left operand.
    pub arg1: Value,
    /// Its right operand.
    pub arg2: Value,
    /// Where the error arose, if that is known.
    pub source_loc: Option<Loc>,
}

impl Drop for BinaryOpOverflowError {
    fn drop(self) {
        let BinaryOpOverflowError {
            op: _,
            arg1: _,
            arg2: _,
            source_loc: _,
        } = self;
    }
}

impl Model for BinaryOpOverflowError {
    ghost use Rattle.std.specs.Coded.{codes};
    ghost use Rattle.cedar_values.specs.Sound.{placed_code};
    ghost use Rattle.cedar_errors.specs.Fields.{BinaryOverflow};

    ghost Value = { BinaryOverflow };

    ghost coded = { Prim.hlevel (codes, placed_code) };

    ghost view = { λ a. record { op = a.op; arg1 = a.arg1; arg2 = a.arg2; source_loc = a.source_loc } };

    ghost inverse = { λ a. record { op = a.op; arg1 = a.arg1; arg2 = a.arg2; source_loc = a.source_loc } };
}

fn binary_verb(op: BinaryOp) -> &'static str {
    match op {
        BinaryOp::Add => "add",
        BinaryOp::Sub => "subtract",
        BinaryOp::Mul => "multiply",
        BinaryOp::Eq
        | BinaryOp::Less
        | BinaryOp::LessEq
        | BinaryOp::In
        | BinaryOp::Contains
        | BinaryOp::ContainsAll
        | BinaryOp::ContainsAny
        | BinaryOp::GetTag
        | BinaryOp::HasTag => "perform an operation on",
    }
}

/// An operator on a long gave a number that needs more than 64 bits.
#[derive(Debug, Clone, PartialEq, Eq, Error)]
#[error("integer overflow while attempting to {} the value `{arg}`", unary_verb(*.op))]
pub struct UnaryOpOverflowError {
    /// The operator: `Neg`.
    pub op: UnaryOp,
    /// Its operand.
    pub arg: Value,
    /// Where the error arose, if that is known.
    pub source_loc: Option<Loc>,
}

impl Drop for UnaryOpOverflowError {
    fn drop(self) {
        let UnaryOpOverflowError {
            op: _,
            arg: _,
            source_loc: _,
        } = self;
    }
}

impl Model for UnaryOpOverflowError {
    ghost use Rattle.std.specs.Coded.{codes};
    ghost use Rattle.cedar_values.specs.Sound.{placed_code};
    ghost use Rattle.cedar_errors.specs.Fields.{UnaryOverflow};

    ghost Value = { UnaryOverflow };

    ghost coded = { Prim.hlevel (codes, placed_code) };

    ghost view = { λ a. record { op = a.op; arg = a.arg; source_loc = a.source_loc } };

    ghost inverse = { λ a. record { op = a.op; arg = a.arg; source_loc = a.source_loc } };
}

fn unary_verb(op: UnaryOp) -> &'static str {
    match op {
        UnaryOp::Neg => "negate",
        UnaryOp::Not | UnaryOp::IsEmpty => "perform an operation on",
    }
}

/// A slot of a template was read that is not linked to an entity.
#[derive(Debug, Clone, PartialEq, Eq, Drop, Error)]
#[error("template slot `{slot}` was not linked")]
pub struct UnlinkedSlotError {
    /// The slot.
    pub slot: SlotId,
    /// Where the error arose, if that is known.
    pub source_loc: Option<Loc>,
}

impl Model for UnlinkedSlotError {
    ghost use Rattle.cedar_errors.specs.Fields.{UnlinkedSlot};

    ghost Value = { UnlinkedSlot };

    ghost view = { λ a. record { slot = a.slot; source_loc = a.source_loc } };

    ghost inverse = { λ a. record { slot = a.slot; source_loc = a.source_loc } };
}

/// An extension function answered an error of its own.
#[derive(Debug, Clone, PartialEq, Eq, Error)]
#[error("error while evaluating `{extension_name}` extension function: {msg}")]
pub struct ExtensionFunctionExecutionError {
    /// The extension of the function.
    pub extension_name: Name,
    /// What the function says of it.
    pub msg: String,
    /// Where the error arose, if that is known.
    pub source_loc: Option<Loc>,
}

impl Drop for ExtensionFunctionExecutionError {
    fn drop(self) {
        let ExtensionFunctionExecutionError {
            extension_name: _,
            msg: _,
            source_loc: _,
        } = self;
    }
}

impl Model for ExtensionFunctionExecutionError {
    ghost use Rattle.cedar_errors.specs.Fields.{FailedFunction};

    ghost Value = { FailedFunction };

    ghost view = { λ a. record { extension_name = a.extension_name; msg = a.msg; source_loc = a.source_loc } };

    ghost inverse = { λ a. record { extension_name = a.extension_name; msg = a.msg; source_loc = a.source_loc } };
}

/// The expression holds an unknown, where a value was asked for.
#[derive(Debug, Clone, PartialEq, Eq, Error)]
#[error("the expression contains unknown(s): `{expr}`")]
pub struct NonValueError {
    /// What is left of the expression.
    pub expr: Expr,
    /// Where the error arose, if that is known.
    pub source_loc: Option<Loc>,
}

impl Drop for NonValueError {
    fn drop(self) {
        let NonValueError {
            expr: _,
            source_loc: _,
        } = self;
    }
}

impl Model for NonValueError {
    ghost use Rattle.std.specs.Coded.{codes};
    ghost use Rattle.cedar_expressions.specs.contracts.expr.Expr as expressions;
    ghost use Rattle.cedar_errors.specs.Fields.{Residual};

    ghost Value = { Residual };

    ghost coded = { Prim.hlevel (codes, expressions.the_row.coded) };

    ghost view = { λ a. record { expr = a.expr; source_loc = a.source_loc } };

    ghost inverse = { λ a. record { expr = a.expr; source_loc = a.source_loc } };
}

/// The depth of evaluation passed the limit, which counts levels of evaluation.
#[derive(Debug, Clone, PartialEq, Eq, Drop, Error)]
#[error("recursion limit reached")]
pub struct RecursionLimitError {
    /// Where the error arose, if that is known.
    pub source_loc: Option<Loc>,
}

/// A number needs more than 64 bits.
#[derive(Debug, Clone, PartialEq, Eq, Drop, Error)]
pub enum IntegerOverflowError {
    /// Of an operator on two longs.
    #[error(transparent)]
    BinaryOp(BinaryOpOverflowError),
    /// Of an operator on one long.
    #[error(transparent)]
    UnaryOp(UnaryOpOverflowError),
}

impl From<BinaryOpOverflowError> for IntegerOverflowError {
    ghost use Rattle.std.specs.Prelude.{◌≡◌};

    ghost from_gives = { λ e r. r ≡ kinds.BinaryOp e };

    fn from(e: BinaryOpOverflowError) -> IntegerOverflowError {
        IntegerOverflowError::BinaryOp(e)
    }
}

impl From<UnaryOpOverflowError> for IntegerOverflowError {
    ghost use Rattle.std.specs.Prelude.{◌≡◌};

    ghost from_gives = { λ e r. r ≡ kinds.UnaryOp e };

    fn from(e: UnaryOpOverflowError) -> IntegerOverflowError {
        IntegerOverflowError::UnaryOp(e)
    }
}

impl IntegerOverflowError {
    ghost use Rattle.std.specs.Prelude.{◌≡◌, option_copied};
    ghost use Rattle.cedar_errors.specs.Errors.{overflow_loc, overflow_at};

    /// Where the error arose, if that is known.
    pub fn source_loc(&self) -> Option<&Loc>
        ensures { option_copied result ≡ overflow_loc self.now }
    {
        match self {
            IntegerOverflowError::BinaryOp(e) => e.source_loc.as_ref(),
            IntegerOverflowError::UnaryOp(e) => e.source_loc.as_ref(),
        }
    }

    /// The same error at this location, or at no known location.
    pub fn with_maybe_source_loc(self, source_loc: Option<Loc>) -> IntegerOverflowError
        ensures { result ≡ overflow_at self source_loc }
    {
        let mut error = self;
        error.set_source_loc(source_loc);
        error
    }

    // Puts it at this location, or at no known location.
    pub(crate) fn set_source_loc(&mut self, source_loc: Option<Loc>)
        ensures { self.new ≡ overflow_at self.old source_loc }
    {
        match self {
            IntegerOverflowError::BinaryOp(e) => e.source_loc = source_loc,
            IntegerOverflowError::UnaryOp(e) => e.source_loc = source_loc,
        }
    }
}

impl ExtensionFunctionExecutionError {
    ghost use Rattle.std.specs.Prelude.{◌≡◌};

    /// The extension of the function.
    pub fn extension_name(&self) -> &Name
        ensures { result.now ≡ self.now.extension_name }
    {
        &self.extension_name
    }
}
