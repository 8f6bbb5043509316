//! Why JSON of expressions and policies was not read.
ghost use Rattle.std.specs.Prelude.{◌≡◌, alloc_error};
ghost use Rattle.cedar_policy_json_reader.specs.declared.errors.PolicyJsonError.TheVariants as errors;

use crate::paths::{JsonPath, PathStep};
use std::alloc::{AllocError, AllocFailed, Global};
use std::fmt;
use std::fmt::Display;
use std::rc::RcStr;

/// Why a part of a JSON value is refused.
#[derive(Clone, Copy, Debug, Drop)]
pub enum RefusalReason {
    /// An expression that is no object of one member, which an operator or a function names.
    NotAnExpression,
    /// A key that names no operator and no function that is known.
    UnknownOperator,
    /// An expression that nests deeper than the limit of levels.
    TooDeep,
    /// An `is` with an `in` in the left side of another: that side becomes two parts of the expression, so that each
    /// such level would double it.
    DoubledTest,
    /// A slot in an expression: it may stand in a scope alone.
    SlotOutsideScope,
    /// A slot in the scope of a policy that is no template.
    SlotInPolicy,
    /// What stands at `slot` is not the variable's own slot: `?principal`, or `?resource`.
    NotASlot,
    /// What stands at `effect` is neither `permit` nor `forbid`.
    NotAnEffect,
    /// What stands at `kind` is neither `when` nor `unless`.
    NotAKind,
    /// The key of an annotation is no word.
    NotAWord,
    /// A function's arguments are not as many as it takes.
    WrongArguments,
    /// What stands at `Value` is `null`, an array, or an object that is no entity at `__entity`.
    NotALiteral,
    /// A number that is no integer of 64 bits, written without a point and an exponent.
    NotALong,
    /// A text that is no variable's name: `principal`, `action`, `resource` or `context`.
    NotAVariable,
    /// What is no type of an unknown.
    NotAType,
    /// The name of a type is no words with `::` between them, or one of the words is reserved.
    NotAName,
    /// A part of a pattern that is neither `"Wildcard"` nor an object of a text at `Literal`.
    NotAPatternPart,
    /// What names no attribute: neither a text, nor an array of texts, of which there is one at least.
    NotAnAttribute,
    /// No text, where one is asked for.
    NotAText,
    /// No object, where one is asked for.
    NotAnObject,
    /// No array, where one is asked for.
    NotAnArray,
    /// An object has a member besides those that it must have, or one of them twice.
    UnexpectedMember,
    /// A member that the object must have.
    MissingMember,
    /// A key of a record, of annotations or of policies that stands there a second time.
    RepeatedKey,
    /// No template has this id.
    NoSuchTemplate,
    /// Another policy, template or link has this id.
    TakenId,
    /// A value for a slot that the template does not have.
    NoSuchSlot,
    /// A text that is no entity's, as `User::"alice"` is.
    NotAnEntity,
}

/// Why JSON was not read.
#[derive(Debug, Drop)]
pub enum PolicyJsonError {
    /// The text is no JSON, or nests deeper than it may.
    Syntax,
    /// The text is JSON, and an object of it has a key twice.
    DuplicateKey,
    /// A part of the JSON value is refused: where it stands, and why.
    Refused {
        path: JsonPath,
        reason: RefusalReason,
    },
    /// Out of memory.
    Memory(AllocError),
}

impl PolicyJsonError {
    ghost use Rattle.std.specs.Prelude.{[], ◌∷◌};
    ghost use Rattle.std.specs.Rc.{rc_str_bytes};
    ghost use Rattle.cedar_policy_json_reader.specs.Paths.{at_key, at_index, step_view};
    ghost use Rattle.cedar_policy_json_reader.specs.Refusals.{IsUnder, IsRefusedAt};

    /// The refusal of the whole value for this reason: `Refused`, whose path has no steps.
    #[cold]
    pub fn refusal(alloc: Global, reason: RefusalReason) -> PolicyJsonError
        ensures { IsRefusedAt [] reason result }
    {
        let path = JsonPath {
            steps: Vec::new(alloc),
        };
        PolicyJsonError::Refused { path, reason }
    }

    /// The refusal of the part at this key for this reason: `Refused`, or `Memory` if out of memory.
    #[cold]
    pub fn refusal_at(alloc: Global, key: &str, reason: RefusalReason) -> PolicyJsonError
        ensures { IsRefusedAt (at_key key.now ∷ []) reason result }
    {
        PolicyJsonError::refusal(alloc, reason).under_key(alloc, key)
    }

    /// The same error, of the part at this key: the path of `Refused` begins with it. `Memory` if out of memory.
    #[cold]
    pub fn under_key(self, alloc: Global, key: &str) -> PolicyJsonError
        ensures { IsUnder (at_key key.now) self result }
    {
        match RcStr::from_str(alloc, key) {
            Ok(key) => self.under(PathStep::Key(key)),
            Err(error) => PolicyJsonError::Memory(error),
        }
    }

    /// The same error, of the part at this index: the path of `Refused` begins with it. `Memory` if out of memory.
    #[cold]
    pub fn under_index(self, index: usize) -> PolicyJsonError
        ensures { IsUnder (at_index index) self result }
    {
        self.under(PathStep::Index(index))
    }

    fn under(self, step: PathStep) -> PolicyJsonError
        ensures { IsUnder (step_view step) self result }
    {
        match self {
            PolicyJsonError::Syntax => PolicyJsonError::Syntax,
            PolicyJsonError::DuplicateKey => PolicyJsonError::DuplicateKey,
            PolicyJsonError::Refused { path, reason } => match path.under(step) {
                Ok(path) => PolicyJsonError::Refused { path, reason },
                Err(error) => PolicyJsonError::Memory(error),
            },
            PolicyJsonError::Memory(error) => PolicyJsonError::Memory(error),
        }
    }
}

/// `Memory`.
impl From<AllocError> for PolicyJsonError {
    ghost from_gives = { λ error result. result ≡ errors.Memory error };

    fn from(error: AllocError) -> PolicyJsonError {
        PolicyJsonError::Memory(error)
    }
}

/// `Memory`, and what found no room is dropped.
impl<T: Drop> From<AllocFailed<T>> for PolicyJsonError {
    ghost from_gives = { λ _ result. result ≡ errors.Memory alloc_error };

    fn from(_failed: AllocFailed<T>) -> PolicyJsonError {
        PolicyJsonError::Memory(AllocError)
    }
}

impl fmt::Display for RefusalReason {
    ghost use Rattle.std.specs.Prelude.{Some};
    ghost use Rattle.cedar_policy_json_reader.specs.ErrorTexts.{reason_text};

    ghost output = { λ r. Some (reason_text r) };

    fn fmt<W: fmt::Write>(&self, f: &mut fmt::Formatter<W>) -> fmt::Result {
        match self {
            RefusalReason::NotAnExpression => f.write_str("not an object of one operator"),
            RefusalReason::UnknownOperator => f.write_str("no such operator or function"),
            RefusalReason::TooDeep => f.write_str("nests too deep"),
            RefusalReason::DoubledTest => f.write_str(
                "an `is` with an `in` in the left side of another",
            ),
            RefusalReason::SlotOutsideScope => f.write_str("a slot outside a scope"),
            RefusalReason::SlotInPolicy => f.write_str("a slot in a policy that is no template"),
            RefusalReason::NotASlot => f.write_str("not a slot of this variable"),
            RefusalReason::NotAnEffect => f.write_str("not permit or forbid"),
            RefusalReason::NotAKind => f.write_str("not when or unless"),
            RefusalReason::NotAWord => f.write_str("not a word"),
            RefusalReason::WrongArguments => f.write_str(
                "not as many arguments as the function takes",
            ),
            RefusalReason::NotALiteral => {
                f.write_str("not a boolean, a number, a text or an entity")
            }
            RefusalReason::NotALong => f.write_str("not an integer of 64 bits"),
            RefusalReason::NotAVariable => f.write_str("not a variable"),
            RefusalReason::NotAType => f.write_str("not a type"),
            RefusalReason::NotAName => f.write_str("not a name"),
            RefusalReason::NotAPatternPart => f.write_str("not a wildcard or a literal"),
            RefusalReason::NotAnAttribute => f.write_str("not an attribute or attributes"),
            RefusalReason::NotAText => f.write_str("not a text"),
            RefusalReason::NotAnObject => f.write_str("not an object"),
            RefusalReason::NotAnArray => f.write_str("not an array"),
            RefusalReason::UnexpectedMember => f.write_str("a member too many"),
            RefusalReason::MissingMember => f.write_str("missing"),
            RefusalReason::RepeatedKey => f.write_str("duplicate key"),
            RefusalReason::NoSuchTemplate => f.write_str("no such template"),
            RefusalReason::TakenId => f.write_str("another policy, template or link has this id"),
            RefusalReason::NoSuchSlot => f.write_str("the template has no such slot"),
            RefusalReason::NotAnEntity => f.write_str("not an entity"),
        }
    }
}

/// Where the part stands and why it is refused, as `$["=="].left.Var: not a variable`.
impl fmt::Display for PolicyJsonError {
    ghost use Rattle.std.specs.Prelude.{Some};
    ghost use Rattle.cedar_policy_json_reader.specs.ErrorTexts.{error_text};

    ghost output = { λ e. Some (error_text e) };

    fn fmt<W: fmt::Write>(&self, f: &mut fmt::Formatter<W>) -> fmt::Result {
        match self {
            PolicyJsonError::Syntax => f.write_str("not JSON"),
            PolicyJsonError::DuplicateKey => f.write_str("a key comes twice in an object"),
            PolicyJsonError::Refused { path, reason } => write_refusal(path, *reason, f),
            PolicyJsonError::Memory(_) => f.write_str("out of memory"),
        }
    }
}

ghost use Rattle.std.specs.Fmt.{WritesOnOk};
ghost use Rattle.cedar_policy_json_reader.specs.ErrorTexts.{refusal_text};
ghost use Rattle.cedar_policy_json_reader.specs.Paths.{path_view};

fn write_refusal<W: fmt::Write>(
    path: &JsonPath,
    reason: RefusalReason,
    f: &mut fmt::Formatter<W>,
) -> fmt::Result
    ensures { WritesOnOk W.write_str_gives f.old result (refusal_text (path_view path.now) reason) f.new }
{
    path.fmt(f)?;
    f.write_str(": ")?;
    reason.fmt(f)
}

impl std::error::Error for PolicyJsonError {}
