//! Why JSON was not read.
ghost use Rattle.std.specs.Prelude.{◌≡◌, alloc_error};
ghost use Rattle.cedar_json_reader.specs.declared.errors.JsonError.TheVariants as errors;

use crate::paths::{JsonPath, PathStep};
use cedar_errors::evaluator::err::EvaluationError;
use cedar_text_lexer::errors::Expected;
use std::alloc::{AllocError, AllocFailed, Global};
use std::fmt;
use std::fmt::Display;
use std::rc::RcStr;

/// Why a part of a JSON value is refused.
#[derive(Clone, Copy, Debug, Drop)]
pub enum RefusalReason {
    /// `null`.
    Null,
    /// A number that is no integer of 64 bits, written without a point and an exponent.
    NotALong,
    /// `__entity` or `__extn` beside other keys, or `__expr`.
    ReservedKey,
    /// A key of an object that stands there a second time. A text with such a key is no JSON for this crate.
    RepeatedKey,
    /// What names an entity is no object of a text at `type` and a text at `id`.
    NotAnEntity,
    /// A text that names an entity of a request is not the entity in Cedar's text: this was expected in it, from the
    /// byte `start` up to, but not including, the byte `end`. The first byte is 0.
    NotAnEntityText {
        expected: Expected,
        start: usize,
        end: usize,
    },
    /// The name of a type or of a function is no words with `::` between them, or one of the words is reserved.
    NotAName,
    /// A call is no object of a text at `fn` and of one other member, at `arg` or at `args`.
    NotACall,
    /// The argument of `unknown` is not one text.
    NotAnUnknown,
    /// No object, where one is asked for.
    NotAnObject,
    /// No array, where one is asked for.
    NotAnArray,
    /// A member that an entity or a request does not have.
    UnexpectedMember,
    /// A member that an entity or a request must have.
    MissingMember,
    /// An entity that stands in the array before.
    RepeatedEntity,
    /// A value in which an unknown stands, where nothing may be unknown.
    Unknown,
}

/// Why JSON was not read.
#[derive(Debug, Drop)]
pub enum JsonError {
    /// The text is no JSON, or nests deeper than 128 levels.
    Syntax,
    /// The text is JSON, and an object of it has a key twice.
    DuplicateKey,
    /// A part of the JSON value is refused: where it stands, and why.
    Refused {
        path: JsonPath,
        reason: RefusalReason,
    },
    /// An attribute, a tag or a context does not evaluate: where it stands, and the error.
    Evaluation {
        path: JsonPath,
        error: EvaluationError,
    },
    /// Out of memory.
    Memory(AllocError),
}

impl JsonError {
    ghost use Rattle.std.specs.Prelude.{[]};
    ghost use Rattle.std.specs.Rc.{rc_str_bytes};
    ghost use Rattle.cedar_json_reader.specs.Paths.{at_key, at_index, step_view};
    ghost use Rattle.cedar_json_reader.specs.Refusals.{IsUnder, IsRefusedAt, IsEvaluationAt};

    // The refusal of the whole value.
    #[cold]
    pub(crate) fn refusal(alloc: Global, reason: RefusalReason) -> JsonError
        ensures { IsRefusedAt [] reason result }
    {
        let path = JsonPath {
            steps: Vec::new(alloc),
        };
        JsonError::Refused { path, reason }
    }

    // The error of evaluating the whole value.
    #[cold]
    pub(crate) fn evaluation(alloc: Global, error: EvaluationError) -> JsonError
        ensures { IsEvaluationAt [] error result }
    {
        let path = JsonPath {
            steps: Vec::new(alloc),
        };
        JsonError::Evaluation { path, error }
    }

    // The same error, of the part at this key.
    #[cold]
    pub(crate) fn under_key(self, alloc: Global, key: &str) -> JsonError
        ensures { IsUnder (at_key key.now) self result }
    {
        match RcStr::from_str(alloc, key) {
            Ok(key) => self.under(PathStep::Key(key)),
            Err(error) => JsonError::Memory(error),
        }
    }

    // The same error, of the part at this index.
    #[cold]
    pub(crate) fn under_index(self, index: usize) -> JsonError
        ensures { IsUnder (at_index index) self result }
    {
        self.under(PathStep::Index(index))
    }

    fn under(self, step: PathStep) -> JsonError
        ensures { IsUnder (step_view step) self result }
    {
        match self {
            JsonError::Syntax => JsonError::Syntax,
            JsonError::DuplicateKey => JsonError::DuplicateKey,
            JsonError::Refused { path, reason } => match path.under(step) {
                Ok(path) => JsonError::Refused { path, reason },
                Err(error) => JsonError::Memory(error),
            },
            JsonError::Evaluation { path, error } => match path.under(step) {
                Ok(path) => JsonError::Evaluation { path, error },
                Err(error) => JsonError::Memory(error),
            },
            JsonError::Memory(error) => JsonError::Memory(error),
        }
    }
}

/// `Memory`.
impl From<AllocError> for JsonError {
    ghost from_gives = { λ error result. result ≡ errors.Memory error };

    fn from(error: AllocError) -> JsonError {
        JsonError::Memory(error)
    }
}

/// `Memory`, and what found no room is dropped.
impl<T: Drop> From<AllocFailed<T>> for JsonError {
    ghost from_gives = { λ _ result. result ≡ errors.Memory alloc_error };

    fn from(_failed: AllocFailed<T>) -> JsonError {
        JsonError::Memory(AllocError)
    }
}

impl fmt::Display for RefusalReason {
    ghost use Rattle.std.specs.Prelude.{Some};
    ghost use Rattle.cedar_json_reader.specs.ErrorTexts.{reason_text};

    ghost output = { λ r. Some (reason_text r) };

    fn fmt<W: fmt::Write>(&self, f: &mut fmt::Formatter<W>) -> fmt::Result {
        match self {
            RefusalReason::Null => f.write_str("null is no value"),
            RefusalReason::NotALong => f.write_str("not an integer of 64 bits"),
            RefusalReason::ReservedKey => f.write_str("a reserved key"),
            RefusalReason::RepeatedKey => f.write_str("the key comes again"),
            RefusalReason::NotAnEntity => f.write_str("not a type and an id"),
            RefusalReason::NotAnEntityText {
                expected,
                start,
                end: _,
            } => write_expected(*expected, *start, f),
            RefusalReason::NotAName => f.write_str("not a name"),
            RefusalReason::NotACall => f.write_str("not a fn and an arg or args"),
            RefusalReason::NotAnUnknown => f.write_str("an unknown takes its name alone"),
            RefusalReason::NotAnObject => f.write_str("not an object"),
            RefusalReason::NotAnArray => f.write_str("not an array"),
            RefusalReason::UnexpectedMember => f.write_str("unexpected"),
            RefusalReason::MissingMember => f.write_str("missing"),
            RefusalReason::RepeatedEntity => f.write_str("the entity comes again"),
            RefusalReason::Unknown => f.write_str("an unknown stands in it"),
        }
    }
}

/// Where the part stands and why it is refused, as `$[3].attrs.age: null is no value`.
impl fmt::Display for JsonError {
    ghost use Rattle.cedar_json_reader.specs.ErrorTexts.{error_text};

    ghost output = { error_text };

    fn fmt<W: fmt::Write>(&self, f: &mut fmt::Formatter<W>) -> fmt::Result {
        match self {
            JsonError::Syntax => f.write_str("not JSON"),
            JsonError::DuplicateKey => f.write_str("a key comes twice in an object"),
            JsonError::Refused { path, reason } => write_refusal(path, *reason, f),
            JsonError::Evaluation { path, error } => {
                path.fmt(f)?;
                f.write_str(": ")?;
                error.fmt(f)
            }
            JsonError::Memory(_) => f.write_str("out of memory"),
        }
    }
}

ghost use Rattle.std.specs.Fmt.{WritesOnOk};
ghost use Rattle.cedar_json_reader.specs.ErrorTexts.{expected_there, refusal_text};
ghost use Rattle.cedar_json_reader.specs.Paths.{path_view};

fn write_expected<W: fmt::Write>(
    expected: Expected,
    start: usize,
    f: &mut fmt::Formatter<W>,
) -> fmt::Result
    ensures { WritesOnOk W.write_str_gives f.old result (expected_there expected start) f.new }
{
    f.write_str("expected ")?;
    expected.fmt(f)?;
    f.write_str(" at byte ")?;
    start.fmt(f)
}

fn write_refusal<W: fmt::Write>(
    path: &JsonPath,
    reason: RefusalReason,
    f: &mut fmt::Formatter<W>,
) -> fmt::Result
    ensures { WritesOnOk W.write_str_gives f.old result (refusal_text (path_view path.now) reason) f.new }
{
    path.fmt(f)?;
    f.write_str(": ")?;
    reason.fmt(f)
}

impl std::error::Error for JsonError {}
