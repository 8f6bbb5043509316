//! Why JSON of columns was not read.
ghost use Rattle.std.specs.Prelude.{◌≡◌, alloc_error};
ghost use Rattle.cedar_sql_columns.specs.declared.errors.ColumnsError.TheVariants as errors;

use crate::paths::{JsonPath, PathStep};
use std::alloc::{AllocError, AllocFailed, Global};
use std::fmt;
use std::fmt::Display;
use std::rc::RcStr;

/// Why a part of a JSON value is refused.
#[derive(Clone, Copy, Debug, Drop)]
pub enum RefusalReason {
    /// No object, where one is asked for.
    NotAnObject,
    /// No array, where one is asked for.
    NotAnArray,
    /// No text, where one is asked for.
    NotAText,
    /// A text that is none of what columns hold: `Bool`, `Long`, `String` or `Record`.
    NotHeld,
    /// An array that names no attribute: it has no text.
    NotAnAttribute,
    /// A column that holds the attribute of one before it.
    DuplicateAttribute,
    /// An object has a member besides those that it must have.
    UnexpectedMember,
    /// A member that the object must have.
    MissingMember,
    /// An empty name of a table or a column.
    EmptyName,
    /// A name with a NUL, which no text of SQL can have.
    NulInName,
    /// A name with a `.`, as `d.size`: the table and the column are named apart, and a table without its database.
    PointInName,
}

/// Why JSON was not read.
#[derive(Debug, Drop)]
pub enum ColumnsError {
    /// The text is no JSON, or nests deeper than 128 levels.
    Syntax,
    /// The text is JSON, and an object of it has a key twice.
    DuplicateKey,
    /// A part of the JSON value is refused: where it stands, and why.
    Refused {
        path: JsonPath,
        reason: RefusalReason,
    },
    /// Out of memory.
    Memory(AllocError),
}

impl ColumnsError {
    ghost use Rattle.std.specs.Prelude.{[], ◌∷◌};
    ghost use Rattle.std.specs.Rc.{rc_str_bytes};
    ghost use Rattle.cedar_sql_columns.specs.Paths.{at_key, at_index, step_view};
    ghost use Rattle.cedar_sql_columns.specs.Refusals.{IsUnder, IsRefusedAt};

    // The refusal of the whole value.
    #[cold]
    pub(crate) fn refusal(alloc: Global, reason: RefusalReason) -> ColumnsError
        ensures { IsRefusedAt [] reason result }
    {
        let path = JsonPath {
            steps: Vec::new(alloc),
        };
        ColumnsError::Refused { path, reason }
    }

    // The refusal of the part at this key.
    #[cold]
    pub(crate) fn refusal_at(alloc: Global, key: &str, reason: RefusalReason) -> ColumnsError
        ensures { IsRefusedAt (at_key key.now ∷ []) reason result }
    {
        ColumnsError::refusal(alloc, reason).under_key(alloc, key)
    }

    // The same error, of the part at this key.
    #[cold]
    pub(crate) fn under_key(self, alloc: Global, key: &str) -> ColumnsError
        ensures { IsUnder (at_key key.now) self result }
    {
        match RcStr::from_str(alloc, key) {
            Ok(key) => self.under(PathStep::Key(key)),
            Err(error) => ColumnsError::Memory(error),
        }
    }

    // The same error, of the part at this index.
    #[cold]
    pub(crate) fn under_index(self, index: usize) -> ColumnsError
        ensures { IsUnder (at_index index) self result }
    {
        self.under(PathStep::Index(index))
    }

    fn under(self, step: PathStep) -> ColumnsError
        ensures { IsUnder (step_view step) self result }
    {
        match self {
            ColumnsError::Syntax => ColumnsError::Syntax,
            ColumnsError::DuplicateKey => ColumnsError::DuplicateKey,
            ColumnsError::Refused { path, reason } => match path.under(step) {
                Ok(path) => ColumnsError::Refused { path, reason },
                Err(error) => ColumnsError::Memory(error),
            },
            ColumnsError::Memory(error) => ColumnsError::Memory(error),
        }
    }
}

/// `Memory`.
impl From<AllocError> for ColumnsError {
    ghost from_gives = { λ error result. result ≡ errors.Memory error };

    fn from(error: AllocError) -> ColumnsError {
        ColumnsError::Memory(error)
    }
}

/// `Memory`, and what found no room is dropped.
impl<T: Drop> From<AllocFailed<T>> for ColumnsError {
    ghost from_gives = { λ _ result. result ≡ errors.Memory alloc_error };

    fn from(_failed: AllocFailed<T>) -> ColumnsError {
        ColumnsError::Memory(AllocError)
    }
}

impl fmt::Display for RefusalReason {
    ghost use Rattle.std.specs.Prelude.{Some};
    ghost use Rattle.cedar_sql_columns.specs.ErrorTexts.{reason_text};

    ghost output = { λ r. Some (reason_text r) };

    fn fmt<W: fmt::Write>(&self, f: &mut fmt::Formatter<W>) -> fmt::Result {
        match self {
            RefusalReason::NotAnObject => f.write_str("not an object"),
            RefusalReason::NotAnArray => f.write_str("not an array"),
            RefusalReason::NotAText => f.write_str("not a text"),
            RefusalReason::NotHeld => f.write_str("not Bool, Long, String or Record"),
            RefusalReason::NotAnAttribute => f.write_str("no attribute"),
            RefusalReason::DuplicateAttribute => f.write_str("duplicate attribute"),
            RefusalReason::UnexpectedMember => f.write_str("a member too many"),
            RefusalReason::MissingMember => f.write_str("missing"),
            RefusalReason::EmptyName => f.write_str("an empty name"),
            RefusalReason::NulInName => f.write_str("a NUL in a name"),
            RefusalReason::PointInName => f.write_str(
                "a `.` in a name: each name stands alone, that of the table, or its alias, at `table`",
            ),
        }
    }
}

/// Where the part stands and why it is refused, as `$.columns.size.holds: not Bool, Long, String or Record`.
impl fmt::Display for ColumnsError {
    ghost use Rattle.std.specs.Prelude.{Some};
    ghost use Rattle.cedar_sql_columns.specs.ErrorTexts.{error_text};

    ghost output = { λ e. Some (error_text e) };

    fn fmt<W: fmt::Write>(&self, f: &mut fmt::Formatter<W>) -> fmt::Result {
        match self {
            ColumnsError::Syntax => f.write_str("not JSON"),
            ColumnsError::DuplicateKey => f.write_str("duplicate key"),
            ColumnsError::Refused { path, reason } => write_refusal(path, *reason, f),
            ColumnsError::Memory(_) => f.write_str("out of memory"),
        }
    }
}

ghost use Rattle.std.specs.Fmt.{WritesOnOk};
ghost use Rattle.cedar_sql_columns.specs.ErrorTexts.{refusal_text};
ghost use Rattle.cedar_sql_columns.specs.Paths.{path_view};

fn write_refusal<W: fmt::Write>(
    path: &JsonPath,
    reason: RefusalReason,
    f: &mut fmt::Formatter<W>,
) -> fmt::Result
    ensures { WritesOnOk W.write_str_gives f.old result (refusal_text (path_view path.now) reason) f.new }
{
    path.fmt(f)?;
    f.write_str(": ")?;
    reason.fmt(f)
}

impl std::error::Error for ColumnsError {}
