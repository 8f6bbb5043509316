//! Why a function that a caller stores was not found.
use cedar_names::Loc;
use extension_function_lookup_errors::FuncDoesNotExistError;
use std::alloc::{AllocError, AllocFailed};
use thiserror::Error;

/// Why no extension function was found.
#[derive(Debug, Clone, PartialEq, Eq, Drop, Error)]
pub enum ExtensionFunctionLookupError {
    /// No extension has a function of this name.
    #[error(transparent)]
    FuncDoesNotExist(FuncDoesNotExistError),
    /// Out of memory.
    #[error("out of memory")]
    Memory(AllocError),
}

/// The structs of `ExtensionFunctionLookupError`.
pub mod extension_function_lookup_errors {
    use cedar_names::{Loc, Name};
    use std::marker::Model;
    use thiserror::Error;

    /// No extension has a function of this name.
    #[derive(Debug, Clone, PartialEq, Eq, Error)]
    #[error("extension function `{name}` does not exist")]
    pub struct FuncDoesNotExistError {
        /// The name that was called.
        pub name: Name,
        /// Where it was called, if that is known.
        pub source_loc: Option<Loc>,
    }

    impl Drop for FuncDoesNotExistError {
        fn drop(self) {
            let FuncDoesNotExistError {
                name: _,
                source_loc: _,
            } = self;
        }
    }

    impl Model for FuncDoesNotExistError {
        ghost use Rattle.cedar_errors.specs.Fields.{MissingFunction};

        ghost Value = { MissingFunction };

        ghost view = { λ a. record { name = a.name; source_loc = a.source_loc } };

        ghost inverse = { λ a. record { name = a.name; source_loc = a.source_loc } };
    }
}

impl ExtensionFunctionLookupError {
    ghost use Rattle.std.specs.Prelude.{◌≡◌, option_copied};
    ghost use Rattle.cedar_errors.specs.Errors.{lookup_loc, lookup_at};

    /// Where the function was called, if that is known. Running out of memory has no location.
    pub fn source_loc(&self) -> Option<&Loc>
        ensures { option_copied result ≡ lookup_loc self.now }
    {
        match self {
            ExtensionFunctionLookupError::FuncDoesNotExist(e) => e.source_loc.as_ref(),
            ExtensionFunctionLookupError::Memory(_) => None,
        }
    }

    /// The same error at this location, or at no known location.
    pub fn with_maybe_source_loc(self, source_loc: Option<Loc>) -> ExtensionFunctionLookupError
        ensures { result ≡ lookup_at self source_loc }
    {
        let mut error = self;
        error.set_source_loc(source_loc);
        error
    }

    // Puts it at this location, or at no known location.
    pub(crate) fn set_source_loc(&mut self, source_loc: Option<Loc>)
        ensures { self.new ≡ lookup_at self.old source_loc }
    {
        match self {
            ExtensionFunctionLookupError::FuncDoesNotExist(e) => e.source_loc = source_loc,
            ExtensionFunctionLookupError::Memory(_) => {}
        }
    }
}

impl From<FuncDoesNotExistError> for ExtensionFunctionLookupError {
    ghost use Rattle.std.specs.Prelude.{◌≡◌};
    ghost use Rattle.cedar_errors.specs.declared.extensions.ExtensionFunctionLookupError.TheVariants.{FuncDoesNotExist};

    ghost from_gives = { λ e r. r ≡ FuncDoesNotExist e };

    fn from(e: FuncDoesNotExistError) -> ExtensionFunctionLookupError {
        ExtensionFunctionLookupError::FuncDoesNotExist(e)
    }
}

/// Running out of memory is `Memory`, of which `EvaluationError::from` makes its own `Memory`.
impl From<AllocError> for ExtensionFunctionLookupError {
    ghost use Rattle.std.specs.Prelude.{◌≡◌};
    ghost use Rattle.cedar_errors.specs.declared.extensions.ExtensionFunctionLookupError.TheVariants.{Memory};

    ghost from_gives = { λ e r. r ≡ Memory e };

    fn from(e: AllocError) -> ExtensionFunctionLookupError {
        ExtensionFunctionLookupError::Memory(e)
    }
}

/// Running out of memory is `Memory`, and what found no room is dropped.
impl<T: Drop> From<AllocFailed<T>> for ExtensionFunctionLookupError {
    ghost use Rattle.std.specs.Prelude.{◌≡◌, alloc_error};
    ghost use Rattle.cedar_errors.specs.declared.extensions.ExtensionFunctionLookupError.TheVariants.{Memory};

    ghost from_gives = { λ _ r. r ≡ Memory alloc_error };

    fn from(_e: AllocFailed<T>) -> ExtensionFunctionLookupError {
        ExtensionFunctionLookupError::Memory(AllocError)
    }
}
