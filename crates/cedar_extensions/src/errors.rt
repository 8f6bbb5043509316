//! Why extensions can't be used together.
use extension_initialization_errors::{
    FuncMultiplyDefinedError, MultipleConstructorsSameSignatureError, StandardTypeOverloadedError,
};
use std::alloc::{AllocError, AllocFailed};
use thiserror::Error;

/// Why extensions can't be used together.
#[derive(Debug, Clone, PartialEq, Eq, Drop, Error)]
pub enum ExtensionInitializationError {
    /// Two functions, of one extension or of two, have one name.
    #[error(transparent)]
    FuncMultiplyDefined(FuncMultiplyDefinedError),
    /// Two functions, of one extension or of two, make the values of one extension type, each of one text.
    #[error(transparent)]
    MultipleConstructorsSameSignature(MultipleConstructorsSameSignatureError),
    /// An extension says that `<` compares the values of a standard type, which says so itself.
    #[error(transparent)]
    StandardTypeOverloaded(StandardTypeOverloadedError),
    /// Out of memory.
    #[error("out of memory")]
    Memory(AllocError),
}

/// The structs of `ExtensionInitializationError`.
pub mod extension_initialization_errors {
    use cedar_names::{Name, Type};
    use thiserror::Error;

    /// Two functions, of one extension or of two, have one name.
    #[derive(Debug, Clone, PartialEq, Eq, Drop, Error)]
    #[error("extension function `{name}` is defined multiple times")]
    pub struct FuncMultiplyDefinedError {
        /// The name.
        pub name: Name,
    }

    /// Two functions, of one extension or of two, make the values of one extension type, each of one text.
    #[derive(Debug, Clone, PartialEq, Eq, Drop, Error)]
    #[error("multiple extension constructors for the same extension type {return_type}")]
    pub struct MultipleConstructorsSameSignatureError {
        /// The extension type.
        pub return_type: Box<Type>,
    }

    /// An extension says that `<` compares the values of a standard type, which says so itself.
    #[derive(Debug, Clone, PartialEq, Eq, Drop, Error)]
    #[error("the operators of the standard extension type `{name}` are its own")]
    pub struct StandardTypeOverloadedError {
        /// The name of the type.
        pub name: Name,
    }
}

impl From<FuncMultiplyDefinedError> for ExtensionInitializationError {
    ghost use Rattle.std.specs.Prelude.{◌≡◌};
    ghost use Rattle.cedar_extensions.specs.declared.errors.ExtensionInitializationError.TheVariants as errors;

    ghost from_gives = { λ e r. r ≡ errors.FuncMultiplyDefined e };

    fn from(e: FuncMultiplyDefinedError) -> ExtensionInitializationError {
        ExtensionInitializationError::FuncMultiplyDefined(e)
    }
}

impl From<MultipleConstructorsSameSignatureError> for ExtensionInitializationError {
    ghost use Rattle.std.specs.Prelude.{◌≡◌};
    ghost use Rattle.cedar_extensions.specs.declared.errors.ExtensionInitializationError.TheVariants as errors;

    ghost from_gives = { λ e r. r ≡ errors.MultipleConstructorsSameSignature e };

    fn from(e: MultipleConstructorsSameSignatureError) -> ExtensionInitializationError {
        ExtensionInitializationError::MultipleConstructorsSameSignature(e)
    }
}

impl From<StandardTypeOverloadedError> for ExtensionInitializationError {
    ghost use Rattle.std.specs.Prelude.{◌≡◌};
    ghost use Rattle.cedar_extensions.specs.declared.errors.ExtensionInitializationError.TheVariants as errors;

    ghost from_gives = { λ e r. r ≡ errors.StandardTypeOverloaded e };

    fn from(e: StandardTypeOverloadedError) -> ExtensionInitializationError {
        ExtensionInitializationError::StandardTypeOverloaded(e)
    }
}

/// Running out of memory is `Memory`.
impl From<AllocError> for ExtensionInitializationError {
    ghost use Rattle.std.specs.Prelude.{◌≡◌};
    ghost use Rattle.cedar_extensions.specs.declared.errors.ExtensionInitializationError.TheVariants.{Memory};

    ghost from_gives = { λ e r. r ≡ Memory e };

    fn from(e: AllocError) -> ExtensionInitializationError {
        ExtensionInitializationError::Memory(e)
    }
}

/// Running out of memory is `Memory`, and what found no room is dropped.
impl<T: Drop> From<AllocFailed<T>> for ExtensionInitializationError {
    ghost use Rattle.std.specs.Prelude.{◌≡◌, alloc_error};
    ghost use Rattle.cedar_extensions.specs.declared.errors.ExtensionInitializationError.TheVariants.{Memory};

    ghost from_gives = { λ _ r. r ≡ Memory alloc_error };

    fn from(_e: AllocFailed<T>) -> ExtensionInitializationError {
        ExtensionInitializationError::Memory(AllocError)
    }
}
