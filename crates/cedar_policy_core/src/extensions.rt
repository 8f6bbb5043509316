//! Extensions: the standard functions and those that a caller stores, how they are looked up, and why one is not found.
pub use cedar_extensions::{
    ExtNames, ExtTypes, ExtensionFunctionLookupError, ExtensionInitializationError, Extensions,
    OverloadingTypes, Result, StandardFunction, extension_function_lookup_errors,
    extension_initialization_errors,
};

/// What stored and standard functions answer. Each function is a law, and does nothing.
pub mod laws {
    pub use cedar_extensions::laws::{
        built_in_functions_agree, computed_functions_agree, no_functions_agree,
        outcomes_are_those_of_the_model, standard_functions_are_faithful,
        stored_functions_are_lawful,
    };
    pub use cedar_faithful::given::functions_are_faithful;
    pub use cedar_laws::faithful::functions_without_extensions_are_faithful;
    pub use cedar_standard_functions::laws::functions_are_computed;
}
